//! Entries of closures, in order.

ghost use Rattle.std.specs.Prelude.{◌≡◌, ◌++◌, map, MatchResult};
ghost use Rattle.std.specs.Ordering.{is_lt};
ghost use Rattle.model.specs.Worlds.{OfSource, OfRecord};
ghost use Rattle.model.specs.Closures.{entry_before};
ghost use Rattle.model.specs.declared.refusal.Refusal.TheVariants.{Memory};
ghost use Rattle.repair.specs.Serving.{AreEntries};
ghost use Rattle.repair.specs.Served.{values_of};

use indexmap::IndexMap;
use model::Refusal;
use records::{Entry, Realisation, Source};
use std::alloc::Global;
use std::cmp::Ordering;
use storepath::StorePath;

// The order of entries: by path, and then by class, a class before a source.
fn compare_entries(a: &Entry, b: &Entry) -> Ordering
    ensures { is_lt result ≡ entry_before a.now b.now }
{
    if a.path() < b.path() {
        return Ordering::Less;
    }
    if b.path() < a.path() {
        return Ordering::Greater;
    }
    match (a.class(), b.class()) {
        (None, _) => Ordering::Greater,
        (Some(_), None) => Ordering::Less,
        (Some(first), Some(second)) => first.path().cmp(second.path()),
    }
}

fn push_records(
    entries: &mut Vec<Entry>,
    served: &IndexMap<StorePath, Realisation>,
) -> Result<(), Refusal>
    ensures { MatchResult result
        (λ _. entries.new.items ≡ entries.old.items ++ map OfRecord (values_of served.now.entries))
        (λ e. e ≡ Memory) }
{
    for realisation in served.values() {
        entries.push(Entry::of_record(realisation.clone()?))?;
    }
    Ok(())
}

fn push_sources(entries: &mut Vec<Entry>, sources: &[Source]) -> Result<(), Refusal>
    ensures { MatchResult result
        (λ _. entries.new.items ≡ entries.old.items ++ map OfSource sources.now)
        (λ e. e ≡ Memory) }
{
    for source in sources {
        entries.push(Entry::of_source(source.clone()?))?;
    }
    Ok(())
}

/// The entries of what serves classes, and of sources: by path, then by class path, with a class
/// before a source. The one error is memory.
pub(crate) fn entries_with(
    alloc: Global,
    served: &IndexMap<StorePath, Realisation>,
    sources: &[Source],
) -> Result<Vec<Entry>, Refusal>
    ensures { MatchResult result
        (λ entries. AreEntries sources.now served.now.entries entries.items)
        (λ e. e ≡ Memory) }
{
    let mut entries = Vec::new(alloc);
    push_records(&mut entries, served)?;
    push_sources(&mut entries, sources)?;
    entries.sort_by(|a, b| compare_entries(a, b))?;
    Ok(entries)
}
