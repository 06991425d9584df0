//! Copying the entries of a closure to a desk, all or none.

ghost use Rattle.std.specs.Prelude.{◌≡◌, ◌≤◌, ◌+◌, map, All, length, nat_le, IfOk, IfErr, MatchResult};
ghost use Rattle.model.specs.Limits.{most_sources, most_records, most_archive_bytes};
ghost use Rattle.model.specs.declared.refusal.Refusal.TheVariants.{Memory};
ghost use Rattle.realise.specs.Holdings.{bare, sources_in, records_in};
ghost use Rattle.handlers.specs.Sound.{IsSound, IsClosure};
ghost use Rattle.handlers.specs.Taking.{tree_with_path, counted, missing_on, are_roomy, AreCopyable, IsLabelledBy, has_built, with_built, CopiesEntries};

use model::{MOST_RECORDS, MOST_SOURCES, Refusal};
use nar::Tree;
use realise::{Desk, Limits};
use records::{DeskEntry, Realisation};
use std::alloc::Global;
use store::Table;
use storepath::StorePath;

/// The trees of entries, with their paths. The one error is memory.
pub fn trees_of(
    alloc: Global,
    entries: &[records::Entry],
) -> Result<Vec<(StorePath, Tree)>, Refusal>
    ensures { MatchResult result
        (λ trees. trees.items ≡ map tree_with_path entries.now)
        (λ e. e ≡ Memory) }
{
    let mut trees = Vec::new(alloc);
    for entry in entries {
        trees.push((entry.path().clone()?, entry.tree().clone()?))?;
    }
    Ok(trees)
}

/// Those of the entries that are not on a desk, as they are put there, with the bytes of their
/// archives. The one error is memory.
fn missing_on(
    alloc: Global,
    desk: &Desk,
    entries: &[records::Entry],
) -> Result<Vec<(DeskEntry, u64)>, Refusal>
    ensures found { IfOk result (λ found.
        found.items ≡ map counted (missing_on desk.now entries.now)) }
    ensures small { IfOk result (λ found. All (λ e. e.1 ≤ most_archive_bytes) found.items) }
    ensures memory { IfErr result (λ e. e ≡ Memory) }
{
    let mut found = Vec::new(alloc);
    for entry in entries {
        let missing = entry.without_tree()?;
        let bytes = entry.tree().nar_len() as u64;
        if !desk.has(&missing) {
            found.push((missing, bytes))?;
        }
    }
    Ok(found)
}

/// How many of the entries are sources, and how many are records.
fn counts(entries: &[(DeskEntry, u64)]) -> (usize, usize)
    ensures sources { result.0 ≡ length (sources_in (bare entries.now)) }
    ensures records { result.1 ≡ length (records_in (bare entries.now)) }
{
    let mut sources = 0;
    let mut records = 0;
    for entry in entries {
        match &entry.0 {
            DeskEntry::Source(_) => sources += 1,
            DeskEntry::Record(_) => records += 1,
        }
    }
    (sources, records)
}

/// Whether there may be so many more.
fn fits(had: u64, more: u64, most: u64) -> bool
    requires { had ≤ most }
    ensures { result ≡ nat_le (had + more) most }
{
    more <= most - had
}

/// Whether a desk stays within its limits with these entries more, for which so many bytes are
/// charged.
fn has_room(desk: &Desk, limits: Limits, entries: &[(DeskEntry, u64)], more: u64) -> bool
    requires sources { length desk.now.known.sources ≤ most_sources }
    requires records { length desk.now.records ≤ most_records }
    requires charge { desk.now.charge ≤ limits.charge }
    ensures { result ≡ are_roomy (bare entries.now) more limits.charge desk.now }
{
    let (sources, records) = counts(entries);
    fits(
        desk.known().source_count() as u64,
        sources as u64,
        MOST_SOURCES as u64,
    ) && fits(
        desk.record_count() as u64,
        records as u64,
        MOST_RECORDS as u64,
    ) && fits(desk.charge(), more, limits.charge)
}

/// Copies entries to a desk, those that it does not have, and their trees to the table where their
/// paths are new there. All that needs memory comes before the first change.
fn copy_entries(
    alloc: Global,
    table: &mut Table,
    desk: &mut Desk,
    limits: Limits,
    entries: &[records::Entry],
) -> Result<(), Refusal>
    requires sound { IsSound table.old.sources limits.charge desk.old }
    requires copyable { AreCopyable entries.now }
    ensures { CopiesEntries limits.charge table.old.sources desk.old entries.now result
        table.new.sources desk.new }
{
    let trees = trees_of(alloc, entries)?;
    let count = trees.len();
    let trees = table.missing(alloc, trees)?;
    let found = missing_on(alloc, desk, entries)?;
    let more = desk.charged_for_all(alloc, &found)?;
    if !has_room(desk, limits, &found, more) {
        return Err(Refusal::Quota);
    }
    table.reserve(count)?;
    desk.add_all(alloc, found)?;
    table.put_all_reserved(trees);
    Ok(())
}

/// Copies the entries of a closure to a desk, those that it does not have, and their trees to the table
/// where their paths are new there.
///
/// # Errors
///
/// - `Clash` only where another tree is stored at the path of an entry.
/// - `Quota` exactly where no other tree is at these paths and a limit of the desk would be passed.
/// - `Memory` only where memory was refused; it may stand in the place of each answer.
///
/// Where it is refused, nothing has changed.
pub fn copy_all(
    alloc: Global,
    table: &mut Table,
    desk: &mut Desk,
    limits: Limits,
    entries: &[records::Entry],
) -> Result<(), Refusal>
    requires sound { IsSound table.old.sources limits.charge desk.old }
    requires closure { IsClosure entries.now }
    ensures { CopiesEntries limits.charge table.old.sources desk.old entries.now result
        table.new.sources desk.new }
{
    copy_entries(alloc, table, desk, limits, entries)
}

/// Whether a record is that of one of the entries.
fn is_among(entries: &[records::Entry], built: &Realisation) -> bool
    ensures { result ≡ has_built entries.now built.now }
{
    entries.iter().any(|entry| entry.is_of(built))
}

/// Entries with that of a record more, unless it is among them. The one error is memory.
fn with_built(
    alloc: Global,
    entries: &[records::Entry],
    built: Realisation,
) -> Result<Vec<records::Entry>, Refusal>
    ensures { MatchResult result
        (λ all. all.items ≡ with_built entries.now built)
        (λ e. e ≡ Memory) }
{
    let mut all = entries.to_vec(alloc)?;
    if !is_among(entries, &built) {
        all.push(records::Entry::of_record(built))?;
    }
    Ok(all)
}

/// Copies the entries of a closure to a desk, and a record that refers to none but these, as
/// [`copy_all`] does: all or none.
///
/// # Errors
///
/// - `Clash` only where another tree is stored at the path of an entry or of the record.
/// - `Quota` exactly where no other tree is at these paths and a limit of the desk would be passed.
/// - `Memory` only where memory was refused; it may stand in the place of each answer.
///
/// Where it is refused, nothing has changed.
pub fn copy_with(
    alloc: Global,
    table: &mut Table,
    desk: &mut Desk,
    limits: Limits,
    entries: &[records::Entry],
    built: Realisation,
) -> Result<(), Refusal>
    requires sound { IsSound table.old.sources limits.charge desk.old }
    requires closure { IsClosure entries.now }
    requires labelled { IsLabelledBy entries.now built }
    ensures { CopiesEntries limits.charge table.old.sources desk.old
        (with_built entries.now built) result table.new.sources desk.new }
{
    let entries = with_built(alloc, entries, built)?;
    copy_entries(alloc, table, desk, limits, &entries)
}
