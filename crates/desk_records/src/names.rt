//! How often the labels of records name other records.

ghost use Rattle.std.specs.Prelude.{◌≡◌, [], MatchResult};
ghost use Rattle.desk_records.specs.Counted.{count_under, names_among, names_of, once_for, once_under, HasMoreNames, HasLessNames, HasSameNames};
ghost use Rattle.model.specs.declared.refusal.Refusal.TheVariants.{Memory};

use crate::counts::Counts;
use crate::recorded::is_recorded_at;
use indexmap::IndexMap;
use model::Refusal;
use records::{Label, Record};
use std::alloc::Global;
use std::hash::RandomState;
use storepath::StorePath;

/// How often a path is counted under a class.
pub(crate) fn count_under(
    names: &IndexMap<StorePath, Counts, RandomState>,
    class: &StorePath,
    path: &StorePath,
) -> usize
    ensures { result ≡ count_under class.now path.now names.now.entries }
{
    match names.get(class) {
        Some(counts) => counts.count(path),
        None => 0,
    }
}

/// Counts a path under a class once more. The one error is memory, and changes no count.
fn add_under(
    alloc: Global,
    names: &mut IndexMap<StorePath, Counts, RandomState>,
    class: StorePath,
    path: StorePath,
) -> Result<(), Refusal>
    ensures { MatchResult result
        (λ _. HasMoreNames (once_under class path) names.old.entries names.new.entries)
        (λ e. (e ≡ Memory) × HasSameNames names.old.entries names.new.entries) }
{
    let hashing = *names.hasher();
    if let Some(counts) = names.get_mut(&class) {
        return counts.add(alloc, hashing, path);
    }
    let mut counts = Counts::new();
    counts.add(alloc, hashing, path)?;
    let _none = names.insert(class, counts)?;
    Ok(())
}

/// Counts a path under a class once less, if it is counted. It takes no memory.
fn take_under(
    names: &mut IndexMap<StorePath, Counts, RandomState>,
    class: &StorePath,
    path: &StorePath,
)
    ensures { HasLessNames (once_under class.now path.now) names.old.entries names.new.entries }
{
    if let Some(counts) = names.get_mut(class) {
        counts.take(path);
    }
}

/// Counts what a label of a record names, unless it is the record itself. The one error is memory,
/// and changes no count.
fn add_label(
    alloc: Global,
    names: &mut IndexMap<StorePath, Counts, RandomState>,
    one: &Record,
    label: &Label,
) -> Result<(), Refusal>
    ensures { MatchResult result
        (λ _. HasMoreNames (once_for one.now label.now) names.old.entries names.new.entries)
        (λ e. (e ≡ Memory) × HasSameNames names.old.entries names.new.entries) }
{
    let Some(class) = label.class() else {
        return Ok(());
    };
    if is_recorded_at(class.path(), label.path(), one) {
        return Ok(());
    }
    let path = label.path().clone()?;
    let class = class.path().clone()?;
    add_under(alloc, names, class, path)
}

/// Counts what a label of a record names once less, unless it is the record itself. It takes no
/// memory.
fn take_label(names: &mut IndexMap<StorePath, Counts, RandomState>, one: &Record, label: &Label)
    ensures { HasLessNames (once_for one.now label.now) names.old.entries names.new.entries }
{
    if let Some(class) = label.class() {
        if !is_recorded_at(class.path(), label.path(), one) {
            take_under(names, class.path(), label.path());
        }
    }
}

/// Counts what these labels of a record name once less each. It takes no memory.
pub(crate) fn take_labels(
    names: &mut IndexMap<StorePath, Counts, RandomState>,
    one: &Record,
    labels: &[Label],
)
    ensures { HasLessNames (λ class path. names_among labels.now class path one.now)
        names.old.entries names.new.entries }
{
    for label in labels {
        take_label(names, one, label);
    }
}

/// Counts what the labels of a record name, beside itself. The one error is memory, and changes no
/// count.
pub(crate) fn add_labels(
    alloc: Global,
    names: &mut IndexMap<StorePath, Counts, RandomState>,
    one: &Record,
) -> Result<(), Refusal>
    ensures { MatchResult result
        (λ _. HasMoreNames (λ class path. names_of class path one.now)
        names.old.entries names.new.entries)
        (λ e. (e ≡ Memory) × HasSameNames names.old.entries names.new.entries) }
{
    let labels = one.labels();
    for (count, label) in labels.iter().enumerate() {
        if let Err(why) = add_label(alloc, names, one, label) {
            take_labels(names, one, &labels[..count]);
            return Err(why);
        }
    }
    Ok(())
}
