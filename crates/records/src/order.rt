//! Labels in the order of their paths.

ghost use Rattle.std.specs.Prelude.{◌≡◌, IfOk, MatchResult, filter, option_copied, bytes_eq};
ghost use Rattle.std.specs.List.{list_any};
ghost use Rattle.model.specs.References.{class_before, with_label, labels_in_order, labels_of};
ghost use Rattle.model.specs.declared.refusal.Refusal.TheVariants.{Memory};
ghost use Rattle.records.specs.Ordered.{least_class, labels_at};
ghost use Rattle.records.specs.Recorded.{AreInPathOrder};

use crate::label::Label;
use indexmap::IndexSet;
use model::Refusal;
use path_sets::set_of;
use std::alloc::Global;
use std::collections::BTreeMap;
use storepath::{Class, StorePath};

/// Whether the class of a label goes before that of another: by its path, and before a source.
pub fn is_class_before(one: Option<&Class>, other: Option<&Class>) -> bool
    ensures { result ≡ class_before (option_copied one.entry) (option_copied other.entry) }
{
    match (one, other) {
        (None, _) => false,
        (Some(_), None) => true,
        (Some(one), Some(other)) => one.path() < other.path(),
    }
}

// Takes the other class where it goes before this one.
fn keep_least(least: &mut Option<Class>, other: Option<Class>)
    ensures { least.new ≡ least_class least.old other }
{
    if is_class_before(other.as_ref(), least.as_ref()) {
        *least = other;
    }
}

// Puts a label in; of two of one path the one whose class goes first stays.
fn put_label(
    ordered: &mut BTreeMap<StorePath, Option<Class>>,
    path: StorePath,
    class: Option<Class>,
) -> Result<(), Refusal>
    ensures { MatchResult result
        (λ _. labels_at ordered.new.entries
        ≡ with_label (record { path = path; class = class }) (labels_at ordered.old.entries))
        (λ e. e ≡ Memory) }
{
    match ordered.get_mut(&path) {
        Some(least) => keep_least(least, class),
        None => {
            let _none = ordered.insert(path, class)?;
        }
    }
    Ok(())
}

// The labels of a map, in its order.
fn labels_at(
    alloc: Global,
    ordered: BTreeMap<StorePath, Option<Class>>,
) -> Result<Vec<Label>, Refusal>
    ensures { MatchResult result
        (λ labels. labels.items ≡ labels_at ordered.entries)
        (λ e. e ≡ Memory) }
{
    let mut labels = Vec::new(alloc);
    for (path, class) in ordered {
        labels.push(Label::new(path, class))?;
    }
    Ok(labels)
}

/// The labels in the order of their paths, for each path one: that whose class goes first by the
/// bytes of its path, and an output before a source.
///
/// # Errors
///
/// - `Memory` only where memory was refused.
pub fn labels_in_order(alloc: Global, labels: Vec<Label>) -> Result<Vec<Label>, Refusal>
    ensures ordered { MatchResult result
        (λ ordered. ordered.items ≡ labels_in_order labels.items)
        (λ e. e ≡ Memory) }
    ensures in_order { IfOk result (λ ordered. AreInPathOrder ordered.items) }
{
    let mut labels = labels;
    let mut ordered = BTreeMap::new(alloc);
    while let Some(label) = labels.pop() {
        let (path, class) = label.into_parts();
        put_label(&mut ordered, path, class)?;
    }
    labels_at(alloc, ordered)
}

// The labels whose paths are in a set, in the order in which they were.
fn labels_among(
    alloc: Global,
    set: &IndexSet<StorePath>,
    labels: &[Label],
) -> Result<Vec<Label>, Refusal>
    ensures { MatchResult result
        (λ chosen. chosen.items ≡ filter (λ l. list_any (bytes_eq l.path) set.now.keys) labels.now)
        (λ e. e ≡ Memory) }
{
    let mut chosen = Vec::new(alloc);
    for label in labels {
        if set.contains(label.path()) {
            chosen.push(label.clone()?)?;
        }
    }
    Ok(chosen)
}

/// The labels of these paths, in the order in which they were.
///
/// # Errors
///
/// - `Memory` only where memory was refused.
pub fn labels_of(
    alloc: Global,
    paths: &[StorePath],
    labels: &[Label],
) -> Result<Vec<Label>, Refusal>
    ensures chosen { MatchResult result
        (λ chosen. chosen.items ≡ labels_of paths.now labels.now)
        (λ e. e ≡ Memory) }
    ensures in_order { AreInPathOrder labels.now → IfOk result (λ chosen. AreInPathOrder chosen.items) }
{
    let among = set_of(alloc, paths)?;
    labels_among(alloc, &among, labels)
}
