//! Labels, with the paths by which what they name is served.

ghost use Rattle.std.specs.Prelude.{◌≡◌, ◌⊎◌, All, IfOk, MatchResult, Ok, Err, option_copied};
ghost use Rattle.std.specs.List.{list_any};
ghost use Rattle.model.specs.Paths.{IsPath};
ghost use Rattle.model.specs.References.{paths_of_labels};
ghost use Rattle.model.specs.Repairs.{changes_path, is_replaced_by, replacement_of, replacements_of, new_label, new_labels};
ghost use Rattle.model.specs.declared.refusal.Refusal.TheVariants.{Memory};
ghost use Rattle.records.specs.Recorded.{AreInPathOrder};
ghost use Rattle.repair.specs.Served.{found_below, served_in};

use indexmap::IndexMap;
use model::Refusal;
use records::{Label, Realisation, labels_in_order};
use std::alloc::{AllocError, Global};
use std::marker::Model;
use storepath::StorePath;

/// A label, with the path by which what it names is served.
pub(crate) struct Replacement {
    label: Label,
    path: StorePath,
}

impl Drop for Replacement {
    fn drop(self) {
        let Replacement { label: _, path: _ } = self;
    }
}

impl Model for Replacement {
    ghost use Rattle.model.specs.Repairs.{Replacement as ReplacementValue};

    ghost Value = { ReplacementValue };

    ghost view = { λ m. record { label = m.label; path = m.path } };
}

/// The copy is equal, and shares the paths. It fails only where memory is refused.
impl Clone for Replacement {
    ghost use Rattle.std.specs.Prelude.{◌≡◌};

    ghost is_clone = { λ original copy. copy ≡ original };

    fn clone(&self) -> Result<Replacement, AllocError> {
        let label = self.label.clone()?;
        let path = self.path.clone()?;
        Ok(Replacement { label, path })
    }
}

impl Replacement {
    /// The label.
    pub(crate) fn label(&self) -> &Label
        ensures { result.now ≡ self.now.label }
    {
        &self.label
    }

    /// The path by which what it names is served.
    pub(crate) fn path(&self) -> &StorePath
        ensures { result.now ≡ self.now.path }
    {
        &self.path
    }

    /// Whether another path stands in the place of the label's.
    fn is_replaced(&self) -> bool
        ensures { result ≡ changes_path self.now }
    {
        self.path != *self.label.path()
    }

    /// Whether another path stands there, and is this one.
    fn is_replaced_by(&self, path: &StorePath) -> bool
        ensures { result ≡ is_replaced_by path.now self.now }
    {
        self.is_replaced() && self.path == *path
    }

    /// The label of the path that stands there then.
    fn new_label(&self) -> Result<Label, AllocError>
        ensures { IfOk result (λ label. label ≡ new_label self.now) }
    {
        let class = match self.label.class() {
            Some(class) => Some(class.clone()?),
            None => None,
        };
        Ok(Label::new(self.path.clone()?, class))
    }
}

/// Whether another path stands in the place of one of the labels.
pub(crate) fn is_any_replaced(replacements: &[Replacement]) -> bool
    ensures { result ≡ list_any changes_path replacements.now }
{
    for one in replacements {
        if one.is_replaced() {
            return true;
        }
    }
    false
}

/// Whether this path stands in the place of another.
pub(crate) fn is_any_replaced_by(path: &StorePath, replacements: &[Replacement]) -> bool
    ensures { result ≡ list_any (is_replaced_by path.now) replacements.now }
{
    for one in replacements {
        if one.is_replaced_by(path) {
            return true;
        }
    }
    false
}

// What serves a class, where its rank is lower.
fn served_below<'a>(
    served: &'a IndexMap<StorePath, Realisation>,
    rank: u8,
    class: &StorePath,
) -> Option<&'a Realisation>
    ensures { option_copied result ≡ found_below served.now.entries rank class.now }
{
    match served.get(class) {
        Some(realisation) if realisation.class().rank() < rank => Some(realisation),
        _ => None,
    }
}

// The path by which what a label names is served.
fn path_for(
    served: &IndexMap<StorePath, Realisation>,
    rank: u8,
    label: &Label,
) -> Result<StorePath, Refusal>
    ensures { let answer = replacement_of (served_in served.now.entries rank) label.now
        label.now.class in
        MatchResult result
        (λ path. answer ≡ Ok (record { label = label.now; path = path }))
        (λ e. (e ≡ Memory) ⊎ (answer ≡ Err e)) }
{
    let Some(class) = label.class() else {
        return Ok(label.path().clone()?);
    };
    let Some(realisation) = served_below(served, rank, class.path()) else {
        return Err(Refusal::NotRealised);
    };
    Ok(realisation.path().clone()?)
}

/// Each label with the path by which its class is served, of those of lower ranks that are served
/// so far; that of a source stays.
///
/// # Errors
///
/// - `NotRealised` exactly where the class of a label is not among these.
/// - `Memory` only where memory was refused; it may stand in the place of each answer.
pub(crate) fn replacements_of(
    alloc: Global,
    labels: &[Label],
    served: &IndexMap<StorePath, Realisation>,
    rank: u8,
) -> Result<Vec<Replacement>, Refusal>
    ensures replacements { let answer = replacements_of (served_in served.now.entries rank)
        labels.now in
        MatchResult result
        (λ replacements. answer ≡ Ok replacements.items)
        (λ e. (e ≡ Memory) ⊎ (answer ≡ Err e)) }
    ensures sound { IfOk result (λ _. All IsPath (paths_of_labels labels.now)) }
{
    let mut replacements = Vec::new(alloc);
    for label in labels {
        label.path().sound();
        let path = path_for(served, rank, label)?;
        let label = label.clone()?;
        replacements.push(Replacement { label, path })?;
    }
    Ok(replacements)
}

/// The labels of the paths that stand there then, in order. The one error is memory.
pub(crate) fn new_labels(alloc: Global, replacements: &[Replacement]) -> Result<Vec<Label>, Refusal>
    ensures labels { MatchResult result
        (λ labels. labels.items ≡ new_labels replacements.now)
        (λ e. e ≡ Memory) }
    ensures in_order { IfOk result (λ labels. AreInPathOrder labels.items) }
{
    let mut labels = Vec::new(alloc);
    for one in replacements {
        labels.push(one.new_label()?)?;
    }
    labels_in_order(alloc, labels)
}
