//! What an output may refer to.

ghost use Rattle.std.specs.Prelude.{◌≡◌, ◌++◌, IfOk, MatchResult, filter, map};
ghost use Rattle.model.specs.Classes.{is_one_of};
ghost use Rattle.model.specs.References.{labels_of};
ghost use Rattle.model.specs.declared.refusal.Refusal.TheVariants.{Memory};
ghost use Rattle.outputs.specs.Below.{AreCandidates};
ghost use Rattle.records.specs.Ordered.{source_label, record_label};
ghost use Rattle.records.specs.Recorded.{AreInPathOrder};

use crate::below::records_below;
use aterm::Derivation;
use model::Refusal;
use path_sets::PathSet;
use realise::Desk;
use records::{Label, Record, labels_in_order};
use std::alloc::Global;
use std::marker::Model;
use storepath::StorePath;

/// What an output may refer to: the sources of a desk, which it shares with the desk, and others, by their
/// labels. Contracts see a label for each path, in the order of paths.
pub struct Candidates {
    pub(crate) sources: PathSet,
    pub(crate) others: Vec<Label>,
}

impl Drop for Candidates {
    fn drop(self) {
        let Candidates {
            sources: _,
            others: _,
        } = self;
    }
}

impl Model for Candidates {
    ghost use Rattle.std.specs.Prelude.{List};
    ghost use Rattle.model.specs.Worlds.{Label as LabelValue};
    ghost use Rattle.outputs.specs.Outputs.{candidates_of};

    ghost Value = { List LabelValue };

    ghost view = { λ c. candidates_of c.sources c.others.items };
}

// The labels of records.
fn record_labels(alloc: Global, records: &[Record]) -> Result<Vec<Label>, Refusal>
    ensures { MatchResult result
        (λ labels. labels.items ≡ map record_label records.now)
        (λ e. e ≡ Memory) }
{
    let mut labels = Vec::new(alloc);
    for record in records {
        let class = record.class().clone()?;
        labels.push(Label::new(record.path().clone()?, Some(class)))?;
    }
    Ok(labels)
}

// Labels for those of some paths that are sources.
fn source_labels(
    alloc: Global,
    sources: &PathSet,
    paths: &[StorePath],
) -> Result<Vec<Label>, Refusal>
    ensures { MatchResult result
        (λ labels. labels.items ≡ map source_label (filter (is_one_of sources.now) paths.now))
        (λ e. e ≡ Memory) }
{
    let mut labels = Vec::new(alloc);
    for path in paths {
        if sources.contains(path) {
            labels.push(Label::new(path.clone()?, None))?;
        }
    }
    Ok(labels)
}

// Adds labels.
fn push_labels(labels: &mut Vec<Label>, more: &[Label]) -> Result<(), Refusal>
    ensures { MatchResult result
        (λ _. labels.new.items ≡ labels.old.items ++ more.now)
        (λ e. e ≡ Memory) }
{
    for label in more {
        labels.push(label.clone()?)?;
    }
    Ok(())
}

impl Candidates {
    /// These labels, which are in the order of paths. It takes no memory.
    pub fn of_labels(labels: Vec<Label>) -> Candidates
        requires { AreInPathOrder labels.items }
        ensures { result ≡ labels.items }
    {
        Candidates {
            sources: PathSet::new(),
            others: labels,
        }
    }

    /// A label for each path that an output of a derivation may refer to, in the order of paths: the
    /// sources of the desk, and the records below the derivation. For each path there is one. No source is
    /// looked at.
    ///
    /// # Errors
    ///
    /// - `Memory` only where memory was refused.
    pub fn of_desk(
        alloc: Global,
        desk: &Desk,
        derivation: &Derivation,
    ) -> Result<Candidates, Refusal>
        ensures { MatchResult result
            (λ candidates. AreCandidates desk.now.known derivation.now desk.now.records candidates)
            (λ e. e ≡ Memory) }
    {
        let records = records_below(alloc, desk, derivation)?;
        let others = record_labels(alloc, &records)?;
        let sources = desk.known().sources().clone()?;
        Ok(Candidates { sources, others })
    }

    /// The labels of these paths, in the order of paths. Of the sources only those of these paths are
    /// looked at.
    ///
    /// # Errors
    ///
    /// - `Memory` only where memory was refused.
    pub fn labels_of(&self, alloc: Global, paths: &[StorePath]) -> Result<Vec<Label>, Refusal>
        ensures chosen { MatchResult result
            (λ chosen. chosen.items ≡ labels_of paths.now self.now)
            (λ e. e ≡ Memory) }
        ensures in_order { IfOk result (λ chosen. AreInPathOrder chosen.items) }
    {
        let mut labels = source_labels(alloc, &self.sources, paths)?;
        push_labels(
            &mut labels,
            &records::labels_of(alloc, paths, &self.others)?,
        )?;
        labels_in_order(alloc, labels)
    }
}
