//! Gathering what a closure needs.

ghost use Rattle.std.specs.Prelude.{◌≡◌, [], ◌+◌, nat_lt, length, ◌<◌, bytes_eq, MatchResult, OnOk, OnErr, slice_index_or, Some, false};
ghost use Rattle.indexmap.specs.IndexSet.{insert_key};
ghost use Rattle.model.specs.Limits.{most_entries};
ghost use Rattle.model.specs.declared.refusal.Refusal.TheVariants.{Memory};
ghost use Rattle.choose.specs.Visible.{choose_in};
ghost use Rattle.choose.specs.Gathering.{has_class, has_source, with_chosen, with_found, with_class, with_source, with_label, with_labels};

use crate::choice::chosen;
use crate::view::View;
use indexmap::IndexSet;
use model::{MOST_ENTRIES, Refusal};
use realise::Pins;
use records::{Label, Realisation, Source};
use std::alloc::{AllocError, Global};
use std::marker::Model;
use storepath::StorePath;

/// The records and the sources that have been found, each once, the first first. The two tables
/// beside them tell what is there: the paths of classes and of sources. Their hashers have a fixed
/// seed: one who finds paths that collide gains little, since gathering ends soon after 1,024.
pub(crate) struct Gathering {
    classes: IndexSet<StorePath>,
    paths: IndexSet<StorePath>,
    records: Vec<Realisation>,
    sources: Vec<Source>,
}

impl Drop for Gathering {
    fn drop(self) {
        let Gathering {
            classes: _,
            paths: _,
            records: _,
            sources: _,
        } = self;
    }
}

impl Model for Gathering {
    ghost use Rattle.records.specs.Codes.{plan_code};
    ghost use Rattle.choose.specs.Gathering.{AreKeys};
    ghost use Rattle.model.specs.Choices.{Plan as PlanValue};

    ghost Value = { PlanValue };

    ghost coded = { plan_code };

    ghost view = { λ g. record { records = g.records.items; sources = g.sources.items } };

    ghost invariant = { λ g. AreKeys g.classes.keys g.paths.keys g.records.items g.sources.items };
}

/// Puts a path into a table. The one error is memory. Then nothing has changed.
fn put_path(table: &mut IndexSet<StorePath>, path: &StorePath) -> Result<(), AllocError>
    ensures put { OnOk result (table.new.keys ≡ insert_key bytes_eq table.old.keys path.now) }
    ensures unchanged { OnErr result (table.new.keys ≡ table.old.keys) }
{
    let _is_new = table.insert(path.clone()?)?;
    Ok(())
}

impl Gathering {
    /// Nothing has been found.
    pub(crate) fn new(alloc: Global) -> Gathering
        ensures { result ≡ record { records = []; sources = [] } }
    {
        Gathering {
            classes: IndexSet::new(alloc),
            paths: IndexSet::new(alloc),
            records: Vec::new(alloc),
            sources: Vec::new(alloc),
        }
    }

    /// How many records there are.
    pub(crate) fn len(&self) -> usize
        ensures { result ≡ length self.now.records }
    {
        self.records.len()
    }

    /// Whether there is more than a closure may have.
    pub(crate) fn is_too_large(&self) -> bool
        ensures { result ≡ nat_lt most_entries (length self.now.records + length self.now.sources) }
    {
        self.records.len().saturating_add(self.sources.len()) > MOST_ENTRIES
    }

    /// Whether a record of the class is there.
    pub(crate) fn has_class(&self, class: &StorePath) -> bool
        ensures { result ≡ has_class class.now self.now }
    {
        self.classes.contains(class)
    }

    /// The record at a place. The one error is memory.
    pub(crate) fn realisation(&self, index: usize) -> Result<Realisation, Refusal>
        requires { index < length self.now.records }
        ensures { MatchResult result
            (λ r. r ≡ slice_index_or self.now.records index r)
            (λ e. e ≡ Memory) }
    {
        Ok(self.records[index].clone()?)
    }

    /// Adds what is chosen for a class, unless it is there. The one error is memory.
    pub(crate) fn add_class(
        &mut self,
        view: &View,
        pins: &Pins,
        class: &StorePath,
    ) -> Result<(), Refusal>
        ensures { MatchResult result
            (λ _. self.new ≡ with_class (choose_in view.now pins.now) class.now self.old)
            (λ e. e ≡ Memory) }
    {
        if self.classes.contains(class) {
            return Ok(());
        }
        match chosen(view, pins, class)? {
            Some(realisation) => self.push_record(class, realisation),
            None => Ok(()),
        }
    }

    /// Adds the record of a class that has none. The one error is memory. Then nothing has changed.
    fn push_record(&mut self, class: &StorePath, realisation: Realisation) -> Result<(), Refusal>
        requires absent { has_class class.now self.old ≡ false }
        requires own { realisation.class.path ≡ class.now }
        ensures { MatchResult result
            (λ _. self.new ≡ with_chosen (Some realisation) self.old)
            (λ e. e ≡ Memory) }
    {
        self.records.reserve(1)?;
        put_path(&mut self.classes, class)?;
        self.records.push_reserved(realisation);
        Ok(())
    }

    /// Adds the source at a path, unless it is there. The one error is memory.
    pub(crate) fn add_source(&mut self, view: &View, path: &StorePath) -> Result<(), Refusal>
        ensures { MatchResult result
            (λ _. self.new ≡ with_source view.now path.now self.old)
            (λ e. e ≡ Memory) }
    {
        if self.paths.contains(path) {
            return Ok(());
        }
        match view.source(path)? {
            Some(source) => self.push_source(path, source),
            None => Ok(()),
        }
    }

    /// Adds the source of a path that has none. The one error is memory. Then nothing has changed.
    fn push_source(&mut self, path: &StorePath, source: Source) -> Result<(), Refusal>
        requires absent { has_source path.now self.old ≡ false }
        requires own { source.path ≡ path.now }
        ensures { MatchResult result
            (λ _. self.new ≡ with_found (Some source) self.old)
            (λ e. e ≡ Memory) }
    {
        self.sources.reserve(1)?;
        put_path(&mut self.paths, path)?;
        self.sources.push_reserved(source);
        Ok(())
    }

    /// Adds what a label names. The one error is memory.
    pub(crate) fn add_label(
        &mut self,
        view: &View,
        pins: &Pins,
        label: &Label,
    ) -> Result<(), Refusal>
        ensures { MatchResult result
            (λ _. self.new ≡ with_label view.now (choose_in view.now pins.now) label.now self.old)
            (λ e. e ≡ Memory) }
    {
        match label.class() {
            Some(class) => self.add_class(view, pins, class.path()),
            None => self.add_source(view, label.path()),
        }
    }

    /// Adds what labels name. The one error is memory.
    pub(crate) fn add_labels(
        &mut self,
        view: &View,
        pins: &Pins,
        labels: &[Label],
    ) -> Result<(), Refusal>
        ensures { MatchResult result
            (λ _. self.new ≡ with_labels view.now (choose_in view.now pins.now) labels.now self.old)
            (λ e. e ≡ Memory) }
    {
        for label in labels {
            self.add_label(view, pins, label)?;
        }
        Ok(())
    }

    /// What was found.
    pub(crate) fn into_parts(self) -> (Vec<Realisation>, Vec<Source>)
        ensures records { result.0.items ≡ self.records }
        ensures sources { result.1.items ≡ self.sources }
    {
        let Gathering {
            classes: _,
            paths: _,
            records,
            sources,
        } = self;
        (records, sources)
    }
}
