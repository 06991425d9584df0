//! Records and sources with their trees.

ghost use Rattle.std.specs.Prelude.{◌≡◌};
ghost use Rattle.records.specs.Recorded.{with_tree, AreInPathOrder, without_tree};

use crate::label::Label;
use crate::record::Record;
use nar::Tree;
use std::alloc::AllocError;
use std::marker::Model;
use storepath::{Class, StorePath};

/// A record with its tree. A copy shares both.
pub struct Realisation {
    kept: Record,
    tree: Tree,
}

impl Drop for Realisation {
    fn drop(self) {
        let Realisation { kept: _, tree: _ } = self;
    }
}

impl Model for Realisation {
    ghost use Rattle.records.specs.Codes.{record_code};
    ghost use Rattle.model.specs.Worlds.{Record as RecordValue};
    ghost use Rattle.records.specs.Recorded.{with_tree};

    ghost Value = { RecordValue };

    ghost coded = { record_code };

    ghost view = { λ r. with_tree r.tree r.kept };
}

impl Realisation {
    /// A record with its tree.
    pub fn new(kept: Record, tree: Tree) -> Realisation
        ensures { result ≡ with_tree tree kept }
    {
        Realisation { kept, tree }
    }

    /// The class that it was built for.
    pub fn class(&self) -> &Class
        ensures { result.now ≡ self.now.class }
    {
        self.kept.class()
    }

    /// The path of the tree.
    pub fn path(&self) -> &StorePath
        ensures { result.now ≡ self.now.path }
    {
        self.kept.path()
    }

    /// The tree.
    pub fn tree(&self) -> &Tree
        ensures { result.now ≡ self.now.tree }
    {
        &self.tree
    }

    /// A label for each other path that the tree refers to, in the order of paths.
    pub fn labels(&self) -> &[Label]
        ensures labels { result.now ≡ self.now.labels }
        ensures in_order { AreInPathOrder self.now.labels }
    {
        self.kept.labels()
    }

    /// The record as a desk keeps it, without the tree.
    pub fn record(&self) -> &Record
        ensures { result.now ≡ without_tree self.now }
    {
        &self.kept
    }
}

/// The copy is equal, and shares the tree and the labels. It fails only where memory is refused.
impl Clone for Realisation {
    ghost use Rattle.std.specs.Prelude.{◌≡◌};

    ghost is_clone = { λ original copy. copy ≡ original };

    fn clone(&self) -> Result<Realisation, AllocError> {
        let kept = self.kept.clone()?;
        let tree = self.tree.clone()?;
        Ok(Realisation { kept, tree })
    }
}

/// A source with its tree. A copy shares both.
pub struct Source {
    path: StorePath,
    tree: Tree,
}

impl Drop for Source {
    fn drop(self) {
        let Source { path: _, tree: _ } = self;
    }
}

impl Model for Source {
    ghost use Rattle.records.specs.Codes.{source_code};
    ghost use Rattle.model.specs.Worlds.{Source as SourceValue};

    ghost Value = { SourceValue };

    ghost coded = { source_code };

    ghost view = { λ s. record { path = s.path; tree = s.tree } };
}

impl Source {
    /// A source with its tree.
    pub fn new(path: StorePath, tree: Tree) -> Source
        ensures { result ≡ record { path = path; tree = tree } }
    {
        Source { path, tree }
    }

    /// The path.
    pub fn path(&self) -> &StorePath
        ensures { result.now ≡ self.now.path }
    {
        &self.path
    }

    /// The tree.
    pub fn tree(&self) -> &Tree
        ensures { result.now ≡ self.now.tree }
    {
        &self.tree
    }
}

/// The copy is equal, and shares the tree. It fails only where memory is refused.
impl Clone for Source {
    ghost use Rattle.std.specs.Prelude.{◌≡◌};

    ghost is_clone = { λ original copy. copy ≡ original };

    fn clone(&self) -> Result<Source, AllocError> {
        let path = self.path.clone()?;
        let tree = self.tree.clone()?;
        Ok(Source { path, tree })
    }
}
