//! What a desk knows.

ghost use Rattle.std.specs.Prelude.{◌≡◌, ◌⊎◌, None, Ok, Err, false, [], ◌∷◌, ◌++◌, MatchResult, option_copied, length};
ghost use Rattle.path_sets.specs.PathSets.{AreNew};
ghost use Rattle.model.specs.Classes.{known_at, is_one_of};
ghost use Rattle.model.specs.declared.refusal.Refusal.TheVariants.{Memory};

use crate::admitted::Admitted;
use indexmap::IndexMap;
use model::Refusal;
use path_sets::PathSet;
use std::alloc::Global;
use std::marker::Model;
use storepath::StorePath;

/// What one desk knows: its derivations by their paths, and the paths of its sources, the oldest
/// first.
///
/// Looking a path up takes the same time however much is known, and so does looking up the sources that have
/// a hash part. The hashers have a fixed seed: a desk is one user's own, and nobody else puts paths there.
pub struct Known {
    derivations: IndexMap<StorePath, Admitted>,
    sources: PathSet,
}

impl Drop for Known {
    fn drop(self) {
        let Known {
            derivations: _,
            sources: _,
        } = self;
    }
}

impl Model for Known {
    ghost use Rattle.model.specs.Classes.{Known as KnownValue};
    ghost use Rattle.classes.specs.Entries.{AreKeyed, admissions_of};

    ghost Value = { KnownValue };

    ghost view = { λ a. record { derivations = admissions_of a.derivations.entries; sources = a.sources } };

    ghost invariant = { λ a. AreKeyed a.derivations.entries };
}

impl Known {
    /// Nothing is known. It takes no memory.
    pub fn new(alloc: Global) -> Known
        ensures { result ≡ record { derivations = []; sources = [] } }
    {
        Known {
            derivations: IndexMap::new(alloc),
            sources: PathSet::new(),
        }
    }

    /// How many derivations there are.
    pub fn derivation_count(&self) -> usize
        ensures { result ≡ length self.now.derivations }
    {
        self.derivations.len()
    }

    /// How many sources there are.
    pub fn source_count(&self) -> usize
        ensures { result ≡ length self.now.sources }
    {
        self.sources.as_slice().len()
    }

    /// One derivation more, whose path is not known yet.
    ///
    /// # Errors
    ///
    /// - `Memory` only where memory was refused. Then nothing has changed.
    pub fn add_derivation(&mut self, admitted: Admitted) -> Result<(), Refusal>
        requires absent { known_at self.old admitted.path ≡ None }
        ensures { MatchResult result
            (λ _. self.new ≡ record self.old { derivations = self.old.derivations ++ admitted ∷ [] })
            (λ e. (e ≡ Memory) × (self.new ≡ self.old)) }
    {
        let path = admitted.path().clone()?;
        let _none = self.derivations.insert(path, admitted)?;
        Ok(())
    }

    /// One source more, whose path is not known yet, if `check` lets it, which is asked when no more memory is
    /// needed.
    ///
    /// # Errors
    ///
    /// Nothing has changed then.
    ///
    /// - `Memory` only where memory was refused, or by `check`.
    /// - What `check` refused it for.
    pub fn add_source_if<F: FnOnce() -> Result<bool, Refusal>>(
        &mut self,
        alloc: Global,
        path: StorePath,
        check: F,
    ) -> Result<bool, Refusal>
        requires callable { F.IsAlwaysCallable check }
        requires absent { is_one_of self.old.sources path ≡ false }
        ensures { MatchResult result
            (λ told. F.post check (Ok told)
            × (self.new ≡ record self.old { sources = self.old.sources ++ path ∷ [] }))
            (λ e. ((e ≡ Memory) ⊎ F.post check (Err e)) × (self.new ≡ self.old)) }
    {
        self.sources.add_if(alloc, path, check)
    }

    /// These sources more, all of them or none: no path is known yet, and none comes twice.
    ///
    /// # Errors
    ///
    /// - `Memory` only where memory was refused. Then nothing has changed.
    pub fn add_sources(&mut self, alloc: Global, paths: Vec<StorePath>) -> Result<(), Refusal>
        requires absent { AreNew self.old.sources paths.items }
        ensures { MatchResult result
            (λ _. self.new ≡ record self.old { sources = self.old.sources ++ paths.items })
            (λ e. (e ≡ Memory) × (self.new ≡ self.old)) }
    {
        self.sources.add_all(alloc, paths)
    }

    /// What is known of the derivation of a path.
    pub fn derivation(&self, path: &StorePath) -> Option<&Admitted>
        ensures { option_copied result ≡ known_at self.now path.now }
    {
        self.derivations.get(path)
    }

    /// The paths of the sources, the oldest first.
    pub fn sources(&self) -> &PathSet
        ensures { result.now ≡ self.now.sources }
    {
        &self.sources
    }

    /// Whether the path is a source's.
    pub fn has_source(&self, path: &StorePath) -> bool
        ensures { result ≡ is_one_of self.now.sources path.now }
    {
        self.sources.contains(path)
    }
}
