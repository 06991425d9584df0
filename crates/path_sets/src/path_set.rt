//! Sets of paths that are found by their hash parts.

ghost use Rattle.std.specs.Prelude.{◌≡◌, ◌⊎◌, ◌++◌, ◌∷◌, [], false, Ok, Err, length, map, All, MatchResult, IfErr};
ghost use Rattle.model.specs.Classes.{is_one_of};
ghost use Rattle.model.specs.Paths.{IsPath};
ghost use Rattle.model.specs.Occurrences.{among, AreKeys};
ghost use Rattle.model.specs.Settling.{hash_part_in};
ghost use Rattle.model.specs.declared.refusal.Refusal.TheVariants.{Memory};
ghost use Rattle.path_sets.specs.PathSets.{AreNew, with_part};

use crate::path_table::PathTable;
use model::Refusal;
use std::alloc::{AllocError, Global};
use std::marker::Model;
use std::sync::Arc;
use storepath::{HashPart, StorePath};

/// Paths, each once, in the order in which they were added, which are found by their hash parts.
///
/// A copy shares them until a path is added to one of both. Whether digits are sought is told by a table of
/// 65,536 slots first, as for [`Keys`](crate::Keys). The hashers have a fixed seed.
pub struct PathSet {
    shared: Option<Arc<PathTable>>,
}

impl Drop for PathSet {
    fn drop(self) {
        let PathSet { shared: _ } = self;
    }
}

impl Model for PathSet {
    ghost use Rattle.std.specs.Prelude.{List, ℕ};
    ghost use Rattle.path_sets.specs.PathSets.{paths_in};

    ghost Value = { List (List ℕ) };

    ghost view = { λ set. paths_in set.shared };
}

/// The copy has the same paths, and shares them.
impl Clone for PathSet {
    ghost use Rattle.std.specs.Prelude.{◌≡◌};

    ghost is_clone = { λ set copy. copy ≡ set };

    fn clone(&self) -> Result<PathSet, AllocError> {
        let shared = match &self.shared {
            Some(table) => Some(table.clone()?),
            None => None,
        };
        Ok(PathSet { shared })
    }
}

/// Whether two sets have the same paths in the same order. No path is looked up.
impl PartialEq for PathSet {
    ghost use Rattle.std.specs.Prelude.{bytes_eq};
    ghost use Rattle.std.specs.Cmp.Lexicographic.{pointwise};
    ghost use Rattle.std.proofs.Common.{rules};
    ghost use Rattle.std.specs.Cmp.Rules.{comparing};

    ghost eq = { pointwise bytes_eq };

    ghost laws = { Prim.search (comparing, rules) };

    fn eq(&self, other: &PathSet) -> bool {
        match (&self.shared, &other.shared) {
            (Some(one), Some(two)) => one.is_same(two),
            _ => self.as_slice().is_empty() && other.as_slice().is_empty(),
        }
    }
}

impl PathSet {
    /// No paths. It takes no memory.
    pub fn new() -> PathSet
        ensures { result ≡ [] }
    {
        PathSet { shared: None }
    }

    /// Its members are store paths, each with its hash part.
    pub fn sound(&self)
        ensures paths { All IsPath self.now }
        ensures keys { AreKeys (among (map hash_part_in self.now)) }
    {
        if let Some(table) = &self.shared {
            table.sound();
        }
    }

    /// The paths, in the order in which they were added.
    pub fn as_slice(&self) -> &[StorePath]
        ensures { result.now ≡ self.now }
    {
        match &self.shared {
            Some(table) => table.as_slice(),
            None => &[],
        }
    }

    /// Whether a path is one of them.
    pub fn contains(&self, path: &StorePath) -> bool
        ensures { result ≡ is_one_of self.now path.now }
    {
        match &self.shared {
            Some(table) => table.contains(path),
            None => false,
        }
    }

    /// Whether 32 bytes are the hash part of one of them.
    pub fn has_part(&self, window: &[u8; 32]) -> bool
        ensures { result ≡ among (map hash_part_in self.now) window.now }
    {
        match &self.shared {
            Some(table) => table.has_part(window),
            None => false,
        }
    }

    /// Those with a hash part.
    pub fn with_part(&self, part: &HashPart) -> &[StorePath]
        ensures { result.now ≡ with_part part.now self.now }
    {
        match &self.shared {
            Some(table) => table.with_part(part),
            None => &[],
        }
    }

    /// Sees to it that nobody else has the table. What is shared is copied.
    fn own_table(&mut self, alloc: Global) -> Result<(), Refusal>
        ensures same { self.new ≡ self.old }
        ensures memory { IfErr result (λ e. e ≡ Memory) }
    {
        let table = match &self.shared {
            Some(table) if Arc::strong_count(table) == 1 => return Ok(()),
            Some(table) => table.copy_in(alloc)?,
            None => PathTable::new(alloc)?,
        };
        self.shared = Some(Arc::new(alloc, table)?);
        Ok(())
    }

    /// Adds a path that is not among them, if `check` lets it, which is asked when no more memory is needed.
    ///
    /// # Errors
    ///
    /// Nothing has changed then.
    ///
    /// - `Memory` only where memory was refused, or by `check`.
    /// - What `check` refused it for.
    pub fn add_if<F: FnOnce() -> Result<bool, Refusal>>(
        &mut self,
        alloc: Global,
        path: StorePath,
        check: F,
    ) -> Result<bool, Refusal>
        requires callable { F.IsAlwaysCallable check }
        requires absent { is_one_of self.old path ≡ false }
        ensures { MatchResult result
            (λ told. F.post check (Ok told) × (self.new ≡ self.old ++ path ∷ []))
            (λ e. ((e ≡ Memory) ⊎ F.post check (Err e)) × (self.new ≡ self.old)) }
    {
        self.own_table(alloc)?;
        let Some(table) = &mut self.shared else {
            return Err(Refusal::Memory);
        };
        match Arc::get_mut(table) {
            Some(table) => table.add_if(alloc, path, check),
            None => Err(Refusal::Memory),
        }
    }

    /// Adds paths that are not among them, and none of which comes twice, all or none.
    ///
    /// # Errors
    ///
    /// - `Memory` only where memory was refused. Then nothing has changed.
    pub fn add_all(&mut self, alloc: Global, paths: Vec<StorePath>) -> Result<(), Refusal>
        requires absent { AreNew self.old paths.items }
        ensures { MatchResult result
            (λ _. self.new ≡ self.old ++ paths.items)
            (λ e. (e ≡ Memory) × (self.new ≡ self.old)) }
    {
        self.own_table(alloc)?;
        let Some(table) = &mut self.shared else {
            return Err(Refusal::Memory);
        };
        match Arc::get_mut(table) {
            Some(table) => table.add_all(alloc, paths),
            None => Err(Refusal::Memory),
        }
    }
}
