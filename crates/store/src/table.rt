//! One table for all users.

ghost use Rattle.std.specs.Prelude.{◌≡◌, ◌<◌, ◌≤◌, ◌+◌, ◌++◌, ◌∷◌, ◌⊎◌, ◌↔◌, [], length, OnOk, OnErr, IfOk, IfErr, Err, Some, None, if◌then◌else◌};
ghost use Rattle.std.specs.Option.{option_copied};
ghost use Rattle.std.specs.Str.{bytes_eq};
ghost use Rattle.indexmap.specs.IndexSet.{contains};
ghost use Rattle.model.specs.Worlds.{tree_at};
ghost use Rattle.model.specs.declared.refusal.Refusal.TheVariants.{Memory, Clash};
ghost use Rattle.store.specs.Stored.{IsAdded, IsTaken, IsCollected, AreNew, AreTaken, AreThere, put_all, sources_of, kept_at};

use indexmap::{IndexMap, IndexSet};
use model::Refusal;
use nar::Tree;
use std::alloc::{AllocError, Global};
use std::hash::RandomState;
use std::marker::Model;
use storepath::StorePath;

/// Each path that some user holds, once, with its tree, the oldest first. Its hasher has keys that
/// nobody outside knows, since whoever adds a source has a say in its path.
///
/// Contracts see the paths with their trees (`sources`), and for how many more there is room.
pub struct Table {
    trees: IndexMap<StorePath, Tree, RandomState>,
}

impl Drop for Table {
    fn drop(self) {
        let Table { trees: _ } = self;
    }
}

impl Model for Table {
    ghost use Rattle.store.specs.Stored.{Stored, stored_code, sources_of};
    ghost use Rattle.indexmap.specs.IndexMap.{spare};

    ghost Value = { Stored };

    ghost coded = { stored_code };

    ghost view = { λ t. record { sources = sources_of t.trees.entries; room = spare t.trees } };
}

/// Whether a tree is stored at its path in one of two tables already. `false` says that nothing is
/// there in either. The one error is `Clash`, exactly where another tree is there in the first, or
/// in the second where the first has none.
fn has_either(first: &Table, second: &Table, path: &StorePath, tree: &Tree) -> Result<bool, Refusal>
    ensures stored { IfOk result (λ is. let sources = first.now.sources ++ second.now.sources in
        tree_at path.now sources ≡ (if is then Some tree.now else None)) }
    ensures taken { IfErr result (λ e. (e ≡ Clash)
        × IsTaken (first.now.sources ++ second.now.sources) path.now tree.now) }
{
    if first.has(path, tree)? {
        return Ok(true);
    }
    second.has(path, tree)
}

/// Adds a tree to those that are missing, and a copy of it to the table of them, unless it is stored
/// at its path in one of the tables already.
fn collect(
    stored: &Table,
    added: &mut Table,
    missing: &mut Vec<(StorePath, Tree)>,
    path: StorePath,
    tree: Tree,
) -> Result<(), Refusal>
    ensures collected { OnOk result (IsCollected (stored.now.sources ++ added.old.sources) (path, tree)
        added.old.sources added.new.sources missing.old.items missing.new.items) }
    ensures refused { IfErr result (λ e. (e ≡ Memory)
        ⊎ ((e ≡ Clash) × IsTaken (stored.now.sources ++ added.old.sources) path tree)) }
{
    if !has_either(stored, added, &path, &tree)? {
        added.put_copy(&path, &tree)?;
        missing.push((path, tree))?;
    }
    Ok(())
}

impl Table {
    /// A table with nothing in it. `hashing` has the keys of its hasher.
    pub fn new(alloc: Global, hashing: RandomState) -> Table
        ensures { result.sources ≡ [] }
    {
        Table {
            trees: IndexMap::with_hasher(alloc, hashing),
        }
    }

    /// How many paths are stored, each once.
    pub fn len(&self) -> usize
        ensures { result ≡ length self.now.sources }
    {
        self.trees.len()
    }

    /// The keys of its hasher. They are told to nobody outside.
    pub fn hashing(&self) -> RandomState {
        *self.trees.hasher()
    }

    /// The tree at a path, if there is one.
    pub fn get(&self, path: &StorePath) -> Option<&Tree>
        ensures { option_copied result ≡ tree_at path.now self.now.sources }
    {
        self.trees.get(path)
    }

    /// Whether a tree is stored at its path already. `false` says that nothing is there.
    ///
    /// # Errors
    ///
    /// `Clash` exactly where another tree is there.
    pub fn has(&self, path: &StorePath, tree: &Tree) -> Result<bool, Refusal>
        ensures stored { IfOk result (λ is.
            tree_at path.now self.now.sources ≡ (if is then Some tree.now else None)) }
        ensures taken { IfErr result (λ e. (e ≡ Clash)
            × IsTaken self.now.sources path.now tree.now) }
    {
        match self.get(path) {
            Some(had) if had.same(tree) => Ok(true),
            Some(_) => Err(Refusal::Clash),
            None => Ok(false),
        }
    }

    /// Makes room for so many trees more.
    ///
    /// # Errors
    ///
    /// `AllocError` where memory was refused. Nothing that is stored changes.
    pub fn reserve(&mut self, additional: usize) -> Result<(), AllocError>
        ensures kept { self.new.sources ≡ self.old.sources }
        ensures room { OnOk result (additional ≤ self.new.room) }
    {
        self.trees.reserve(additional)
    }

    /// Puts a tree at a path that has none yet, into room that was made by [`Table::reserve`].
    pub fn put_reserved(&mut self, path: StorePath, tree: Tree)
        requires absent { tree_at path self.old.sources ≡ None }
        requires room { 0 < self.old.room }
        ensures put { self.new.sources ≡ self.old.sources ++ record { path = path; tree = tree } ∷ [] }
        ensures room { self.old.room ≤ self.new.room + 1 }
    {
        let _absent = self.trees.insert(path, tree).unwrap();
    }

    /// Puts a copy of a tree at a path that has none yet. The one error is memory.
    fn put_copy(&mut self, path: &StorePath, tree: &Tree) -> Result<(), Refusal>
        requires absent { tree_at path.now self.old.sources ≡ None }
        ensures put { OnOk result (self.new.sources
            ≡ self.old.sources ++ record { path = path.now; tree = tree.now } ∷ []) }
        ensures memory { IfErr result (λ e. e ≡ Memory) }
    {
        self.reserve(1)?;
        self.put_reserved(path.clone()?, tree.clone()?);
        Ok(())
    }

    /// Puts trees at paths that have none yet, into room that was made by [`Table::reserve`].
    pub fn put_all_reserved(&mut self, trees: Vec<(StorePath, Tree)>)
        requires absent { AreNew self.old.sources (sources_of trees.items) }
        requires room { length trees.items ≤ self.old.room }
        ensures { self.new.sources ≡ self.old.sources ++ sources_of trees.items }
    {
        for (path, tree) in trees {
            self.put_reserved(path, tree);
        }
    }

    /// Those of the trees that are not stored at their paths yet, each path once, in order. Room is made
    /// for all of them before one is looked for, so that what is asked of memory does not depend on what
    /// is stored.
    ///
    /// # Errors
    ///
    /// - `Clash` exactly where another tree is at the path of one of them, in the table or with one
    ///   before it.
    /// - `Memory` only where memory was refused.
    pub fn missing(
        &self,
        alloc: Global,
        trees: Vec<(StorePath, Tree)>,
    ) -> Result<Vec<(StorePath, Tree)>, Refusal>
        ensures all { IfOk result (λ missing.
            put_all (sources_of trees.items) self.now.sources
            ≡ self.now.sources ++ sources_of missing.items) }
        ensures new { IfOk result (λ missing.
            AreNew self.now.sources (sources_of missing.items)) }
        ensures there { OnOk result (AreThere self.now.sources trees.items) }
        ensures free { OnOk result (AreTaken self.now.sources trees.items → ⊥) }
        ensures refused { IfErr result (λ e. (e ≡ Memory)
            ⊎ ((e ≡ Clash) × AreTaken self.now.sources trees.items)) }
    {
        let mut added = Table::new(alloc, *self.trees.hasher());
        added.reserve(trees.len())?;
        let mut missing = Vec::with_capacity(alloc, trees.len())?;
        for (path, tree) in trees {
            collect(self, &mut added, &mut missing, path, tree)?;
        }
        Ok(missing)
    }

    /// Puts a tree at its path, unless it is stored there already.
    ///
    /// # Errors
    ///
    /// Nothing that is stored changes.
    ///
    /// - `Clash` exactly where another tree is at the path.
    /// - `Memory` only where memory was refused.
    pub fn put(&mut self, path: StorePath, tree: Tree) -> Result<(), Refusal>
        ensures added { OnOk result (IsAdded path tree self.old.sources self.new.sources) }
        ensures there { OnOk result (tree_at path self.new.sources ≡ Some tree) }
        ensures kept { OnErr result (self.new.sources ≡ self.old.sources) }
        ensures taken { (result ≡ Err Clash) ↔ IsTaken self.old.sources path tree }
        ensures refused { IfErr result (λ e. (e ≡ Memory) ⊎ (e ≡ Clash)) }
    {
        if !self.has(&path, &tree)? {
            self.reserve(1)?;
            self.put_reserved(path, tree);
        }
        Ok(())
    }

    /// Keeps the trees at the paths of a set, with no change, and no others. It takes no memory.
    pub fn sweep(&mut self, held: &IndexSet<StorePath, RandomState>)
        ensures { self.new.sources ≡ kept_at (contains bytes_eq held.now) self.old.sources }
    {
        self.trees.retain(|path, _tree| held.contains(path));
    }
}
