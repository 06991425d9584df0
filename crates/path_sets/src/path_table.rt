//! Paths in a table by their hash parts.

ghost use Rattle.std.specs.Prelude.{◌≡◌, ◌⊎◌, ◌-◌, ◌<◌, ◌++◌, ◌∷◌, [], false, Ok, Err, length, map, take, All, MatchResult};
ghost use Rattle.model.specs.Classes.{is_one_of};
ghost use Rattle.model.specs.Paths.{IsPath};
ghost use Rattle.model.specs.Occurrences.{among, AreKeys};
ghost use Rattle.model.specs.Settling.{hash_part_in};
ghost use Rattle.model.specs.declared.refusal.Refusal.TheVariants.{Memory};
ghost use Rattle.path_sets.specs.PathSets.{HasOneMore, HasOneLess, HasSame, base_name, counted, group_at, with_part};
ghost use Rattle.std.specs.Cmp.Lexicographic.{pointwise};
ghost use Rattle.std.specs.Prelude.{bytes_eq};

use crate::group::Group;
use crate::slots::Slots;
use indexmap::IndexMap;
use model::Refusal;
use std::alloc::Global;
use std::marker::Model;
use storepath::{HashPart, StorePath};

/// What each path begins with.
const STORE: &str = "/nix/store/";

/// Paths, with those of each hash part, and the slots that the hash parts have.
///
/// What tells the paths from one another, their base names, stands side by side as well, each behind its length,
/// so that two tables are compared in one sweep, and no path is looked up.
pub struct PathTable {
    paths: Vec<StorePath>,
    groups: IndexMap<[u8; 32], Group>,
    slots: Slots,
    names: Vec<u8>,
}

impl Drop for PathTable {
    fn drop(self) {
        let PathTable {
            paths: _,
            groups: _,
            slots: _,
            names: _,
        } = self;
    }
}

impl Model for PathTable {
    ghost use Rattle.std.specs.Prelude.{List, ℕ};
    ghost use Rattle.path_sets.specs.PathSets.{IsTable};

    ghost Value = { List (List ℕ) };

    ghost view = { λ table. table.paths.items };

    ghost invariant = { λ table. IsTable table.paths.items table.groups.entries table.slots
        table.names.items };
}

/// Puts a path behind those of its hash part. The one error is memory, and changes nothing.
fn put_in_group(
    alloc: Global,
    groups: &mut IndexMap<[u8; 32], Group>,
    part: &[u8; 32],
    path: StorePath,
) -> Result<(), Refusal>
    ensures { MatchResult result
        (λ _. HasOneMore part.now path groups.old.entries groups.new.entries)
        (λ e. (e ≡ Memory) × HasSame groups.old.entries groups.new.entries) }
{
    if let Some(group) = groups.get_mut(part) {
        return group.push(alloc, path);
    }
    let _none = groups.insert(*part, Group::of_one(path))?;
    Ok(())
}

/// Takes the last path of a hash part away, if there is one. It takes no memory.
fn take_from_group(groups: &mut IndexMap<[u8; 32], Group>, part: &[u8; 32])
    ensures { HasOneLess part.now groups.old.entries groups.new.entries }
{
    if let Some(group) = groups.get_mut(part) {
        group.pop();
    }
}

/// What stands behind `/nix/store/` in the text of a path.
fn base_name(path: &StorePath) -> &[u8]
    ensures value { result.now ≡ base_name path.now }
    ensures short { length result.now < 256 }
{
    &path.bytes()[STORE.len()..]
}

/// Puts the base name of a path behind others. The one error is memory, and changes nothing.
fn push_name(names: &mut Vec<u8>, path: &StorePath) -> Result<(), Refusal>
    ensures { MatchResult result
        (λ _. names.new.items ≡ names.old.items ++ counted path.now)
        (λ e. (e ≡ Memory) × (names.new.items ≡ names.old.items)) }
{
    let count = names.len();
    let name = base_name(path);
    names.push(name.len() as u8)?;
    if let Err(why) = names.extend_from_slice(name) {
        names.truncate(count);
        return Err(why.into());
    }
    Ok(())
}

impl PathTable {
    /// No paths. The one error is memory.
    pub(crate) fn new(alloc: Global) -> Result<PathTable, Refusal>
        ensures { MatchResult result
            (λ table. table ≡ [])
            (λ e. e ≡ Memory) }
    {
        Ok(PathTable {
            paths: Vec::new(alloc),
            groups: IndexMap::new(alloc),
            slots: Slots::new(alloc, usize::MAX)?,
            names: Vec::new(alloc),
        })
    }

    /// Its members are store paths, each with its hash part.
    pub(crate) fn sound(&self)
        ensures paths { All IsPath self.now }
        ensures keys { AreKeys (among (map hash_part_in self.now)) }
    {
        let _ = &self.paths;
    }

    /// The paths, in the order in which they were added.
    pub(crate) fn as_slice(&self) -> &[StorePath]
        ensures { result.now ≡ self.now }
    {
        self.paths.as_slice()
    }

    /// Those whose hash part 32 bytes are.
    fn with_digits(&self, window: &[u8; 32]) -> &[StorePath]
        ensures { result.now ≡ with_part window.now self.now }
    {
        if !self.slots.are_marked(window) {
            return &[];
        }
        match self.groups.get(window) {
            Some(group) => group.as_slice(),
            None => &[],
        }
    }

    /// Whether a path is one of them.
    pub(crate) fn contains(&self, path: &StorePath) -> bool
        ensures { result ≡ is_one_of self.now path.now }
    {
        self.with_part(&path.hash_part()).contains(path)
    }

    /// Whether 32 bytes are the hash part of one of them.
    pub(crate) fn has_part(&self, window: &[u8; 32]) -> bool
        ensures { result ≡ among (map hash_part_in self.now) window.now }
    {
        !self.with_digits(window).is_empty()
    }

    /// Whether another table has the same paths in the same order.
    pub(crate) fn is_same(&self, other: &PathTable) -> bool
        ensures { result ≡ pointwise bytes_eq self.now other.now }
    {
        self.names == other.names
    }

    /// Those with a hash part.
    pub(crate) fn with_part(&self, part: &HashPart) -> &[StorePath]
        ensures { result.now ≡ with_part part.now self.now }
    {
        self.with_digits(part.digits())
    }

    /// Adds a path. The one error is memory, and changes nothing.
    fn add(&mut self, alloc: Global, path: StorePath) -> Result<(), Refusal>
        ensures { MatchResult result
            (λ _. self.new ≡ self.old ++ path ∷ [])
            (λ e. (e ≡ Memory) × (self.new ≡ self.old)) }
    {
        self.paths.reserve(1)?;
        let part = path.hash_part();
        let digits = part.digits();
        let copy = path.clone()?;
        let count = self.names.len();
        push_name(&mut self.names, &path)?;
        if let Err(why) = put_in_group(alloc, &mut self.groups, digits, copy) {
            self.names.truncate(count);
            return Err(why);
        }
        self.slots.mark(digits);
        self.paths.push_reserved(path);
        Ok(())
    }

    /// Takes the last one away, if there is one. It takes no memory.
    fn pop(&mut self)
        ensures { self.new ≡ take (length self.old - 1) self.old }
    {
        let Some(last) = self.paths.pop() else {
            return;
        };
        let part = last.hash_part();
        let count = self.names.len() - base_name(&last).len() - 1;
        take_from_group(&mut self.groups, part.digits());
        self.names.truncate(count);
    }

    /// Keeps so many of the oldest paths, and takes the others away. It takes no memory.
    fn truncate(&mut self, count: usize)
        ensures { self.new ≡ take count self.old }
    {
        while count < self.paths.len() {
            self.pop();
        }
    }

    /// A copy. The one error is memory.
    pub(crate) fn copy_in(&self, alloc: Global) -> Result<PathTable, Refusal>
        ensures { MatchResult result
            (λ copy. copy ≡ self.now)
            (λ e. e ≡ Memory) }
    {
        let mut copy = PathTable::new(alloc)?;
        for path in self.paths.as_slice() {
            copy.add(alloc, path.clone()?)?;
        }
        Ok(copy)
    }

    /// Adds a path, if `check` lets it, which is asked when no more memory is needed.
    /// Where it does not, nothing has changed.
    pub(crate) fn add_if<F: FnOnce() -> Result<bool, Refusal>>(
        &mut self,
        alloc: Global,
        path: StorePath,
        check: F,
    ) -> Result<bool, Refusal>
        requires callable { F.IsAlwaysCallable check }
        ensures { MatchResult result
            (λ told. F.post check (Ok told) × (self.new ≡ self.old ++ path ∷ []))
            (λ e. ((e ≡ Memory) ⊎ F.post check (Err e)) × (self.new ≡ self.old)) }
    {
        self.add(alloc, path)?;
        let told = check();
        if told.is_err() {
            self.pop();
        }
        told
    }

    /// Adds paths, all or none. The one error is memory, and changes nothing.
    pub(crate) fn add_all(&mut self, alloc: Global, paths: Vec<StorePath>) -> Result<(), Refusal>
        ensures { MatchResult result
            (λ _. self.new ≡ self.old ++ paths.items)
            (λ e. (e ≡ Memory) × (self.new ≡ self.old)) }
    {
        let count = self.paths.len();
        for path in paths {
            if let Err(why) = self.add(alloc, path) {
                self.truncate(count);
                return Err(why);
            }
        }
        Ok(())
    }
}
