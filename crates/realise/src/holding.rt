//! The paths that a desk holds.

ghost use Rattle.std.specs.Prelude.{◌≡◌, ◌<◌, ◌≤◌, ◌+◌, ◌^◌, false, [], length, map, MatchResult, OnOk, IfOk, IfErr};
ghost use Rattle.std.specs.List.{list_any};
ghost use Rattle.std.specs.Prelude.{bytes_eq};
ghost use Rattle.std.specs.Map.Iter.{ShowsInOrder, deref};
ghost use Rattle.realise.specs.Held.{paths_held, bytes_held, with_archive, without_archive, with_archives, charged_beside};
ghost use Rattle.realise.specs.Holdings.{archive_of, AreCountable};
ghost use Rattle.model.specs.declared.refusal.Refusal.TheVariants.{Memory};

use indexmap::map::Keys;
use indexmap::{IndexMap, IndexSet};
use model::Refusal;
use records::DeskEntry;
use std::alloc::{AllocError, Global};
use std::hash::RandomState;
use std::marker::Model;
use storepath::StorePath;

/// Each path that a desk holds, once, with the length of its archive in bytes, and the sum of these
/// lengths, which is what the desk is charged.
///
/// Its hasher has keys that nobody outside knows, since whoever adds a source has a say in its path.
/// Contracts see the paths with the lengths (`archives`), and for how many more there is room.
pub struct Holding {
    archives: IndexMap<StorePath, u64, RandomState>,
    charge: u64,
}

impl Drop for Holding {
    fn drop(self) {
        let Holding {
            archives: _,
            charge: _,
        } = self;
    }
}

impl Model for Holding {
    ghost use Rattle.std.specs.Prelude.{◌≡◌};
    ghost use Rattle.realise.specs.Held.{Held, bytes_held};
    ghost use Rattle.indexmap.specs.IndexMap.{spare};

    ghost Value = { Held };

    ghost view = { λ h. record { archives = h.archives.entries; room = spare h.archives } };

    ghost invariant = { λ h. h.charge ≡ bytes_held h.archives.entries };
}

impl Holding {
    /// Nothing is held. `hashing` has the keys of the hasher. It takes no memory.
    pub(crate) fn new(alloc: Global, hashing: RandomState) -> Holding
        ensures { result.archives ≡ [] }
    {
        Holding {
            archives: IndexMap::with_hasher(alloc, hashing),
            charge: 0,
        }
    }

    /// The archives together, in bytes.
    pub(crate) fn charge(&self) -> u64
        ensures { result ≡ bytes_held self.now.archives }
    {
        self.charge
    }

    /// Whether a path is held.
    pub(crate) fn has(&self, path: &StorePath) -> bool
        ensures { result ≡ list_any (bytes_eq path.now) (paths_held self.now.archives) }
    {
        self.archives.contains_key(path)
    }

    /// The paths that are held, each once.
    pub(crate) fn paths(&self) -> Keys<'_, StorePath, u64>
        ensures paths { result ≡ paths_held self.now.archives }
        ensures runs { ShowsInOrder (deref {X = StorePath}) }
    {
        self.archives.keys()
    }

    /// As [`Holding::charged_for_all`], with an empty set to which the paths that are charged are
    /// added. The one error is memory.
    fn charged_beside(
        &self,
        counted: &mut IndexSet<StorePath, RandomState>,
        entries: &[(DeskEntry, u64)],
    ) -> Result<u64, Refusal>
        requires countable { AreCountable entries.now }
        requires fresh { counted.old.keys ≡ [] }
        ensures { let archives = map archive_of entries.now in MatchResult result
            (λ more. more ≡ charged_beside archives (paths_held self.now.archives))
            (λ e. e ≡ Memory) }
    {
        let mut more = 0;
        for entry in entries {
            if self.has(entry.0.path()) {
                continue;
            }
            if counted.insert(entry.0.path().clone()?)? {
                more += entry.1;
            }
        }
        Ok(more)
    }

    /// What is charged more for entries whose archives have so many bytes: each path once, and nothing
    /// for one that is held. The one error is memory.
    pub(crate) fn charged_for_all(
        &self,
        alloc: Global,
        entries: &[(DeskEntry, u64)],
    ) -> Result<u64, Refusal>
        requires { AreCountable entries.now }
        ensures { let archives = map archive_of entries.now in MatchResult result
            (λ more. more ≡ charged_beside archives (paths_held self.now.archives))
            (λ e. e ≡ Memory) }
    {
        let mut counted = IndexSet::with_hasher(alloc, *self.archives.hasher());
        self.charged_beside(&mut counted, entries)
    }

    /// Makes room for so many paths more. What is held stays.
    pub(crate) fn reserve(&mut self, additional: usize) -> Result<(), AllocError>
        ensures kept { self.new.archives ≡ self.old.archives }
        ensures room { OnOk result (additional ≤ self.new.room) }
    {
        self.archives.reserve(additional)
    }

    /// Puts a path with the length of its archive into room that was made by [`Holding::reserve`],
    /// unless the path is held.
    pub(crate) fn put_reserved(&mut self, path: StorePath, archive: u64)
        requires room { 0 < self.old.room }
        requires fits { bytes_held (with_archive (path, archive) self.old.archives) < 2 ^ 64 }
        ensures put { self.new.archives ≡ with_archive (path, archive) self.old.archives }
        ensures room { self.old.room ≤ self.new.room + 1 }
    {
        if self.has(&path) {
            return;
        }
        self.charge += archive;
        let _absent = self.archives.insert(path, archive).unwrap();
    }

    /// Takes a path away, if it is held. The last one is put in its place, so that no other moves. It takes no
    /// memory.
    pub(crate) fn remove(&mut self, path: &StorePath)
        ensures removed { self.new.archives ≡ without_archive path.now self.old.archives }
        ensures gone { list_any (bytes_eq path.now) (paths_held self.new.archives) ≡ false }
    {
        if let Some(archive) = self.archives.swap_remove(path) {
            self.charge -= archive;
        }
    }

    /// Puts paths with the lengths of their archives into room that was made by [`Holding::reserve`], one
    /// after another, each unless it is held.
    #[tactic(auto, unfolding(crate::specs::Held::with_archives))]
    pub(crate) fn put_all_reserved(&mut self, added: Vec<(StorePath, u64)>)
        requires room { length added.items ≤ self.old.room }
        requires fits { bytes_held (with_archives added.items self.old.archives) < 2 ^ 64 }
        ensures { self.new.archives ≡ with_archives added.items self.old.archives }
    {
        for (path, archive) in added {
            self.put_reserved(path, archive);
        }
    }
}
