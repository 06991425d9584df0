//! The users whose goals are built under a path.

ghost use Rattle.std.specs.Prelude.{◌≡◌, ◌<◌, [], MatchResult};
ghost use Rattle.model.specs.declared.refusal.Refusal.TheVariants.{Memory};
ghost use Rattle.jobs.specs.Planners.{users_at, AddsPlace};
ghost use Rattle.model.specs.Limits.{most_users};

use indexmap::IndexMap;
use model::Refusal;
use std::alloc::Global;
use std::hash::RandomState;
use storepath::StorePath;
use trust::UserSet;

/// For each path users among whom are all who have a goal that was planned and is built under it. None is
/// ever taken out.
pub(crate) struct Planners {
    sets: IndexMap<StorePath, UserSet, RandomState>,
}

impl Drop for Planners {
    fn drop(self) {
        let Planners { sets: _ } = self;
    }
}

impl Planners {
    /// Nobody, under any path.
    pub(crate) fn new(alloc: Global, hashing: RandomState) -> Planners
        ensures { result.sets.entries ≡ [] }
    {
        Planners {
            sets: IndexMap::with_hasher(alloc, hashing),
        }
    }

    /// The places at a path. They are found at once.
    pub(crate) fn at(&self, path: &StorePath) -> UserSet
        ensures { result ≡ users_at path.now self.now.sets.entries }
    {
        match self.sets.get(path) {
            Some(set) => *set,
            None => 0,
        }
    }

    /// Puts a place in at a path. The one error is memory, and changes nothing.
    pub(crate) fn insert(&mut self, path: StorePath, place: usize) -> Result<(), Refusal>
        requires { place < most_users }
        ensures { MatchResult result
            (λ _. AddsPlace path place self.old.sets.entries self.new.sets.entries)
            (λ e. (e ≡ Memory) × (self.new.sets.entries ≡ self.old.sets.entries)) }
    {
        let set = self.at(&path) | 1 << place;
        let _before = self.sets.insert(path, set)?;
        Ok(())
    }
}
