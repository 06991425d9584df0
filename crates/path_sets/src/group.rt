//! The paths of one hash part.

ghost use Rattle.std.specs.Prelude.{◌≡◌, ◌++◌, ◌∷◌, [], MatchResult};
ghost use Rattle.model.specs.declared.refusal.Refusal.TheVariants.{Memory};
ghost use Rattle.path_sets.specs.PathSets.{without_last};

use model::Refusal;
use std::alloc::Global;
use std::marker::Model;
use std::slice;
use storepath::StorePath;

/// What a group has. Most have one path, which needs no memory of its own.
#[derive(Drop)]
enum Kept {
    Empty,
    One(StorePath),
    Several(Vec<StorePath>),
}

/// Paths that have one hash part, in the order in which they were added.
pub struct Group {
    kept: Kept,
}

impl Drop for Group {
    fn drop(self) {
        let Group { kept: _ } = self;
    }
}

impl Model for Group {
    ghost use Rattle.std.specs.Prelude.{List, ℕ};
    ghost use Rattle.path_sets.specs.Grouped.{paths_in_group};

    ghost Value = { List (List ℕ) };

    ghost view = { λ group. paths_in_group group.kept };
}

impl Group {
    /// One path.
    pub(crate) fn of_one(path: StorePath) -> Group
        ensures { result ≡ path ∷ [] }
    {
        Group {
            kept: Kept::One(path),
        }
    }

    /// The paths, in the order in which they were added.
    pub(crate) fn as_slice(&self) -> &[StorePath]
        ensures { result.now ≡ self.now }
    {
        match &self.kept {
            Kept::Empty => &[],
            Kept::One(path) => slice::from_ref(path),
            Kept::Several(paths) => paths.as_slice(),
        }
    }

    /// Adds a path. The one error is memory, and changes nothing.
    pub(crate) fn push(&mut self, alloc: Global, path: StorePath) -> Result<(), Refusal>
        ensures { MatchResult result
            (λ _. self.new ≡ self.old ++ path ∷ [])
            (λ e. (e ≡ Memory) × (self.new ≡ self.old)) }
    {
        match &mut self.kept {
            Kept::Empty => self.kept = Kept::One(path),
            Kept::One(first) => {
                let both = Vec::from_array(alloc, [first.clone()?, path])?;
                self.kept = Kept::Several(both);
            }
            Kept::Several(paths) => paths.push(path)?,
        }
        Ok(())
    }

    /// Takes the last path away, if there is one. It takes no memory.
    pub(crate) fn pop(&mut self)
        ensures { self.new ≡ without_last self.old }
    {
        match &mut self.kept {
            Kept::Empty => {}
            Kept::One(_) => self.kept = Kept::Empty,
            Kept::Several(paths) => {
                let _last = paths.pop();
            }
        }
    }
}
