//! What topics and goals are called.

ghost use Rattle.std.specs.Prelude.{◌≡◌, ℕ, List, bytes_eq, Some, OnOk, OnErr};
ghost use Rattle.std.specs.Map.{lookup};
ghost use Rattle.std.specs.BTreeMap.{get};
ghost use Rattle.std.specs.Ordering.{nat_cmp};
ghost use Rattle.board.specs.Names.{IsNamed};

use indexmap::IndexMap;
use std::alloc::{AllocError, Global};
use std::collections::BTreeMap;
use std::hash::RandomState;
use storepath::StorePath;

/// What is known of a goal by its name: the topic of the job that it leads, and its place, where it is on the board.
#[derive(Clone, Copy)]
pub struct Known {
    /// The topic of the job that it leads, where it leads one.
    pub job: usize,
    /// Its place, where it is on the board.
    pub place: Option<usize>,
}

/// The goals of one user by their numbers.
#[derive(Drop)]
pub struct Numbers {
    pub(crate) known: BTreeMap<u64, Known>,
}

impl Numbers {
    /// None is known.
    pub fn new(alloc: Global) -> Numbers {
        Numbers {
            known: BTreeMap::new(alloc),
        }
    }

    /// What is known of the goal of a number.
    pub fn get(&self, number: u64) -> Option<Known>
        ensures { result ≡ get nat_cmp self.now.known number }
    {
        self.known.get(&number).copied()
    }

    /// This is known of the goal of a number.
    ///
    /// # Errors
    ///
    /// - `AllocError` only where memory was refused. Nothing has changed then.
    pub fn set(&mut self, number: u64, known: Known) -> Result<(), AllocError>
        ensures set { OnOk result (get nat_cmp self.new.known number ≡ Some known) }
        ensures left { OnErr result ((other : ℕ) → get nat_cmp self.new.known other ≡ get nat_cmp self.old.known other) }
    {
        self.known.insert(number, known)?;
        Ok(())
    }
}

/// The topics of classes. The hasher has keys that nobody outside knows, since classes come from others.
pub struct Classes {
    pub(crate) topics: IndexMap<StorePath, usize, RandomState>,
}

impl Drop for Classes {
    fn drop(self) {
        let Classes { topics: _ } = self;
    }
}

impl Classes {
    /// None has a topic.
    pub fn new(alloc: Global, hashing: RandomState) -> Classes {
        Classes {
            topics: IndexMap::with_hasher(alloc, hashing),
        }
    }

    /// The topic of a class, where it has one.
    pub fn get(&self, class: &StorePath) -> Option<usize>
        ensures { result ≡ lookup (bytes_eq class.now) self.now.topics.entries }
    {
        self.topics.get(class).copied()
    }

    /// A class has a topic, and the others theirs.
    ///
    /// # Errors
    ///
    /// - `AllocError` only where memory was refused. Nothing has changed then.
    pub fn set(&mut self, class: &StorePath, topic: usize) -> Result<(), AllocError>
        ensures set { OnOk result (IsNamed class.now topic self.old.topics.entries self.new.topics.entries) }
        ensures left { OnErr result (self.new.topics.entries ≡ self.old.topics.entries) }
    {
        let _before = self.topics.insert(class.clone()?, topic)?;
        Ok(())
    }
}
