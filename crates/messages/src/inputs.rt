//! What was heard of the output classes of derivations, which goals wait for as their inputs.

use aterm::parse;
use indexmap::IndexMap;
use model::{MOST_USERS, Refusal};
use std::alloc::{AllocError, Global};
use std::fmt;
use std::fmt::{Display, Formatter};
use std::hash::RandomState;
use storepath::StorePath;
use trust::{UserSet, has_place};

/// What a user has of a class.
#[derive(Clone, Copy)]
pub(crate) enum Notification {
    /// An output that he offered, or a goal for it that is done.
    There,
    /// A goal for it that is being built.
    Built,
    /// A goal for it that waits.
    Waits,
    /// A goal for it that failed, with the number of a refusal.
    Failed(u8),
}

/// Why no output of a class is there.
#[derive(Clone, Copy)]
pub(crate) enum Absence {
    /// A goal for it failed, with the number of a refusal.
    Failed(u8),
    /// A goal for it waits.
    Waits,
    /// A goal for it is being built.
    Built,
    /// Nobody was asked for it.
    Unasked,
}

impl Display for Absence {
    fn fmt<W: fmt::Write>(&self, f: &mut Formatter<W>) -> fmt::Result {
        match self {
            Absence::Failed(number) => write!(f, "it failed {number}"),
            Absence::Waits => f.write_str("it waits"),
            Absence::Built => f.write_str("it is being built"),
            Absence::Unasked => f.write_str("nobody was asked for it"),
        }
    }
}

/// Whether the user at a place is in a set.
pub(crate) fn is_at(set: UserSet, place: usize) -> bool {
    place < MOST_USERS && has_place(set, place)
}

/// A set with the user at a place.
fn with_place(set: UserSet, place: usize) -> UserSet {
    if place < MOST_USERS {
        set | 1 << place
    } else {
        set
    }
}

/// The first failure of the goals of the user at a place.
#[derive(Clone, Copy)]
struct Failure {
    user: usize,
    number: u8,
}

/// What was heard of a class: the places of the users who have something of it.
#[derive(Drop)]
struct Class {
    there: UserSet,
    built: UserSet,
    waiting: UserSet,
    failed: UserSet,
    failures: Vec<Failure>,
}

impl Class {
    /// Nothing was heard of it.
    fn new(alloc: Global) -> Class {
        Class {
            there: 0,
            built: 0,
            waiting: 0,
            failed: 0,
            failures: Vec::new(alloc),
        }
    }

    /// From now on it is known what the user at a place has.
    fn add(&mut self, user: usize, notification: Notification) -> Result<(), Refusal> {
        match notification {
            Notification::There => self.there = with_place(self.there, user),
            Notification::Built => self.built = with_place(self.built, user),
            Notification::Waits => self.waiting = with_place(self.waiting, user),
            Notification::Failed(number) => {
                if !is_at(self.failed, user) {
                    self.failures.push(Failure { user, number })?;
                    self.failed = with_place(self.failed, user);
                }
            }
        }
        Ok(())
    }

    /// The number of a failure of those at some places, if they had one.
    fn failure_of(&self, users: UserSet) -> Option<u8> {
        for failure in self.failures.as_slice() {
            if is_at(users, failure.user) {
                return Some(failure.number);
            }
        }
        None
    }

    /// Why no output is there for those at some places, or nothing where one is.
    fn absence_for(&self, users: UserSet) -> Option<Absence> {
        if self.there & users != 0 {
            return None;
        }
        if let Some(number) = self.failure_of(users) {
            return Some(Absence::Failed(number));
        }
        if self.waiting & users != 0 {
            return Some(Absence::Waits);
        }
        if self.built & users != 0 {
            return Some(Absence::Built);
        }
        Some(Absence::Unasked)
    }
}

/// A derivation that is on a desk.
#[derive(Drop)]
pub(crate) struct Derived {
    /// Its name.
    pub(crate) name: Vec<u8>,
    /// The paths of the derivations that are its inputs.
    inputs: Vec<StorePath>,
    /// The path of its output class.
    class: StorePath,
}

/// An input that is not there.
#[derive(Drop)]
pub(crate) struct Lack {
    /// The path of its class.
    pub(crate) class: StorePath,
    /// Why it is not there.
    pub(crate) absence: Absence,
}

/// The derivations that were heard of, by their paths, and what was heard of their classes, by theirs.
#[derive(Drop)]
pub(crate) struct Inputs {
    alloc: Global,
    derivations: IndexMap<StorePath, Derived, RandomState>,
    classes: IndexMap<StorePath, Class, RandomState>,
}

impl Inputs {
    /// Nothing was heard of any.
    pub(crate) fn new(alloc: Global, hashing: RandomState) -> Inputs {
        Inputs {
            alloc,
            derivations: IndexMap::with_hasher(alloc, hashing),
            classes: IndexMap::with_hasher(alloc, hashing),
        }
    }

    /// Hears of the derivation of a text, with its path and that of its class. The text is read where the path is new.
    ///
    /// # Errors
    ///
    /// - `Memory` where memory was refused.
    /// - `BadDerivation` where no derivation has that text.
    pub(crate) fn hear(
        &mut self,
        text: &[u8],
        path: &StorePath,
        class: &StorePath,
    ) -> Result<(), Refusal> {
        if self.derivations.contains_key(path) {
            return Ok(());
        }
        if !self.classes.contains_key(class) {
            let notification = Class::new(self.alloc);
            let _none = self.classes.insert(class.clone()?, notification)?;
        }
        let derivation = parse(self.alloc, text)?;
        let derived = Derived {
            name: derivation.name().to_vec(self.alloc)?,
            inputs: derivation.parts().inputs.to_vec(self.alloc)?,
            class: class.clone()?,
        };
        let _none = self.derivations.insert(path.clone()?, derived)?;
        Ok(())
    }

    /// Hears what the user at a place has of the class of the derivation at a path.
    ///
    /// # Errors
    ///
    /// - `Memory` where memory was refused.
    pub(crate) fn add(
        &mut self,
        path: &StorePath,
        user: usize,
        notification: Notification,
    ) -> Result<(), Refusal> {
        let Some(derived) = self.derivations.get(path) else {
            return Ok(());
        };
        match self.classes.get_mut(&derived.class) {
            Some(class) => class.add(user, notification),
            None => Ok(()),
        }
    }

    /// The derivation at a path, if it was heard of.
    pub(crate) fn at(&self, path: &StorePath) -> Option<&Derived> {
        self.derivations.get(path)
    }

    /// What the users at some places lack where the derivation at a path is an input, if anything. The one error is
    /// memory.
    fn lack_of(&self, path: &StorePath, users: UserSet) -> Result<Option<Lack>, AllocError> {
        let Some(derived) = self.derivations.get(path) else {
            return Ok(None);
        };
        let Some(class) = self.classes.get(&derived.class) else {
            return Ok(None);
        };
        match class.absence_for(users) {
            Some(absence) => Ok(Some(Lack {
                class: derived.class.clone()?,
                absence,
            })),
            None => Ok(None),
        }
    }

    /// The inputs of a derivation that the users at some places lack.
    ///
    /// # Errors
    ///
    /// - `Memory` where memory was refused.
    pub(crate) fn lacks_of(&self, derived: &Derived, users: UserSet) -> Result<Vec<Lack>, Refusal> {
        let mut lacks = Vec::new(self.alloc);
        for input in derived.inputs.as_slice() {
            if let Some(lack) = self.lack_of(input, users)? {
                lacks.push(lack)?;
            }
        }
        Ok(lacks)
    }
}
