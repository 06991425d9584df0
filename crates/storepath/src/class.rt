//! Output classes.

ghost use Rattle.std.specs.Prelude.{◌≡◌, ◌≤◌};
ghost use Rattle.model.specs.Limits.{greatest_rank};

use crate::path::StorePath;
use std::alloc::AllocError;
use std::marker::Model;

/// An output class, known before anything is built: its path, and its rank of 1 to 64.
pub struct Class {
    path: StorePath,
    rank: u8,
}

impl Drop for Class {
    fn drop(self) {
        let Class { path: _, rank: _ } = self;
    }
}

impl Model for Class {
    ghost use Rattle.std.specs.Prelude.{◌≤◌};
    ghost use Rattle.model.specs.Classes.{Class as ClassValue};

    ghost Value = { ClassValue };

    ghost view = { λ a. record { path = a.path; rank = a.rank } };

    ghost invariant = { λ a. a.rank ≤ 64 };
}

impl Class {
    /// The class of this path and rank. The rank is at most 64.
    pub fn new(path: StorePath, rank: u8) -> Class
        requires most { rank ≤ 64 }
        ensures { result ≡ record { path = path; rank = rank } }
    {
        Class { path, rank }
    }

    /// The path that names the class.
    pub fn path(&self) -> &StorePath
        ensures { result.now ≡ self.now.path }
    {
        &self.path
    }

    /// One more than the greatest rank of the inputs, 1 with none: at most 64.
    pub fn rank(&self) -> u8
        ensures rank { result ≡ self.now.rank }
        ensures most { result ≤ greatest_rank }
    {
        self.rank
    }
}

/// The copy is equal. It fails only where memory is refused.
impl Clone for Class {
    ghost use Rattle.std.specs.Prelude.{◌≡◌};

    ghost is_clone = { λ class copy. copy ≡ class };

    fn clone(&self) -> Result<Class, AllocError> {
        let path = self.path.clone()?;
        let rank = self.rank;
        Ok(Class { path, rank })
    }
}
