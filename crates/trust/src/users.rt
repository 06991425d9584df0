//! The users of a run.

ghost use Rattle.std.specs.Prelude.{◌≡◌, true, IfOk, position, bytes_eq};
ghost use Rattle.model.specs.Worlds.{are_users};

use crate::user::User;
use indexmap::IndexSet;
use std::alloc::{AllocError, Global};
use std::marker::Model;

/// The users of a run, in the order of their list. The place of a name in it is found at once, however
/// many there are. Contracts see the list of the names.
///
/// There are at most 64, so that no choice of names makes a search longer than a walk over the list.
pub struct Users {
    names: IndexSet<User>,
}

impl Drop for Users {
    fn drop(self) {
        let Users { names: _ } = self;
    }
}

impl Model for Users {
    ghost use Rattle.std.specs.Prelude.{List, ℕ};

    ghost Value = { List (List ℕ) };

    ghost view = { λ users. users.names.keys };
}

impl Users {
    /// The users of these names.
    ///
    /// # Errors
    ///
    /// Only where memory was refused.
    pub fn new(alloc: Global, names: Vec<User>) -> Result<Users, AllocError>
        requires { are_users names.items ≡ true }
        ensures { IfOk result (λ users. users ≡ names.items) }
    {
        let mut set = IndexSet::with_capacity(alloc, names.len())?;
        for name in names {
            let _is_new = set.insert(name)?;
        }
        Ok(Users { names: set })
    }

    /// The names, in the order of the list.
    pub fn as_slice(&self) -> &[User]
        ensures value { result.now ≡ self.now }
    {
        self.names.as_slice()
    }

    /// The place of a name in the list.
    pub fn place_of(&self, name: &User) -> Option<usize>
        ensures { result ≡ position (λ u. bytes_eq u name.now) self.now }
    {
        self.names.get_index_of(name)
    }
}
