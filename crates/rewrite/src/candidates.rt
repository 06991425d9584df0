//! What a tree may refer to.

ghost use Rattle.std.specs.Prelude.{◌≡◌};

use path_sets::PathSet;
use std::marker::Model;
use storepath::StorePath;

/// The paths that a tree may refer to: those of a list, and those of a set, which are found by their hash
/// parts. Contracts see the paths of both.
pub struct Candidates<'a> {
    pub listed: &'a [StorePath],
    pub found: &'a PathSet,
}

impl<'a> Drop for Candidates<'a> {
    fn drop(self) {
        let Candidates {
            listed: _,
            found: _,
        } = self;
    }
}

impl<'a> Model for Candidates<'a> {
    ghost use Rattle.std.specs.Prelude.{List, ℕ, ◌++◌};

    ghost Value = { List (List ℕ) };

    ghost view = { λ c. c.listed.now ++ c.found.now };
}
