//! The goals of one user in one session that can be built.

ghost use Rattle.std.specs.Prelude.{◌≡◌, ◌∷◌, [], ◌&&◌, ◌==◌, Some, None, true, false, if◌then◌else◌, IfOk, OnOk, OnErr, MatchOption};
ghost use Rattle.board.specs.Lanes.{LaneView, is_lane_of, claim_in, has_put, empty_lane};

use crate::permits::Share;
use std::alloc::{AllocError, Global};
use std::collections::BTreeMap;
use std::marker::Model;

/// What counts for the turn of a user in a session.
#[derive(Clone, Copy)]
pub struct Claim {
    /// How many builders he has running.
    pub running: u64,
    /// When he was given one last, as a count of all that were given.
    pub last: u64,
    /// The number of the first of his goals there.
    pub number: u64,
}

/// The goals of one user in one session that can be built, by their numbers. A session is named by its seat, a user
/// and a goal by their places.
pub struct Lane {
    seat: usize,
    user: usize,
    line: BTreeMap<u64, usize>,
}

impl Drop for Lane {
    fn drop(self) {
        let Lane {
            seat: _,
            user: _,
            line: _,
        } = self;
    }
}

impl Model for Lane {
    ghost use Rattle.board.specs.Lanes.{LaneView};

    ghost Value = { LaneView };

    ghost view = { λ l. record { seat = l.seat; user = l.user; line = l.line.entries } };
}

impl Lane {
    /// A user has no goal in a session.
    pub fn new(alloc: Global, seat: usize, user: usize) -> Lane
        ensures { result ≡ empty_lane seat user }
    {
        Lane {
            seat,
            user,
            line: BTreeMap::new(alloc),
        }
    }

    /// The seat of the session.
    pub fn seat(&self) -> usize
        ensures { result ≡ self.now.seat }
    {
        self.seat
    }

    /// The place of the user.
    pub fn user(&self) -> usize
        ensures { result ≡ self.now.user }
    {
        self.user
    }

    /// Whether it is the line of that user in that session.
    pub fn is_of(&self, seat: usize, user: usize) -> bool
        ensures { result ≡ is_lane_of seat user self.now }
    {
        self.seat == seat && self.user == user
    }

    /// What counts for his turn, where he has that share of the builders. There is none where he has no goal.
    pub fn claim(&self, share: Share) -> Option<Claim>
        ensures { result ≡ claim_in share self.now.line }
    {
        let (number, _) = self.line.first_key_value()?;
        Some(Claim {
            running: share.running,
            last: share.last,
            number: *number,
        })
    }

    /// A goal more can be built.
    ///
    /// # Errors
    ///
    /// - `AllocError` only where memory was refused. Nothing has changed then.
    pub fn put(&mut self, number: u64, goal: usize) -> Result<(), AllocError>
        ensures put { OnOk result (self.new ≡ has_put number goal self.old) }
        ensures left { OnErr result (self.new ≡ self.old) }
    {
        self.line.insert(number, goal)?;
        Ok(())
    }

    /// Takes his first goal out, if he has one: its number, and its place.
    pub fn take(&mut self) -> Option<(u64, usize)>
        ensures line { MatchOption result ((self.old.line ≡ []) × (self.new ≡ self.old))
            (λ g. self.old ≡ record self.new { line = g ∷ self.new.line }) }
    {
        self.line.pop_first()
    }
}
