//! Builders that run, and for whom.

ghost use Rattle.std.specs.Prelude.{◌≡◌, ◌<◌, ◌≤◌, ◌-◌, ◌+◌, length, true, IfOk};
ghost use Rattle.board.specs.Permits.{PermitsView, share_at, may_start, with_builder, without_builder, nobody_runs, running_in, users_running};

use std::alloc::{AllocError, Global};
use std::marker::Model;

/// What a user has of the builders.
#[derive(Clone, Copy)]
pub struct Share {
    /// How many builders he has running.
    pub running: u64,
    /// When he was given one last, as a count of all that were given; 0 where he was given none.
    pub last: u64,
}

/// How many builders run for each user. No more than N - 1 run, and one more for each user who has one.
pub struct Permits {
    most: u64,
    total: u64,
    given: u64,
    shares: Vec<Share>,
}

impl Drop for Permits {
    fn drop(self) {
        let Permits {
            most: _,
            total: _,
            given: _,
            shares: _,
        } = self;
    }
}

impl Model for Permits {
    ghost use Rattle.board.specs.Permits.{PermitsView, ArePermits};

    ghost Value = { PermitsView };

    ghost view = { λ p. record { most = p.most; given = p.given; shares = p.shares.items } };

    ghost invariant = { λ p. ArePermits p.most p.total p.shares.items };
}

impl Permits {
    /// No builder runs, of so many users, and so many may at once, but for one of each user.
    ///
    /// # Errors
    ///
    /// - `AllocError` only where memory was refused.
    pub fn new(alloc: Global, users: usize, most: u64) -> Result<Permits, AllocError>
        requires users { users ≤ 64 }
        requires some { 0 < most }
        requires most { most ≤ 64 }
        ensures { IfOk result (λ p. p ≡ nobody_runs users most) }
    {
        Ok(Permits {
            most,
            total: 0,
            given: 0,
            shares: vec![in alloc; Share {
                running: 0,
                last: 0
            }; users]?,
        })
    }

    /// What the user at a place has.
    pub fn share(&self, user: usize) -> Share
        requires { user < length self.now.shares }
        ensures { result ≡ share_at self.now.shares user }
    {
        self.shares[user]
    }

    /// Whether one more builder may run for the user at a place.
    pub fn may_start(&self, user: usize) -> bool
        requires { user < length self.now.shares }
        ensures { result ≡ may_start self.now user }
    {
        self.total < self.most || self.shares[user].running == 0
    }

    /// A builder more runs for the user at a place.
    pub fn start(&mut self, user: usize)
        requires user { user < length self.old.shares }
        requires may { may_start self.old user ≡ true }
        ensures { self.new ≡ with_builder self.old user }
    {
        self.given = self.given.saturating_add(1);
        let share = self.shares[user];
        self.total += 1;
        self.shares[user] = Share {
            running: share.running + 1,
            last: self.given,
        };
    }

    /// A builder of the user at a place has ended. Nothing changes where he has none.
    pub fn end(&mut self, user: usize)
        requires { user < length self.old.shares }
        ensures { self.new ≡ without_builder self.old user }
    {
        let share = self.shares[user];
        if share.running > 0 {
            self.total -= 1;
        }
        self.shares[user] = Share {
            running: share.running.saturating_sub(1),
            last: share.last,
        };
    }

    /// No more than N - 1 builders run, and one more for each user who has one.
    pub fn sound(&self)
        ensures { running_in self.now.shares ≤ self.now.most - 1 + users_running self.now.shares }
    {
        let _most = self.most;
    }
}
