//! Trust among 64 users, who are named by their places.

ghost use Rattle.std.specs.Prelude.{◌≡◌, ℕ, ◌<◌, ◌==◌, ◌&&◌, not, false, slice_index};
ghost use Rattle.trust.specs.Trusting.{holds, trusts, with_pair, without_pair, with_said, IsReach, IsReachOf, AreReached, reached_with};
ghost use Rattle.model.specs.Limits.{most_users};

use crate::places::{UserSet, has_place};
use model::MOST_USERS;
use std::marker::Model;

// A set without the user at a place.
fn without(set: UserSet, place: usize) -> UserSet
    requires { place < most_users }
    ensures { (v : ℕ) → holds result v ≡ (not (v == place) && holds set v) }
{
    set & !(1 << place)
}

/// The users whom the users at some places reach: one after another is asked whom he trusts, until all are.
fn reach_of(rows: &[UserSet; MOST_USERS], users: UserSet) -> UserSet
    ensures { IsReachOf (trusts rows.now) (holds users) (holds result) }
{
    let mut reached: UserSet = users;
    let mut asked: UserSet = 0;
    while reached & !asked != 0 {
        let next = (reached & !asked).trailing_zeros() as usize;
        asked |= 1 << next;
        reached |= rows[next];
    }
    reached
}

/// The users whom the user at a place reaches.
fn reach_of_one(rows: &[UserSet; MOST_USERS], user: usize) -> UserSet
    requires { user < most_users }
    ensures { IsReach (trusts rows.now) user (holds result) }
{
    reach_of(rows, 1 << user)
}

/// Whom each user reaches.
fn reach_of_each(rows: &[UserSet; MOST_USERS]) -> [UserSet; MOST_USERS]
    ensures { AreReached rows.now result }
{
    let mut reached = [0; MOST_USERS];
    for user in 0..MOST_USERS {
        reached[user] = reach_of_one(rows, user);
    }
    reached
}

/// Whom somebody reaches who reached these, once the user at a place trusts one more, who reaches more.
fn reached_with(reached: UserSet, user: usize, more: UserSet) -> UserSet
    requires { user < most_users }
    ensures { result ≡ reached_with reached user more }
{
    if has_place(reached, user) {
        reached | more
    } else {
        reached
    }
}

/// Whom each user reaches, once one trusts another as well: who reached the one reaches all whom the other reaches.
fn each_reached_with(
    reached: &[UserSet; MOST_USERS],
    user: usize,
    other: usize,
) -> [UserSet; MOST_USERS]
    requires of_run { user < most_users }
    requires other_of_run { other < most_users }
    ensures { (place : ℕ) → place < most_users → slice_index result place
        ≡ reached_with (slice_index reached.now place) user (slice_index reached.now other) }
{
    let mut after = [0; MOST_USERS];
    for place in 0..MOST_USERS {
        after[place] = reached_with(reached[place], user, reached[other]);
    }
    after
}

/// Who trusts whom, among 64 users. A user is named by his place in the list of a run, from 0 on. Whom each
/// of them reaches is kept, and found anew only where trust changes.
pub struct Trust {
    rows: [UserSet; MOST_USERS],
    reached: [UserSet; MOST_USERS],
}

impl Drop for Trust {
    fn drop(self) {
        let Trust {
            rows: _,
            reached: _,
        } = self;
    }
}

impl Model for Trust {
    ghost use Rattle.std.specs.Prelude.{ℕ, List};

    ghost Value = { List ℕ };

    ghost use Rattle.trust.specs.Trusting.{AreReached};

    ghost view = { λ t. t.rows };

    ghost invariant = { λ t. AreReached t.rows t.reached };
}

impl Trust {
    /// Nobody trusts anybody.
    pub fn new() -> Trust
        ensures { trusts result ≡ (λ u v. false) }
    {
        let rows = [0; MOST_USERS];
        let reached = reach_of_each(&rows);
        Trust { rows, reached }
    }

    /// From now on a user trusts another.
    pub fn add(&mut self, user: usize, other: usize)
        requires of_run { user < most_users }
        requires other_of_run { other < most_users }
        ensures { trusts self.new ≡ with_pair user other (trusts self.old) }
    {
        self.rows[user] |= 1 << other;
        self.reached = each_reached_with(&self.reached, user, other);
    }

    /// From now on a user does not trust another.
    pub fn remove(&mut self, user: usize, other: usize)
        requires of_run { user < most_users }
        requires other_of_run { other < most_users }
        ensures { trusts self.new ≡ without_pair user other (trusts self.old) }
    {
        self.rows[user] = without(self.rows[user], other);
        self.reached = reach_of_each(&self.rows);
    }

    /// From now on a user trusts another, or does not. Whether he did is given back.
    pub fn replace(&mut self, user: usize, other: usize, trusted: bool) -> bool
        requires of_run { user < most_users }
        requires other_of_run { other < most_users }
        ensures before { result ≡ trusts self.old user other }
        ensures now { trusts self.new ≡ with_said user other trusted (trusts self.old) }
    {
        let before = has_place(self.rows[user], other);
        if trusted {
            self.add(user, other);
        } else {
            self.remove(user, other);
        }
        before
    }

    /// The users whom a user reaches: himself and, with each, all whom that one trusts.
    pub fn closure(&self, user: usize) -> UserSet
        requires { user < most_users }
        ensures { IsReach (trusts self.now) user (holds result) }
    {
        self.reached[user]
    }

    /// The users whom the users at some places reach: themselves and, with each, all whom that one
    /// trusts.
    pub fn closure_of(&self, users: UserSet) -> UserSet
        ensures { IsReachOf (trusts self.now) (holds users) (holds result) }
    {
        reach_of(&self.rows, users)
    }
}
