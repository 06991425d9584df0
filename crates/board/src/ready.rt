//! The goals of all sessions that can be built, and who is next.

ghost use Rattle.std.specs.Prelude.{◌≡◌, ◌<◌, ◌≤◌, length, position, true, [], IfOk, OnOk, OnErr, IfSome, IfNone};
ghost use Rattle.board.specs.Lanes.{LaneView, comes_before, is_before, is_lane_of};
ghost use Rattle.board.specs.Ready.{ReadyView, claim_of, lane_at, none_ready, IsFirst, IsGranted, NobodyMay, IsGiven};
ghost use Rattle.board.specs.Ready.{IsTurn, IsTurnOf, IsNotTurnOf, HasLeft, with_ready, has_ended, with_workers};
ghost use Rattle.board.specs.Permits.{may_start};

use crate::lane::{Claim, Lane};
use crate::permits::Permits;
use std::alloc::{AllocError, Global};
use std::marker::Model;

/// The workers of a session.
#[derive(Clone, Copy)]
pub struct Crew {
    /// How many have threads.
    pub workers: u64,
    /// How many have a goal.
    pub busy: u64,
}

/// A goal that a builder was given to.
#[derive(Clone, Copy)]
pub struct Grant {
    /// The seat of its session.
    pub seat: usize,
    /// The place of its user.
    pub user: usize,
    /// Its number.
    pub number: u64,
    /// Its place.
    pub goal: usize,
}

/// The goals of all sessions that can be built, the workers of each, and who has how many builders.
pub struct Ready {
    alloc: Global,
    lanes: Vec<Lane>,
    crews: Vec<Crew>,
    permits: Permits,
}

impl Drop for Ready {
    fn drop(self) {
        let Ready {
            alloc: _,
            lanes: _,
            crews: _,
            permits: _,
        } = self;
    }
}

impl Model for Ready {
    ghost use Rattle.board.specs.Ready.{ReadyView, AreOfRun};

    ghost Value = { ReadyView };

    ghost view = { λ r. record { lanes = r.lanes.items; crews = r.crews.items; permits = r.permits } };

    ghost invariant = { λ r. AreOfRun r.lanes.items r.crews.items r.permits.shares };
}

/// Whether one is before another.
fn is_before(one: Claim, other: Claim) -> bool
    ensures { result ≡ is_before one other }
{
    if one.running != other.running {
        return one.running < other.running;
    }
    if one.last != other.last {
        return one.last < other.last;
    }
    one.number < other.number
}

/// Whether one comes before another.
fn comes_before(one: Option<Claim>, other: Option<Claim>) -> bool
    ensures { result ≡ comes_before one other }
{
    match (one, other) {
        (Some(one), Some(other)) => is_before(one, other),
        (Some(_), None) => true,
        (None, _) => false,
    }
}

/// Takes all goals of a session out of the lines.
fn leave_all(lanes: &mut Vec<Lane>, alloc: Global, seat: usize)
    ensures { HasLeft seat lanes.old.items lanes.new.items }
{
    for place in 0..lanes.len() {
        if lanes[place].seat() == seat {
            let user = lanes[place].user();
            lanes[place] = Lane::new(alloc, seat, user);
        }
    }
}

impl Ready {
    /// No goal can be built; there are so many sessions, without workers, and so many users; so many builders may
    /// run at once, but for one of each user.
    ///
    /// # Errors
    ///
    /// - `AllocError` only where memory was refused.
    pub fn new(alloc: Global, sessions: usize, users: usize, most: u64) -> Result<Ready, AllocError>
        requires users { users ≤ 64 }
        requires some { 0 < most }
        requires most { most ≤ 64 }
        ensures { IfOk result (λ r. r ≡ none_ready sessions users most) }
    {
        Ok(Ready {
            alloc,
            lanes: Vec::new(alloc),
            crews: vec![in alloc; Crew {
                workers: 0,
                busy: 0
            }; sessions]?,
            permits: Permits::new(alloc, users, most)?,
        })
    }

    /// What counts for the turn of who has the line at a place. There is none where he has no goal there, or the
    /// session has no idle worker.
    pub fn claim(&self, place: usize) -> Option<Claim>
        requires { place < length self.now.lanes }
        ensures { result ≡ claim_of self.now (lane_at self.now.lanes place) }
    {
        let lane = &self.lanes[place];
        let crew = self.crews[lane.seat()];
        if crew.busy >= crew.workers {
            return None;
        }
        lane.claim(self.permits.share(lane.user()))
    }

    /// The place of a line before whose claim no other comes.
    fn first(&self) -> usize
        requires { 0 < length self.now.lanes }
        ensures within { result < length self.now.lanes }
        ensures first { IsFirst self.now result }
    {
        let mut best = 0;
        for place in 1..self.lanes.len() {
            if comes_before(self.claim(place), self.claim(best)) {
                best = place;
            }
        }
        best
    }

    /// Whether the user of the line at a place may have one more builder.
    fn may_start(&self, place: usize) -> bool
        requires { place < length self.now.lanes }
        ensures { result ≡ may_start self.now.permits (lane_at self.now.lanes place).user }
    {
        let user = self.lanes[place].user();
        self.permits.may_start(user)
    }

    /// Gives a builder to the first goal of a line.
    fn grant(&mut self, place: usize) -> Option<Grant>
        requires place { place < length self.old.lanes }
        requires may { may_start self.old.permits (lane_at self.old.lanes place).user ≡ true }
        ensures none { IfNone result ((self.new ≡ self.old) × ((lane_at self.old.lanes place).line ≡ [])) }
        ensures given { IfSome result (λ g. IsGranted self.old place g self.new) }
    {
        let lane = &mut self.lanes[place];
        let (number, goal) = lane.take()?;
        let seat = lane.seat();
        let user = lane.user();
        let crew = &mut self.crews[seat];
        crew.busy = crew.busy.saturating_add(1);
        self.permits.start(user);
        Some(Grant {
            seat,
            user,
            number,
            goal,
        })
    }

    /// The place of the line whose turn it is: that of who comes first, if he may have a builder. There is none where
    /// nobody is to have one.
    fn turn(&self) -> Option<usize>
        ensures some { IfSome result (IsTurn self.now) }
        ensures none { IfNone result (NobodyMay self.now) }
    {
        if self.lanes.is_empty() {
            return None;
        }
        let place = self.first();
        let _claim = self.claim(place)?;
        if !self.may_start(place) {
            return None;
        }
        Some(place)
    }

    /// The seat of the session whose turn it is, if it is anybody's.
    pub fn turn_of(&self) -> Option<usize>
        ensures some { IfSome result (λ seat. IsTurnOf seat self.now) }
        ensures none { IfNone result (NobodyMay self.now) }
    {
        let place = self.turn()?;
        Some(self.lanes[place].seat())
    }

    /// Gives a builder to the first goal of who comes first, if it is the turn of a session.
    pub fn next(&mut self, seat: usize) -> Option<Grant>
        ensures none { IfNone result ((self.new ≡ self.old) × IsNotTurnOf seat self.old) }
        ensures given { IfSome result (λ g. IsGiven self.old g self.new) }
        ensures own { IfSome result (λ g. g.seat ≡ seat) }
    {
        let place = self.turn()?;
        if self.lanes[place].seat() != seat {
            return None;
        }
        self.grant(place)
    }

    /// None of the goals of a session is to be built.
    #[tactic(auto, using(crate::proofs::OrderLemmas::of_run_left))]
    pub fn leave(&mut self, seat: usize)
        ensures lanes { HasLeft seat self.old.lanes self.new.lanes }
        ensures crews { self.new.crews ≡ self.old.crews }
        ensures permits { self.new.permits ≡ self.old.permits }
    {
        leave_all(&mut self.lanes, self.alloc, seat);
    }

    /// The place of the line of a user in a session, where there is one.
    fn find(&self, seat: usize, user: usize) -> Option<usize>
        ensures { result ≡ position (is_lane_of seat user) self.now.lanes }
    {
        self.lanes.iter().position(|lane| lane.is_of(seat, user))
    }

    /// A goal of a user in a session can be built.
    ///
    /// # Errors
    ///
    /// - `AllocError` only where memory was refused. Nothing has changed then.
    pub fn put(
        &mut self,
        seat: usize,
        user: usize,
        number: u64,
        goal: usize,
    ) -> Result<(), AllocError>
        requires seat { seat < length self.old.crews }
        requires user { user < length self.old.permits.shares }
        ensures put { OnOk result (self.new ≡ with_ready seat user number goal self.old) }
        ensures left { OnErr result (self.new ≡ self.old) }
    {
        match self.find(seat, user) {
            Some(place) => self.lanes[place].put(number, goal),
            None => {
                let mut lane = Lane::new(self.alloc, seat, user);
                lane.put(number, goal)?;
                self.lanes.push(lane)?;
                Ok(())
            }
        }
    }

    /// A builder of a user has ended, and with it the worker of a session is idle. Where there was none, nothing
    /// changes.
    pub fn end(&mut self, seat: usize, user: usize)
        requires seat { seat < length self.old.crews }
        requires user { user < length self.old.permits.shares }
        ensures { self.new ≡ has_ended seat user self.old }
    {
        let crew = &mut self.crews[seat];
        crew.busy = crew.busy.saturating_sub(1);
        self.permits.end(user);
    }

    /// So many workers of a session have threads.
    pub fn set_workers(&mut self, seat: usize, workers: u64)
        requires { seat < length self.old.crews }
        ensures { self.new ≡ with_workers seat workers self.old }
    {
        self.crews[seat].workers = workers;
    }
}
