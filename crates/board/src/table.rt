//! Goals by their places, and what each session has of them.

ghost use Rattle.std.specs.Prelude.{◌≡◌, ◌<◌, ◌++◌, ◌∷◌, [], length, true, false, slice_set, IfOk, OnOk, OnErr, IfSome, IfNone};
ghost use Rattle.board.specs.declared.stage.Stage.TheVariants.{Woken as IsWoken};
ghost use Rattle.board.specs.Stages.{goal_at, at_stage, looked, belongs, is_woken, is_waiting, is_under_way};
ghost use Rattle.board.specs.Rows.{CoversIn, IsWokenAt, NoneWoken};
ghost use Rattle.board.specs.Tables.{TableView, with_goal, no_table, with_wait};

use crate::row::Row;
use crate::stage::{Goal, Stage};
use crate::woken::{Woken, next_woken};
use std::alloc::{AllocError, Global};
use std::marker::Model;

/// What a session has on the board.
#[derive(Drop)]
pub struct Seat {
    /// Its goals.
    own: Row,
    /// Those that may be woken.
    woken: Woken,
}

/// Goals by their places, each of a session; and which sessions wait.
pub struct Table {
    goals: Vec<Goal>,
    seats: Vec<Seat>,
    waiting: Vec<bool>,
}

impl Drop for Table {
    fn drop(self) {
        let Table {
            goals: _,
            seats: _,
            waiting: _,
        } = self;
    }
}

impl Model for Table {
    ghost use Rattle.board.specs.Tables.{TableView, IsTable};

    ghost Value = { TableView };

    ghost view = { λ t. record { goals = t.goals.items; waiting = t.waiting.items } };

    ghost invariant = { λ t. IsTable t.goals.items t.seats.items t.waiting.items };
}

impl Table {
    /// No goals; so many sessions, none of which waits.
    ///
    /// # Errors
    ///
    /// - `AllocError` only where memory was refused.
    pub fn new(alloc: Global, sessions: usize) -> Result<Table, AllocError>
        ensures { IfOk result (λ t. t ≡ no_table sessions) }
    {
        let waiting = vec![in alloc; false; sessions]?;
        let mut seats = Vec::new(alloc);
        for _ in 0..sessions {
            seats.push(Seat {
                own: Row::new(alloc),
                woken: Woken::new(alloc),
            })?;
        }
        Ok(Table {
            goals: Vec::new(alloc),
            seats,
            waiting,
        })
    }

    /// How many goals there are.
    pub fn len(&self) -> usize
        ensures { result ≡ length self.now.goals }
    {
        self.goals.len()
    }

    /// The goal at a place.
    pub fn goal(&self, place: usize) -> Goal
        requires { place < length self.now.goals }
        ensures goal { result ≡ goal_at self.now.goals place }
        ensures seat { result.seat < length self.now.waiting }
    {
        self.goals[place]
    }

    /// Whether a session waits.
    pub fn is_waiting(&self, seat: usize) -> bool
        requires { seat < length self.now.waiting }
        ensures { result ≡ is_waiting self.now.waiting seat }
    {
        self.waiting[seat]
    }

    /// Whether the goal at a place is under way.
    pub fn is_under_way(&self, place: usize) -> bool
        requires { place < length self.now.goals }
        ensures { result ≡ is_under_way self.now.waiting (goal_at self.now.goals place) }
    {
        let goal = &self.goals[place];
        goal.stage.is_moving() && self.waiting[goal.seat]
    }

    /// From now on a session waits, or does not.
    pub fn set_waiting(&mut self, seat: usize, waits: bool)
        requires { seat < length self.old.waiting }
        ensures { self.new ≡ with_wait seat waits self.old }
    {
        self.waiting[seat] = waits;
    }

    /// A goal more, and its place. It is woken.
    ///
    /// # Errors
    ///
    /// - `AllocError` only where memory was refused. Nothing has changed then.
    pub fn add(&mut self, goal: Goal) -> Result<usize, AllocError>
        requires { goal.seat < length self.old.waiting }
        ensures place { IfOk result (λ place. place ≡ length self.old.goals) }
        ensures added { OnOk result (self.new ≡ record { goals = self.old.goals ++ goal ∷ []; waiting = self.old.waiting }) }
        ensures left { OnErr result (self.new ≡ self.old) }
    {
        let place = self.goals.len();
        let seat = &mut self.seats[goal.seat];
        seat.own.put(place)?;
        seat.woken.put(place);
        self.goals.push(goal)?;
        Ok(place)
    }

    /// The goal at a place is this now, which is of the same session, and not woken.
    pub fn set(&mut self, place: usize, goal: Goal)
        requires place { place < length self.old.goals }
        requires seat { goal.seat ≡ (goal_at self.old.goals place).seat }
        requires rests { is_woken goal.stage ≡ false }
        ensures { self.new ≡ with_goal place goal self.old }
    {
        self.goals[place] = goal;
    }

    /// The goal at a place is to be looked at.
    pub fn wake(&mut self, place: usize)
        requires { place < length self.old.goals }
        ensures { self.new ≡ with_goal place (at_stage IsWoken (goal_at self.old.goals place)) self.old }
    {
        let goal = &mut self.goals[place];
        goal.stage = Stage::Woken;
        let seat = goal.seat;
        self.seats[seat].woken.put(place);
    }

    /// A goal of a session that was to be looked at, whose look begins at an arrival, if there is one.
    pub fn look(&mut self, seat: usize, now: u64) -> Option<usize>
        requires { seat < length self.old.waiting }
        ensures found { IfSome result (λ place. IsWokenAt seat self.old.goals place) }
        ensures looked { IfSome result (λ place.
            self.new ≡ with_goal place (looked now (goal_at self.old.goals place)) self.old) }
        ensures none { IfNone result (NoneWoken seat self.old.goals × (self.new ≡ self.old)) }
    {
        let place = next_woken(&mut self.seats[seat].woken, &self.goals, seat)?;
        let goal = &mut self.goals[place];
        goal.stage = Stage::Looked;
        goal.since = now;
        Some(place)
    }

    /// Whether a goal of a session may be one to be looked at.
    pub fn may_look(&self, seat: usize) -> bool
        requires { seat < length self.now.waiting }
        ensures { result ≡ false → NoneWoken seat self.now.goals }
    {
        !self.seats[seat].woken.is_empty()
    }

    /// The places of the goals of a session, and maybe others.
    pub fn own(&self, seat: usize) -> &[usize]
        requires { seat < length self.now.waiting }
        ensures { CoversIn (belongs seat) self.now.goals result.now }
    {
        self.seats[seat].own.places()
    }
}
