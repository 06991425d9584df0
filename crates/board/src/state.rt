//! The board: how far the goals of all sessions are, and what each session is to do.

ghost use Rattle.std.specs.Prelude.{◌≡◌, ◌<◌, ◌≤◌, length, true, false, if◌then◌else◌, IfOk, IfSome, IfNone, OnOk};
ghost use Rattle.std.specs.Prelude.{OnErr};
ghost use Rattle.model.specs.Limits.{most_users};
ghost use Rattle.board.specs.Stages.{goal_at, new_goal, is_looked, is_under_way};
ghost use Rattle.board.specs.Boards.{no_goals, with_goals, with_wait, with_topic, with_more, with_missed};
ghost use Rattle.board.specs.Boards.{IsTrustChanged};
ghost use Rattle.board.specs.Waking.{AreWoken, released, woken_by_trust};
ghost use Rattle.board.specs.Ready.{none_ready, with_workers, HasLeft, IsNotTurnOf};
ghost use Rattle.board.specs.States.{IsHeld, IsBuilt, IsStep, HasNoStep, IsEnded, IsNextWithin, goals_filed};
ghost use Rattle.board.specs.States.{ready_filed, has_opened, with_board, IsArrived};

use crate::goals::Goals;
use crate::ready::{Grant, Ready};
use crate::stage::{Asked, Goal, Stage};
use std::alloc::{AllocError, Global};
use std::marker::Model;
use trust::UserSet;

/// How a goal may go on, as its session found.
#[derive(Clone, Copy)]
pub enum Next {
    /// Nothing more comes of it.
    Over,
    /// It can be built.
    Ready,
    /// It waits for the topic of this number.
    Waits(usize),
}

/// What a session is to do.
#[derive(Clone, Copy)]
pub enum Step {
    /// To look how the goal at a place may go on.
    Look(usize),
    /// To have a goal built, to which a builder was given.
    Build(Grant),
    /// To go on with its lines: nothing that is under way can change its goals.
    Over,
    /// To wait.
    Wait,
}

/// How far the goals of all sessions are, who is next, and the goal under way for which each session waits.
pub struct BoardState {
    goals: Goals,
    ready: Ready,
    witnesses: Vec<Option<usize>>,
}

impl Drop for BoardState {
    fn drop(self) {
        let BoardState {
            goals: _,
            ready: _,
            witnesses: _,
        } = self;
    }
}

impl Model for BoardState {
    ghost use Rattle.board.specs.Parts.{StateView, AreOfOneRun};

    ghost Value = { StateView };

    ghost view = { λ b. record { goals = b.goals; ready = b.ready } };

    ghost invariant = { λ b. AreOfOneRun b.goals b.ready b.witnesses.items };
}

impl BoardState {
    /// A board without goals, for so many sessions, none of which waits. So many builders may run at once, and one
    /// more for each user who has none.
    ///
    /// # Errors
    ///
    /// - `AllocError` only where memory was refused.
    pub fn new(alloc: Global, sessions: usize, most: u64) -> Result<BoardState, AllocError>
        requires some { 0 < most }
        requires most { most ≤ 64 }
        ensures goals { IfOk result (λ b. b.goals ≡ no_goals sessions) }
        ensures ready { IfOk result (λ b. b.ready ≡ none_ready sessions most_users most) }
    {
        let goals = Goals::new(alloc, sessions)?;
        let ready = Ready::new(alloc, sessions, 64, most)?;
        let witnesses = vec![in alloc; None; sessions]?;
        Ok(BoardState {
            goals,
            ready,
            witnesses,
        })
    }

    /// Whether the goal that a session waits for is still under way.
    fn is_held(&self, seat: usize) -> bool
        requires { seat < length self.now.goals.waiting }
        ensures { result ≡ true → IsHeld self.now.goals }
    {
        match self.witnesses[seat] {
            Some(place) => place < self.goals.len() && self.goals.is_under_way(place),
            None => false,
        }
    }

    /// Gives the goal whose turn it is to a builder, if it is one of a session.
    fn build(&mut self, seat: usize) -> Option<Grant>
        ensures none { IfNone result ((self.new ≡ self.old) × IsNotTurnOf seat self.old.ready) }
        ensures built { IfSome result (λ grant. IsBuilt seat grant self.old self.new) }
    {
        let grant = self.ready.next(seat)?;
        if grant.goal < self.goals.len() {
            let reached = self.goals.goal(grant.goal).reached;
            self.goals.settle(grant.goal, reached, Stage::Working);
        }
        Some(grant)
    }

    /// Forgets the goal for which a session waits, unless that is its own: one that is looked at may wait for another
    /// then.
    fn forget_witness(&mut self, seat: usize)
        requires { seat < length self.old.goals.waiting }
        ensures { self.new ≡ self.old }
    {
        let is_own = match self.witnesses[seat] {
            Some(place) => place < self.goals.len() && self.goals.goal(place).seat == seat,
            None => false,
        };
        if !is_own {
            self.witnesses[seat] = None;
        }
    }

    /// What a session is to do, and what is done with it: a goal whose turn it is is built; else one that is woken is
    /// looked at; else the session waits where a goal is under way that can change one of its own. One that is built is
    /// the session's own, so that none is searched while it is.
    ///
    /// # Errors
    ///
    /// - `AllocError` only where memory was refused. Nothing has changed then.
    pub fn next(&mut self, seat: usize) -> Result<Step, AllocError>
        requires { seat < length self.old.goals.waiting }
        ensures step { IfOk result (IsStep seat self.old self.new) }
        ensures left { OnErr result ((self.new ≡ self.old)) }
    {
        if let Some(grant) = self.build(seat) {
            self.witnesses[seat] = Some(grant.goal);
            return Ok(Step::Build(grant));
        }
        if let Some(place) = self.goals.look(seat) {
            self.forget_witness(seat);
            return Ok(Step::Look(place));
        }
        if self.is_held(seat) {
            return Ok(Step::Wait);
        }
        let witness = self.goals.find_witness(seat)?;
        self.witnesses[seat] = witness;
        match witness {
            Some(_) => Ok(Step::Wait),
            None => Ok(Step::Over),
        }
    }

    /// Whether [`BoardState::next`] may have something else for a session than to wait.
    pub fn may_step(&self, seat: usize) -> bool
        requires { seat < length self.now.goals.waiting }
        ensures { result ≡ false → HasNoStep seat self.now }
    {
        if !self.is_held(seat) || self.goals.may_look(seat) {
            return true;
        }
        match self.ready.turn_of() {
            Some(other) => other == seat,
            None => false,
        }
    }

    /// The goal at a place, which is looked at, waits for a topic, or is to be looked at again where that has come since.
    fn wait_for(&mut self, place: usize, reached: UserSet, topic: usize) -> Result<(), AllocError>
        requires place { place < length self.old.goals.goals }
        requires topic { topic < length self.old.goals.lasts }
        requires looked { is_looked (goal_at self.old.goals.goals place).stage ≡ true }
        ensures ready { self.new.ready ≡ self.old.ready }
        ensures waits { OnOk result (self.new.goals ≡ goals_filed place reached (Next.Waits topic) self.old.goals) }
        ensures left { OnErr result (self.new ≡ self.old) }
    {
        if self.goals.has_moved(place, topic) {
            self.goals.wake(place);
            return Ok(());
        }
        self.goals.wait_for(place, reached, topic)
    }

    /// The session of the goal at a place found how that may go on, and whom its user reaches. Nothing changes where it
    /// is not looked at.
    ///
    /// # Errors
    ///
    /// - `AllocError` only where memory was refused. Nothing has changed then.
    pub fn file(&mut self, place: usize, reached: UserSet, next: Next) -> Result<(), AllocError>
        requires place { place < length self.old.goals.goals }
        requires topic { IsNextWithin (length self.old.goals.lasts) next }
        ensures goals { OnOk result (self.new.goals ≡ goals_filed place reached next self.old.goals) }
        ensures ready { OnOk result (self.new.ready ≡ ready_filed place next self.old) }
        ensures left { OnErr result (self.new ≡ self.old) }
    {
        let goal = self.goals.goal(place);
        if !goal.stage.is_looked() {
            return Ok(());
        }
        match next {
            Next::Over => {
                self.goals.settle(place, reached, Stage::Over);
                Ok(())
            }
            Next::Ready => {
                self.ready.put(goal.seat, goal.user, goal.number, place)?;
                self.goals.settle(place, reached, Stage::Ready);
                Ok(())
            }
            Next::Waits(topic) => self.wait_for(place, reached, topic),
        }
    }

    /// The builder of the goal at a place has ended: its session is to look at it, and so are those of the goals that
    /// wait for its class or its job. Nothing changes where it has no builder.
    pub fn ended(&mut self, place: usize)
        requires { place < length self.old.goals.goals }
        ensures { IsEnded place self.old self.new }
    {
        let goal = self.goals.goal(place);
        if !goal.stage.is_working() {
            return;
        }
        self.ready.end(goal.seat, goal.user);
        self.goals.wake(place);
        self.goals.arrive(goal.class);
        self.goals.arrive(goal.job);
    }

    /// From now on a session waits.
    pub fn open(&mut self, seat: usize)
        requires { seat < length self.old.goals.waiting }
        ensures { self.new ≡ has_opened seat self.old }
    {
        self.goals.set_waiting(seat, true);
    }

    /// A session waits no more. Its goals that were looked at or could be built are to be looked at when it waits again;
    /// those that have a builder keep it.
    pub fn close(&mut self, seat: usize)
        requires { seat < length self.old.goals.waiting }
        ensures goals { AreWoken (λ place. released seat) self.old.goals.goals self.new.goals.goals }
        ensures rest { self.new.goals ≡ with_wait seat false (with_goals self.new.goals.goals self.old.goals) }
        ensures lanes { HasLeft seat self.old.ready.lanes self.new.ready.lanes }
        ensures crews { self.new.ready.crews ≡ self.old.ready.crews }
        ensures permits { self.new.ready.permits ≡ self.old.ready.permits }
    {
        self.goals.release(seat);
        self.goals.set_waiting(seat, false);
        self.ready.leave(seat);
        self.witnesses[seat] = None;
    }

    /// A topic more, and its number.
    ///
    /// # Errors
    ///
    /// - `AllocError` only where memory was refused. Nothing has changed then.
    pub fn add_topic(&mut self) -> Result<usize, AllocError>
        ensures number { IfOk result (λ topic. topic ≡ length self.old.goals.lasts) }
        ensures added { OnOk result (self.new ≡ with_board (with_topic self.old.goals) self.old) }
        ensures left { OnErr result (self.new ≡ self.old) }
    {
        self.goals.add_topic()
    }

    /// A goal more, and its place. Its session is to look at it.
    ///
    /// # Errors
    ///
    /// - `AllocError` only where memory was refused. Nothing has changed then.
    pub fn add(&mut self, asked: Asked) -> Result<usize, AllocError>
        requires user { asked.user < most_users }
        requires seat { asked.seat < length self.old.goals.waiting }
        requires class { asked.class < length self.old.goals.lasts }
        requires job { asked.job < length self.old.goals.lasts }
        ensures place { IfOk result (λ place. place ≡ length self.old.goals.goals) }
        ensures added { OnOk result (self.new ≡ with_board (with_more (new_goal asked) self.old.goals) self.old) }
        ensures left { OnErr result (self.new ≡ self.old) }
    {
        self.goals.add(asked)
    }

    /// A topic has come: those that wait for it are to be looked at.
    pub fn arrive(&mut self, topic: usize)
        requires { topic < length self.old.goals.lasts }
        ensures goals { IsArrived topic self.old.goals self.new.goals }
        ensures ready { self.new.ready ≡ self.old.ready }
    {
        self.goals.arrive(topic);
    }

    /// Something came that has no topic.
    pub fn miss(&mut self)
        ensures { self.new ≡ with_board (with_missed self.old.goals) self.old }
    {
        self.goals.miss();
    }

    /// The trust of a user has changed: those that wait, and whose user reaches him, are to be looked at.
    pub fn trust_changed(&mut self, user: usize)
        requires { user < most_users }
        ensures changed { IsTrustChanged self.old.goals self.new.goals }
        ensures woken { AreWoken (λ place. woken_by_trust user) self.old.goals.goals self.new.goals.goals }
        ensures ready { self.new.ready ≡ self.old.ready }
    {
        self.goals.trust_changed(user);
    }

    /// So many workers of a session have threads.
    pub fn set_workers(&mut self, seat: usize, workers: u64)
        requires { seat < length self.old.goals.waiting }
        ensures { self.new ≡ record { goals = self.old.goals; ready = with_workers seat workers self.old.ready } }
    {
        self.ready.set_workers(seat, workers);
    }

    /// How many topics there are.
    pub fn topics(&self) -> usize
        ensures { result ≡ length self.now.goals.lasts }
    {
        self.goals.topics()
    }

    /// How many sessions there are.
    pub fn sessions(&self) -> usize
        ensures { result ≡ length self.now.goals.waiting }
    {
        self.witnesses.len()
    }

    /// How many goals there are.
    pub fn len(&self) -> usize
        ensures { result ≡ length self.now.goals.goals }
    {
        self.goals.len()
    }

    /// The goal at a place.
    pub fn goal(&self, place: usize) -> Goal
        requires { place < length self.now.goals.goals }
        ensures { result ≡ goal_at self.now.goals.goals place }
    {
        self.goals.goal(place)
    }
}
