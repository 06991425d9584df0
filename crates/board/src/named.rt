//! The board, in the names of its sessions.

ghost use Rattle.std.specs.Prelude.{◌≡◌, ◌<◌, ◌≤◌, ℕ, Option, length, true, false, Some, IfOk, IfSome, OnOk, OnErr};
ghost use Rattle.std.specs.Prelude.{MatchOption, bytes_eq};
ghost use Rattle.std.specs.Map.{lookup};
ghost use Rattle.model.specs.Limits.{most_users};
ghost use Rattle.board.specs.Boards.{IsTrustChanged};
ghost use Rattle.board.specs.Waking.{AreWoken, woken_by_trust};
ghost use Rattle.board.specs.Ready.{with_workers};
ghost use Rattle.board.specs.States.{has_opened, HasNoStep, IsNextWithin};
ghost use Rattle.board.specs.Named.{IsGrown, HasCome, KeepsGoals, IsClosed, IsTask};

use crate::names::{Classes, Known, Numbers};
use crate::stage::Asked;
use crate::state::{BoardState, Next, Step};
use std::alloc::{AllocError, Global};
use std::hash::RandomState;
use storepath::StorePath;
use trust::UserSet;

/// A goal as its user and others name it.
#[derive(Clone, Copy)]
pub struct GoalName {
    /// The place of its user, below 64.
    pub user: usize,
    /// Its number among the goals of its user.
    pub number: u64,
}

/// A goal that a session waits for.
#[derive(Drop)]
pub struct Wanted {
    /// Its name.
    pub name: GoalName,
    /// The class that it builds.
    pub class: StorePath,
    /// Whom its user reaches.
    pub reached: UserSet,
}

/// How a goal may go on, as its session found.
#[derive(Drop)]
pub enum Outlook {
    /// Nothing more comes of it.
    Over,
    /// It can be built.
    Ready,
    /// It lacks a class.
    Lacks(StorePath),
    /// It is built in the job that this goal leads.
    Built(GoalName),
}

/// What a session is to do.
#[derive(Clone, Copy)]
pub enum Task {
    /// To look how a goal may go on.
    Look(GoalName),
    /// To have a goal built.
    Build(GoalName),
    /// To go on with its lines.
    Over,
    /// To wait.
    Wait,
}

/// The board, with what its topics and goals are called.
pub struct NamedBoard {
    alloc: Global,
    state: BoardState,
    classes: Classes,
    users: Vec<Numbers>,
}

impl Drop for NamedBoard {
    fn drop(self) {
        let NamedBoard {
            alloc: _,
            state: _,
            classes: _,
            users: _,
        } = self;
    }
}

impl NamedBoard {
    /// A board without goals, for so many sessions, none of which waits. So many builders may run at once, and one
    /// more for each user who has none.
    ///
    /// # Errors
    ///
    /// - `AllocError` only where memory was refused.
    pub fn new(
        alloc: Global,
        hashing: RandomState,
        sessions: usize,
        most: u64,
    ) -> Result<NamedBoard, AllocError>
        requires some { 0 < most }
        requires most { most ≤ 64 }
    {
        let state = BoardState::new(alloc, sessions, most)?;
        let mut users = Vec::new(alloc);
        for _ in 0..64 {
            users.push(Numbers::new(alloc))?;
        }
        Ok(NamedBoard {
            alloc,
            state,
            classes: Classes::new(alloc, hashing),
            users,
        })
    }

    /// The topic of a class, which may be a new one.
    ///
    /// # Errors
    ///
    /// - `AllocError` only where memory was refused.
    fn class_topic(&mut self, class: &StorePath) -> Result<usize, AllocError>
        ensures within { IfOk result (λ topic. topic < length self.new.state.goals.lasts) }
        ensures named { IfOk result (λ topic. lookup (bytes_eq class.now) self.new.classes.topics.entries ≡ Some topic) }
        ensures grown { IsGrown self.old.state self.new.state }
    {
        if let Some(topic) = self.classes.get(class) {
            if topic < self.state.topics() {
                return Ok(topic);
            }
        }
        let topic = self.state.add_topic()?;
        self.classes.set(class, topic)?;
        Ok(topic)
    }

    /// What is known of a goal by its name. Nothing is where its user is none.
    fn known(&self, name: GoalName) -> Option<Known> {
        self.users.get(name.user)?.get(name.number)
    }

    /// The topic of the job that a goal leads, where it leads one, which may be a new one.
    ///
    /// # Errors
    ///
    /// - `AllocError` only where memory was refused, or the goal is of no user.
    fn job_topic(&mut self, name: GoalName) -> Result<usize, AllocError>
        ensures within { IfOk result (λ topic. topic < length self.new.state.goals.lasts) }
        ensures grown { IsGrown self.old.state self.new.state }
    {
        if let Some(known) = self.known(name) {
            if known.job < self.state.topics() {
                return Ok(known.job);
            }
        }
        let job = self.state.add_topic()?;
        let Some(user) = self.users.get_mut(name.user) else {
            return Err(AllocError);
        };
        user.set(name.number, Known { job, place: None })?;
        Ok(job)
    }

    /// The place of a goal, where it is on the board.
    fn place(&self, name: GoalName) -> Option<usize>
        ensures { IfSome result (λ place. place < length self.now.state.goals.goals) }
    {
        let place = self.known(name)?.place?;
        if place < self.state.len() {
            Some(place)
        } else {
            None
        }
    }

    /// A topic has come, if there is one; else what came had none.
    fn come(&mut self, topic: Option<usize>)
        ensures { HasCome topic self.old.state self.new.state }
    {
        match topic {
            Some(topic) if topic < self.state.topics() => self.state.arrive(topic),
            _ => self.state.miss(),
        }
    }

    /// A class has come, by an event of any session: those that wait for it are to be looked at.
    pub fn came(&mut self, class: &StorePath)
        ensures { HasCome (lookup (bytes_eq class.now) self.old.classes.topics.entries) self.old.state self.new.state }
    {
        let topic = self.classes.get(class);
        self.come(topic);
    }

    /// The job that a goal leads has ended, by an event of any session: those that wait for it are to be looked at.
    pub fn job_ended(&mut self, name: GoalName) {
        let topic = self.known(name).map(|known| known.job);
        self.come(topic);
    }

    /// The trust of a user has changed: those that wait, and whose user reaches him, are to be looked at.
    pub fn trust_changed(&mut self, user: usize)
        ensures trust { user < most_users → IsTrustChanged self.old.state.goals self.new.state.goals }
        ensures woken { user < most_users → AreWoken (λ place. woken_by_trust user) self.old.state.goals.goals self.new.state.goals.goals }
    {
        if user < 64 {
            self.state.trust_changed(user);
        }
    }

    /// So many workers of a session have threads.
    pub fn set_workers(&mut self, seat: usize, workers: u64)
        ensures { seat < length self.old.state.goals.waiting → self.new.state.ready ≡ with_workers seat workers self.old.state.ready }
    {
        if seat < self.state.sessions() {
            self.state.set_workers(seat, workers);
        }
    }

    /// Where a goal is on the board, from now on.
    fn set_place(&mut self, name: GoalName, job: usize, place: usize) -> Result<(), AllocError>
        ensures { self.new.state ≡ self.old.state }
    {
        let Some(user) = self.users.get_mut(name.user) else {
            return Err(AllocError);
        };
        let place = Some(place);
        user.set(name.number, Known { job, place })
    }

    /// A session waits for a goal, which is on the board from then on. One that is there stays as it is.
    ///
    /// # Errors
    ///
    /// - `AllocError` only where memory was refused, or the goal is of no user or the session none.
    pub fn want(&mut self, seat: usize, wanted: &Wanted) -> Result<(), AllocError>
        ensures { KeepsGoals self.old.state self.new.state }
    {
        let name = wanted.name;
        if self.place(name).is_some() {
            return Ok(());
        }
        if name.user >= 64 || seat >= self.state.sessions() {
            return Err(AllocError);
        }
        let class = self.class_topic(&wanted.class)?;
        let job = self.job_topic(name)?;
        let place = self.state.add(Asked {
            user: name.user,
            number: name.number,
            seat,
            class,
            job,
            reached: wanted.reached,
        })?;
        self.set_place(name, job, place)
    }

    /// From now on a session waits.
    pub fn open(&mut self, seat: usize)
        ensures { seat < length self.old.state.goals.waiting → self.new.state ≡ has_opened seat self.old.state }
    {
        if seat < self.state.sessions() {
            self.state.open(seat);
        }
    }

    /// A session waits no more. Its goals that were looked at or could be built are to be looked at when it waits again;
    /// those that have a builder keep it.
    pub fn close(&mut self, seat: usize)
        ensures { seat < length self.old.state.goals.waiting → IsClosed seat self.old.state self.new.state }
    {
        if seat < self.state.sessions() {
            self.state.close(seat);
        }
    }

    /// What a session is to do, and what is done with it, as [`BoardState::next`] says. A session that is not of the
    /// board is to go on with its lines.
    ///
    /// # Errors
    ///
    /// - `AllocError` only where memory was refused. Nothing has changed then.
    pub fn next(&mut self, seat: usize) -> Result<Task, AllocError>
        ensures task { IfOk result (λ task. seat < length self.old.state.goals.waiting → IsTask seat self.old.state self.new.state task) }
        ensures left { OnErr result (self.new.state ≡ self.old.state) }
    {
        if seat >= self.state.sessions() {
            return Ok(Task::Over);
        }
        match self.state.next(seat)? {
            Step::Look(place) => {
                let goal = self.state.goal(place);
                let name = GoalName {
                    user: goal.user,
                    number: goal.number,
                };
                Ok(Task::Look(name))
            }
            Step::Build(grant) => {
                let name = GoalName {
                    user: grant.user,
                    number: grant.number,
                };
                Ok(Task::Build(name))
            }
            Step::Over => Ok(Task::Over),
            Step::Wait => Ok(Task::Wait),
        }
    }

    /// Whether [`NamedBoard::next`] may have something else for a session than to wait.
    pub fn may_step(&self, seat: usize) -> bool
        ensures { result ≡ false → HasNoStep seat self.now.state }
    {
        if seat >= self.state.sessions() {
            return true;
        }
        self.state.may_step(seat)
    }

    /// The topic for which a goal waits, or that it waits for none.
    ///
    /// # Errors
    ///
    /// - `AllocError` only where memory was refused, or the goal that leads its job is of no user.
    fn next_of(&mut self, outlook: &Outlook) -> Result<Next, AllocError>
        ensures within { IfOk result (IsNextWithin (length self.new.state.goals.lasts)) }
        ensures grown { IsGrown self.old.state self.new.state }
    {
        match outlook {
            Outlook::Over => Ok(Next::Over),
            Outlook::Ready => Ok(Next::Ready),
            Outlook::Lacks(class) => {
                let topic = self.class_topic(class)?;
                Ok(Next::Waits(topic))
            }
            Outlook::Built(leader) => {
                let topic = self.job_topic(*leader)?;
                Ok(Next::Waits(topic))
            }
        }
    }

    /// The session of a goal found how that may go on, and whom its user reaches. Nothing changes where it is not looked
    /// at.
    ///
    /// # Errors
    ///
    /// - `AllocError` only where memory was refused, or the goal that leads its job is of no user. The goal is still
    ///   looked at then.
    pub fn file(
        &mut self,
        name: GoalName,
        reached: UserSet,
        outlook: &Outlook,
    ) -> Result<(), AllocError> {
        let Some(place) = self.place(name) else {
            return Ok(());
        };
        let next = self.next_of(outlook)?;
        if place >= self.state.len() {
            return Ok(());
        }
        self.state.file(place, reached, next)
    }

    /// The builder of a goal has ended: its permit and its worker are free, and its session is to look at it, and those of
    /// the goals that wait for its class or its job are. Nothing changes where it has no builder.
    pub fn ended(&mut self, name: GoalName) {
        if let Some(place) = self.place(name) {
            self.state.ended(place);
        }
    }
}
