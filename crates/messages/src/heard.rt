//! What the history of a run says of goals: how far each of them is.

use crate::inputs::{Inputs, Notification, is_at};
use events::{Job, Reply, Request, Status};
use history::Row;
use model::{MOST_USERS, Refusal};
use std::alloc::Global;
use std::hash::RandomState;
use std::mem;
use std::sync::Arc;
use storepath::StorePath;
use trust::{Trust, User, UserSet};

/// Where a goal is kept: at the place of its user, and at its own among the goals of that user.
#[derive(Clone, Copy)]
struct GoalPlace {
    user: usize,
    goal: usize,
}

impl GoalPlace {
    /// The place of the goal of a number of the user at a place.
    fn new(user: usize, number: u16) -> GoalPlace {
        GoalPlace {
            user,
            goal: usize::from(number).saturating_sub(1),
        }
    }

    /// Whether it is that place.
    fn is(self, other: GoalPlace) -> bool {
        self.user == other.user && self.goal == other.goal
    }
}

/// How far a goal is, as its user was told last.
#[derive(Clone, Copy)]
enum Stage {
    /// It waits, or nobody has planned it.
    Waits,
    /// It was planned, and has not started.
    Planned,
    /// It is built in the job that the goal at a place leads.
    Built(GoalPlace),
    /// It is done.
    Done,
    /// It failed, with the number of a refusal.
    Failed(u8),
}

impl Stage {
    /// How far it is as the user of the goal sees it, who reaches those at some places: it waits where he does not
    /// reach who leads its job.
    fn seen(self, reached: UserSet) -> Stage {
        match self {
            Stage::Built(leader) if !is_at(reached, leader.user) => Stage::Waits,
            stage => stage,
        }
    }

    /// What its user has of its class.
    fn notification(self) -> Notification {
        match self {
            Stage::Waits => Notification::Waits,
            Stage::Planned | Stage::Built(_) => Notification::Built,
            Stage::Done => Notification::There,
            Stage::Failed(number) => Notification::Failed(number),
        }
    }
}

/// A goal.
#[derive(Drop)]
pub(crate) struct Goal {
    path: StorePath,
    stage: Stage,
    /// The goals that started in the job that this one leads, itself among them.
    joined: Vec<GoalPlace>,
}

impl Goal {
    /// The path of the derivation that it builds.
    pub(crate) fn path(&self) -> &StorePath {
        &self.path
    }

    /// Whether it waits, as its user sees it, who reaches those at some places.
    pub(crate) fn is_waiting(&self, reached: UserSet) -> bool {
        matches!(self.stage.seen(reached), Stage::Waits)
    }
}

/// A user, and his goals in the order of their numbers, of which the first is 1.
#[derive(Drop)]
pub(crate) struct Asker {
    /// His name.
    pub(crate) name: User,
    /// His goals.
    pub(crate) goals: Vec<Goal>,
}

/// What was heard.
#[derive(Drop)]
pub(crate) struct Heard {
    alloc: Global,
    askers: Vec<Asker>,
    trust: Trust,
    inputs: Inputs,
}

/// Whom the user at a place reaches by trust.
fn reach_in(trust: &Trust, user: usize) -> UserSet {
    if user < MOST_USERS {
        trust.closure(user)
    } else {
        0
    }
}

/// Adds what the user at a place has by his goals, who reaches those at some places.
fn add_goals(
    inputs: &mut Inputs,
    user: usize,
    reached: UserSet,
    goals: &[Goal],
) -> Result<(), Refusal> {
    for goal in goals {
        inputs.add(&goal.path, user, goal.stage.seen(reached).notification())?;
    }
    Ok(())
}

impl Heard {
    /// What the rows of a history say, found in time that grows with their number.
    ///
    /// # Errors
    ///
    /// - `Memory` where memory was refused.
    pub(crate) fn new(
        alloc: Global,
        hashing: RandomState,
        rows: &[Arc<Row>],
    ) -> Result<Heard, Refusal> {
        let mut heard = Heard {
            alloc,
            askers: Vec::new(alloc),
            trust: Trust::new(),
            inputs: Inputs::new(alloc, hashing),
        };
        for row in rows {
            heard.hear(row)?;
        }
        heard.add_all_goals()?;
        Ok(heard)
    }

    /// The users who asked something, or were trusted, in the order in which they first were heard of.
    pub(crate) fn askers(&self) -> &[Asker] {
        self.askers.as_slice()
    }

    /// Whom the user at a place reaches by trust at the end.
    pub(crate) fn reach_of(&self, user: usize) -> UserSet {
        reach_in(&self.trust, user)
    }

    /// The derivations and their classes.
    pub(crate) fn inputs(&self) -> &Inputs {
        &self.inputs
    }

    /// Adds what each user has by his goals.
    fn add_all_goals(&mut self) -> Result<(), Refusal> {
        for (user, asker) in self.askers.iter().enumerate() {
            let reached = reach_in(&self.trust, user);
            add_goals(&mut self.inputs, user, reached, asker.goals.as_slice())?;
        }
        Ok(())
    }

    /// The place of a user who was heard of.
    fn find(&self, user: &User) -> Option<usize> {
        self.askers.iter().position(|asker| asker.name == *user)
    }

    /// The place of a user, who gets one where he has none. There is none for more users than a store has.
    fn place_of(&mut self, user: &User) -> Result<Option<usize>, Refusal> {
        if let Some(place) = self.find(user) {
            return Ok(Some(place));
        }
        let place = self.askers.len();
        if place >= MOST_USERS {
            return Ok(None);
        }
        let name = user.clone()?;
        let goals = Vec::new(self.alloc);
        self.askers.push(Asker { name, goals })?;
        Ok(Some(place))
    }

    /// The goal at a place.
    fn goal_at(&mut self, place: GoalPlace) -> Option<&mut Goal> {
        match self.askers.get_mut(place.user) {
            Some(asker) => asker.goals.get_mut(place.goal),
            None => None,
        }
    }

    /// Hears of a row.
    fn hear(&mut self, row: &Row) -> Result<(), Refusal> {
        let Some(user) = self.place_of(&row.event.actor)? else {
            return Ok(());
        };
        match &row.event.request {
            Request::AddDerivation(text) => self.hear_derivation(text.bytes(), &row.reply),
            Request::Offer(path, _) => self.hear_offer(user, path, &row.reply),
            Request::Trust(other) => self.hear_trust(user, other, true, &row.reply),
            Request::Distrust(other) => self.hear_trust(user, other, false, &row.reply),
            Request::Build(path) => self.hear_goal(user, path, &row.reply),
            Request::Plan(number) | Request::Start(number) | Request::Status(number) => {
                self.hear_stage(GoalPlace::new(user, *number), &row.reply)
            }
            Request::Finish(number, _) | Request::Fail(number, _) => {
                self.hear_end(GoalPlace::new(user, *number), &row.reply);
                Ok(())
            }
            _ => Ok(()),
        }
    }

    /// Hears what was answered to the derivation of a text.
    fn hear_derivation(&mut self, text: &[u8], reply: &Reply) -> Result<(), Refusal> {
        match reply {
            Reply::Derivation { path, class } => self.inputs.hear(text, path, class),
            _ => Ok(()),
        }
    }

    /// Hears what was answered to an output of the derivation at a path, which the user at a place offered.
    fn hear_offer(&mut self, user: usize, path: &StorePath, reply: &Reply) -> Result<(), Refusal> {
        match reply {
            Reply::Path(_) => self.inputs.add(path, user, Notification::There),
            _ => Ok(()),
        }
    }

    /// Hears what was answered to the user at a place, who trusts another from now on, or does not.
    fn hear_trust(
        &mut self,
        user: usize,
        other: &User,
        trusted: bool,
        reply: &Reply,
    ) -> Result<(), Refusal> {
        if !matches!(reply, Reply::Ok) {
            return Ok(());
        }
        let Some(other) = self.place_of(other)? else {
            return Ok(());
        };
        if user < MOST_USERS && other < MOST_USERS {
            let _before = self.trust.replace(user, other, trusted);
        }
        Ok(())
    }

    /// Hears what was answered to the user at a place, who asked that the derivation at a path be built.
    fn hear_goal(&mut self, user: usize, path: &StorePath, reply: &Reply) -> Result<(), Refusal> {
        let Reply::Goal(number) = reply else {
            return Ok(());
        };
        let goal = Goal {
            path: path.clone()?,
            stage: Stage::Waits,
            joined: Vec::new(self.alloc),
        };
        let place = GoalPlace::new(user, *number);
        if let Some(asker) = self.askers.get_mut(user) {
            if asker.goals.len() == place.goal {
                asker.goals.push(goal)?;
            }
        }
        Ok(())
    }

    /// How far a goal is of which this is told.
    fn stage_of(&self, status: &Status) -> Stage {
        match status {
            Status::Waiting => Stage::Waits,
            Status::Planned => Stage::Planned,
            Status::Building(job) => self.stage_in(job),
            Status::Done(_) => Stage::Done,
            Status::Failed(why) => Stage::Failed(why.number()),
        }
    }

    /// How far a goal is that is built in a job.
    fn stage_in(&self, job: &Job) -> Stage {
        match self.find(job.leader()) {
            Some(user) => Stage::Built(GoalPlace::new(user, job.number())),
            None => Stage::Waits,
        }
    }

    /// Hears how far the goal at a place is.
    fn hear_stage(&mut self, place: GoalPlace, reply: &Reply) -> Result<(), Refusal> {
        let Reply::Status(status) = reply else {
            return Ok(());
        };
        let stage = self.stage_of(status);
        self.set_stage(place, stage);
        match stage {
            Stage::Built(leader) => self.join(place, leader),
            _ => Ok(()),
        }
    }

    /// From now on the goal at a place is so far.
    fn set_stage(&mut self, place: GoalPlace, stage: Stage) {
        if let Some(goal) = self.goal_at(place) {
            goal.stage = stage;
        }
    }

    /// From now on the goal at a place is built in the job that another one leads.
    fn join(&mut self, place: GoalPlace, leader: GoalPlace) -> Result<(), Refusal> {
        if let Some(goal) = self.goal_at(leader) {
            goal.joined.push(place)?;
        }
        Ok(())
    }

    /// The goals that started in the job that the goal at a place leads. It has none from now on.
    fn take_joined(&mut self, leader: GoalPlace) -> Vec<GoalPlace> {
        let none = Vec::new(self.alloc);
        match self.goal_at(leader) {
            Some(goal) => mem::replace(&mut goal.joined, none),
            None => none,
        }
    }

    /// Hears how far the goal at a place is, whose job has ended: the goals in it end as that one does.
    fn hear_end(&mut self, leader: GoalPlace, reply: &Reply) {
        let Reply::Status(status) = reply else {
            return;
        };
        let ended = self.stage_of(status);
        for place in self.take_joined(leader) {
            self.end(place, leader, ended);
        }
        self.set_stage(leader, ended);
    }

    /// Ends the goal at a place as another one, if it is still built in the job that this leads. It waits again where
    /// its user does not reach that of the other.
    fn end(&mut self, place: GoalPlace, leader: GoalPlace, ended: Stage) {
        let reached = is_at(self.reach_of(place.user), leader.user);
        let Some(goal) = self.goal_at(place) else {
            return;
        };
        match goal.stage {
            Stage::Built(job) if job.is(leader) => {
                goal.stage = if reached { ended } else { Stage::Waits };
            }
            _ => {}
        }
    }
}
