//! The goals of all sessions, how far each is, and what may wake it.

ghost use Rattle.std.specs.Prelude.{◌≡◌, ◌<◌, ◌⊎◌, length, true, false, if◌then◌else◌, Some, None, IfOk, IfSome};
ghost use Rattle.std.specs.Prelude.{IfNone, OnErr, OnOk};
ghost use Rattle.model.specs.Limits.{most_users};
ghost use Rattle.board.specs.declared.stage.Stage.{Stage};
ghost use Rattle.board.specs.declared.stage.Stage.TheVariants.{Woken as IsWoken, Waits};
ghost use Rattle.board.specs.Stages.{goal_at, is_woken, is_waiting, is_under_way, is_filed, at_stage, looked};
ghost use Rattle.board.specs.Stages.{reaching, new_goal};
ghost use Rattle.board.specs.Rows.{IsWokenAt, NoneWoken};
ghost use Rattle.board.specs.Waking.{AreWoken, released, woken_by, woken_by_trust};
ghost use Rattle.board.specs.Boards.{GoalsView, no_goals, with_topic, with_more, with_goal, with_missed, with_wait};
ghost use Rattle.board.specs.Boards.{has_moved, IsWithin, AreMoreGivers, IsCome, IsSameBut, IsTrustChanged};

use crate::row::Row;
use crate::stage::{Asked, Goal, Stage};
use crate::table::Table;
use crate::waking::{release_all, wake_all, wake_reaching};
use std::alloc::{AllocError, Global};
use std::marker::Model;
use trust::UserSet;

/// What a goal may wait for: a class, or a job.
#[derive(Drop)]
pub struct Topic {
    /// The goals that may wait for it.
    pub(crate) watchers: Row,
    /// The goals that may give it.
    pub(crate) givers: Row,
}

/// The goals of all sessions, how far each is, and what may wake it.
pub struct Goals {
    pub(crate) alloc: Global,
    pub(crate) table: Table,
    pub(crate) topics: Vec<Topic>,
    lasts: Vec<u64>,
    arrivals: u64,
    missed: u64,
    trusted: u64,
}

impl Drop for Goals {
    fn drop(self) {
        let Goals {
            alloc: _,
            table: _,
            topics: _,
            lasts: _,
            arrivals: _,
            missed: _,
            trusted: _,
        } = self;
    }
}

impl Model for Goals {
    ghost use Rattle.board.specs.Boards.{GoalsView, AreKept};

    ghost Value = { GoalsView };

    ghost view = { λ b. record {
      goals = b.table.goals;
      waiting = b.table.waiting;
      lasts = b.lasts.items;
      arrivals = b.arrivals;
      missed = b.missed;
      trusted = b.trusted;
    } };

    ghost invariant = { λ b. AreKept b.table.goals b.topics.items b.lasts.items };
}

/// A place more among those that may give a topic.
///
/// # Errors
///
/// - `AllocError` only where memory was refused. Nothing has changed then.
#[tactic(auto, using(crate::proofs::TopicLemmas::more_givers))]
fn put_giver(topics: &mut Vec<Topic>, topic: usize, place: usize) -> Result<(), AllocError>
    requires { topic < length topics.old.items }
    ensures put { OnOk result (AreMoreGivers topic place topics.old.items topics.new.items) }
    ensures left { OnErr result (topics.new.items ≡ topics.old.items) }
{
    topics[topic].givers.put(place)
}

impl Goals {
    /// No goals and no topics; so many sessions, none of which waits.
    ///
    /// # Errors
    ///
    /// - `AllocError` only where memory was refused.
    pub fn new(alloc: Global, sessions: usize) -> Result<Goals, AllocError>
        ensures { IfOk result (λ b. b ≡ no_goals sessions) }
    {
        Ok(Goals {
            alloc,
            table: Table::new(alloc, sessions)?,
            topics: Vec::new(alloc),
            lasts: Vec::new(alloc),
            arrivals: 0,
            missed: 0,
            trusted: 0,
        })
    }

    /// A topic more, and its number. What had no topic may have been it.
    ///
    /// # Errors
    ///
    /// - `AllocError` only where memory was refused. Nothing has changed then.
    pub fn add_topic(&mut self) -> Result<usize, AllocError>
        ensures number { IfOk result (λ topic. topic ≡ length self.old.lasts) }
        ensures added { OnOk result (self.new ≡ with_topic self.old) }
        ensures left { OnErr result (self.new ≡ self.old) }
    {
        let topic = self.lasts.len();
        self.lasts.reserve(1)?;
        self.topics.push(Topic {
            watchers: Row::new(self.alloc),
            givers: Row::new(self.alloc),
        })?;
        self.lasts.push(self.missed)?;
        Ok(topic)
    }

    /// A goal more, and its place. Its session is to look.
    ///
    /// # Errors
    ///
    /// - `AllocError` only where memory was refused. Nothing has changed then.
    pub fn add(&mut self, asked: Asked) -> Result<usize, AllocError>
        requires user { asked.user < most_users }
        requires seat { asked.seat < length self.old.waiting }
        requires class { asked.class < length self.old.lasts }
        requires job { asked.job < length self.old.lasts }
        ensures place { IfOk result (λ place. place ≡ length self.old.goals) }
        ensures added { OnOk result (self.new ≡ with_more (new_goal asked) self.old) }
        ensures left { OnErr result (self.new ≡ self.old) }
    {
        let place = self.table.len();
        put_giver(&mut self.topics, asked.class, place)?;
        put_giver(&mut self.topics, asked.job, place)?;
        let place = self.table.add(Goal {
            user: asked.user,
            number: asked.number,
            seat: asked.seat,
            class: asked.class,
            job: asked.job,
            reached: asked.reached,
            stage: Stage::Woken,
            since: 0,
        })?;
        Ok(place)
    }

    /// How many topics there are.
    pub fn topics(&self) -> usize
        ensures { result ≡ length self.now.lasts }
    {
        self.lasts.len()
    }

    /// How many goals there are.
    pub fn len(&self) -> usize
        ensures { result ≡ length self.now.goals }
    {
        self.table.len()
    }

    /// The goal at a place.
    pub fn goal(&self, place: usize) -> Goal
        requires { place < length self.now.goals }
        ensures goal { result ≡ goal_at self.now.goals place }
        ensures seat { result.seat < length self.now.waiting }
        ensures within { IsWithin (length self.now.lasts) result }
    {
        let _ = &self.topics;
        self.table.goal(place)
    }

    /// A goal of a session that was to be looked at, and is looked at from now on, if there is one.
    pub fn look(&mut self, seat: usize) -> Option<usize>
        requires { seat < length self.old.waiting }
        ensures found { IfSome result (λ place. IsWokenAt seat self.old.goals place) }
        ensures looked { IfSome result (λ place.
            self.new ≡ with_goal place (looked self.old.arrivals (goal_at self.old.goals place)) self.old) }
        ensures none { IfNone result (NoneWoken seat self.old.goals × (self.new ≡ self.old)) }
    {
        self.table.look(seat, self.arrivals)
    }

    /// Whether a goal of a session may be one to be looked at.
    pub fn may_look(&self, seat: usize) -> bool
        requires { seat < length self.now.waiting }
        ensures { result ≡ false → NoneWoken seat self.now.goals }
    {
        self.table.may_look(seat)
    }

    /// The goal at a place is at a stage at which it neither waits nor is to be looked at, and its user reaches those.
    pub fn settle(&mut self, place: usize, reached: UserSet, stage: Stage)
        requires place { place < length self.old.goals }
        requires rests { is_woken stage ≡ false }
        requires unfiled { is_filed stage ≡ false }
        ensures { self.new ≡ with_goal place (reaching reached (at_stage stage (goal_at self.old.goals place))) self.old }
    {
        let mut goal = self.table.goal(place);
        goal.stage = stage;
        goal.reached = reached;
        self.table.set(place, goal);
    }

    /// The goal at a place waits for a topic, and its user reaches those.
    ///
    /// # Errors
    ///
    /// - `AllocError` only where memory was refused. Nothing has changed then.
    pub fn wait_for(
        &mut self,
        place: usize,
        reached: UserSet,
        topic: usize,
    ) -> Result<(), AllocError>
        requires place { place < length self.old.goals }
        requires topic { topic < length self.old.lasts }
        ensures waits { OnOk result
            (self.new ≡ with_goal place (reaching reached (at_stage (Waits topic) (goal_at self.old.goals place))) self.old) }
        ensures left { OnErr result (self.new ≡ self.old) }
    {
        let mut goal = self.table.goal(place);
        self.topics[topic].watchers.put(place)?;
        goal.stage = Stage::Waits(topic);
        goal.reached = reached;
        self.table.set(place, goal);
        Ok(())
    }

    /// The goal at a place is to be looked at.
    pub fn wake(&mut self, place: usize)
        requires { place < length self.old.goals }
        ensures { self.new ≡ with_goal place (at_stage IsWoken (goal_at self.old.goals place)) self.old }
    {
        self.table.wake(place);
    }

    /// Goals of a session that are looked at, or can be built, are to be looked at again.
    pub fn release(&mut self, seat: usize)
        ensures same { IsSameBut self.old self.new }
        ensures released { AreWoken (λ place. released seat) self.old.goals self.new.goals }
    {
        release_all(&mut self.table, seat);
    }

    /// A topic has come: those that wait for it are to be looked at.
    pub fn arrive(&mut self, topic: usize)
        requires { topic < length self.old.lasts }
        ensures came { IsCome topic self.old self.new }
        ensures woken { AreWoken (λ place. woken_by topic) self.old.goals self.new.goals }
    {
        self.arrivals = self.arrivals.saturating_add(1);
        self.lasts[topic] = self.arrivals;
        let watchers = std::mem::replace(&mut self.topics[topic].watchers, Row::new(self.alloc));
        wake_all(&mut self.table, watchers.places(), topic);
    }

    /// Something came that had no topic.
    pub fn miss(&mut self)
        ensures { self.new ≡ with_missed self.old }
    {
        self.arrivals = self.arrivals.saturating_add(1);
        self.missed = self.arrivals;
    }

    /// The trust of a user has changed: those that wait, and whose user reaches him, are to be looked at.
    pub fn trust_changed(&mut self, user: usize)
        requires { user < most_users }
        ensures changed { IsTrustChanged self.old self.new }
        ensures woken { AreWoken (λ place. woken_by_trust user) self.old.goals self.new.goals }
    {
        self.arrivals = self.arrivals.saturating_add(1);
        self.trusted = self.arrivals;
        wake_reaching(&mut self.table, user);
    }

    /// Whether what the goal at a place would wait for, or whom its user trusts, has changed since its session began
    /// to look.
    pub fn has_moved(&self, place: usize, topic: usize) -> bool
        requires place { place < length self.now.goals }
        requires topic { topic < length self.now.lasts }
        ensures { result ≡ has_moved self.now topic (goal_at self.now.goals place).since }
    {
        let since = self.table.goal(place).since;
        since < self.lasts[topic] || since < self.trusted
    }

    /// From now on a session waits, or does not.
    pub fn set_waiting(&mut self, seat: usize, waits: bool)
        requires { seat < length self.old.waiting }
        ensures { self.new ≡ with_wait seat waits self.old }
    {
        self.table.set_waiting(seat, waits);
    }

    /// Whether a session waits.
    pub fn is_waiting(&self, seat: usize) -> bool
        requires { seat < length self.now.waiting }
        ensures { result ≡ is_waiting self.now.waiting seat }
    {
        self.table.is_waiting(seat)
    }

    /// Whether the goal at a place is under way.
    pub fn is_under_way(&self, place: usize) -> bool
        requires { place < length self.now.goals }
        ensures { result ≡ is_under_way self.now.waiting (goal_at self.now.goals place) }
    {
        self.table.is_under_way(place)
    }
}
