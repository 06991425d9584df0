//! Sessions whose goals are built by workers in threads of their own.

ghost use Rattle.std.specs.Prelude.{◌≡◌, true, Err, IfErr};
ghost use Rattle.model.specs.declared.refusal.Refusal.TheVariants.{Memory, Stopped};
ghost use Rattle.teams.specs.Sessions.{GivesUp, HasTold, PutsFor};

use crate::builders::{Builders, Waiting, put_ticket};
use crate::meeting::Meet;
use crate::scheduler::Scheduler;
use board::{GoalName, Task};
use builder::{Met, QueueId};
use events::{Event, Reply};
use model::Refusal;
use session::{Answer, GoalId};
use std::alloc::Global;
use std::marker::Model;
use std::sync::Wait;

/// A store that answers the events of a session, and those who build its goals.
#[derive(Drop)]
pub(crate) struct BuildingSession<'a, 'q, S: Meet + Drop, B: QueueId, R> {
    /// What waits.
    pub(crate) rt: &'a R,
    /// What answers.
    pub(crate) store: S,
    /// Who builds.
    pub(crate) builders: Builders<'a, 'q, B>,
}

/// Contracts see its store, the tickets that were put for its goals, and whether a wait was told that a worker met 90.
impl<'a, 'q, S: Meet + Drop, B: QueueId, R> Model for BuildingSession<'a, 'q, S, B, R> {
    ghost use Rattle.teams.specs.Sessions.{Seat};

    ghost Value = { Seat S };

    ghost view = { λ s. record { store = s.store; handed = s.builders } };
}

/// Puts goals of a session on the board that are new there.
///
/// # Errors
///
/// - `Memory` only where memory was refused.
fn add_goals<S: Meet>(
    store: &mut S,
    scheduler: &Scheduler,
    waiting: &mut Waiting,
    goals: &[GoalId],
) -> Result<(), Refusal>
    ensures met { S.met store.old store.new }
    ensures why { IfErr result (λ why. why ≡ Memory) }
{
    for place in waiting.known..goals.len() {
        let goal = &goals[place];
        let Ok(outlook) = store.outlook(goal.leader(), goal.number()) else {
            return Err(Refusal::Memory);
        };
        scheduler.want(waiting, goal, place, outlook)?;
        waiting.known = place + 1;
    }
    Ok(())
}

/// A session waits from now on, for these goals.
///
/// # Errors
///
/// - `Memory` only where memory was refused.
fn enter<S: Meet, B: QueueId, R: Wait>(
    rt: &R,
    store: &mut S,
    builders: &mut Builders<'_, '_, B>,
    goals: &[GoalId],
) -> Result<(), Refusal>
    ensures met { S.met store.old store.new }
    ensures handed { builders.new ≡ builders.old }
    ensures why { IfErr result (λ why. why ≡ Memory) }
{
    add_goals(store, builders.scheduler, &mut builders.waiting, goals)?;
    builders.scheduler.open(rt, &mut builders.waiting)?;
    Ok(())
}

/// Looks how a goal of a session may go on, and tells the board. One that could be built after its ticket as before
/// waits until its class comes.
///
/// # Errors
///
/// - `Memory` only where memory was refused, or where it could be built and there is no thread that builds.
fn look<S: Meet, R: Wait>(
    rt: &R,
    store: &mut S,
    scheduler: &Scheduler,
    waiting: &mut Waiting,
    goals: &[GoalId],
    name: GoalName,
) -> Result<(), Refusal>
    ensures met { S.met store.old store.new }
    ensures why { IfErr result (λ why. why ≡ Memory) }
{
    let Some(place) = waiting.place_of(name) else {
        return Err(Refusal::Memory);
    };
    if place >= goals.len() {
        return Err(Refusal::Memory);
    }
    let goal = &goals[place];
    let Ok(outlook) = store.outlook(goal.leader(), goal.number()) else {
        return Err(Refusal::Memory);
    };
    let outlook = waiting.judge(name, place, outlook)?;
    scheduler.file(rt, name, outlook)?;
    Ok(())
}

/// What a session that waits is to do next; nothing where it may go on, or a worker has met 90 or 92.
///
/// # Errors
///
/// - `Memory` only where memory was refused.
fn next_task<B: QueueId, R: Wait>(
    rt: &R,
    builders: &mut Builders<'_, '_, B>,
) -> Result<Option<Task>, Refusal>
    ensures handed { builders.new ≡ builders.old }
    ensures why { IfErr result (λ why. why ≡ Memory) }
{
    builders.waiting.hear(builders.ended.take(rt));
    if builders.waiting.has_met() {
        return Ok(None);
    }
    match builders.scheduler.next(rt, builders.waiting.seat)? {
        Task::Over | Task::Wait => Ok(None),
        task => Ok(Some(task)),
    }
}

/// Does what the board says: looks how a goal may go on, or puts a ticket for it.
///
/// # Errors
///
/// - `Memory` only where memory was refused, or where a goal could be built and there is no thread that builds.
fn do_task<S: Meet, B: QueueId, R: Wait>(
    rt: &R,
    store: &mut S,
    builders: &mut Builders<'_, '_, B>,
    goals: &[GoalId],
    task: Task,
) -> Result<(), Refusal>
    ensures met { S.met store.old store.new }
    ensures put { PutsFor goals.now builders.old.put builders.new.put }
    ensures told { builders.new.has_told ≡ builders.old.has_told }
    ensures why { IfErr result (λ why. why ≡ Memory) }
{
    let scheduler = builders.scheduler;
    match task {
        Task::Look(name) => look(rt, store, scheduler, &mut builders.waiting, goals, name),
        Task::Build(name) => {
            put_ticket(
                rt,
                scheduler,
                &mut builders.waiting,
                &mut builders.queue,
                goals,
                name,
            );
            Ok(())
        }
        Task::Over | Task::Wait => Ok(()),
    }
}

/// Does what the board says for the goals of a session, until it says that the session may go on, or a worker has
/// met 90 or 92.
///
/// # Errors
///
/// - `Memory` only where memory was refused, or where a goal could be built and there is no thread that builds.
fn work_through<S: Meet, B: QueueId, R: Wait>(
    rt: &R,
    store: &mut S,
    builders: &mut Builders<'_, '_, B>,
    goals: &[GoalId],
) -> Result<(), Refusal>
    ensures met { S.met store.old store.new }
    ensures put { PutsFor goals.now builders.old.put builders.new.put }
    ensures told { builders.new.has_told ≡ builders.old.has_told }
    ensures why { IfErr result (λ why. why ≡ Memory) }
{
    for _ in rt.forever() {
        let Some(task) = next_task(rt, builders)? else {
            return Ok(());
        };
        do_task(rt, store, builders, goals, task)?;
    }
    Ok(())
}

/// What a wait is told, in which this was met: 90 where a worker met it, and 92 only where the store finds that it is
/// stopped.
fn end_of(worked: Result<(), Refusal>, met: Met, is_stopped: bool) -> Result<(), Refusal>
    ensures memory { met.memory ≡ true → result ≡ Err Memory }
    ensures why { IfErr worked (λ why. why ≡ Memory) → IfErr result GivesUp }
    ensures stopped { IfErr worked (λ why. why ≡ Memory) → result ≡ Err Stopped → is_stopped ≡ true }
{
    if met.memory {
        return Err(Refusal::Memory);
    }
    worked?;
    if !met.stopped {
        Ok(())
    } else if is_stopped {
        Err(Refusal::Stopped)
    } else {
        Err(Refusal::Memory)
    }
}

/// Has goals built until none of them is under way, and none hangs on one that is. Then the store meets others, and
/// gives back what nobody holds, if it is to.
fn build_all<S: Meet + Drop, B: QueueId, R: Wait>(
    rt: &R,
    alloc: Global,
    store: &mut S,
    builders: &mut Builders<'_, '_, B>,
    goals: &[GoalId],
) -> Result<(), Refusal>
    ensures met { S.met store.old store.new }
    ensures why { IfErr result GivesUp }
    ensures stopped { result ≡ Err Stopped → S.stopped store.new ≡ true }
    ensures put { PutsFor goals.now builders.old.put builders.new.put }
    ensures told { HasTold builders.old.has_told builders.new.has_told result }
{
    builders.waiting.begin(alloc);
    let worked = enter(rt, store, builders, goals);
    let worked = match worked {
        Ok(()) => work_through(rt, store, builders, goals),
        Err(why) => Err(why),
    };
    builders.scheduler.close(rt, builders.waiting.seat);
    builders.waiting.wait_for_all(rt, builders.ended);
    let is_stopped = store.meet_others();
    store.sweep(alloc);
    builders.has_told |= builders.waiting.met.memory;
    end_of(worked, builders.waiting.met, is_stopped)
}

/// Each event is handed to the store. In a wait that meets others, tickets are put for goals of the session, and
/// nothing else.
impl<S: Meet + Drop, B: QueueId, R: Wait> Answer for BuildingSession<'_, '_, S, B, R> {
    ghost use Rattle.teams.specs.Sessions.{Answers, Waits};

    ghost answers = { Answers S.called };

    ghost waited = { Waits S.called S.met S.stopped };

    fn call(&mut self, alloc: Global, event: Event) -> Reply {
        let news = self
            .builders
            .scheduler
            .news_of(&event.actor, &event.request);
        let reply = self.store.call(alloc, event);
        self.builders.scheduler.tell(self.rt, news, &reply);
        reply
    }

    fn wait(&mut self, alloc: Global, goals: &[GoalId]) -> Reply {
        match build_all(self.rt, alloc, &mut self.store, &mut self.builders, goals) {
            Ok(()) => Reply::Ok,
            Err(why) => Reply::Refused(why),
        }
    }
}
