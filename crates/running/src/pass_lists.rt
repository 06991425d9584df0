//! The passes of a front, given to the sessions of files and to their workers, and given back.

ghost use Rattle.std.specs.Prelude.{◌≡◌, ◌+◌, ◌++◌, ◌∷◌, [], length, map, IfOk, IfErr};
ghost use Rattle.model.specs.declared.refusal.Refusal.TheVariants.{Quota};
ghost use Rattle.history.specs.Callers.{new_pass};
ghost use Rattle.teams.specs.Sessions.{CannotBegin};
ghost use Rattle.running.specs.ServedSessions.{AreFirst, IsSessionFor, AreSessionsFor, first_workers, session_passes, passes_for as needed_for, passes_left, all_passes, numbers_in, all_numbers};

use crate::shared::SharedStore;
use book::{Front, FrontId, Pass};
use builder::{Runner, Worker};
use model::Refusal;
use std::alloc::{AllocError, Global};
use std::sync::Wait;
use teams::{Left, Part, ServedSession, SessionOutput};

/// A worker of a session that shares a front with others.
type SharedWorker<'a, J, R, Q> = Worker<SharedStore<'a, J, R>, Q>;

/// Such a session.
pub(crate) type SharedSession<'a, J, R, Q, I> = ServedSession<SharedStore<'a, J, R>, Q, I>;

/// What such a session leaves.
pub(crate) type SharedLeft<'a, J, R, Q> = Left<SharedStore<'a, J, R>, Q>;

/// The last of some passes.
fn next_pass<J: FrontId>(passes: &mut Vec<Pass<J>>) -> Result<Pass<J>, Refusal>
    requires { AreFirst passes.old.items }
    ensures pass { IfOk result (λ pass. pass ≡ new_pass (length passes.new.items)) }
    ensures count { IfOk result (λ _. length passes.old.items ≡ length passes.new.items + 1) }
    ensures left { AreFirst passes.new.items }
    ensures none { IfErr result (λ why. why ≡ Quota) }
{
    match passes.pop() {
        Some(pass) => Ok(pass),
        None => Err(Refusal::Quota),
    }
}

/// Workers with these runners, each with a pass of its own.
fn workers_with<'a, J: FrontId, R: Wait, Q: Runner + Drop>(
    rt: &'a R,
    alloc: Global,
    front: &'a Front<J>,
    passes: &mut Vec<Pass<J>>,
    runners: Vec<Q>,
) -> Result<Vec<SharedWorker<'a, J, R, Q>>, Refusal>
    requires { AreFirst passes.old.items }
    ensures count { IfOk result (λ _. length passes.old.items
        ≡ length passes.new.items + length runners.items) }
    ensures left { AreFirst passes.new.items }
    ensures workers { IfOk result (λ workers. workers.items
        ≡ first_workers (length passes.new.items) runners.items) }
    ensures why { IfErr result CannotBegin }
{
    let mut workers = Vec::new(alloc);
    for runner in runners {
        let pass = next_pass(passes)?;
        let store = SharedStore {
            rt,
            front,
            pass,
            sweeps: false,
        };
        workers.push(Worker { store, runner })?;
    }
    Ok(workers)
}

/// The session of a file, at a seat: the last passes are those of its workers, and the one before them is that of its
/// session.
fn session_for<'a, J: FrontId, R: Wait, Q: Runner + Drop, I: Drop>(
    rt: &'a R,
    alloc: Global,
    front: &'a Front<J>,
    passes: &mut Vec<Pass<J>>,
    seat: usize,
    part: Part<I, Q>,
) -> Result<SharedSession<'a, J, R, Q, I>, Refusal>
    requires { AreFirst passes.old.items }
    ensures session { IfOk result (IsSessionFor (length passes.new.items) part) }
    ensures count { IfOk result (λ _. length passes.old.items
        ≡ length passes.new.items + needed_for part) }
    ensures left { AreFirst passes.new.items }
    ensures why { IfErr result CannotBegin }
{
    let Part {
        bytes,
        reader,
        runners,
        sweeps,
    } = part;
    let workers = workers_with(rt, alloc, front, passes, runners)?;
    let own = next_pass(passes)?;
    Ok(ServedSession {
        seat,
        store: SharedStore {
            rt,
            front,
            pass: own,
            sweeps,
        },
        workers,
        bytes,
        reader,
    })
}

/// The sessions of files.
pub(crate) fn sessions_for<'a, J: FrontId, R: Wait, Q: Runner + Drop, I: Drop>(
    rt: &'a R,
    alloc: Global,
    front: &'a Front<J>,
    passes: Vec<Pass<J>>,
    parts: Vec<Part<I, Q>>,
) -> Result<Vec<SharedSession<'a, J, R, Q, I>>, Refusal>
    requires { AreFirst passes.items }
    ensures served_sessions { IfOk result (λ served_sessions. AreSessionsFor
        (session_passes (length passes.items) parts.items) parts.items served_sessions.items) }
    ensures why { IfErr result CannotBegin }
{
    let mut passes = passes;
    let mut served_sessions = Vec::new(alloc);
    for part in parts {
        let seat = served_sessions.len();
        served_sessions.push(session_for(rt, alloc, front, &mut passes, seat, part)?)?;
    }
    Ok(served_sessions)
}

/// What sessions give back as they end.
#[derive(Drop)]
pub(crate) struct Back<J: FrontId> {
    /// What each file gave, in their order.
    pub(crate) outputs: Vec<SessionOutput>,
    /// The passes of the sessions and of their workers.
    pub(crate) passes: Vec<Pass<J>>,
    /// The numbers of the passes of the workers.
    pub(crate) workers: Vec<u64>,
}

/// Takes the passes of workers back.
fn take_back<J: FrontId, R: Wait, Q: Drop>(
    workers: Vec<SharedWorker<'_, J, R, Q>>,
    back: &mut Back<J>,
) -> Result<(), AllocError>
    ensures passes { IfOk result (λ _. back.new.passes.items
        ≡ back.old.passes.items ++ map (λ w. w.store) workers.entry.items) }
    ensures numbers { IfOk result (λ _. back.new.workers.items
        ≡ back.old.workers.items ++ numbers_in workers.entry.items) }
    ensures outputs { back.new.outputs ≡ back.old.outputs }
{
    for worker in workers {
        let pass = worker.store.pass;
        back.workers.push(pass.number())?;
        back.passes.push(pass)?;
    }
    Ok(())
}

/// Takes back the passes of a session and of its workers, and its output.
fn end_session<J: FrontId, R: Wait, Q: Runner + Drop>(
    left: SharedLeft<'_, J, R, Q>,
    back: &mut Back<J>,
) -> Result<(), AllocError>
    ensures outputs { IfOk result (λ _. back.new.outputs.items
        ≡ back.old.outputs.items ++ left.entry.output ∷ []) }
    ensures passes { IfOk result (λ _. back.new.passes.items
        ≡ back.old.passes.items ++ passes_left left.entry) }
    ensures numbers { IfOk result (λ _. back.new.workers.items
        ≡ back.old.workers.items ++ numbers_in left.entry.workers.items) }
{
    let Left {
        output,
        store,
        workers,
        has_told: _,
    } = left;
    back.passes.push(store.pass)?;
    take_back(workers, back)?;
    back.outputs.push(output)?;
    Ok(())
}

/// Takes back the passes of sessions and of their workers, and their outputs.
pub(crate) fn end_sessions<J: FrontId, R: Wait, Q: Runner + Drop>(
    lefts: Vec<SharedLeft<'_, J, R, Q>>,
    back: &mut Back<J>,
) -> Result<(), AllocError>
    ensures outputs { IfOk result (λ _. back.new.outputs.items
        ≡ back.old.outputs.items ++ map (λ left. left.output) lefts.entry.items) }
    ensures passes { IfOk result (λ _. back.new.passes.items ≡ back.old.passes.items ++ all_passes lefts.entry.items) }
    ensures numbers { IfOk result (λ _. back.new.workers.items ≡ back.old.workers.items ++ all_numbers lefts.entry.items) }
{
    for left in lefts {
        end_session(left, back)?;
    }
    Ok(())
}

/// The numbers of the passes of sessions.
pub(crate) fn numbers_of<J: FrontId, R: Wait, Q: Runner + Drop, I: Drop>(
    alloc: Global,
    served_sessions: &[SharedSession<'_, J, R, Q, I>],
) -> Result<Vec<u64>, AllocError>
    ensures { IfOk result (λ numbers. numbers.items ≡ map (λ session. session.store.caller.number) served_sessions.now) }
{
    let mut numbers = Vec::new(alloc);
    for session in served_sessions {
        numbers.push(session.store.pass.number())?;
    }
    Ok(numbers)
}
