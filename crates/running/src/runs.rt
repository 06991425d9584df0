//! Files whose lines are run as sessions of one store, each in a thread of its own, with workers that build.

ghost use Rattle.std.specs.Prelude.{◌≡◌, ◌<◌, ◌≤◌, ◌-◌, ◌^◌, min, [], All, true, false, length, map, Err, IfOk, IfErr};
ghost use Rattle.std.specs.Arc.{arc_value};
ghost use Rattle.model.specs.Limits.{most_charge, most_passes};
ghost use Rattle.model.specs.Worlds.{are_users};
ghost use Rattle.model.specs.declared.refusal.Refusal.TheVariants.{Memory, BadUsers, Quota};
ghost use Rattle.schedule.specs.Standing.{setup_for};
ghost use Rattle.history.specs.NewFronts.{AreTokensOf};
ghost use Rattle.book.specs.Keeping.{IsNew};
ghost use Rattle.running.specs.Calling.{IsTold};
ghost use Rattle.book.specs.Asking.{IsAskedBy};
ghost use Rattle.running.specs.Meeting.{HasMet, IsNew as IsNewPass, is_stopped, stops_by};
ghost use Rattle.teams.specs.Teams.{AllNew};
ghost use Rattle.teams.specs.Sessions.{AllOutputs, CannotBegin};
ghost use Rattle.running.specs.ServedSessions.{AreFirst, passes_needed, session_passes};
ghost use Rattle.running.specs.Runs.{AreServed, IsClosed, AreResults, are_accounted};

use crate::pass_lists::{Back, SharedLeft, SharedSession, end_sessions, numbers_of, sessions_for};
use book::{Front, FrontId, FrontTokens, History, Pass, Row};
use builder::Runner;
use model::{MOST_PASSES, Refusal};
use schedule::{Core, Limits, User};
use session::Faults;
use std::alloc::{AllocError, Global};
use std::hash::RandomState;
use std::io::Read;
use std::marker::Brand;
use std::sync::{Arc, Wait};
use std::thread::Threads;
use teams::{Part, Scheduler, SessionOutput, all_at_once, are_asked};

/// What the lines of files gave, and what they did.
#[derive(Drop)]
pub struct Results {
    /// What each file gave, in their order.
    pub outputs: Vec<SessionOutput>,
    /// The history of the store that they shared.
    pub history: History,
}

/// How many passes the sessions of files need: one for each, and one for each of their workers.
fn count_passes<I: Drop, Q: Drop>(parts: &[Part<I, Q>]) -> u64
    ensures { result ≡ min (passes_needed parts.now) (2 ^ 64 - 1) }
{
    let mut count = 0u64;
    for part in parts {
        count = count
            .saturating_add(part.runners.len() as u64)
            .saturating_add(1);
    }
    count
}

/// Whether each row is of the pass of a session or of a worker.
fn are_accounted(sessions: &[u64], workers: &[u64], rows: &[Arc<Row>]) -> bool
    ensures { result ≡ are_accounted sessions.now workers.now (map arc_value rows.now) }
{
    for shared in rows {
        let row = &**shared;
        if !sessions.contains(&row.pass) && !workers.contains(&row.pass) {
            return false;
        }
    }
    true
}

/// How many builders run at once: as many as the workers of the file that has most, from 1 to 64.
fn count_builders<I: Drop, Q: Drop>(parts: &[Part<I, Q>]) -> u64
    ensures some { 0 < result }
    ensures most { result ≤ 64 }
{
    let mut count = 0u64;
    for part in parts {
        count = count.max(part.runners.len() as u64);
    }
    count.max(1).min(64)
}

/// These users again.
fn copy_users(alloc: Global, users: &[User]) -> Result<Vec<User>, AllocError> {
    let mut copies = Vec::new(alloc);
    for user in users {
        copies.push(user.clone()?)?;
    }
    Ok(copies)
}

/// Serves sessions that share a store.
fn serve_all<
    'a,
    J: FrontId + Send + Sync,
    R: Threads + Wait + Sync,
    Q: Runner + Send + Drop,
    I: Read + Faults + Send + Drop,
>(
    rt: &R,
    alloc: Global,
    scheduler: &Scheduler,
    served_sessions: Vec<SharedSession<'a, J, R, Q, I>>,
) -> Result<Vec<SharedLeft<'a, J, R, Q>>, Refusal>
    requires { All (λ session. AllNew IsNewPass session.workers.items) served_sessions.items }
    ensures outputs { IfOk result (λ lefts. AllOutputs (IsTold J.setup) (IsAskedBy J.setup) Q.gives HasMet is_stopped stops_by
        I.remaining served_sessions.entry.items lefts.items) }
    ensures memory { IfErr result (λ why. why ≡ Memory) }
{
    all_at_once(rt, alloc, scheduler, served_sessions)
}

/// Room for what sessions give back, taken before they begin: for so many passes, and for the outputs of so
/// many files.
fn room_for<J: FrontId>(alloc: Global, passes: usize, files: usize) -> Result<Back<J>, AllocError>
    ensures passes { IfOk result (λ back. back.passes.items ≡ []) }
    ensures outputs { IfOk result (λ back. back.outputs.items ≡ []) }
    ensures workers { IfOk result (λ back. back.workers.items ≡ []) }
{
    Ok(Back {
        outputs: Vec::with_capacity(alloc, files)?,
        passes: Vec::with_capacity(alloc, passes)?,
        workers: Vec::with_capacity(alloc, passes)?,
    })
}

/// What the sessions of files leave.
#[derive(Drop)]
struct Ended<J: FrontId> {
    /// What they gave back.
    back: Back<J>,
    /// The numbers of the passes of the sessions.
    sessions: Vec<u64>,
}

/// Runs the lines of files as sessions that share a front, with these passes.
fn serve_front<
    J: FrontId + Send + Sync,
    R: Threads + Wait + Sync,
    Q: Runner + Send + Drop,
    I: Read + Faults + Send + Drop,
>(
    rt: &R,
    alloc: Global,
    front: &Front<J>,
    passes: Vec<Pass<J>>,
    scheduler: &Scheduler,
    parts: Vec<Part<I, Q>>,
) -> Result<Ended<J>, Refusal>
    requires { AreFirst passes.items }
    ensures served { IfOk result (λ ended.
        AreServed J.setup Q.gives I.remaining (session_passes (length passes.items) parts.items) parts.items
        ended.sessions.items ended.back.workers.items ended.back.passes.items ended.back.outputs.items) }
    ensures memory { IfErr result (λ why. why ≡ Memory) }
{
    let mut back = room_for::<J>(alloc, passes.len(), parts.len())?;
    let Ok(served_sessions) = sessions_for(rt, alloc, front, passes, parts) else {
        return Err(Refusal::Memory);
    };
    let sessions = numbers_of(alloc, &served_sessions)?;
    let lefts = serve_all(rt, alloc, scheduler, served_sessions)?;
    end_sessions(lefts, &mut back)?;
    Ok(Ended { back, sessions })
}

/// Closes a front of so many passes, once its sessions have ended.
///
/// # Errors
///
/// - `Memory` where memory was refused, where a pass has not come back, where a row is of no session and of no
///   worker, and where a row of a worker goes on with a goal that its file was not given before: of these four
///   only the first comes.
fn close_front<J: FrontId, R: Wait>(
    rt: &R,
    alloc: Global,
    front: Front<J>,
    count: u64,
    ended: Ended<J>,
) -> Result<Results, Refusal>
    requires { J.parts ≡ count }
    ensures closed { IfOk result (λ results. IsClosed J.setup count ended.sessions.items ended.back.workers.items
        ended.back.passes.items results.history × (results.outputs ≡ ended.back.outputs)) }
    ensures memory { IfErr result (λ why. why ≡ Memory) }
{
    let Ended { back, sessions } = ended;
    let Back {
        outputs,
        passes,
        workers,
    } = back;
    if passes.len() as u64 != count {
        return Err(Refusal::Memory);
    }
    let history = front.close(rt, passes);
    if !are_accounted(&sessions, &workers, &history.rows) {
        return Err(Refusal::Memory);
    }
    if !are_asked(alloc, &sessions, &history.rows)? {
        return Err(Refusal::Memory);
    }
    Ok(Results { outputs, history })
}

/// What a front is made of.
struct FrontStart {
    /// Its tokens.
    blank: FrontTokens,
    /// What answers.
    core: Core,
    /// How many passes it has.
    count: u64,
}

/// Runs the lines of files by a new core, behind a lock that their passes take, and closes it.
fn run_core<
    J: FrontId + Send + Sync,
    R: Threads + Wait + Sync,
    Q: Runner + Send + Drop,
    I: Read + Faults + Send + Drop,
>(
    rt: &R,
    alloc: Global,
    start: FrontStart,
    scheduler: &Scheduler,
    parts: Vec<Part<I, Q>>,
) -> Result<Results, Refusal>
    requires blank { AreTokensOf J.name J.parts J.stops J.table J.book start.blank }
    requires parts { J.parts ≡ start.count }
    requires core { IsNew J.setup start.core }
    requires some { (0 < start.count) × (start.count ≤ most_passes) }
    requires needed { start.count ≡ passes_needed parts.items }
    ensures results { IfOk result (AreResults J.setup Q.gives I.remaining parts.items) }
    ensures memory { IfErr result (λ why. why ≡ Memory) }
{
    let FrontStart { blank, core, count } = start;
    let (front, passes) = Front::<J>::new(rt, alloc, blank, core, count)?;
    let ended = serve_front(rt, alloc, &front, passes, scheduler, parts)?;
    close_front(rt, alloc, front, count, ended)
}

/// Runs the lines of files as sessions of one new store, whose users these are, under these limits. Each
/// session has a thread of its own, where one can be made, and workers that build what it waits for. Gives
/// what is printed for each file, in their order, and the history of the store.
///
/// The history is legal. It has what the lines of a file called as the rows of one pass, in their order,
/// with the replies that are printed for them, and no other row of that pass. What a line only reads, and
/// how far goals are, which a wait asks, is answered by a beginning of the history that has all that the
/// file was answered before, and has no row; and neither has what was answered 90 or 92. Each other row is
/// of the pass of a worker, who has a runner of his file: for each goal that he takes of those that a `wait` of his
/// file put, he plans it, starts it, asks what the job that the goal leads is built from, has his runner build that
/// once, and ends the job with what the runner gave. What he is told of a job is so after rows that the history begins with. Each row of a worker goes
/// on with a goal that a `build` line of his own file was given before.
/// No line is answered 92 unless the store was stopped, and none that only reads; and it is stopped only where a
/// line of a file was answered 90, whose own call, or whose worker's, did that.
///
/// # Errors
///
/// They come before any line is run, or no output is given.
///
/// - `BadUsers` where the list of users is ill-formed.
/// - `Quota` where there are more than 64 files and workers in all.
/// - `Memory` where memory was refused.
pub fn run<R: Threads + Wait + Sync, Q: Runner + Send + Drop, I: Read + Faults + Send + Drop>(
    rt: &R,
    alloc: Global,
    hashing: RandomState,
    users: Vec<User>,
    limits: Limits,
    parts: Vec<Part<I, Q>>,
) -> Result<Results, Refusal>
    requires { limits.charge ≤ most_charge }
    ensures results { IfOk result (AreResults (setup_for users limits) Q.gives I.remaining parts.items) }
    ensures users { IfOk result (λ _. are_users users.items ≡ true) }
    ensures why { IfErr result CannotBegin }
    ensures bad_users { IfErr result (λ why. why ≡ BadUsers → are_users users.items ≡ false) }
    ensures quota { IfErr result (λ why. why ≡ Quota → most_passes < passes_needed parts.items) }
    ensures full { most_passes < passes_needed parts.items → result ≡ Err Quota }
{
    let count = count_passes(&parts);
    if count > MOST_PASSES as u64 {
        return Err(Refusal::Quota);
    }
    let names = copy_users(alloc, &users)?;
    let core = Core::new(alloc, hashing, users, limits)?;
    if count == 0 {
        return Ok(Results {
            outputs: Vec::new(alloc),
            history: History {
                rows: Vec::new(alloc),
                stopped: false,
                cores: None,
            },
        });
    }
    let most = count_builders(&parts);
    let scheduler = Scheduler::new(alloc, hashing, names, parts.len(), most)?;
    let blank = FrontTokens::new(alloc, count)?;
    let start = FrontStart { blank, core, count };
    run_core::<Brand, _, _, _>(rt, alloc, start, &scheduler, parts)
}
