//! The session of a file, served while its workers build in threads of their own.

ghost use Rattle.std.specs.Prelude.{◌≡◌, ◌++◌, ◌∷◌, [], All, Ok, Err, IfOk, IfErr, MatchResult};
ghost use Rattle.std.specs.Io.KnownBytes.{prepend_known};
ghost use Rattle.model.specs.declared.refusal.Refusal.TheVariants.{Memory};
ghost use Rattle.teams.specs.Teams.{AllNew};
ghost use Rattle.teams.specs.Sessions.{Outputs, OutputOf, AllOutputs, AllLeave, IsLeftBy, kept_fault};

use crate::builders::{Builders, Waiting};
use crate::ended_tickets::{EndedTickets, Reporter};
use crate::meeting::Meet;
use crate::scheduler::Scheduler;
use crate::waiting::BuildingSession;
use builder::{Hands, QueueId, RoundEnd, Runner, TicketQueue, TicketSource, Worker, round};
use model::{Mode, Refusal};
use session::{Counted, Faults, serve_behind};
use std::alloc::Global;
use std::io::Read;
use std::sync::Wait;
use std::thread;
use std::thread::Threads;

/// A file whose lines are run, and what builds for it.
#[derive(Drop)]
pub struct Part<I: Drop, Q: Drop> {
    /// What was read of it.
    pub bytes: Vec<u8>,
    /// What gives the rest of it.
    pub reader: I,
    /// What builds the goals of its lines: a worker has each.
    pub runners: Vec<Q>,
    /// Whether the store gives back what nobody holds after each wait, as far as there is memory to find it. What is
    /// printed is the same.
    pub sweeps: bool,
}

/// What the lines of a file gave.
#[derive(Drop)]
pub struct SessionOutput {
    /// What is printed for them.
    pub text: Vec<u8>,
    /// How they ended.
    pub ended: Result<(), Refusal>,
}

/// A session that is to be served: the store that answers it, and the workers that build for it.
#[derive(Drop)]
pub struct ServedSession<S: Meet + Drop, Q: Runner + Drop, I: Drop> {
    /// Its seat at the board: how many sessions stand before it.
    pub seat: usize,
    /// What answers.
    pub store: S,
    /// Who builds.
    pub workers: Vec<Worker<S, Q>>,
    /// What was read of the file.
    pub bytes: Vec<u8>,
    /// What gives the rest of it.
    pub reader: I,
}

/// What a session leaves when it was served: its output, the store that answered it, and its workers.
#[derive(Drop)]
pub struct Left<S: Meet + Drop, Q: Runner + Drop> {
    /// What its lines gave.
    pub output: SessionOutput,
    /// What answered.
    pub store: S,
    /// Who built: the workers with whom it began.
    pub workers: Vec<Worker<S, Q>>,
    /// Whether a wait was told that a worker met 90.
    pub has_told: bool,
}

/// How a session ended whose text is kept in memory: what could not be written found none.
fn kept_end(ended: Result<(), Refusal>) -> Result<(), Refusal>
    ensures { MatchResult ended (λ _. result ≡ Ok tt) (λ why. result ≡ Err (kept_fault why)) }
{
    match ended {
        Err(Refusal::OutputFault) => Err(Refusal::Memory),
        ended => ended,
    }
}

/// Serves the lines of a file.
fn serve_lines<S: Meet + Drop, B: QueueId, I: Read + Faults + Drop, R: Wait>(
    alloc: Global,
    bytes: Vec<u8>,
    reader: I,
    building_session: &mut BuildingSession<'_, '_, S, B, R>,
) -> SessionOutput
    ensures { Outputs S.called S.met S.stopped building_session.old building_session.new
        (prepend_known bytes.items (I.remaining reader)) result }
{
    let mut reader = reader;
    let mut writer = Counted::new(Vec::new(alloc));
    let ended = serve_behind(
        alloc,
        Mode::Run,
        &bytes,
        &mut reader,
        &mut writer,
        building_session,
    );
    SessionOutput {
        text: writer.into_inner(),
        ended: kept_end(ended),
    }
}

/// What a file gave whose session could not begin for want of memory.
fn nothing_served(alloc: Global) -> SessionOutput
    ensures { (result.text.items ≡ []) × (result.ended ≡ Err Memory) }
{
    SessionOutput {
        text: Vec::new(alloc),
        ended: Err(Refusal::Memory),
    }
}

/// The lines of a file, which put tickets for the goals that they wait for.
#[derive(Drop)]
pub(crate) struct SessionSource<'a, S: Meet + Drop, I: Drop> {
    alloc: Global,
    /// What is built next, for all sessions.
    scheduler: &'a Scheduler,
    /// Its seat there.
    seat: usize,
    /// Where its workers tell which tickets they have ended with.
    ended: &'a EndedTickets,
    /// What answers.
    pub(crate) store: S,
    /// What was read of the file.
    pub(crate) bytes: Vec<u8>,
    /// What gives the rest of it.
    pub(crate) reader: I,
}

/// What is left of them when all are answered.
#[derive(Drop)]
pub(crate) struct SessionEnd<S: Meet + Drop> {
    /// What they gave.
    pub(crate) output: SessionOutput,
    /// What answered.
    pub(crate) store: S,
    /// Whether a wait was told that a worker met 90.
    pub(crate) has_told: bool,
}

impl<S: Meet + Drop, I: Read + Faults + Drop> TicketSource for SessionSource<'_, S, I> {
    ghost use Rattle.teams.specs.Sessions.{HasServed};

    type Left = SessionEnd<S>;

    ghost gave = { λ source tickets left. HasServed S.called S.met S.stopped I.remaining source tickets left };

    fn feed<'q, B: QueueId, R: Wait>(
        self,
        rt: &R,
        threads: usize,
        queue: TicketQueue<'q, B>,
    ) -> (SessionEnd<S>, TicketQueue<'q, B>) {
        let SessionSource {
            alloc,
            scheduler,
            seat,
            ended,
            store,
            bytes,
            reader,
        } = self;
        let mut building_session = BuildingSession {
            rt,
            store,
            builders: Builders {
                scheduler,
                ended,
                waiting: Waiting::new(alloc, seat, threads),
                queue,
                has_told: false,
            },
        };
        let output = serve_lines(alloc, bytes, reader, &mut building_session);
        let BuildingSession {
            store,
            builders,
            ..
        } = building_session;
        let Builders {
            queue,
            has_told,
            ..
        } = builders;
        (
            SessionEnd {
                output,
                store,
                has_told,
            },
            queue,
        )
    }
}

/// What a session leaves whose lines were served in one round of its workers.
///
/// # Errors
///
/// - `Memory` where a worker met 90 and no wait was told so: that does not come.
fn left_by<S: Meet + Drop, Q: Runner + Drop>(
    end: RoundEnd<SessionEnd<S>, S, Q>,
) -> Result<Left<S, Q>, Refusal>
    ensures left { IfOk result (λ left. IsLeftBy end left) }
    ensures memory { IfErr result (λ why. why ≡ Memory) }
{
    let RoundEnd {
        left,
        workers,
        is_whole: _,
        has_met_memory,
    } = end;
    let SessionEnd {
        output,
        store,
        has_told,
    } = left;
    if has_met_memory && !has_told {
        return Err(Refusal::Memory);
    }
    Ok(Left {
        output,
        store,
        workers,
        has_told,
    })
}

/// Serves the lines of a session while its workers build, each in a thread of its own. Where they tell which tickets
/// they have ended with is for this session alone.
///
/// # Errors
///
/// - `Memory` where a worker met 90 and no wait was told so: that does not come.
fn serve_session<
    'a,
    S: Meet + Send + Drop,
    Q: Runner + Send + Drop,
    I: Read + Faults + Send + Drop,
    R: Threads + Wait + Sync,
>(
    rt: &R,
    alloc: Global,
    scheduler: &'a Scheduler,
    ended: &'a EndedTickets,
    session: ServedSession<S, Q, I>,
) -> Result<Left<S, Q>, Refusal>
    requires { AllNew S.is_new session.workers.items }
    ensures output { IfOk result (OutputOf S.called S.asked Q.gives S.met S.stopped S.stops I.remaining session) }
    ensures memory { IfErr result (λ why. why ≡ Memory) }
{
    let ServedSession {
        seat,
        store,
        workers,
        bytes,
        reader,
    } = session;
    let source = SessionSource {
        alloc,
        scheduler,
        seat,
        ended,
        store,
        bytes,
        reader,
    };
    let reports = Reporter { ended, scheduler };
    match round(rt, alloc, reports, Hands { source, workers }) {
        Ok(end) => left_by(end),
        Err(hands) => {
            let Hands { source, workers } = hands;
            let SessionSource { store, .. } = source;
            Ok(Left {
                output: nothing_served(alloc),
                store,
                workers,
                has_told: false,
            })
        }
    }
}

/// What all sessions leave, in their order, where each leaves something.
fn all_left<S: Meet + Drop, Q: Runner + Drop>(
    alloc: Global,
    results: Vec<Result<Left<S, Q>, Refusal>>,
) -> Result<Vec<Left<S, Q>>, Refusal>
    ensures left { IfOk result (λ lefts. AllLeave results.items lefts.items) }
    ensures memory { All (λ result. IfErr result (λ why. why ≡ Memory)) results.items → IfErr result (λ why. why ≡ Memory) }
{
    let mut lefts = Vec::new(alloc);
    for result in results {
        lefts.push(result?)?;
    }
    Ok(lefts)
}

/// Serves sessions at once, each in a thread of its own where one can be made. No worker of any has made a call.
///
/// # Errors
///
/// - `Memory` only where memory was refused: no output is given.
pub fn all_at_once<
    S: Meet + Send + Drop,
    Q: Runner + Send + Drop,
    I: Read + Faults + Send + Drop,
    R: Threads + Wait + Sync,
>(
    rt: &R,
    alloc: Global,
    scheduler: &Scheduler,
    served_sessions: Vec<ServedSession<S, Q, I>>,
) -> Result<Vec<Left<S, Q>>, Refusal>
    requires { All (λ session. AllNew S.is_new session.workers.items) served_sessions.items }
    ensures outputs { IfOk result (λ lefts. AllOutputs S.called S.asked Q.gives S.met S.stopped S.stops I.remaining
        served_sessions.items lefts.items) }
    ensures memory { IfErr result (λ why. why ≡ Memory) }
{
    let serve = |session: ServedSession<S, Q, I>| -> Result<Left<S, Q>, Refusal>
        requires { AllNew S.is_new session.workers.items }
        ensures output { IfOk result (OutputOf S.called S.asked Q.gives S.met S.stopped S.stops I.remaining session) }
        ensures memory { IfErr result (λ why. why ≡ Memory) }
    {
        let ended = EndedTickets::new();
        serve_session(rt, alloc, scheduler, &ended, session)
    };
    let results = thread::map_vec(rt, served_sessions, &serve)?;
    all_left(alloc, results)
}
