//! One session, served again and again: each of its reads fails in turn, and each of its writes.

use model::Refusal;
use schedule::{Core, Event, Reply, Request, User};
use session::{Ahead, GoalId, Mode, answer_text, read_ahead, serve};
use std::alloc::{AllocError, Global};
use std::hash::RandomState;
use trial_lines::{Answer, Calls, Sink, Source, number, store_of, users_in, with_newlines};

/// A store that answers each event by a step, and keeps a copy of it.
#[derive(Drop)]
struct Recorder {
    core: Core,
    events: Vec<Event>,
    /// Whether memory was refused for one of them, so that it is not among them.
    has_lost: bool,
}

impl Recorder {
    /// Keeps an event.
    fn keep(&mut self, event: &Event) -> Result<(), AllocError> {
        self.events.push(event.clone()?)?;
        Ok(())
    }
}

/// No line of the service waits.
impl session::Answer for Recorder {
    ghost answers = { λ old event reply new. Unit {0} };

    ghost waited = { λ old goals reply new. Unit {0} };

    fn call(&mut self, alloc: Global, event: Event) -> Reply {
        if let Err(error) = self.keep(&event) {
            self.has_lost = true;
            return Reply::Refused(Refusal::from(error));
        }
        self.core.step(alloc, event)
    }

    fn wait(&mut self, _alloc: Global, _goals: &[GoalId]) -> Reply {
        Reply::Ok
    }
}

/// What is served: an input, to the users that it names, by calls that move at most so many bytes.
#[derive(Drop)]
struct Trial {
    hashing: RandomState,
    users: Vec<User>,
    input: Vec<u8>,
    step: usize,
}

/// The trial of `STEP INPUT`.
fn trial_of(alloc: Global, hashing: RandomState, argument: &str) -> Result<Trial, Refusal> {
    let (step, rest) = number(argument)?;
    let input = with_newlines(alloc, rest)?;
    let users = users_in(alloc, &input)?;
    Ok(Trial {
        hashing,
        users,
        input,
        step,
    })
}

/// A store for the users of a trial.
fn store_for(alloc: Global, trial: &Trial) -> Result<Core, Refusal> {
    let users = trial.users.clone()?;
    store_of(alloc, trial.hashing, users)
}

/// Which device fails.
#[derive(Clone, Copy)]
enum Device {
    Reader,
    Writer,
}

impl Device {
    /// What a call of it does.
    fn deed(self) -> &'static str {
        match self {
            Device::Reader => "read",
            Device::Writer => "write",
        }
    }

    /// How a session ends when it fails.
    fn refusal(self) -> Refusal {
        match self {
            Device::Reader => Refusal::InputFault,
            Device::Writer => Refusal::OutputFault,
        }
    }
}

/// A call that fails, and whether the call right before it moves a single byte.
#[derive(Clone, Copy)]
struct Fault {
    device: Device,
    call: usize,
    is_after_byte: bool,
}

impl Fault {
    /// What the calls of the reader do, and those of the writer.
    fn calls(self, step: usize) -> (Calls, Calls) {
        let part = if self.is_after_byte {
            self.call.saturating_sub(1)
        } else {
            0
        };
        let failing = Calls::new(step, part, self.call);
        match self.device {
            Device::Reader => (failing, Calls::sound(step)),
            Device::Writer => (Calls::sound(step), failing),
        }
    }

    /// Adds which call it is.
    fn tell(self, out: &mut Answer) {
        out.add_text(self.device.deed());
        out.add_text(" ");
        out.add(&self.call);
        if self.is_after_byte {
            out.add_text(" after a byte");
        }
    }
}

/// A session that has ended: how it ended, how often it read and wrote, what it wrote, and its store.
#[derive(Drop)]
struct Served {
    ended: Result<(), Refusal>,
    reads: usize,
    sink: Sink,
    store: Recorder,
}

/// Serves the input of a trial, by a reader and a writer of these calls.
fn serve_once(
    alloc: Global,
    trial: &Trial,
    (reads, writes): (Calls, Calls),
) -> Result<Served, Refusal> {
    let mut source = Source::new(trial.input.clone()?, reads);
    let mut sink = Sink::new(alloc, writes);
    let mut store = Recorder {
        core: store_for(alloc, trial)?,
        events: Vec::new(alloc),
        has_lost: false,
    };
    let ended = serve(alloc, Mode::Service, &mut source, &mut sink, &mut store);
    if store.has_lost {
        return Err(Refusal::Memory);
    }
    Ok(Served {
        ended,
        reads: source.count.made,
        sink,
        store,
    })
}

/// The session of a trial of which no call fails, and what is asked of stores that are compared.
#[derive(Drop)]
struct Plain {
    text: Vec<u8>,
    reads: usize,
    writes: usize,
    questions: Vec<Event>,
}

/// What may be asked of a path, a class or a goal that a request names first.
fn question_in(request: &Request) -> Result<Option<Request>, AllocError> {
    match request {
        Request::Fetch(path) | Request::Offer(path, _) | Request::Build(path) => {
            Ok(Some(Request::Fetch(path.clone()?)))
        }
        Request::Closure(class)
        | Request::Take(class)
        | Request::Pin(class, _)
        | Request::Forget(class, _)
        | Request::Unpin(class) => Ok(Some(Request::Closure(class.clone()?))),
        Request::Status(goal)
        | Request::Plan(goal)
        | Request::Start(goal)
        | Request::Finish(goal, _)
        | Request::Fail(goal, _) => Ok(Some(Request::Status(*goal))),
        _ => Ok(None),
    }
}

/// Adds a question by each of the users.
fn add_for_each(
    questions: &mut Vec<Event>,
    users: &[User],
    request: &Request,
) -> Result<(), AllocError> {
    for user in users {
        let actor = user.clone()?;
        let request = request.clone()?;
        questions.push(Event { actor, request })?;
    }
    Ok(())
}

/// The questions in some events, each by each of the users.
fn questions_in(alloc: Global, users: &[User], events: &[Event]) -> Result<Vec<Event>, AllocError> {
    let mut questions = Vec::new(alloc);
    for event in events {
        if let Some(request) = question_in(&event.request)? {
            add_for_each(&mut questions, users, &request)?;
        }
    }
    Ok(questions)
}

/// The session of a trial of which no call fails.
fn plain_of(alloc: Global, trial: &Trial) -> Result<Plain, Refusal> {
    let calls = Calls::sound(trial.step);
    let Served {
        ended,
        reads,
        sink,
        store,
    } = serve_once(alloc, trial, (calls, calls))?;
    ended?;
    let questions = questions_in(alloc, &trial.users, &store.events)?;
    let writes = sink.count.made;
    Ok(Plain {
        text: sink.bytes,
        reads,
        writes,
        questions,
    })
}

/// The store of a trial after these events, one after another.
fn replayed(alloc: Global, trial: &Trial, events: &[Event]) -> Result<Core, Refusal> {
    let mut core = store_for(alloc, trial)?;
    for event in events {
        let _reply = core.step(alloc, event.clone()?);
    }
    Ok(core)
}

/// What a store answers to a question.
fn answer_to(alloc: Global, core: &mut Core, question: &Event) -> Result<Vec<u8>, Refusal> {
    let reply = core.step(alloc, question.clone()?);
    answer_text(alloc, 1, question.actor.bytes(), &reply)
}

/// Whether two stores answer each question alike.
fn answer_alike(
    alloc: Global,
    one: &mut Core,
    other: &mut Core,
    questions: &[Event],
) -> Result<bool, Refusal> {
    for question in questions {
        let text = answer_to(alloc, one, question)?;
        if text != answer_to(alloc, other, question)? {
            return Ok(false);
        }
    }
    Ok(true)
}

/// Whether a store answers each question as the replay of its history does.
fn is_its_replay(
    alloc: Global,
    trial: &Trial,
    store: &mut Recorder,
    questions: &[Event],
) -> Result<bool, Refusal> {
    let mut again = replayed(alloc, trial, &store.events)?;
    answer_alike(alloc, &mut store.core, &mut again, questions)
}

/// What is not as it should be where a call fails, if anything is not.
fn flaw_of(
    alloc: Global,
    trial: &Trial,
    plain: &Plain,
    fault: Fault,
) -> Result<Option<&'static str>, Refusal> {
    let mut served = serve_once(alloc, trial, fault.calls(trial.step))?;
    if served.ended != Err(fault.device.refusal()) {
        return Ok(Some("another end"));
    }
    if !plain.text.starts_with(&served.sink.bytes) {
        return Ok(Some("another text"));
    }
    if !is_its_replay(alloc, trial, &mut served.store, &plain.questions)? {
        return Ok(Some("another store"));
    }
    Ok(None)
}

/// Adds what is not as it should be where a call fails. Whether there is anything.
fn tell_flaw(
    alloc: Global,
    trial: &Trial,
    plain: &Plain,
    fault: Fault,
    out: &mut Answer,
) -> Result<bool, Refusal> {
    let Some(flaw) = flaw_of(alloc, trial, plain, fault)? else {
        return Ok(false);
    };
    fault.tell(out);
    out.add_text(": ");
    out.add_text(flaw);
    Ok(true)
}

/// Lets each of so many calls of a device fail in turn, alone and after a byte. Adds the first flaw, if
/// there is one, and gives whether there is.
fn tell_first_flaw(
    alloc: Global,
    trial: &Trial,
    plain: &Plain,
    (device, calls): (Device, usize),
    out: &mut Answer,
) -> Result<bool, Refusal> {
    for call in 1..=calls {
        for is_after_byte in [false, true] {
            let fault = Fault {
                device,
                call,
                is_after_byte,
            };
            if tell_flaw(alloc, trial, plain, fault, out)? {
                return Ok(true);
            }
        }
    }
    Ok(false)
}

/// Adds how many reads and writes there are.
fn tell_plain(plain: &Plain, out: &mut Answer) {
    out.add(&plain.reads);
    out.add_text(" reads and ");
    out.add(&plain.writes);
    out.add_text(" writes, each failing twice: ");
}

/// `STEP INPUT`: serves the input, in which each read fails in turn and each write, also after a call of
/// a single byte. Prints how many there are, and whether each such session ends with its refusal, writes a
/// beginning of what is written where nothing fails, and leaves the store that its events make.
pub(crate) fn faults(
    alloc: Global,
    hashing: RandomState,
    argument: &str,
    out: &mut Answer,
) -> Result<(), Refusal> {
    let trial = trial_of(alloc, hashing, argument)?;
    let plain = plain_of(alloc, &trial)?;
    tell_plain(&plain, out);
    for device in [
        (Device::Reader, plain.reads),
        (Device::Writer, plain.writes),
    ] {
        if tell_first_flaw(alloc, &trial, &plain, device, out)? {
            return Ok(());
        }
    }
    out.add_text("told");
    Ok(())
}
