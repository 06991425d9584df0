//! Sessions in pieces, over a reader and a writer that may fail.

use model::Refusal;
use schedule::{Core, Event, Reply, User};
use session::{
    Ahead, GoalId, Mode, NoUsers, Session, read_ahead, serve, serve_behind, serve_whole_lines,
};
use std::alloc::Global;
use std::hash::RandomState;
use trial_lines::{Answer, Calls, Sink, Source, calls_of, new_core, store_of, with_newlines};

/// A store that answers each event by a step, and builds nothing: a wait has ended at once.
#[derive(Drop)]
pub(crate) struct Store {
    pub(crate) core: Core,
}

impl session::Answer for Store {
    ghost answers = { λ old event reply new. Unit {0} };

    ghost waited = { λ old goals reply new. Unit {0} };

    fn call(&mut self, alloc: Global, event: Event) -> Reply {
        self.core.step(alloc, event)
    }

    fn wait(&mut self, _alloc: Global, _goals: &[GoalId]) -> Reply {
        Reply::Ok
    }
}

/// A store of alice and bob.
fn new_store(alloc: Global, hashing: RandomState) -> Result<Store, Refusal> {
    Ok(Store {
        core: new_core(alloc, hashing)?,
    })
}

/// Adds how often a session read, wrote and flushed, how many bytes were flushed, and all that was written.
fn tell_devices(source: &Source, sink: &Sink, out: &mut Answer) {
    out.add_text(", ");
    out.add(&source.count.made);
    out.add_text(" reads, ");
    out.add(&sink.count.made);
    out.add_text(" writes, ");
    out.add(&sink.flushes);
    out.add_text(" flushes, ");
    out.add(&sink.shown);
    out.add_text(" bytes: ");
    out.add_bytes(&sink.bytes);
}

/// `CALLS CALLS INPUT`: serves the input to alice and bob, by a reader and a writer of these calls. Prints
/// how that ended, and what was read and written.
pub(crate) fn talk(
    alloc: Global,
    hashing: RandomState,
    argument: &str,
    out: &mut Answer,
) -> Result<(), Refusal> {
    let (reads, rest) = calls_of(argument)?;
    let (writes, rest) = calls_of(rest)?;
    let mut source = Source::new(with_newlines(alloc, rest)?, reads);
    let mut store = new_store(alloc, hashing)?;
    tell_talk(alloc, &mut source, writes, &mut store, out);
    Ok(())
}

/// Serves the input of a reader by a writer of these calls.
fn tell_talk(
    alloc: Global,
    source: &mut Source,
    writes: Calls,
    store: &mut Store,
    out: &mut Answer,
) {
    let mut sink = Sink::new(alloc, writes);
    out.add_end(serve(alloc, Mode::Service, source, &mut sink, store));
    tell_devices(source, &sink, out);
}

/// `INPUT`: answers the input, of lines of that mode, to alice and bob a line at a time.
pub(crate) fn lines(
    alloc: Global,
    hashing: RandomState,
    mode: Mode,
    argument: &str,
    out: &mut Answer,
) -> Result<(), Refusal> {
    let mut store = new_store(alloc, hashing)?;
    tell_lines(alloc, mode, argument, &mut store, out)
}

/// Adds what lines get in a session of that mode.
fn tell_lines(
    alloc: Global,
    mode: Mode,
    lines: &str,
    store: &mut Store,
    out: &mut Answer,
) -> Result<(), Refusal> {
    let mut session = Session::new(alloc, mode);
    for line in lines.split(';') {
        tell_line(alloc, line, &mut session, store, out)?;
    }
    Ok(())
}

/// Adds what a line gets.
fn tell_line(
    alloc: Global,
    line: &str,
    session: &mut Session,
    store: &mut Store,
    out: &mut Answer,
) -> Result<(), Refusal> {
    out.add_bytes(&session.line(alloc, line.as_bytes(), store)?.into_bytes()?);
    Ok(())
}

/// Adds what the lines get that were read ahead of a reader, and the rest of it, in a store for these
/// users.
fn answer_by_store(
    alloc: Global,
    hashing: RandomState,
    users: Vec<User>,
    bytes: Vec<u8>,
    source: Source,
    out: &mut Answer,
) -> Result<(), Refusal> {
    let mut source = source;
    let mut store = Store {
        core: store_of(alloc, hashing, users)?,
    };
    tell_session(alloc, &bytes, &mut source, &mut store, out)
}

/// Adds what the lines of some bytes and of the reader behind them get in a store.
fn tell_session(
    alloc: Global,
    bytes: &[u8],
    reader: &mut Source,
    store: &mut Store,
    out: &mut Answer,
) -> Result<(), Refusal> {
    let mut text = Vec::new(alloc);
    serve_behind(alloc, Mode::Service, bytes, reader, &mut text, store)?;
    out.add_bytes(&text);
    Ok(())
}

/// Adds what the whole lines get of which more was to come, with nobody to answer.
fn answer_by_nobody(alloc: Global, bytes: &[u8], out: &mut Answer) -> Result<(), Refusal> {
    let mut text = Vec::new(alloc);
    serve_whole_lines(alloc, Mode::Service, bytes, &mut text, &mut NoUsers)?;
    out.add_bytes(&text);
    Ok(())
}

/// Adds what the lines get that were read ahead: nothing where no users are named and the reader did
/// not fail.
fn answer_ahead(
    alloc: Global,
    hashing: RandomState,
    ahead: Ahead,
    source: Source,
    out: &mut Answer,
) -> Result<(), Refusal> {
    let Ahead {
        bytes,
        users,
        has_failed,
        ..
    } = ahead;
    if let Some(users) = users {
        return answer_by_store(alloc, hashing, users, bytes, source, out);
    }
    if has_failed {
        return answer_by_nobody(alloc, &bytes, out);
    }
    Ok(())
}

/// Adds whether there are users, whether the reader ended or failed, and what was read ahead.
fn tell_ahead(ahead: &Ahead, out: &mut Answer) {
    let names = if ahead.users.is_some() {
        "users"
    } else {
        "no users"
    };
    let end = match (ahead.has_ended, ahead.has_failed) {
        (true, _) => "ended",
        (false, true) => "failed",
        (false, false) => "more",
    };
    out.add_text(names);
    out.add_text(", ");
    out.add_text(end);
    out.add_text(": ");
    out.add_bytes(&ahead.bytes);
}

/// `CALLS INPUT`: reads ahead to the users, and then answers what was read and the rest. Prints what was
/// found, and the answers.
pub(crate) fn ahead(
    alloc: Global,
    hashing: RandomState,
    argument: &str,
    out: &mut Answer,
) -> Result<(), Refusal> {
    let (reads, rest) = calls_of(argument)?;
    let mut source = Source::new(with_newlines(alloc, rest)?, reads);
    let ahead = read_ahead(alloc, Mode::Service, &mut source)?;
    tell_ahead(&ahead, out);
    out.add_text(" gets ");
    answer_ahead(alloc, hashing, ahead, source, out)
}
