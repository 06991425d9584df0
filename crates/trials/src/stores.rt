//! Stores of users, and whole runs of them.

use aterm::Text;
use model::Refusal;
use schedule::{Event, Limits, Reply, Request, User};
use std::alloc::Global;
use std::hash::RandomState;
use trial_lines::{Answer, adding, fetching, new_core, number, store_of, tell, users_of};

/// `NAME..`: how many of the names are well-formed, and whether there is a store of such users.
pub(crate) fn users(
    alloc: Global,
    hashing: RandomState,
    names: &str,
    out: &mut Answer,
) -> Result<(), Refusal> {
    let users = users_of(alloc, names)?;
    let well_formed = users.iter().filter(|user| user.is_well_formed()).count();
    out.add(&well_formed);
    out.add_text(" well-formed: ");
    match store_of(alloc, hashing, users) {
        Ok(_) => out.add_text("a store"),
        Err(refusal) => out.add(&refusal),
    }
    Ok(())
}

/// Adds what is said to the answers of a run, each behind the name of its user.
fn tell_all(alloc: Global, answers: &[(User, Reply)], out: &mut Answer) -> Result<(), Refusal> {
    for (user, reply) in answers {
        out.add_bytes(user.bytes());
        out.add_text(" ");
        tell(alloc, reply, out)?;
        out.add_text(";");
    }
    Ok(())
}

/// Alice adds the file, and bob, alice and eve, who is no user, fetch it.
fn first_path(alloc: Global) -> Result<Vec<Event>, Refusal> {
    let mut events = Vec::new(alloc);
    add_event(&mut events, adding(alloc, b"alice")?)?;
    for user in [b"bob".as_slice(), b"alice", b"eve"] {
        add_event(&mut events, fetching(alloc, user)?)?;
    }
    Ok(events)
}

/// Adds an event to those of a run.
fn add_event(events: &mut Vec<Event>, event: Event) -> Result<(), Refusal> {
    events.push(event)?;
    Ok(())
}

/// A whole run of these events for alice and bob.
pub(crate) fn run(alloc: Global, hashing: RandomState, out: &mut Answer) -> Result<(), Refusal> {
    let users = users_of(alloc, "alice bob")?;
    let events = first_path(alloc)?;
    let answers = schedule::run(alloc, hashing, users, Limits::default(), events)?;
    tell_all(alloc, &answers, out)
}

/// The event by which alice adds a derivation whose text has so many bytes, each `x`.
fn adding_text(alloc: Global, length: usize) -> Result<Event, Refusal> {
    let text = Text::new(vec![in alloc; b'x'; length]?)?;
    Ok(Event {
        actor: User::new(alloc, b"alice")?,
        request: Request::AddDerivation(text),
    })
}

/// `LENGTH`: what a step of a store replies to that event.
pub(crate) fn reply_to_text(
    alloc: Global,
    hashing: RandomState,
    argument: &str,
    out: &mut Answer,
) -> Result<(), Refusal> {
    let (length, _) = number(argument)?;
    let event = adding_text(alloc, length)?;
    let mut core = new_core(alloc, hashing)?;
    tell(alloc, &core.step(alloc, event), out)
}
