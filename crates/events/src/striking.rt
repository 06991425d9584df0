//! The events that can reach a user.

ghost use Rattle.std.specs.Prelude.{◌≡◌, ◌≤◌, ◌<◌, ℕ, ◌||◌, true, length, IfOk, IfErr, map, None, Some};
ghost use Rattle.model.specs.Worlds.{are_users};
ghost use Rattle.model.specs.Striking.{strike};
ghost use Rattle.model.specs.Timed.{strike_timed};
ghost use Rattle.trust.specs.Trusting.{holds, trusts};
ghost use Rattle.trust.specs.Naming.{names, IsWithin};
ghost use Rattle.events.specs.Terms.{event_of};
ghost use Rattle.events.specs.Ever.{run_of, gives, IsGiven, why_untold};
ghost use Rattle.events.specs.Undoing.{AreUndone, KeepsNear};
ghost use Rattle.model.specs.Limits.{most_users};

use crate::event::{Event, Request};
use crate::undoing::exchange;
use laws::trust_follows;
use model::Refusal;
use std::collections::VecDeque;
use trust::{Trust, User, are_users, place_of};

/// Has one user trust another where an event says so, and both are of the list.
fn receive(trust: &mut Trust, users: &[User], event: &Event)
    requires { are_users users.now ≡ true }
    ensures within { IsWithin (length users.now) (trusts trust.old)
        → IsWithin (length users.now) (trusts trust.new) }
    ensures same { (u v : ℕ) → u < length users.now → v < length users.now
        → trusts trust.new u v ≡ (trusts trust.old u v || gives users.now u v event.now) }
{
    let Request::Trust(trusted) = &event.request else {
        return;
    };
    let Some(user) = place_of(users, &event.actor) else {
        return;
    };
    let Some(other) = place_of(users, trusted) else {
        return;
    };
    trust.add(user, other);
}

/// All trust that is given anywhere in a list of events.
fn trust_ever(users: &[User], events: &[Event]) -> Trust
    requires { are_users users.now ≡ true }
    ensures { IsGiven users.now events.now (trusts result) }
{
    let mut trust = Trust::new();
    for event in events {
        receive(&mut trust, users, event);
    }
    trust
}

/// Whether a set of places has that of a user.
fn is_in(users: &[User], places: u64, user: &User) -> bool
    requires { length users.now ≤ most_users }
    ensures { result ≡ names users.now (holds places) user.now }
{
    match place_of(users, user) {
        Some(place) => (places >> place) & 1 == 1,
        None => false,
    }
}

/// The events of those whom a user ever reaches: of himself, and of each whom one of them trusts by an
/// event anywhere in the list. It takes time linear in the events.
///
/// # Errors
///
/// - `BadUsers` exactly where the list of users is ill-formed.
/// - `UnknownUser` exactly where it is well-formed, and the user is none of them.
pub fn strike(users: &[User], mut events: Vec<Event>, user: &User) -> Result<Vec<Event>, Refusal>
    ensures value { IfOk result (λ kept. (charge : ℕ) → map event_of kept.items
        ≡ strike (run_of users.now charge) user.now (map event_of events.items)) }
    ensures ok { IfOk result (λ _. why_untold users.now user.now ≡ None) }
    ensures refused { IfErr result (λ why. why_untold users.now user.now ≡ Some why) }
{
    if !are_users(users) {
        return Err(Refusal::BadUsers);
    }
    let Some(place) = place_of(users, user) else {
        return Err(Refusal::UnknownUser);
    };
    let trust = trust_ever(users, events.as_slice());
    let reached = trust.closure(place);
    events.retain(|event| is_in(users, reached, &event.actor));
    Ok(events)
}

/// Has users trust one another as all these events say. Those that take them back come into their
/// places.
fn exchange_all(users: &[User], trust: &mut Trust, events: &mut VecDeque<Event>)
    requires { are_users users.now ≡ true }
    ensures { AreUndone users.now (trusts trust.old) (map event_of events.old.items)
        (map event_of events.new.items) (trusts trust.new) }
{
    for _turn in 0..events.len() {
        let Some(event) = events.pop_front() else {
            return;
        };
        let back = exchange(users, trust, event);
        events.push_back_reserved(back);
    }
}

/// Takes events back by those in their places, the last first, and keeps each whose actor is near to
/// the user at a place once it has happened.
fn keep_near(users: &[User], trust: &mut Trust, events: &mut VecDeque<Event>, place: usize)
    requires listed { are_users users.now ≡ true }
    requires of_run { place < length users.now }
    ensures { KeepsNear users.now place (map event_of events.old.items) (trusts trust.old)
        (map event_of events.new.items) }
{
    trust_follows();
    let mut near = trust.closure(place);
    for _turn in 0..events.len() {
        let Some(back) = events.pop_back() else {
            return;
        };
        let event = exchange(users, trust, back);
        let before = trust.closure_of(near);
        if is_in(users, near, &event.actor) {
            events.push_front_reserved(event);
        }
        near = before;
    }
}

/// The events that can reach a user by trust held at the times concerned: of himself, and of each to
/// whom a chain of trust leads from him, each link of it held when the event has happened or later, and
/// none earlier than the next link towards the actor. No world is made: whom users trust follows from
/// the events. It takes no memory, and time linear in the events: at each it is found whom those near
/// reach, at most 64 users.
///
/// # Errors
///
/// - `BadUsers` exactly where the list of users is ill-formed.
/// - `UnknownUser` exactly where it is well-formed, and the user is none of them.
pub fn strike_timed(users: &[User], events: Vec<Event>, user: &User) -> Result<Vec<Event>, Refusal>
    ensures value { IfOk result (λ kept. (charge : ℕ) → map event_of kept.items
        ≡ strike_timed (run_of users.now charge) user.now (map event_of events.items)) }
    ensures ok { IfOk result (λ _. why_untold users.now user.now ≡ None) }
    ensures refused { IfErr result (λ why. why_untold users.now user.now ≡ Some why) }
{
    if !are_users(users) {
        return Err(Refusal::BadUsers);
    }
    let Some(place) = place_of(users, user) else {
        return Err(Refusal::UnknownUser);
    };
    let mut trust = Trust::new();
    let mut events = VecDeque::from(events);
    exchange_all(users, &mut trust, &mut events);
    keep_near(users, &mut trust, &mut events, place);
    Ok(Vec::from(events))
}
