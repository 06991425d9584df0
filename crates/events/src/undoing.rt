//! Trust that is given and taken back, event after event, and then the other way round.

ghost use Rattle.std.specs.Prelude.{◌≡◌, true};
ghost use Rattle.model.specs.Worlds.{are_users};
ghost use Rattle.model.specs.Events.{Trust as TrustRequest};
ghost use Rattle.trust.specs.Trusting.{trusts};
ghost use Rattle.trust.specs.Naming.{place_of};
ghost use Rattle.events.specs.Terms.{request_of, event_of};
ghost use Rattle.events.specs.Undoing.{said_of, said_by, saying, trust_with, undoing};

use crate::event::{Event, Request};
use trust::{Trust, User, place_of};

/// That the user at a place trusts the one at another from then on, or that he does not.
#[derive(Clone, Copy)]
struct Said {
    user: usize,
    other: usize,
    trusted: bool,
}

/// What a user says of another; nothing where one of them is none of the run, or where they are one.
fn said_of(users: &[User], user: &User, other: &User, trusted: bool) -> Option<Said>
    ensures { result ≡ said_of (place_of users.now user.now) (place_of users.now other.now) trusted }
{
    let user = place_of(users, user)?;
    let other = place_of(users, other)?;
    if user == other {
        return None;
    }
    Some(Said {
        user,
        other,
        trusted,
    })
}

/// What an event says of whom a user of the run trusts from then on.
fn said_by(users: &[User], event: &Event) -> Option<Said>
    ensures { result ≡ said_by users.now (event_of event.now) }
{
    match &event.request {
        Request::Trust(other) => said_of(users, &event.actor, other, true),
        Request::Distrust(other) => said_of(users, &event.actor, other, false),
        _ => None,
    }
}

/// To trust a user, or not to.
fn trusting(other: User, trusted: bool) -> Request
    ensures { request_of result ≡ saying trusted (TrustRequest other) }
{
    if trusted {
        Request::Trust(other)
    } else {
        Request::Distrust(other)
    }
}

/// A request to trust another user, or not to, that says this.
fn saying(request: Request, trusted: bool) -> Request
    ensures { request_of result ≡ saying trusted (request_of request) }
{
    match request {
        Request::Trust(other) | Request::Distrust(other) => trusting(other, trusted),
        request => request,
    }
}

/// Has users trust one another as an event says. What comes back is the event that takes it back.
pub(crate) fn exchange(users: &[User], trust: &mut Trust, event: Event) -> Event
    requires { are_users users.now ≡ true }
    ensures now { trusts trust.new ≡ trust_with (said_by users.now (event_of event)) (trusts trust.old) }
    ensures back { event_of result
        ≡ undoing (said_by users.now (event_of event)) (trusts trust.old) (event_of event) }
{
    let Some(said) = said_by(users, &event) else {
        return event;
    };
    let before = trust.replace(said.user, said.other, said.trusted);
    let (actor, request) = event.into_parts();
    Event {
        actor,
        request: saying(request, before),
    }
}
