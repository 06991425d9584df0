//! A store that keeps the events that it is asked.

ghost use Rattle.std.specs.Prelude.{◌≡◌, ◌∷◌, ◌++◌, [], map, OnOk};
ghost use Rattle.events.specs.Terms.{event_of};

use crate::one_pass::OnePass;
use book::FrontId;
use model::Refusal;
use schedule::{Event, Reply};
use session::{Answer, GoalId};
use std::alloc::{AllocError, Global};
use std::sync::Wait;

/// A store behind its one pass, and the events that it was asked.
#[derive(Drop)]
pub(crate) struct Recorder<'a, J: FrontId, R: Wait> {
    pub(crate) store: OnePass<'a, J, R>,
    pub(crate) events: Vec<Event>,
    /// Whether memory was refused for one of them, so that it is not among them.
    pub(crate) has_lost: bool,
}

/// Keeps an event.
fn keep(events: &mut Vec<Event>, event: &Event) -> Result<(), AllocError>
    ensures { OnOk result (map event_of events.new.items ≡ map event_of events.old.items ++ event_of event.now ∷ []) }
{
    events.push(event.clone()?)?;
    Ok(())
}

/// It answers as its store does, but that an event that cannot be kept is answered 90. No line of the
/// service waits.
impl<J: FrontId, R: Wait> Answer for Recorder<'_, J, R> {
    ghost use Rattle.std.specs.Prelude.{◌≡◌, map};
    ghost use Rattle.events.specs.Terms.{event_of};
    ghost use Rattle.model.specs.Replies as replies;
    ghost use Rattle.replaying.specs.Recording.{Keeps};

    ghost answers = { λ old event reply new. Keeps J.setup old.store (map event_of old.events.items) old.has_lost
        event reply new.store (map event_of new.events.items) new.has_lost };

    ghost waited = { λ old goals reply new. (new ≡ old) × (reply ≡ replies.Ok) };

    fn call(&mut self, alloc: Global, event: Event) -> Reply {
        match keep(&mut self.events, &event) {
            Ok(()) => self.store.call(alloc, event),
            Err(_) => {
                self.has_lost = true;
                Reply::Refused(Refusal::Memory)
            }
        }
    }

    fn wait(&mut self, _alloc: Global, _goals: &[GoalId]) -> Reply {
        Reply::Ok
    }
}
