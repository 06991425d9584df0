//! Whom a session asks.

ghost use Rattle.std.specs.Prelude.{◌≡◌, true, List};
ghost use Rattle.model.specs.Events as events;
ghost use Rattle.model.specs.Replies as replies;
ghost use Rattle.model.specs.Replies.{ends_wait};
ghost use Rattle.model.specs.Worlds.{Job as GoalId};
ghost use Rattle.events.specs.Terms.{event_of, reply_of};

use events::{Event, GoalId, Reply};
use model::Refusal;
use std::alloc::Global;

/// What answers the events of a session, and waits for its goals.
pub trait Answer {
    /// Relates the answer before an event, the event, its reply, and the answer after it.
    ghost answers: { Self → events.Event → replies.Reply → Self → Type 0 };

    /// Relates the answer before a wait, the goals, the reply, and the answer after it.
    ghost waited: { Self → List GoalId → replies.Reply → Self → Type 0 };

    /// Takes an event and gives its reply.
    fn call(&mut self, alloc: Global, event: Event) -> Reply
        ensures { answers self.old (event_of event) (reply_of result) self.new };

    /// Waits for goals, each named as the job that it would lead. The reply is `Ok`, or a refusal with
    /// 90 `Memory` or 92 `Stopped`.
    fn wait(&mut self, alloc: Global, goals: &[GoalId]) -> Reply
        ensures waited { waited self.old goals.now (reply_of result) self.new }
        ensures ended { ends_wait (reply_of result) ≡ true };
}

/// A store of no users: every event is refused with 11 `UnknownUser`. There is no goal in it, so a wait
/// has nothing to wait for.
#[derive(Drop)]
pub struct NoUsers;

impl Answer for NoUsers {
    ghost use Rattle.std.specs.Prelude.{◌≡◌};
    ghost use Rattle.model.specs.Events as events;
    ghost use Rattle.model.specs.Replies as replies;
    ghost use Rattle.model.specs.declared.refusal.Refusal.TheVariants.{UnknownUser};

    ghost answers = { λ _ _ reply _. reply ≡ replies.Refused UnknownUser };

    ghost waited = { λ _ _ reply _. reply ≡ replies.Ok };

    fn call(&mut self, _alloc: Global, _event: Event) -> Reply {
        Reply::Refused(Refusal::UnknownUser)
    }

    fn wait(&mut self, _alloc: Global, _goals: &[GoalId]) -> Reply {
        Reply::Ok
    }
}
