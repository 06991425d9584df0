//! What is only read.

ghost use Rattle.std.specs.Prelude.{◌≡◌, false, IfOk, IfErr};
ghost use Rattle.model.specs.Events.{is_query};
ghost use Rattle.events.specs.Terms.{request_of};
ghost use Rattle.model.specs.WellFormed.{IsWellFormed};
ghost use Rattle.schedule.specs.Queries.{request_in, event_for};

use events::{Event, Request};
use storepath::StorePath;
use trust::User;

/// What a user may ask that changes nothing.
#[derive(Drop)]
pub enum Question {
    /// How far the goal of a number is.
    Status(u16),
    /// What is chosen for a class among all that he sees, with all that it refers to.
    Closure(StorePath),
    /// The tree at a path that he holds.
    Fetch(StorePath),
}

impl Question {
    /// What is asked is well formed, since the types of what it has are.
    pub(crate) fn sound(&self)
        ensures { IsWellFormed (request_of (request_in self.now)) }
    {
        match self {
            Question::Status(_) => {}
            Question::Closure(path) | Question::Fetch(path) => path.sound(),
        }
    }
}

/// A question, and the user who asks it.
pub struct Query {
    /// Who asks, and gets the reply.
    pub actor: User,
    /// What he asks.
    pub question: Question,
}

impl Drop for Query {
    fn drop(self) {
        let Query {
            actor: _,
            question: _,
        } = self;
    }
}

impl Query {
    /// The query that an event is. The error is the event, exactly where it is none.
    pub fn of(event: Event) -> Result<Query, Event>
        ensures query { IfOk result (λ query. event_for query ≡ event) }
        ensures event { IfErr result (λ other. other ≡ event) }
        ensures other { IfErr result (λ _. is_query (request_of event.request) ≡ false) }
    {
        let (actor, request) = event.into_parts();
        let question = match request {
            Request::Status(number) => Question::Status(number),
            Request::Closure(class) => Question::Closure(class),
            Request::Fetch(path) => Question::Fetch(path),
            request => return Err(Event { actor, request }),
        };
        Ok(Query { actor, question })
    }
}
