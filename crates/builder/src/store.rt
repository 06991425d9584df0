//! What workers hand events to.

ghost use Rattle.std.specs.Prelude.{ℕ, List, Result};
ghost use Rattle.model.specs.declared.refusal.Refusal.{Refusal};
ghost use Rattle.model.specs.Goals.{Running};
ghost use Rattle.events.specs.declared.event.Event.{Event};
ghost use Rattle.events.specs.declared.reply.Reply.{Reply};

use events::{Event, Reply};
use jobs::RunningJob;
use model::Refusal;
use std::alloc::Global;
use trust::User;

/// What a worker hands events to.
pub trait Store {
    /// Relates the store before an event, the event, its reply, and the store after it.
    ghost called: { Self → Event → Reply → Self → Type 0 };

    /// Relates the store before it is asked for the job that a user's goal leads, the user, the number
    /// of the goal, what it answers, and the store after it.
    ghost asked: { Self → List ℕ → ℕ → Result Running Refusal → Self → Type 0 };

    /// Takes an event and gives its reply.
    fn call(&mut self, alloc: Global, event: Event) -> Reply
        ensures { called self.old event result self.new };

    /// The job that a user's goal of that number leads, and what it is built from.
    fn running_job(&mut self, user: &User, number: u16) -> Result<RunningJob, Refusal>
        ensures { asked self.old user.now number result self.new };
}
