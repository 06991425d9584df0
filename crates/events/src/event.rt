//! What users ask.

ghost use Rattle.std.specs.Prelude.{◌≡◌};

use crate::output::Output;
use aterm::Text;
use nar::Tree;
use storepath::{Name, StorePath};
use trust::User;

/// What a user may ask.
#[derive(Clone, Drop)]
pub enum Request {
    /// To have a tree on his desk as a source of that name. The reply is its path.
    AddSource(Name, Tree),
    /// To have the derivation of a text on his desk. The reply is its path and its class.
    AddDerivation(Text),
    /// To have a tree on his desk as the output of the derivation in the file at a path. The reply is
    /// the path of its content.
    Offer(StorePath, Tree),
    /// The tree at a path that he holds.
    Fetch(StorePath),
    /// To trust another user of the run from now on.
    Trust(User),
    /// To trust another user no longer.
    Distrust(User),
    /// To want a path for the class of a path, so that it is chosen where he sees it. The class stands
    /// first.
    Pin(StorePath, StorePath),
    /// To want no path for a class.
    Unpin(StorePath),
    /// What is chosen for a class among all that he sees, with all that it refers to.
    Closure(StorePath),
    /// To have on his desk all that the closure of a class has: all of it, or, where it is refused,
    /// nothing. The reply is the path of what serves the class.
    Take(StorePath),
    /// To have built what the derivation in the file at a path builds. The reply is the number of a new
    /// goal, which waits.
    Build(StorePath),
    /// How far the goal of a number is.
    Status(u16),
    /// To find what the goal of a number is built from, as the user sees it now: it is planned then. The
    /// reply is how far it is.
    Plan(u16),
    /// To have on his desk all that the planned goal of a number is built from, and to build it, alone
    /// or with others. The reply is how far it is.
    Start(u16),
    /// The job that the goal of a number leads has ended, and its builder wrote this. Each user who
    /// reaches the leader gets what is built for his goals in the job. The reply is how far the goal is
    /// then.
    Finish(u16, Output),
    /// The job that the goal of a number leads has ended without an output, and its builder with this
    /// exit status. The reply is how far the goal is then.
    Fail(u16, u8),
    /// To have the outputs of a class, at a path, on his desk no longer: nothing else there refers to
    /// them, and no goal is built from them.
    Forget(StorePath, StorePath),
}

/// A request, and the user who makes it.
#[derive(Clone)]
pub struct Event {
    /// Who asks, and gets the reply.
    pub actor: User,
    /// What he asks.
    pub request: Request,
}

impl Drop for Event {
    fn drop(self) {
        let Event {
            actor: _,
            request: _,
        } = self;
    }
}

impl Event {
    /// Who asks, and what he asks.
    pub fn into_parts(self) -> (User, Request)
        ensures { result ≡ (self.actor, self.request) }
    {
        let Event { actor, request } = self;
        (actor, request)
    }
}
