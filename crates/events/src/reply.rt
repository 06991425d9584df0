//! What users are answered.

ghost use Rattle.std.specs.Prelude.{◌≡◌};
ghost use Rattle.model.specs.Talk.{told_in};
ghost use Rattle.events.specs.Terms.{reply_of};

use crate::status::Status;
use model::Refusal;
use nar::Tree;
use records::Closure;
use storepath::StorePath;

/// The answer to one event.
#[derive(Clone)]
pub enum Reply {
    /// It is done, and there is nothing to tell.
    Ok,
    /// The path of what was added.
    Path(StorePath),
    /// The path of the file of the derivation that was added, and the path of its output class.
    Derivation {
        /// The path of the derivation's file.
        path: StorePath,
        /// The path that names the class.
        class: StorePath,
    },
    /// The tree that was asked for.
    Tree(Tree),
    /// The entries of a closure, by path, then by the path of the class, with a class before a source.
    Closure(Closure),
    /// The number of a new goal.
    Goal(u16),
    /// How far a goal is.
    Status(Status),
    /// Why nothing was done.
    Refused(Refusal),
}

impl Drop for Reply {
    fn drop(self) {
        match self {
            Reply::Ok => {}
            Reply::Path(_) => {}
            Reply::Derivation { path: _, class: _ } => {}
            Reply::Tree(_) => {}
            Reply::Closure(_) => {}
            Reply::Goal(_) => {}
            Reply::Status(_) => {}
            Reply::Refused(_) => {}
        }
    }
}

impl Reply {
    /// The path that it tells, and the path of the class that it tells, if it does.
    pub fn into_paths(self) -> (Option<StorePath>, Option<StorePath>)
        ensures { record { path = result.0; class = result.1 } ≡ told_in (reply_of self) }
    {
        match self {
            Reply::Path(path) | Reply::Status(Status::Done(path)) => (Some(path), None),
            Reply::Derivation { path, class } => (Some(path), Some(class)),
            Reply::Ok
            | Reply::Tree(_)
            | Reply::Closure(_)
            | Reply::Goal(_)
            | Reply::Status(_)
            | Reply::Refused(_) => (None, None),
        }
    }
}
