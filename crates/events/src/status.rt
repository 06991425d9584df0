//! How far a goal is.

ghost use Rattle.std.specs.Prelude.{◌≡◌};
ghost use Rattle.model.specs.KeptClosures.{is_planned};
ghost use Rattle.events.specs.Statuses.{status_of};

use crate::job::Job;
use model::Refusal;
use storepath::StorePath;

/// How far a goal is.
#[derive(Clone, Debug, Drop)]
pub enum Status {
    /// It is to be planned.
    Waiting,
    /// It can start.
    Planned,
    /// It is built in a job.
    Building(Job),
    /// It was built, and its output is at that path.
    Done(StorePath),
    /// It came to nothing.
    Failed(Refusal),
}

impl Status {
    /// Whether a goal is planned, or is built in a job: then it keeps what it is built from.
    pub fn is_planned(&self) -> bool
        ensures { result ≡ is_planned (status_of self.now) }
    {
        matches!(self, Status::Planned | Status::Building(_))
    }
}
