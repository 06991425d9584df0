//! What the jobs that are built now are built from.

ghost use Rattle.std.specs.Prelude.{◌≡◌, ◌≢◌, false, Err};
ghost use Rattle.model.specs.declared.refusal.Refusal.TheVariants.{Stopped};
ghost use Rattle.schedule.specs.Standing.{is_stopped};
ghost use Rattle.jobs.specs.Asking.{IsAnswerTo};
ghost use Rattle.schedule.specs.Asking.{job_asked_for};

use crate::state::Core;
use jobs::{RunningJob, led_job};
use model::Refusal;
use trust::User;

impl Core {
    /// The job that a user's goal of a number leads, and what it is built from: what the goal keeps
    /// since it was planned. It shares all that is large with the goal.
    ///
    /// # Errors
    ///
    /// They are looked for in this order, and all but the last are told whether there is memory or
    /// not.
    ///
    /// - `Stopped` exactly where the core is stopped.
    /// - `UnknownUser` exactly where the user is none of the run.
    /// - `UnknownGoal` exactly where he has no goal of that number.
    /// - `WrongState` exactly where that goal leads no job that is built now.
    /// - `Memory` only where memory was refused.
    pub fn request(&self, user: &User, number: u16) -> Result<RunningJob, Refusal>
        ensures value { IsAnswerTo (job_asked_for self.now user.now number) result }
        ensures going { is_stopped self.now ≡ false → result ≢ Err Stopped }
    {
        if self.stopped() {
            return Err(Refusal::Stopped);
        }
        let Some(place) = self.state.users.place_of(user) else {
            return Err(Refusal::UnknownUser);
        };
        led_job(self.state.users.as_slice(), &self.state.jobs, place, number)
    }
}
