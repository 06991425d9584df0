//! What a builder is started for.

ghost use Rattle.std.specs.Prelude.{◌≡◌, ◌<◌, length};
ghost use Rattle.model.specs.Goals.{goal_at};
ghost use Rattle.model.specs.RunningJobs.{led_job};
ghost use Rattle.jobs.specs.Owned.{goals_at};
ghost use Rattle.trust.specs.Naming.{name_at};
ghost use Rattle.jobs.specs.Asking.{IsAnswerTo};

use crate::leader::leads;
use crate::users::Jobs;
use events::Job;
use model::Refusal;
use records::Resolved;
use std::alloc::AllocError;
use std::marker::Model;
use trust::User;

/// A job that is built now, and what it is built from: the closure of its inputs, the text that is
/// built, and the path under which it is built. A copy shares all of it.
pub struct RunningJob {
    job: Job,
    resolved: Resolved,
}

impl Drop for RunningJob {
    fn drop(self) {
        let RunningJob {
            job: _,
            resolved: _,
        } = self;
    }
}

impl Model for RunningJob {
    ghost use Rattle.model.specs.Goals.{Running};
    ghost use Rattle.jobs.specs.RunningCodes.{running_code};

    ghost Value = { Running };

    ghost coded = { running_code };

    ghost view = { λ r. record { job = r.job; resolved = r.resolved } };
}

impl RunningJob {
    /// A job that is built from that.
    pub fn new(job: Job, resolved: Resolved) -> RunningJob
        ensures { result ≡ record { job = job; resolved = resolved } }
    {
        RunningJob { job, resolved }
    }

    /// The job.
    pub fn job(&self) -> &Job
        ensures { result.now ≡ self.now.job }
    {
        &self.job
    }

    /// What it is built from.
    pub fn resolved(&self) -> &Resolved
        ensures { result.now ≡ self.now.resolved }
    {
        &self.resolved
    }
}

/// The copy is equal, and shares all that is large. It fails only where memory is refused.
impl Clone for RunningJob {
    ghost use Rattle.std.specs.Prelude.{◌≡◌};

    ghost is_clone = { λ original copy. copy ≡ original };

    fn clone(&self) -> Result<RunningJob, AllocError> {
        let job = self.job.clone()?;
        let resolved = self.resolved.clone()?;
        Ok(RunningJob { job, resolved })
    }
}

/// The job that the goal of a number of the user at a place leads, and what it is built from.
///
/// # Errors
///
/// - `UnknownGoal` exactly where he has no goal of that number.
/// - `WrongState` exactly where he has one, and it leads no job that is built now.
/// - `Memory` only where memory was refused, and the goal leads a job.
pub fn led_job(
    users: &[User],
    jobs: &Jobs,
    place: usize,
    number: u16,
) -> Result<RunningJob, Refusal>
    requires of_run { place < length users.now }
    requires with_goals { length jobs.now.goals ≡ length users.now }
    ensures { IsAnswerTo (led_job (record { leader = name_at users.now place; number = number })
        (goal_at number (goals_at place jobs.now))) result }
{
    leads(users, jobs, place, number)?;
    let Some(goal) = jobs.get(place, number) else {
        return Err(Refusal::UnknownGoal);
    };
    let Some(resolved) = goal.resolved() else {
        return Err(Refusal::WrongState);
    };
    let job = Job::new(users[place].clone()?, number);
    Ok(RunningJob::new(job, resolved.clone()?))
}
