//! The goal that leads a job.

ghost use Rattle.std.specs.Prelude.{◌≡◌, ◌<◌, length};
ghost use Rattle.model.specs.Goals.{goal_at};
ghost use Rattle.jobs.specs.Owned.{goals_at};
ghost use Rattle.trust.specs.Naming.{name_at};
ghost use Rattle.jobs.specs.Leading.{leading};

use crate::users::Jobs;
use model::Refusal;
use trust::User;

/// That the goal of a number of the user at a place leads a job, which is built now.
///
/// # Errors
///
/// - `UnknownGoal` exactly where he has no goal of that number.
/// - `WrongState` exactly where he has one, and it leads no job that is built now.
pub fn leads(users: &[User], jobs: &Jobs, place: usize, number: u16) -> Result<(), Refusal>
    requires of_run { place < length users.now }
    requires with_goals { length jobs.now.goals ≡ length users.now }
    ensures { result ≡ leading (record { leader = name_at users.now place; number = number })
        (goal_at number (goals_at place jobs.now)) }
{
    let Some(goal) = jobs.get(place, number) else {
        return Err(Refusal::UnknownGoal);
    };
    match goal.job() {
        Some(job) if job.is_led_by(&users[place], number) => Ok(()),
        _ => Err(Refusal::WrongState),
    }
}
