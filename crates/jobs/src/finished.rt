//! Goals that are done and came to the same.

ghost use Rattle.std.specs.Prelude.{◌≡◌, option_copied};
ghost use Rattle.std.specs.List.{find};
ghost use Rattle.model.specs.Goals.{goal_at};
ghost use Rattle.jobs.specs.Numbers.{is_other_alike, path_of_done};

use crate::goal::Goal;
use storepath::StorePath;

/// The goal of a number.
pub(crate) fn goal_of(goals: &[Goal], number: u16) -> Option<&Goal>
    ensures { option_copied result ≡ goal_at number goals.now }
{
    if number == 0 {
        return None;
    }
    goals.get(number as usize - 1)
}

/// The path under which the goal of a number was built, if it is done.
pub(crate) fn finished_under(goals: &[Goal], number: u16) -> Option<&StorePath>
    ensures { option_copied result ≡ path_of_done (goal_at number goals.now) }
{
    let goal = goal_of(goals, number)?;
    goal.done_path()?;
    Some(goal.resolved()?.scratch())
}

/// Whether another goal came to the same as that of a number.
fn is_other_alike(goals: &[Goal], number: u16, other: u16) -> bool
    ensures { result ≡ is_other_alike number goals.now other }
{
    match (goal_of(goals, other), goal_of(goals, number)) {
        (Some(one), Some(goal)) => other != number && one.is_alike(goal),
        _ => false,
    }
}

/// Of some goals, by their numbers, the first other one that came to the same as that of a number.
pub(crate) fn first_alike(goals: &[Goal], number: u16, numbers: &[u16]) -> Option<u16>
    ensures { result ≡ find (is_other_alike number goals.now) numbers.now }
{
    for other in numbers {
        if is_other_alike(goals, number, *other) {
            return Some(*other);
        }
    }
    None
}
