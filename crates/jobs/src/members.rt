//! The goals in a job of those who reach its leader.

ghost use Rattle.std.specs.Prelude.{◌<◌, length};
ghost use Rattle.jobs.specs.Owned.{goals_at};
ghost use Rattle.trust.specs.Trusting.{trusts};
ghost use Rattle.jobs.specs.Leading.{AreReached};
ghost use Rattle.model.specs.Limits.{most_users};

use crate::users::Jobs;
use events::Job;
use trust::{Trust, has_place};

/// The numbers of the goals in a job of the user at a place, ascending, if he reaches the user at the
/// place of its leader; else none.
pub fn members_reached<'a>(
    trust: &Trust,
    jobs: &'a Jobs,
    leader: usize,
    place: usize,
    job: &Job,
) -> &'a [u16]
    requires leader { leader < most_users }
    requires place { place < most_users }
    requires of_run { place < length jobs.now.goals }
    ensures { AreReached (trusts trust.now) leader job.now (goals_at place jobs.now) place result.now }
{
    let reached = has_place(trust.closure(place), leader);
    if !reached {
        return &[];
    }
    jobs.members(place, job)
}
