//! The goals that are built from what is to be forgotten.

ghost use Rattle.std.specs.Prelude.{◌≡◌, ◌≤◌, ◌&&◌, true, length, map, is_some};
ghost use Rattle.std.specs.List.{list_any};
ghost use Rattle.model.specs.Goals.{goal_at, is_building};
ghost use Rattle.model.specs.ForgetRequests.{is_entry_at, is_built_from, builds_with, let_go};
ghost use Rattle.trust.specs.Trusting.{holds};
ghost use Rattle.trust.specs.Naming.{names};
ghost use Rattle.jobs.specs.Owned.{with_goals, ChangesOwn};
ghost use Rattle.model.specs.Limits.{most_users};

use crate::goal::Goal;
use crate::goals::Goals;
use events::Status;
use records::Entry;
use storepath::StorePath;
use trust::{UserSet, Users, is_reached};

/// Whether an entry is the output of a class at a path.
fn is_entry_at(class: &StorePath, path: &StorePath, entry: &Entry) -> bool
    ensures { result ≡ is_entry_at class.now path.now entry.now }
{
    match entry.class() {
        Some(own) => own.path() == class && entry.path() == path,
        None => false,
    }
}

/// Whether such an entry is among others.
fn has_entry_at(class: &StorePath, path: &StorePath, entries: &[Entry]) -> bool
    ensures { result ≡ list_any (is_entry_at class.now path.now) entries.now }
{
    for entry in entries {
        if is_entry_at(class, path, entry) {
            return true;
        }
    }
    false
}

/// Whether a goal is built in a job, and from the output of a class at a path.
pub(crate) fn is_built_with(class: &StorePath, path: &StorePath, goal: &Goal) -> bool
    ensures { result ≡ (is_building goal.now.status
        && is_built_from class.now path.now goal.now.resolved) }
{
    match (goal.job(), goal.resolved()) {
        (Some(_), Some(resolved)) => has_entry_at(class, path, resolved.closure()),
        _ => false,
    }
}

/// Whether a goal is built in a job whose leader is in a set, and from the output of a class at a path.
pub(crate) fn builds_with(
    users: &Users,
    reached: UserSet,
    class: &StorePath,
    path: &StorePath,
    goal: &Goal,
) -> bool
    requires { length users.now ≤ most_users }
    ensures { result
        ≡ builds_with (names users.now (holds reached)) class.now path.now goal.now }
{
    match goal.job() {
        Some(job) => is_reached(users, reached, job.leader()) && is_built_with(class, path, goal),
        None => false,
    }
}

impl Goals {
    /// Whether a goal is built from the output of a class at a path, in a job whose leader is in a
    /// set. It looks only at the goals that are built in jobs.
    pub(crate) fn build_with(
        &self,
        users: &Users,
        reached: UserSet,
        class: &StorePath,
        path: &StorePath,
    ) -> bool
        requires { length users.now ≤ most_users }
        ensures { result ≡ list_any
            (builds_with (names users.now (holds reached)) class.now path.now) self.now.goals }
    {
        for number in self.building() {
            if let Some(goal) = self.get(*number) {
                if builds_with(users, reached, class, path, goal) {
                    return true;
                }
            }
        }
        false
    }

    /// A goal that is built in a job from the output of a class at a path waits; another one stays.
    fn let_one_go(&mut self, number: u16, class: &StorePath, path: &StorePath)
        requires { is_some (goal_at number self.old.goals) ≡ true }
        ensures { ChangesOwn number (let_go class.now path.now) self.old self.new }
    {
        let Some(goal) = self.get(number) else {
            return;
        };
        if is_built_with(class, path, goal) {
            self.set_status(number, Status::Waiting);
        }
    }

    /// The goals that are built in jobs from the output of a class at a path wait. It looks only at the
    /// goals that are built in jobs, at the last first, since one that waits leaves their list, where those
    /// before it keep their places. It takes no memory.
    pub(crate) fn let_go(&mut self, class: &StorePath, path: &StorePath)
        ensures { self.new
            ≡ with_goals (map (let_go class.now path.now) self.old.goals) self.old }
    {
        for place in (0..self.building().len()).rev() {
            let number = self.building()[place];
            self.let_one_go(number, class, path);
        }
    }
}
