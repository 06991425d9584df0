//! The goals of all users of a run.

ghost use Rattle.std.specs.Prelude.{◌≡◌, ◌≤◌, ◌<◌, ◌+◌, ◌⊎◌, ◌↔◌, true, false, [], ◌∷◌, ◌++◌, length, map, None, Some, Err, IfErr, IfOk, IfSome, OnOk, OnErr, is_some, option_copied};
ghost use Rattle.model.specs.declared.refusal.Refusal.TheVariants.{Memory, Quota};
ghost use Rattle.model.specs.Limits.{most_goals, most_users};
ghost use Rattle.model.specs.Worlds.{Building};
ghost use Rattle.std.specs.List.{list_any};
ghost use Rattle.model.specs.ForgetRequests.{builds_with, let_go};
ghost use Rattle.model.specs.Goals.{in_status, new_goal, members, is_building};
ghost use Rattle.trust.specs.Trusting.{holds};
ghost use Rattle.trust.specs.Naming.{name_at, names};
ghost use Rattle.jobs.specs.Owned.{goals_at, with_goals_at, goal_of, ChangesGoal};
ghost use Rattle.events.specs.Statuses.{status_of};
ghost use Rattle.jobs.specs.Statuses.{planned_with, IsIdle};
ghost use Rattle.jobs.specs.Joining.{running_at, least_with};
ghost use Rattle.jobs.specs.Numbers.{finished};
ghost use Rattle.jobs.specs.Planners.{HasPlanners};
ghost use Rattle.jobs.specs.Shared.{IsBuiltLike};

use crate::goal::Goal;
use crate::goals::Goals;
use crate::planners::Planners;
use events::{Job, Status};
use model::Refusal;
use records::Resolved;
use std::alloc::Global;
use std::hash::RandomState;
use std::marker::Model;
use storepath::StorePath;
use trust::{User, UserSet, Users, has_place};

/// The goals of the users of a run, who are at most 64. A user is named by his place among them,
/// and a goal of his by its number, from 1 on.
pub struct Jobs {
    all: Vec<Goals>,
    planners: Planners,
}

impl Drop for Jobs {
    fn drop(self) {
        let Jobs {
            all: _,
            planners: _,
        } = self;
    }
}

impl Model for Jobs {
    ghost use Rattle.model.specs.Limits.{most_users};
    ghost use Rattle.std.specs.Prelude.{length, map, ◌≤◌};
    ghost use Rattle.jobs.specs.Owned.{Owned, OwnedByAll, all_of};
    ghost use Rattle.jobs.specs.Codes.{owned_by_all_code};
    ghost use Rattle.jobs.specs.Planners.{HasPlannersOfAll};

    ghost Value = { OwnedByAll };

    ghost coded = { owned_by_all_code };

    ghost view = { λ j. all_of j.all.items };

    ghost invariant = { λ j. (length j.all.items ≤ most_users)
        × HasPlannersOfAll j.planners.sets.entries (all_of j.all.items) };
}

impl Jobs {
    /// No goals, of these users. `hashing` has the keys of the hashers.
    ///
    /// # Errors
    ///
    /// - `Memory` only where memory was refused.
    pub fn new(alloc: Global, hashing: RandomState, users: &[User]) -> Result<Jobs, Refusal>
        requires { length users.now ≤ most_users }
        ensures value { IfOk result (λ jobs.
            jobs ≡ record { users = users.now; goals = map (λ u. []) users.now }) }
        ensures memory { IfErr result (λ e. e ≡ Memory) }
    {
        let mut all = Vec::with_capacity(alloc, users.len())?;
        for user in users {
            all.push(Goals::new(alloc, hashing, user.clone()?))?;
        }
        Ok(Jobs {
            all,
            planners: Planners::new(alloc, hashing),
        })
    }

    /// The user at a place.
    pub fn owner(&self, place: usize) -> &User
        requires { place < length self.now.goals }
        ensures { result.now ≡ name_at self.now.users place }
    {
        self.all[place].owner()
    }

    /// One goal more, which is to be planned. Its number.
    ///
    /// # Errors
    ///
    /// - `Quota` exactly where the user has 65,535 goals.
    /// - `Memory` only where memory was refused.
    ///
    /// Where it is refused, nothing has changed.
    pub fn add(&mut self, place: usize, derivation: StorePath) -> Result<u16, Refusal>
        requires { place < length self.old.goals }
        ensures added { OnOk result (self.new
            ≡ with_goals_at place (goals_at place self.old ++ new_goal derivation ∷ []) self.old) }
        ensures number { IfOk result (λ n. n ≡ length (goals_at place self.old) + 1) }
        ensures most { IfOk result (λ n. n ≤ most_goals) }
        ensures kept { OnErr result (self.new ≡ self.old) }
        ensures full { (result ≡ Err Quota) ↔ (length (goals_at place self.old) ≡ most_goals) }
        ensures errors { IfErr result (λ e. (e ≡ Quota) ⊎ (e ≡ Memory)) }
    {
        self.all[place].add(derivation)
    }

    /// The goals of a user, that of number 1 first.
    pub fn of_user(&self, place: usize) -> &[Goal]
        requires { place < length self.now.goals }
        ensures { result.now ≡ goals_at place self.now }
    {
        self.all[place].as_slice()
    }

    /// The goal of a number.
    pub fn get(&self, place: usize, number: u16) -> Option<&Goal>
        requires { place < length self.now.goals }
        ensures { option_copied result ≡ goal_of place number self.now }
    {
        self.all[place].get(number)
    }

    /// What a goal of the user at a place is built from, where that is equal to `resolved` but for the
    /// trees, and the goal is planned, or built in a job, or the trees are equal too. Of his goals that
    /// are built under the same path it looks at the last and at the first.
    pub fn built_like(&self, place: usize, resolved: &Resolved) -> Option<&Resolved>
        requires { place < length self.now.goals }
        ensures { IfSome (option_copied result)
            (IsBuiltLike (goals_at place self.now) resolved.now) }
    {
        self.all[place].built_like(resolved)
    }

    /// A goal is planned, and from now on built from that. Where it was built in a job, it leaves
    /// it.
    ///
    /// # Errors
    ///
    /// - `Memory` only where memory was refused. Nothing has changed then.
    pub fn keep(
        &mut self,
        alloc: Global,
        place: usize,
        number: u16,
        resolved: Resolved,
    ) -> Result<(), Refusal>
        requires of_run { place < length self.old.goals }
        requires there { is_some (goal_of place number self.old) ≡ true }
        ensures planned { OnOk result
            (ChangesGoal place number (planned_with resolved) self.old self.new) }
        ensures kept { OnErr result (self.new ≡ self.old) }
        ensures memory { IfErr result (λ e. e ≡ Memory) }
    {
        self.planners.insert(resolved.scratch().clone()?, place)?;
        self.all[place].keep(alloc, number, resolved)
    }

    /// A goal gets a state that is not `Building`; what it is built from is left. Where it was
    /// built in a job, it leaves it. It takes no memory.
    pub fn set_status(&mut self, place: usize, number: u16, status: Status)
        requires of_run { place < length self.old.goals }
        requires there { is_some (goal_of place number self.old) ≡ true }
        requires status { is_building (status_of status) ≡ false }
        ensures { ChangesGoal place number (in_status (status_of status)) self.old self.new }
    {
        self.all[place].set_status(number, status);
    }

    /// A goal that is built in no job enters one.
    ///
    /// # Errors
    ///
    /// - `Memory` only where memory was refused. Nothing has changed then.
    pub fn enter(
        &mut self,
        alloc: Global,
        place: usize,
        number: u16,
        job: Job,
    ) -> Result<(), Refusal>
        requires of_run { place < length self.old.goals }
        requires idle { IsIdle (goal_of place number self.old) }
        ensures entered { OnOk result
            (ChangesGoal place number (in_status (Building job)) self.old self.new) }
        ensures kept { OnErr result (self.new ≡ self.old) }
        ensures memory { IfErr result (λ e. e ≡ Memory) }
    {
        self.all[place].enter(alloc, number, job)
    }

    /// The numbers of the goals of a user that are built in a job, ascending. They are found at
    /// once.
    pub fn members(&self, place: usize, job: &Job) -> &[u16]
        requires { place < length self.now.goals }
        ensures { result.now ≡ members job.now 1 (goals_at place self.now) }
    {
        self.all[place].members(job)
    }

    /// The numbers of the goals of a user that are done and were built under a path, of several that came
    /// to the same that of the first, ascending. They are found at once.
    pub fn finished_under(&self, place: usize, path: &StorePath) -> &[u16]
        requires { place < length self.now.goals }
        ensures { result.now ≡ finished path.now (goals_at place self.now) }
    {
        self.all[place].finished_under(path)
    }

    /// Users among whom are all who have a goal that was planned and is built under a path. They are found
    /// at once; there may be some whose goals were built under it once.
    pub fn planners(&self, path: &StorePath) -> UserSet
        ensures { HasPlanners path.now (holds result) self.now }
    {
        self.planners.at(path)
    }

    /// Whether a goal of a user is built from the output of a class at a path, in a job whose leader is
    /// in a set of the users.
    pub fn build_with(
        &self,
        place: usize,
        users: &Users,
        reached: UserSet,
        class: &StorePath,
        path: &StorePath,
    ) -> bool
        requires of_run { place < length self.now.goals }
        requires few { length users.now ≤ most_users }
        ensures { result ≡ list_any
            (builds_with (names users.now (holds reached)) class.now path.now)
            (goals_at place self.now) }
    {
        self.all[place].build_with(users, reached, class, path)
    }

    /// The goals of a user that are built in jobs from the output of a class at a path wait, whoever leads
    /// the jobs. It takes no memory.
    pub fn let_go(&mut self, place: usize, class: &StorePath, path: &StorePath)
        requires { place < length self.old.goals }
        ensures { self.new ≡ with_goals_at place
            (map (let_go class.now path.now) (goals_at place self.old)) self.old }
    {
        self.all[place].let_go(class, path);
    }

    /// Of the jobs that the users of a set lead, the least in which the same is built,
    /// by the names of the leaders and then by number. A goal of theirs that is built from that
    /// enters it or, where there is none, its own. It looks only at those who have planned goals under
    /// the path of `resolved`, and of their goals at those that lead jobs under it. It takes no memory.
    pub fn join(&self, set: UserSet, resolved: &Resolved) -> Option<&Job>
        ensures { option_copied result
            ≡ least_with None resolved.now (running_at (holds set) self.now) }
    {
        let near = set & self.planners.at(resolved.scratch());
        let mut least = None;
        for place in 0..self.all.len() {
            if has_place(near, place) {
                least = self.all[place].least_job(resolved, least);
            }
        }
        least
    }
}
