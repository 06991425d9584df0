//! The goals of one user.

ghost use Rattle.std.specs.Prelude.{◌≡◌, ◌≤◌, ◌+◌, ◌⊎◌, ◌↔◌, true, false, [], ◌∷◌, ◌++◌, length, Some, Err, IfErr, IfOk, IfSome, OnOk, OnErr, is_some, option_copied};
ghost use Rattle.model.specs.declared.refusal.Refusal.TheVariants.{Memory, Quota};
ghost use Rattle.model.specs.Limits.{most_goals};
ghost use Rattle.model.specs.Worlds.{Building};
ghost use Rattle.model.specs.Goals.{goal_at, in_status, new_goal, members, led_by, is_building};
ghost use Rattle.jobs.specs.Joining.{job_with, least_with, lesser_of};
ghost use Rattle.jobs.specs.Owned.{with_goals, ChangesOwn};
ghost use Rattle.jobs.specs.Shared.{IsBuiltLike};
ghost use Rattle.jobs.specs.Numbers.{numbers, building, leads_at, finished, first_built};
ghost use Rattle.events.specs.Statuses.{status_of};
ghost use Rattle.jobs.specs.Statuses.{planned_with, IsIdle};

use crate::finished::goal_of;
use crate::goal::Goal;
use crate::indexes::Indexes;
use events::{Job, Status};
use model::{MOST_GOALS, Refusal};
use records::Resolved;
use std::alloc::Global;
use std::hash::RandomState;
use std::marker::Model;
use storepath::StorePath;
use trust::User;

/// The goals of one user, numbered from 1.
pub(crate) struct Goals {
    owner: User,
    goals: Vec<Goal>,
    indexes: Indexes,
}

impl Drop for Goals {
    fn drop(self) {
        let Goals {
            owner: _,
            goals: _,
            indexes: _,
        } = self;
    }
}

impl Model for Goals {
    ghost use Rattle.std.specs.Prelude.{length, ◌≤◌};
    ghost use Rattle.model.specs.Limits.{most_goals};
    ghost use Rattle.jobs.specs.Owned.{Owned};
    ghost use Rattle.jobs.specs.Codes.{owned_code};
    ghost use Rattle.jobs.specs.Numbers.{IsIndexed};

    ghost Value = { Owned };

    ghost coded = { owned_code };

    ghost view = { λ g. record { owner = g.owner; goals = g.goals.items } };

    ghost invariant = { λ g. (length g.goals.items ≤ most_goals)
        × IsIndexed g.owner g.goals.items g.indexes.building.numbers.items
        g.indexes.of_jobs.entries g.indexes.leading.entries g.indexes.built.entries
        g.indexes.done.entries };
}

/// The best so far, or another job, if there is one, that goes before it.
fn lesser<'a>(best: Option<&'a Job>, other: Option<&'a Job>) -> Option<&'a Job>
    ensures { option_copied result
        ≡ lesser_of (option_copied best.entry) (option_copied other.entry) }
{
    match (best, other) {
        (Some(first), Some(second)) => { if second.is_before(first) { other } else { best } }
        (None, _) => other,
        (_, None) => best,
    }
}

impl Goals {
    /// No goals.
    pub(crate) fn new(alloc: Global, hashing: RandomState, owner: User) -> Goals
        ensures { result ≡ record { owner = owner; goals = [] } }
    {
        Goals {
            owner,
            goals: Vec::new(alloc),
            indexes: Indexes::new(alloc, hashing),
        }
    }

    /// The user.
    pub(crate) fn owner(&self) -> &User
        ensures { result.now ≡ self.now.owner }
    {
        &self.owner
    }

    /// One goal more, which is to be planned. Its number.
    pub(crate) fn add(&mut self, derivation: StorePath) -> Result<u16, Refusal>
        ensures added { OnOk result (self.new
            ≡ with_goals (self.old.goals ++ new_goal derivation ∷ []) self.old) }
        ensures number { IfOk result (λ n. n ≡ length self.old.goals + 1) }
        ensures most { IfOk result (λ n. n ≤ most_goals) }
        ensures kept { OnErr result (self.new ≡ self.old) }
        ensures full { (result ≡ Err Quota) ↔ (length self.old.goals ≡ most_goals) }
        ensures errors { IfErr result (λ e. (e ≡ Quota) ⊎ (e ≡ Memory)) }
    {
        if self.goals.len() >= MOST_GOALS {
            return Err(Refusal::Quota);
        }
        self.goals.push(Goal::new(derivation))?;
        Ok(self.goals.len() as u16)
    }

    /// All of them, that of number 1 first.
    pub(crate) fn as_slice(&self) -> &[Goal]
        ensures goals { result.now ≡ self.now.goals }
        ensures few { length self.now.goals ≤ most_goals }
    {
        self.goals.as_slice()
    }

    /// The goal of a number.
    pub(crate) fn get(&self, number: u16) -> Option<&Goal>
        ensures { option_copied result ≡ goal_at number self.now.goals }
    {
        goal_of(self.goals.as_slice(), number)
    }

    // What the goal of a number is built from, where that may be shared with `resolved`.
    fn like_at(&self, number: Option<&u16>, resolved: &Resolved) -> Option<&Resolved>
        ensures { IfSome (option_copied result) (IsBuiltLike self.now.goals resolved.now) }
    {
        self.get(*number?)?.built_like(resolved)
    }

    /// What one of the goals is built from, where that is equal to `resolved` but for the trees, and the
    /// goal is planned, or built in a job, or the trees are equal too.
    ///
    /// Of the goals that are built under the same path it looks at the last and at the first, whatever
    /// their state. So where all of them are built from the same, they share it, and those between the
    /// two need not be looked at.
    pub(crate) fn built_like(&self, resolved: &Resolved) -> Option<&Resolved>
        ensures { IfSome (option_copied result) (IsBuiltLike self.now.goals resolved.now) }
    {
        let numbers = self.indexes.built_under(resolved.scratch());
        match self.like_at(numbers.last(), resolved) {
            Some(found) => Some(found),
            None => self.like_at(numbers.first(), resolved),
        }
    }

    /// What the first of those goals is built from that are built under a path. It is found at once.
    fn first_built(&self, path: &StorePath) -> Option<&Resolved>
        ensures { option_copied result ≡ first_built path.now self.now.goals }
    {
        let number = self.indexes.built_under(path).first()?;
        self.get(*number)?.resolved()
    }

    /// The same, which shares its text with what is built under its path already, if that is equal.
    fn shared(&self, resolved: Resolved) -> Resolved
        ensures { result ≡ resolved }
    {
        match self.first_built(resolved.scratch()) {
            Some(first) => resolved.sharing(first),
            None => resolved,
        }
    }

    /// A goal is planned, and from now on built from that. Where it was built in a job, it leaves
    /// it. The one error is memory, and changes nothing.
    pub(crate) fn keep(
        &mut self,
        alloc: Global,
        number: u16,
        resolved: Resolved,
    ) -> Result<(), Refusal>
        requires { is_some (goal_at number self.old.goals) ≡ true }
        ensures planned { OnOk result
            (ChangesOwn number (planned_with resolved) self.old self.new) }
        ensures kept { OnErr result (self.new ≡ self.old) }
        ensures memory { IfErr result (λ e. e ≡ Memory) }
    {
        let resolved = self.shared(resolved);
        let index = number as usize - 1;
        self.indexes.undo(self.goals.as_slice(), number);
        if let Err(why) = self
            .indexes
            .plan(alloc, number, &self.goals[index], &resolved)
        {
            self.indexes.finish(self.goals.as_slice(), number);
            return Err(why);
        }
        self.indexes.leave(number, &self.goals[index]);
        self.goals[index].keep(resolved);
        Ok(())
    }

    /// A goal gets a state that is not `Building`. Where it was built in a job it leaves it. It takes
    /// no memory.
    pub(crate) fn set_status(&mut self, number: u16, status: Status)
        requires there { is_some (goal_at number self.old.goals) ≡ true }
        requires status { is_building (status_of status) ≡ false }
        ensures { ChangesOwn number (in_status (status_of status)) self.old self.new }
    {
        let index = number as usize - 1;
        self.indexes.leave(number, &self.goals[index]);
        self.indexes.undo(self.goals.as_slice(), number);
        self.goals[index].set_status(status);
        self.indexes.finish(self.goals.as_slice(), number);
    }

    /// A goal that is built in no job enters one. The one error is memory, and changes nothing.
    pub(crate) fn enter(&mut self, alloc: Global, number: u16, job: Job) -> Result<(), Refusal>
        requires { IsIdle (goal_at number self.old.goals) }
        ensures entered { OnOk result
            (ChangesOwn number (in_status (Building job)) self.old self.new) }
        ensures kept { OnErr result (self.new ≡ self.old) }
        ensures memory { IfErr result (λ e. e ≡ Memory) }
    {
        let index = number as usize - 1;
        self.indexes
            .enter(alloc, &self.owner, number, &self.goals[index], &job)?;
        self.indexes.undo(self.goals.as_slice(), number);
        self.goals[index].set_status(Status::Building(job));
        Ok(())
    }

    /// The numbers of the goals that are built in jobs, ascending. They are found at once.
    pub(crate) fn building(&self) -> &[u16]
        ensures { result.now ≡ building self.now.goals }
    {
        self.indexes.building()
    }

    /// The numbers of the goals that are built in a job, ascending. They are found at once.
    pub(crate) fn members(&self, job: &Job) -> &[u16]
        ensures { result.now ≡ members job.now 1 self.now.goals }
    {
        self.indexes.of_job(job)
    }

    /// The numbers of the goals that are done and were built under a path, of several that came to the
    /// same that of the first, ascending. They are found at once.
    pub(crate) fn finished_under(&self, path: &StorePath) -> &[u16]
        ensures { result.now ≡ finished path.now self.now.goals }
    {
        self.indexes.finished_under(path)
    }

    /// The numbers of the goals that lead their own job, which is built under a path, ascending.
    /// They are found at once.
    pub(crate) fn leading(&self, path: &StorePath) -> &[u16]
        ensures { result.now ≡ numbers (leads_at self.now.owner path.now) 1 self.now.goals }
    {
        self.indexes.leading_under(path)
    }

    // The job of a goal that is built from the same.
    fn job_with(&self, number: u16, resolved: &Resolved) -> Option<&Job>
        ensures { option_copied result ≡ job_with resolved.now (goal_at number self.now.goals) }
    {
        let goal = self.get(number)?;
        if goal.is_built_from(resolved) {
            goal.job()
        } else {
            None
        }
    }

    /// The least job that a goal of the user leads and in which the same is built, or the best so
    /// far, where none goes before it.
    pub(crate) fn least_job<'a>(
        &'a self,
        resolved: &Resolved,
        best: Option<&'a Job>,
    ) -> Option<&'a Job>
        ensures { option_copied result
            ≡ least_with (option_copied best.entry) resolved.now
            (led_by self.now.owner 1 self.now.goals) }
    {
        let mut least = best;
        for number in self.leading(resolved.scratch()) {
            least = lesser(least, self.job_with(*number, resolved));
        }
        least
    }
}
