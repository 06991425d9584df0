//! The indexes by which a user's goals are found.

ghost use Rattle.std.specs.Prelude.{◌≡◌, true, [], Some, is_some, MatchResult};
ghost use Rattle.std.specs.Str.{bytes_eq};
ghost use Rattle.model.specs.Goals.{goal_at, same_job, is_building};
ghost use Rattle.model.specs.declared.refusal.Refusal.TheVariants.{Memory};
ghost use Rattle.jobs.specs.Rising.{with_number};
ghost use Rattle.jobs.specs.Numbers.{numbers_at, left, own_job, is_built_under, undone, ChangesAt, HasSameNumbers, HasRoom, EntersJob, EntersPath, LeavesJob, LeavesPath, MovesPath, Finds, FindsFinished, IsUnlisted};

use crate::ascending::Ascending;
use crate::finished::{finished_under, first_alike};
use crate::goal::Goal;
use crate::index::{exchange_at, insert_at, insert_reserved_at, numbers_at, remove_at, reserve_at};
use events::Job;
use indexmap::IndexMap;
use model::Refusal;
use records::Resolved;
use std::alloc::Global;
use std::hash::RandomState;
use storepath::StorePath;
use trust::User;

/// The numbers of a user's goals: of those that are built in jobs, by the jobs in which they are built,
/// and by the paths under which they are built those that lead their own job, those that were planned,
/// and those that are done, of several that came to the same the first. A list may be empty.
///
/// A goal becomes done where no memory may be taken. So the lists of those that are done have room
/// for all that were planned.
pub(crate) struct Indexes {
    building: Ascending,
    of_jobs: IndexMap<Job, Ascending, RandomState>,
    leading: IndexMap<StorePath, Ascending, RandomState>,
    built: IndexMap<StorePath, Ascending, RandomState>,
    done: IndexMap<StorePath, Ascending, RandomState>,
}

impl Drop for Indexes {
    fn drop(self) {
        let Indexes {
            building: _,
            of_jobs: _,
            leading: _,
            built: _,
            done: _,
        } = self;
    }
}

impl Indexes {
    /// Of no goals.
    pub(crate) fn new(alloc: Global, hashing: RandomState) -> Indexes
        ensures building { result.building.numbers.items ≡ [] }
        ensures of_jobs { result.of_jobs.entries ≡ [] }
        ensures leading { result.leading.entries ≡ [] }
        ensures built { result.built.entries ≡ [] }
        ensures done { result.done.entries ≡ [] }
    {
        Indexes {
            building: Ascending::new(alloc),
            of_jobs: IndexMap::with_hasher(alloc, hashing),
            leading: IndexMap::with_hasher(alloc, hashing),
            built: IndexMap::with_hasher(alloc, hashing),
            done: IndexMap::with_hasher(alloc, hashing),
        }
    }

    /// The numbers of those that are built in jobs.
    pub(crate) fn building(&self) -> &[u16]
        ensures { result.now ≡ self.now.building.numbers.items }
    {
        self.building.as_slice()
    }

    /// The numbers of those that are built in a job.
    pub(crate) fn of_job(&self, job: &Job) -> &[u16]
        ensures { result.now ≡ numbers_at (same_job job.now) self.now.of_jobs.entries }
    {
        numbers_at(&self.of_jobs, job)
    }

    /// The numbers of those that lead their own job, which is built under a path.
    pub(crate) fn leading_under(&self, path: &StorePath) -> &[u16]
        ensures { result.now ≡ numbers_at (bytes_eq path.now) self.now.leading.entries }
    {
        numbers_at(&self.leading, path)
    }

    /// The numbers of those that were planned and are built under a path.
    pub(crate) fn built_under(&self, path: &StorePath) -> &[u16]
        ensures { result.now ≡ numbers_at (bytes_eq path.now) self.now.built.entries }
    {
        numbers_at(&self.built, path)
    }

    /// The numbers of those that are done and were built under a path, of several that came to the same
    /// that of the first.
    pub(crate) fn finished_under(&self, path: &StorePath) -> &[u16]
        ensures { result.now ≡ numbers_at (bytes_eq path.now) self.now.done.entries }
    {
        numbers_at(&self.done, path)
    }

    // Puts a goal that enters its own job among those that lead theirs. The one error is memory,
    // and changes no list.
    fn lead(
        &mut self,
        alloc: Global,
        owner: &User,
        number: u16,
        goal: &Goal,
        job: &Job,
    ) -> Result<(), Refusal>
        ensures building { self.new.building ≡ self.old.building }
        ensures jobs { self.new.of_jobs ≡ self.old.of_jobs }
        ensures leading { MatchResult result
            (λ _. EntersPath (same_job job.now (own_job owner.now number)) goal.now.resolved number
            self.old.leading.entries self.new.leading.entries)
            (λ e. (e ≡ Memory)
            × HasSameNumbers bytes_eq self.old.leading.entries self.new.leading.entries) }
        ensures built { self.new.built ≡ self.old.built }
        ensures done { self.new.done ≡ self.old.done }
    {
        if job.is_led_by(owner, number) {
            if let Some(resolved) = goal.resolved() {
                let path = resolved.scratch().clone()?;
                insert_at(alloc, &mut self.leading, path, number)?;
            }
        }
        Ok(())
    }

    /// Has a goal enter a job. The one error is memory, and changes no list.
    pub(crate) fn enter(
        &mut self,
        alloc: Global,
        owner: &User,
        number: u16,
        goal: &Goal,
        job: &Job,
    ) -> Result<(), Refusal>
        requires { IsUnlisted job.now number self.old.of_jobs.entries }
        ensures building { MatchResult result
            (λ _. self.new.building.numbers.items
            ≡ with_number number self.old.building.numbers.items)
            (λ e. self.new.building.numbers.items ≡ self.old.building.numbers.items) }
        ensures jobs { MatchResult result
            (λ _. EntersJob job.now number self.old.of_jobs.entries self.new.of_jobs.entries)
            (λ e. (e ≡ Memory)
            × HasSameNumbers same_job self.old.of_jobs.entries self.new.of_jobs.entries) }
        ensures leading { MatchResult result
            (λ _. EntersPath (same_job job.now (own_job owner.now number)) goal.now.resolved number
            self.old.leading.entries self.new.leading.entries)
            (λ e. HasSameNumbers bytes_eq self.old.leading.entries self.new.leading.entries) }
        ensures built { self.new.built ≡ self.old.built }
        ensures done { self.new.done ≡ self.old.done }
    {
        self.building.reserve_one()?;
        insert_at(alloc, &mut self.of_jobs, job.clone()?, number)?;
        if let Err(why) = self.lead(alloc, owner, number, goal, job) {
            remove_at(&mut self.of_jobs, job, number);
            return Err(why);
        }
        self.building.insert_reserved(number);
        Ok(())
    }

    /// Has a goal leave its job, if it is built in one. It takes no memory.
    pub(crate) fn leave(&mut self, number: u16, goal: &Goal)
        ensures building { self.new.building.numbers.items
            ≡ left (is_building goal.now.status) number self.old.building.numbers.items }
        ensures jobs { LeavesJob goal.now.status number
            self.old.of_jobs.entries self.new.of_jobs.entries }
        ensures leading { LeavesPath (is_building goal.now.status) goal.now.resolved number
            self.old.leading.entries self.new.leading.entries }
        ensures built { self.new.built ≡ self.old.built }
        ensures done { self.new.done ≡ self.old.done }
    {
        let Some(job) = goal.job() else {
            return;
        };
        self.building.remove(number);
        remove_at(&mut self.of_jobs, job, number);
        if let Some(resolved) = goal.resolved() {
            remove_at(&mut self.leading, resolved.scratch(), number);
        }
    }

    // Lists a number at a path. The one error is memory, and changes no list.
    fn list(&mut self, alloc: Global, number: u16, path: &StorePath) -> Result<(), Refusal>
        ensures building { self.new.building ≡ self.old.building }
        ensures jobs { self.new.of_jobs ≡ self.old.of_jobs }
        ensures leading { self.new.leading ≡ self.old.leading }
        ensures built { MatchResult result
            (λ _. ChangesAt bytes_eq path.now (with_number number)
            self.old.built.entries self.new.built.entries)
            (λ e. (e ≡ Memory)
            × HasSameNumbers bytes_eq self.old.built.entries self.new.built.entries) }
        ensures done { self.new.done ≡ self.old.done }
    {
        insert_at(alloc, &mut self.built, path.clone()?, number)
    }

    // Lists a goal where it is built from now on, and no more where it was built. The one error is
    // memory, and changes no list.
    fn relist(
        &mut self,
        alloc: Global,
        number: u16,
        goal: &Goal,
        resolved: &Resolved,
    ) -> Result<(), Refusal>
        ensures building { self.new.building ≡ self.old.building }
        ensures jobs { self.new.of_jobs ≡ self.old.of_jobs }
        ensures leading { self.new.leading ≡ self.old.leading }
        ensures built { MatchResult result
            (λ _. MovesPath goal.now.resolved (Some resolved.now) number
            self.old.built.entries self.new.built.entries)
            (λ e. (e ≡ Memory)
            × HasSameNumbers bytes_eq self.old.built.entries self.new.built.entries) }
        ensures done { self.new.done ≡ self.old.done }
    {
        let Some(had) = goal.resolved() else {
            return self.list(alloc, number, resolved.scratch());
        };
        if had.scratch() == resolved.scratch() {
            return Ok(());
        }
        self.list(alloc, number, resolved.scratch())?;
        remove_at(&mut self.built, had.scratch(), number);
        Ok(())
    }

    /// Has a goal be built from that, and no more from what it was built from, with room for it to
    /// be done. The one error is memory, and changes no list.
    pub(crate) fn plan(
        &mut self,
        alloc: Global,
        number: u16,
        goal: &Goal,
        resolved: &Resolved,
    ) -> Result<(), Refusal>
        requires { HasRoom self.old.built.entries self.old.done.entries }
        ensures building { self.new.building ≡ self.old.building }
        ensures jobs { self.new.of_jobs ≡ self.old.of_jobs }
        ensures leading { self.new.leading ≡ self.old.leading }
        ensures built { MatchResult result
            (λ _. MovesPath goal.now.resolved (Some resolved.now) number
            self.old.built.entries self.new.built.entries)
            (λ e. (e ≡ Memory)
            × HasSameNumbers bytes_eq self.old.built.entries self.new.built.entries) }
        ensures done { HasSameNumbers bytes_eq self.old.done.entries self.new.done.entries }
        ensures room { HasRoom self.new.built.entries self.new.done.entries }
    {
        let scratch = resolved.scratch();
        let count = numbers_at(&self.built, scratch).len() + 1;
        reserve_at(alloc, &mut self.done, scratch.clone()?, count)?;
        self.relist(alloc, number, goal, resolved)
    }

    /// Has a goal be found among those that are done, if it is done, and none before it came to the same.
    /// It takes no memory.
    pub(crate) fn finish(&mut self, goals: &[Goal], number: u16)
        requires there { is_some (goal_at number goals.now) ≡ true }
        requires built { Finds bytes_eq is_built_under goals.now self.old.built.entries }
        requires done { FindsFinished (undone number goals.now) self.old.done.entries }
        requires room { HasRoom self.old.built.entries self.old.done.entries }
        ensures building { self.new.building ≡ self.old.building }
        ensures jobs { self.new.of_jobs ≡ self.old.of_jobs }
        ensures leading { self.new.leading ≡ self.old.leading }
        ensures built { self.new.built ≡ self.old.built }
        ensures done { FindsFinished goals.now self.new.done.entries }
        ensures room { HasRoom self.new.built.entries self.new.done.entries }
    {
        let Some(path) = finished_under(goals, number) else {
            return;
        };
        match first_alike(goals, number, numbers_at(&self.done, path)) {
            Some(first) if first < number => {}
            Some(later) => exchange_at(&mut self.done, path, later, number),
            None => insert_reserved_at(&mut self.done, path, number),
        }
    }

    /// Has a goal be found no more among those that are done: the next one that came to the same is found
    /// in its place. It takes no memory.
    pub(crate) fn undo(&mut self, goals: &[Goal], number: u16)
        requires there { is_some (goal_at number goals.now) ≡ true }
        requires built { Finds bytes_eq is_built_under goals.now self.old.built.entries }
        requires done { FindsFinished goals.now self.old.done.entries }
        requires room { HasRoom self.old.built.entries self.old.done.entries }
        ensures building { self.new.building ≡ self.old.building }
        ensures jobs { self.new.of_jobs ≡ self.old.of_jobs }
        ensures leading { self.new.leading ≡ self.old.leading }
        ensures built { self.new.built ≡ self.old.built }
        ensures done { FindsFinished (undone number goals.now) self.new.done.entries }
        ensures room { HasRoom self.new.built.entries self.new.done.entries }
    {
        let Some(path) = finished_under(goals, number) else {
            return;
        };
        match first_alike(goals, number, numbers_at(&self.built, path)) {
            Some(first) if first < number => {}
            Some(next) => exchange_at(&mut self.done, path, number, next),
            None => remove_at(&mut self.done, path, number),
        }
    }
}
