//! What the end of a job with an output makes of one user's desk and goals.

ghost use Rattle.std.specs.Prelude.{◌≡◌, ◌<◌, ◌≤◌, ◌+◌, ◌^◌, [], length, map, IfOk, IfErr};
ghost use Rattle.model.specs.Classes.{is_one_of};
ghost use Rattle.model.specs.Limits.{most_records};
ghost use Rattle.model.specs.Worlds.{Done};
ghost use Rattle.model.specs.declared.refusal.Refusal.TheVariants.{Memory};
ghost use Rattle.realise.specs.Holdings.{charged_more};
ghost use Rattle.events.specs.Statuses.{status_of};
ghost use Rattle.endings.specs.DeskDeltas.{delta_in, with_delta, nothing, is_had, is_free, one_more, delta_with, status_with, delta_of, status_of_built, all_delta, all_statuses, status_at, waiting};

use crate::settling::Built;
use events::Status;
use model::{MOST_RECORDS, Refusal};
use nar::Tree;
use realise::{Desk, Limits};
use records::{DeskEntry, Record};
use std::alloc::Global;
use storepath::StorePath;

/// Whether one of the records has a path.
fn has_path(records: &[Record], path: &StorePath) -> bool
    ensures { result ≡ is_one_of (map (λ r. r.path) records.now) path.now }
{
    for record in records {
        if *record.path() == *path {
            return true;
        }
    }
    false
}

/// What a desk gets: records, their trees with their paths, and the bytes that are charged for them.
pub(crate) struct DeskDelta {
    /// The records, in the order in which the desk gets them.
    pub(crate) records: Vec<Record>,
    /// The tree of each record, with its path.
    pub(crate) trees: Vec<(StorePath, Tree)>,
    /// The bytes of archives that the desk's user is charged more.
    pub(crate) more: u64,
}

impl Drop for DeskDelta {
    fn drop(self) {
        let DeskDelta {
            records: _,
            trees: _,
            more: _,
        } = self;
    }
}

impl DeskDelta {
    /// Nothing. It takes no memory.
    pub(crate) fn new(alloc: Global) -> DeskDelta
        ensures { delta_in result ≡ nothing }
    {
        DeskDelta {
            records: Vec::new(alloc),
            trees: Vec::new(alloc),
            more: 0,
        }
    }

    /// Whether a desk has a record, or gets it. The one error is memory.
    fn has(&self, desk: &Desk, added: &Record) -> Result<bool, Refusal>
        ensures had { IfOk result (λ had.
            had ≡ is_had added.now (with_delta (delta_in self.now) desk.now)) }
        ensures memory { IfErr result (λ why. why ≡ Memory) }
    {
        let entry = DeskEntry::Record(added.clone()?);
        Ok(desk.has(&entry) || added.is_among(&self.records))
    }

    /// What is charged more for a path whose archive has so many bytes: nothing where it is held.
    fn charged_for(&self, desk: &Desk, path: &StorePath, archive: u64) -> u64
        ensures { result ≡ charged_more path.now archive (with_delta (delta_in self.now) desk.now) }
    {
        if desk.holds(path) || has_path(&self.records, path) {
            0
        } else {
            archive
        }
    }

    /// Whether a desk stays within its limits with one record more, for which so many bytes are
    /// charged.
    fn has_room(&self, desk: &Desk, limits: Limits, more: u64) -> bool
        requires records { length desk.now.records ≤ most_records }
        requires charge { desk.now.charge + self.now.more ≤ limits.charge }
        ensures { result ≡ is_free more limits.charge (with_delta (delta_in self.now) desk.now) }
    {
        self.records.len() < MOST_RECORDS - desk.record_count()
            && more <= limits.charge - desk.charge() - self.more
    }

    /// A desk gets a record at a path with its tree, for which so many bytes are charged. Told is that
    /// its goal is done. The one error is memory.
    fn put(
        &mut self,
        path: StorePath,
        added: Record,
        tree: Tree,
        more: u64,
    ) -> Result<Status, Refusal>
        requires path { path ≡ added.path }
        requires fits { self.old.more + more < 2 ^ 64 }
        ensures delta { IfOk result (λ _.
            delta_in self.new ≡ one_more (added, tree) more (delta_in self.old)) }
        ensures status { IfOk result (λ status. status_of status ≡ Done path) }
        ensures memory { IfErr result (λ why. why ≡ Memory) }
    {
        self.trees.push((path.clone()?, tree))?;
        self.records.push(added)?;
        self.more += more;
        Ok(Status::Done(path))
    }

    /// A desk gets a record with its tree, if it has it not and there is room. Told is how far its
    /// goal is then. The one error is memory.
    fn add(
        &mut self,
        desk: &Desk,
        limits: Limits,
        added: Record,
        tree: Tree,
    ) -> Result<Status, Refusal>
        requires records { length desk.now.records ≤ most_records }
        requires charge { desk.now.charge + self.old.more ≤ limits.charge }
        ensures delta { IfOk result (λ _.
            delta_in self.new ≡ delta_with limits.charge desk.now (added, tree) (delta_in self.old)) }
        ensures status { IfOk result (λ status. status_of status
            ≡ status_with limits.charge (added, tree) (with_delta (delta_in self.old) desk.now)) }
        ensures charge { IfOk result (λ _. desk.now.charge + self.new.more ≤ limits.charge) }
        ensures memory { IfErr result (λ why. why ≡ Memory) }
    {
        let path = added.path().clone()?;
        if self.has(desk, &added)? {
            return Ok(Status::Done(path));
        }
        let more = self.charged_for(desk, &path, tree.nar_len() as u64);
        if !self.has_room(desk, limits, more) {
            return Ok(Status::Failed(Refusal::Quota));
        }
        self.put(path, added, tree, more)
    }

    /// A desk gets what was built for a goal, if anything was. Told is how far the goal is then. The
    /// one error is memory.
    fn take_in(&mut self, desk: &Desk, limits: Limits, built: Built) -> Result<Status, Refusal>
        requires records { length desk.now.records ≤ most_records }
        requires charge { desk.now.charge + self.old.more ≤ limits.charge }
        ensures delta { IfOk result (λ _.
            delta_in self.new ≡ delta_of limits.charge desk.now built (delta_in self.old)) }
        ensures status { IfOk result (λ status. status_of status
            ≡ status_of_built limits.charge built (with_delta (delta_in self.old) desk.now)) }
        ensures charge { IfOk result (λ _. desk.now.charge + self.new.more ≤ limits.charge) }
        ensures memory { IfErr result (λ why. why ≡ Memory) }
    {
        match built {
            Ok((record, tree)) => self.add(desk, limits, record, tree),
            Err(why) => Ok(Status::Failed(why)),
        }
    }
}

/// What a desk gets of what was built for goals, by their numbers, and how far each goal is then.
///
/// # Errors
///
/// - `Memory` only where memory was refused.
pub(crate) fn delta_for(
    alloc: Global,
    desk: &Desk,
    limits: Limits,
    built: Vec<(u16, Built)>,
) -> Result<(DeskDelta, Vec<(u16, Status)>), Refusal>
    requires records { length desk.now.records ≤ most_records }
    requires charge { desk.now.charge ≤ limits.charge }
    ensures delta { IfOk result (λ r.
        delta_in r.0 ≡ all_delta limits.charge desk.now built.items nothing) }
    ensures statuses { IfOk result (λ r.
        map status_at r.1.items ≡ all_statuses limits.charge desk.now built.items nothing) }
    ensures charge { IfOk result (λ r. desk.now.charge + r.0.more ≤ limits.charge) }
    ensures memory { IfErr result (λ why. why ≡ Memory) }
{
    let mut delta = DeskDelta::new(alloc);
    let mut statuses = Vec::new(alloc);
    for (number, built) in built {
        let status = delta.take_in(desk, limits, built)?;
        statuses.push((number, status))?;
    }
    Ok((delta, statuses))
}

/// Goals of these numbers wait.
///
/// # Errors
///
/// - `Memory` only where memory was refused.
pub(crate) fn waiting(alloc: Global, numbers: &[u16]) -> Result<Vec<(u16, Status)>, Refusal>
    ensures statuses { IfOk result (λ statuses. map status_at statuses.items ≡ waiting numbers.now) }
    ensures memory { IfErr result (λ why. why ≡ Memory) }
{
    let mut statuses = Vec::new(alloc);
    for number in numbers {
        statuses.push((*number, Status::Waiting))?;
    }
    Ok(statuses)
}
