//! The tables by which the records of a desk are found.

ghost use Rattle.std.specs.Prelude.{◌≡◌, ℕ, List, [], MatchResult};
ghost use Rattle.records.specs.Recorded.{Recorded};
ghost use Rattle.desk_records.specs.RecordLists.{is_recorded_at};
ghost use Rattle.desk_records.specs.Counted.{count_under};
ghost use Rattle.desk_records.specs.Numbers.{IsAbove, number_of, without_numbers};
ghost use Rattle.desk_records.specs.Indexed.{AreTabled, group_at, IsGrouped, HasSameGroups, HasListed, HasUnlisted, HasSameTables};
ghost use Rattle.model.specs.declared.refusal.Refusal.TheVariants.{Memory};

use crate::counts::Counts;
use crate::group::Group;
use crate::groups::{number_in, put_in_group, records_in, take_from_group};
use crate::names::{add_labels, count_under, take_labels};
use crate::records_of::RecordsOf;
use indexmap::IndexMap;
use model::Refusal;
use records::Record;
use std::alloc::Global;
use std::hash::RandomState;
use std::marker::Model;
use storepath::StorePath;

/// The records of a desk by their classes and by their paths, and for each class and path how many labels
/// of other records name what is of that class at that path. The groups have copies of the records.
pub struct Indexes {
    by_class: IndexMap<StorePath, Group, RandomState>,
    by_path: IndexMap<StorePath, Group, RandomState>,
    named: IndexMap<StorePath, Counts, RandomState>,
}

impl Drop for Indexes {
    fn drop(self) {
        let Indexes {
            by_class: _,
            by_path: _,
            named: _,
        } = self;
    }
}

impl Model for Indexes {
    ghost use Rattle.desk_records.specs.Indexed.{Tables};

    ghost Value = { Tables };

    ghost view = { λ i. record {
      by_class = i.by_class.entries;
      by_path = i.by_path.entries;
      named = i.named.entries;
    } };
}

/// Puts a record into the groups of its class and of its path, with a number above all there. The one error
/// is memory, and changes no group.
fn put_in_groups(
    alloc: Global,
    by_class: &mut IndexMap<StorePath, Group, RandomState>,
    by_path: &mut IndexMap<StorePath, Group, RandomState>,
    number: u32,
    one: &Record,
) -> Result<(), Refusal>
    requires of_class { IsAbove number (group_at one.now.class.path by_class.old.entries) }
    requires at_path { IsAbove number (group_at one.now.path by_path.old.entries) }
    ensures classes { MatchResult result
        (λ _. IsGrouped one.now.class.path (number, one.now) by_class.old.entries by_class.new.entries)
        (λ e. (e ≡ Memory) × HasSameGroups by_class.old.entries by_class.new.entries) }
    ensures paths { MatchResult result
        (λ _. IsGrouped one.now.path (number, one.now) by_path.old.entries by_path.new.entries)
        (λ e. HasSameGroups by_path.old.entries by_path.new.entries) }
{
    let class = one.class().path().clone()?;
    let path = one.path().clone()?;
    let copy = one.clone()?;
    put_in_group(alloc, by_class, class, number, one.clone()?)?;
    if let Err(why) = put_in_group(alloc, by_path, path, number, copy) {
        take_from_group(by_class, one.class().path(), number);
        return Err(why);
    }
    Ok(())
}

impl Indexes {
    /// Of no records. `hashing` has the keys of the hashers. It takes no memory.
    pub(crate) fn new(alloc: Global, hashing: RandomState) -> Indexes
        ensures { result ≡ record { by_class = []; by_path = []; named = [] } }
    {
        Indexes {
            by_class: IndexMap::with_hasher(alloc, hashing),
            by_path: IndexMap::with_hasher(alloc, hashing),
            named: IndexMap::with_hasher(alloc, hashing),
        }
    }

    /// The keys of the hashers.
    pub(crate) fn hashing(&self) -> RandomState {
        *self.named.hasher()
    }

    /// Those of a class, by ascending numbers.
    pub(crate) fn of_class(&self, class: &StorePath) -> RecordsOf<'_>
        ensures { result ≡ without_numbers (group_at class.now self.now.by_class) }
    {
        records_in(&self.by_class, class)
    }

    /// Those at a path, by ascending numbers.
    pub(crate) fn at_path(&self, path: &StorePath) -> RecordsOf<'_>
        ensures { result ≡ without_numbers (group_at path.now self.now.by_path) }
    {
        records_in(&self.by_path, path)
    }

    /// The number of the first record of a class at a path, if there is one. Those of the class are looked
    /// at, or those at the path, whichever are fewer.
    pub(crate) fn number_of(&self, class: &StorePath, path: &StorePath) -> Option<u32>
        ensures { (numbered : List (ℕ × Recorded)) → AreTabled self.now numbered
            → result ≡ number_of (is_recorded_at class.now path.now) numbered }
    {
        if self.at_path(path).len() < self.of_class(class).len() {
            number_in(&self.by_path, path, class, path)
        } else {
            number_in(&self.by_class, class, class, path)
        }
    }

    /// How many labels of other records name what is of a class at a path.
    pub(crate) fn named(&self, class: &StorePath, path: &StorePath) -> usize
        ensures { result ≡ count_under class.now path.now self.now.named }
    {
        count_under(&self.named, class, path)
    }

    /// Lists a record under a number above those of its class and at its path. The one error is memory, and
    /// changes nothing.
    pub(crate) fn put(&mut self, alloc: Global, number: u32, one: &Record) -> Result<(), Refusal>
        requires by_class { IsAbove number (group_at one.now.class.path self.old.by_class) }
        requires by_path { IsAbove number (group_at one.now.path self.old.by_path) }
        ensures { MatchResult result
            (λ _. HasListed number one.now self.old self.new)
            (λ e. (e ≡ Memory) × HasSameTables self.old self.new) }
    {
        add_labels(alloc, &mut self.named, one)?;
        if let Err(why) = put_in_groups(alloc, &mut self.by_class, &mut self.by_path, number, one) {
            take_labels(&mut self.named, one, one.labels());
            return Err(why);
        }
        Ok(())
    }

    /// Lists the record of a number no longer. It takes no memory.
    pub(crate) fn take(&mut self, number: u32, one: &Record)
        ensures { HasUnlisted number one.now self.old self.new }
    {
        take_from_group(&mut self.by_class, one.class().path(), number);
        take_from_group(&mut self.by_path, one.path(), number);
        take_labels(&mut self.named, one, one.labels());
    }
}
