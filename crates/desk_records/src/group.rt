//! A group of records.

ghost use Rattle.std.specs.Prelude.{◌≡◌, ◌==◌, ◌<◌, [], ◌∷◌, ◌++◌, length, MatchResult};
ghost use Rattle.std.specs.Map.{remove_entry};
ghost use Rattle.model.specs.declared.refusal.Refusal.TheVariants.{Memory};
ghost use Rattle.desk_records.specs.Numbers.{IsAbove, is_number, number_of, without_numbers};
ghost use Rattle.desk_records.specs.RecordLists.{is_recorded_at};

use crate::recorded::is_recorded_at;
use crate::records_of::RecordsOf;
use model::Refusal;
use records::Record;
use std::alloc::Global;
use std::collections::BTreeMap;
use std::marker::Model;
use storepath::StorePath;

/// Puts a record with a number above all into a map. The one error is memory, and changes nothing.
fn insert(map: &mut BTreeMap<u32, Record>, number: u32, added: Record) -> Result<(), Refusal>
    requires { IsAbove number map.old.entries }
    ensures { MatchResult result
        (λ _. map.new.entries ≡ map.old.entries ++ (number, added) ∷ [])
        (λ e. (e ≡ Memory) × (map.new.entries ≡ map.old.entries)) }
{
    match map.insert(number, added) {
        Ok(_none) => Ok(()),
        Err(_added) => Err(Refusal::Memory),
    }
}

/// What a group has. Most have one record, which needs no memory of its own.
#[derive(Drop)]
enum Kept {
    Empty,
    One(u32, Record),
    Several(Box<BTreeMap<u32, Record>>),
}

/// The records of a group with their numbers, which ascend.
pub struct Group {
    kept: Kept,
}

impl Drop for Group {
    fn drop(self) {
        let Group { kept: _ } = self;
    }
}

impl Model for Group {
    ghost use Rattle.std.specs.Prelude.{ℕ, List};
    ghost use Rattle.records.specs.Recorded.{Recorded};
    ghost use Rattle.desk_records.specs.Grouped.{numbered_in};

    ghost Value = { List (ℕ × Recorded) };

    ghost view = { λ g. numbered_in g.kept };
}

/// A map of two records. The one error is memory.
fn map_of_two(
    alloc: Global,
    first: (u32, Record),
    second: (u32, Record),
) -> Result<BTreeMap<u32, Record>, Refusal>
    requires { first.0 < second.0 }
    ensures { MatchResult result
        (λ map. map.entries ≡ first ∷ second ∷ [])
        (λ e. e ≡ Memory) }
{
    let mut map = BTreeMap::new(alloc);
    insert(&mut map, first.0, first.1)?;
    insert(&mut map, second.0, second.1)?;
    Ok(map)
}

/// The number of the first record of a class at a path in a map, if there is one. All are looked at.
fn number_in(map: &BTreeMap<u32, Record>, class: &StorePath, path: &StorePath) -> Option<u32>
    ensures { result ≡ number_of (is_recorded_at class.now path.now) map.now.entries }
{
    for (number, record) in map {
        if is_recorded_at(class, path, record) {
            return Some(*number);
        }
    }
    None
}

impl Group {
    /// No records.
    pub(crate) fn new() -> Group
        ensures { result ≡ [] }
    {
        Group { kept: Kept::Empty }
    }

    /// Whether there are none.
    pub(crate) fn is_empty(&self) -> bool
        ensures { result ≡ (length self.now == 0) }
    {
        match &self.kept {
            Kept::Empty => true,
            Kept::One(_, _) => false,
            Kept::Several(numbered) => numbered.is_empty(),
        }
    }

    /// The records, by ascending numbers.
    pub(crate) fn records(&self) -> RecordsOf<'_>
        ensures { result ≡ without_numbers self.now }
    {
        match &self.kept {
            Kept::Empty => RecordsOf::none(),
            Kept::One(_, record) => RecordsOf::one(record),
            Kept::Several(numbered) => RecordsOf::several(numbered),
        }
    }

    /// The number of the first record of a class at a path, if there is one. All are looked at.
    pub(crate) fn number_of(&self, class: &StorePath, path: &StorePath) -> Option<u32>
        ensures { result ≡ number_of (is_recorded_at class.now path.now) self.now }
    {
        match &self.kept {
            Kept::One(number, record) if is_recorded_at(class, path, record) => Some(*number),
            Kept::Several(numbered) => number_in(numbered, class, path),
            _ => None,
        }
    }

    /// Adds a record with a number above all. The one error is memory, and changes nothing.
    pub(crate) fn push(&mut self, alloc: Global, number: u32, added: Record) -> Result<(), Refusal>
        requires { IsAbove number self.old }
        ensures { MatchResult result
            (λ _. self.new ≡ self.old ++ (number, added) ∷ [])
            (λ e. (e ≡ Memory) × (self.new ≡ self.old)) }
    {
        match &mut self.kept {
            Kept::Empty => {
                self.kept = Kept::One(number, added);
                Ok(())
            }
            Kept::One(first, one) => {
                let both = map_of_two(alloc, (*first, one.clone()?), (number, added))?;
                self.kept = Kept::Several(Box::new(alloc, both)?);
                Ok(())
            }
            Kept::Several(numbered) => insert(numbered, number, added),
        }
    }

    /// Takes the record of a number out, if there is one. It takes no memory.
    pub(crate) fn remove(&mut self, number: u32)
        ensures { self.new ≡ remove_entry (is_number number) self.old }
    {
        match &mut self.kept {
            Kept::One(own, _) if *own == number => self.kept = Kept::Empty,
            Kept::Several(numbered) => {
                let _record = numbered.remove(&number);
            }
            _ => {}
        }
    }
}
