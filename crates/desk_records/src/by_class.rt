//! The records of one user.

ghost use Rattle.std.specs.Prelude.{◌≡◌, ◌<◌, [], ◌∷◌, ◌++◌, length, map, filter, take, MatchResult, IfSome};
ghost use Rattle.std.specs.List.{list_any};
ghost use Rattle.std.specs.Map.{remove_entry};
ghost use Rattle.model.specs.Classes.{is_one_of};
ghost use Rattle.records.specs.Recorded.{same_recorded};
ghost use Rattle.desk_records.specs.RecordLists.{is_record_of, is_recorded_at, remaining, refers_to};
ghost use Rattle.desk_records.specs.Numbers.{IsAbove, is_number};
ghost use Rattle.desk_records.specs.Indexed.{AreInOrder, is_record_at, without_last};
ghost use Rattle.model.specs.declared.refusal.Refusal.TheVariants.{Memory};

use crate::indexes::Indexes;
use crate::records_of::RecordsOf;
use model::Refusal;
use records::Record;
use std::alloc::Global;
use std::collections::BTreeMap;
use std::hash::RandomState;
use std::marker::Model;
use storepath::StorePath;

/// The records of one user, the oldest first.
///
/// Each has a number, which is above those of all that are older. By its number it is found in the
/// list, in the records of its class and in those at its path, and taken out of them, however many
/// there are. The hashers have keys that nobody outside knows, since records may come from others.
pub struct Records {
    list: BTreeMap<u32, Record>,
    indexes: Indexes,
}

impl Drop for Records {
    fn drop(self) {
        let Records {
            list: _,
            indexes: _,
        } = self;
    }
}

impl Model for Records {
    ghost use Rattle.std.specs.Prelude.{List};
    ghost use Rattle.records.specs.Recorded.{Recorded};

    ghost Value = { List Recorded };

    ghost use Rattle.desk_records.specs.Numbers.{without_numbers};
    ghost use Rattle.desk_records.specs.Indexed.{AreInOrder};

    ghost view = { λ r. without_numbers r.list.entries };

    ghost invariant = { λ r. AreInOrder r.indexes r.list.entries };
}

/// A number above all in a list, unless the last of them is the greatest that there may be.
fn next_number(list: &BTreeMap<u32, Record>) -> Option<u32>
    ensures { IfSome result (λ number. IsAbove number list.now.entries) }
{
    match list.last_key_value() {
        Some((last, _)) => last.checked_add(1),
        None => Some(0),
    }
}

/// Takes the record of a number out, if there is one. It takes no memory.
fn take_out(list: &mut BTreeMap<u32, Record>, indexes: &mut Indexes, number: u32)
    requires { AreInOrder indexes.old list.old.entries }
    ensures in_order { AreInOrder indexes.new list.new.entries }
    ensures others { list.new.entries ≡ remove_entry (is_number number) list.old.entries }
{
    if let Some(record) = list.remove(&number) {
        indexes.take(number, &record);
    }
}

/// Whether a record is among others. Each of them is looked at.
fn is_among(added: &Record, others: RecordsOf) -> bool
    ensures { result ≡ list_any (λ r. same_recorded r added.now) others.entry }
{
    for other in others {
        if other.same(added) {
            return true;
        }
    }
    false
}

impl Records {
    /// No records. `hashing` has the keys of the hashers. It takes no memory.
    pub fn new(alloc: Global, hashing: RandomState) -> Records
        ensures { result ≡ [] }
    {
        Records {
            list: BTreeMap::new(alloc),
            indexes: Indexes::new(alloc, hashing),
        }
    }

    /// How many there are.
    pub fn len(&self) -> usize
        ensures { result ≡ length self.now }
    {
        self.list.len()
    }

    /// Those of a class, the oldest first.
    pub fn of_class(&self, class: &StorePath) -> RecordsOf<'_>
        ensures { result ≡ filter (is_record_of class.now) self.now }
    {
        self.indexes.of_class(class)
    }

    /// Those at a path, the oldest first.
    fn at_path(&self, path: &StorePath) -> RecordsOf<'_>
        ensures { result ≡ filter (is_record_at path.now) self.now }
    {
        self.indexes.at_path(path)
    }

    /// Whether one of them is at a path. None is looked at.
    pub fn has_path(&self, path: &StorePath) -> bool
        ensures { result ≡ is_one_of (map (λ r. r.path) self.now) path.now }
    {
        self.at_path(path).len() > 0
    }

    /// Whether a record is one of them. Those of its class are looked at, or those at its path, whichever
    /// are fewer.
    pub fn has(&self, added: &Record) -> bool
        ensures { result ≡ list_any (λ r. same_recorded r added.now) self.now }
    {
        let of_class = self.of_class(added.class().path());
        let at_path = self.at_path(added.path());
        if at_path.len() < of_class.len() {
            is_among(added, at_path)
        } else {
            is_among(added, of_class)
        }
    }

    /// Whether one of them is of a class, at a path. Those of the class are looked at, or those at the
    /// path, whichever are fewer.
    pub fn has_recorded(&self, class: &StorePath, path: &StorePath) -> bool
        ensures { result ≡ list_any (is_recorded_at class.now path.now) self.now }
    {
        self.indexes.number_of(class, path).is_some()
    }

    /// Whether a label names what is of a class at a path, other than one of a record of that class
    /// at that path. None is looked at.
    pub fn need(&self, class: &StorePath, path: &StorePath) -> bool
        ensures { let others = remaining class.now path.now self.now in
            result ≡ list_any (refers_to class.now path.now) others }
    {
        self.indexes.named(class, path) > 0
    }

    /// Adds a record as the last, under a number above all, where there is one. The one error is memory, and
    /// changes nothing.
    fn push_above(&mut self, alloc: Global, added: Record) -> Result<(), Refusal>
        ensures { MatchResult result
            (λ _. self.new ≡ self.old ++ added ∷ [])
            (λ e. (e ≡ Memory) × (self.new ≡ self.old)) }
    {
        let Some(number) = next_number(&self.list) else {
            return Err(Refusal::Memory);
        };
        let copy = added.clone()?;
        self.indexes.put(alloc, number, &added)?;
        match self.list.insert(number, copy) {
            Ok(_none) => Ok(()),
            Err(_copy) => {
                self.indexes.take(number, &added);
                Err(Refusal::Memory)
            }
        }
    }

    /// The same records, with numbers from 0 on. The one error is memory.
    fn renumbered(&self, alloc: Global) -> Result<Records, Refusal>
        ensures { MatchResult result (λ anew. anew ≡ self.now) (λ e. e ≡ Memory) }
    {
        let mut anew = Records::new(alloc, self.indexes.hashing());
        for record in self.list.values() {
            anew.push_above(alloc, record.clone()?)?;
        }
        Ok(anew)
    }

    /// Adds a record as the last. Where there is no number above all, they get others first. The one error is
    /// memory, and changes nothing.
    pub fn push(&mut self, alloc: Global, added: Record) -> Result<(), Refusal>
        ensures { MatchResult result
            (λ _. self.new ≡ self.old ++ added ∷ [])
            (λ e. (e ≡ Memory) × (self.new ≡ self.old)) }
    {
        if next_number(&self.list).is_none() {
            *self = self.renumbered(alloc)?;
        }
        self.push_above(alloc, added)
    }

    /// Takes the newest record away, if there is one.
    fn pop(&mut self)
        ensures { self.new ≡ without_last self.old }
    {
        if let Some((number, record)) = self.list.pop_last() {
            self.indexes.take(number, &record);
        }
    }

    /// Keeps so many of the oldest records, and takes the others away. It takes no memory.
    pub fn truncate(&mut self, count: usize)
        ensures { self.new ≡ take count self.old }
    {
        while count < self.len() {
            self.pop();
        }
    }

    /// Takes the records of a class at a path away. It takes no memory.
    pub fn remove(&mut self, class: &StorePath, path: &StorePath)
        ensures { self.new ≡ remaining class.now path.now self.old }
    {
        while let Some(number) = self.indexes.number_of(class, path) {
            take_out(&mut self.list, &mut self.indexes, number);
        }
    }

    /// Adds records behind the others, all of them or none. The one error is memory, and changes
    /// nothing.
    pub fn push_all(&mut self, alloc: Global, added: Vec<Record>) -> Result<(), Refusal>
        ensures { MatchResult result
            (λ _. self.new ≡ self.old ++ added.items)
            (λ e. (e ≡ Memory) × (self.new ≡ self.old)) }
    {
        let count = self.len();
        for record in added {
            if let Err(why) = self.push(alloc, record) {
                self.truncate(count);
                return Err(why);
            }
        }
        Ok(())
    }
}
