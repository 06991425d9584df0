//! What one user has.

ghost use Rattle.std.specs.Prelude.{◌≡◌, ◌⊎◌, ◌+◌, ◌<◌, ◌≤◌, ◌^◌, [], ◌∷◌, ◌++◌, Ok, Err, None, false, length, map, MatchResult};
ghost use Rattle.std.specs.Option.{option_copied};
ghost use Rattle.model.specs.Classes.{known_at, is_one_of};
ghost use Rattle.model.specs.Worlds.{pinned, unpinned};
ghost use Rattle.path_sets.specs.PathSets.{AreNew};
ghost use Rattle.records.specs.DeskEntries.{entry_path};
ghost use Rattle.std.specs.Map.Iter.{ShowsInOrder, deref};
ghost use Rattle.realise.specs.Held.{paths_held, IsSetOf};
ghost use Rattle.realise.specs.Holdings.{known_with, records_with, IsNewSource, records_of, paths_of, is_on, has_place, charged_more, holds_entry, holds_derivation, with_pins, bare, IsClosed, IsClosedWithEntry, holds_each, charged_all, AreAbsent, AreCountable};
ghost use Rattle.model.specs.declared.refusal.Refusal.TheVariants.{Memory};

use crate::holding::Holding;
use crate::parts::parted;
use crate::pins::Pins;
use classes::{Admitted, Known};
use desk_records::{Records, RecordsOf};
use indexmap::map::Keys;
use model::{MOST_RECORDS, MOST_SOURCES, Refusal};
use records::{DeskEntry, Record};
use std::alloc::Global;
use std::hash::RandomState;
use std::marker::Model;
use storepath::StorePath;

/// What a user's desk knows of his derivations and sources, the records of what was built for their
/// classes, his pins, and the distinct paths that he holds, with the sum of their archive lengths in
/// bytes, which is what he is charged.
///
/// What the labels of its records name is on it.
pub struct Desk {
    pub(crate) known: Known,
    pub(crate) records: Records,
    pins: Pins,
    pub(crate) holding: Holding,
}

impl Drop for Desk {
    fn drop(self) {
        let Desk {
            known: _,
            records: _,
            pins: _,
            holding: _,
        } = self;
    }
}

impl Model for Desk {
    ghost use Rattle.realise.specs.Holdings.{Holdings};

    ghost Value = { Holdings };

    ghost use Rattle.realise.specs.Kept.{holdings_of, IsConsistent};

    ghost view = { holdings_of };

    ghost invariant = { IsConsistent };
}

/// Puts records behind the others and sources that are not there yet with the others, all or none. The
/// one error is memory, and changes nothing.
fn put_parts(
    alloc: Global,
    known: &mut Known,
    records: &mut Records,
    sources: Vec<StorePath>,
    added: Vec<Record>,
) -> Result<(), Refusal>
    requires absent { AreNew known.old.sources sources.items }
    ensures { MatchResult result
        (λ _. (known.new ≡ record known.old { sources = known.old.sources ++ sources.items })
        × (records.new ≡ records.old ++ added.items))
        (λ e. (e ≡ Memory) × (known.new ≡ known.old) × (records.new ≡ records.old)) }
{
    let count = records.len();
    records.push_all(alloc, added)?;
    if let Err(why) = known.add_sources(alloc, sources) {
        records.truncate(count);
        return Err(why);
    }
    Ok(())
}

/// Puts a record behind the others, if `check` lets it, which is asked when no more memory is needed. Where
/// it does not, nothing has changed.
fn put_record_if<F: FnOnce() -> Result<bool, Refusal>>(
    alloc: Global,
    records: &mut Records,
    added: Record,
    check: F,
) -> Result<bool, Refusal>
    requires callable { F.IsAlwaysCallable check }
    ensures { MatchResult result
        (λ told. F.post check (Ok told) × (records.new ≡ records.old ++ added ∷ []))
        (λ e. ((e ≡ Memory) ⊎ F.post check (Err e)) × (records.new ≡ records.old)) }
{
    let count = records.len();
    records.push(alloc, added)?;
    let told = check();
    if told.is_err() {
        records.truncate(count);
    }
    told
}

/// Puts an entry that is not there yet with the sources or with the records, if `check` lets it, which is
/// asked when no more memory is needed. Where it does not, nothing has changed.
fn put_entry_if<F: FnOnce() -> Result<bool, Refusal>>(
    alloc: Global,
    known: &mut Known,
    records: &mut Records,
    entry: DeskEntry,
    check: F,
) -> Result<bool, Refusal>
    requires callable { F.IsAlwaysCallable check }
    requires absent { IsNewSource entry known.old }
    ensures { MatchResult result
        (λ told. F.post check (Ok told)
        × (known.new ≡ known_with entry known.old)
        × (records.new ≡ records_with entry records.old))
        (λ e. ((e ≡ Memory) ⊎ F.post check (Err e))
        × (known.new ≡ known.old)
        × (records.new ≡ records.old)) }
{
    match entry {
        DeskEntry::Source(source) => known.add_source_if(alloc, source, check),
        DeskEntry::Record(record) => put_record_if(alloc, records, record, check),
    }
}

impl Desk {
    /// A desk with nothing on it. `hashing` has the keys of the hasher for classes. It takes no
    /// memory.
    pub fn new(alloc: Global, hashing: RandomState) -> Desk
        ensures { result ≡ record {
          known = record { derivations = []; sources = [] };
          records = [];
          pins = [];
          archives = [];
          charge = 0;
        } }
    {
        Desk {
            known: Known::new(alloc),
            records: Records::new(alloc, hashing),
            pins: Pins::new(alloc),
            holding: Holding::new(alloc, hashing),
        }
    }

    /// What the desk knows.
    pub fn known(&self) -> &Known
        ensures { result.now ≡ self.now.known }
    {
        &self.known
    }

    /// How many outputs it has.
    pub fn record_count(&self) -> usize
        ensures count { result ≡ length self.now.records }
        ensures closed { IsClosed self.now }
    {
        self.records.len()
    }

    /// What was built for a class, the oldest first. It is found at once.
    pub fn records_of(&self, class: &StorePath) -> RecordsOf<'_>
        ensures { result ≡ records_of class.now self.now }
    {
        self.records.of_class(class)
    }

    /// What is pinned.
    pub fn pins(&self) -> &Pins
        ensures { result.now ≡ self.now.pins }
    {
        &self.pins
    }

    /// The sum of the archive lengths, in bytes.
    pub fn charge(&self) -> u64
        ensures { result ≡ self.now.charge }
    {
        self.holding.charge()
    }

    /// The derivation whose file has a path, if it is on the desk.
    pub fn derivation(&self, path: &StorePath) -> Option<&Admitted>
        ensures { option_copied result ≡ known_at self.now.known path.now }
    {
        self.known.derivation(path)
    }

    /// Whether a path is that of a source or of a record.
    pub fn holds(&self, path: &StorePath) -> bool
        ensures { result ≡ is_one_of (paths_of self.now) path.now }
    {
        self.holding.has(path)
    }

    /// The paths of its sources and of its records, each once.
    pub fn paths(&self) -> Keys<'_, StorePath, u64>
        ensures paths { result ≡ paths_held self.now.archives }
        ensures all { IsSetOf (paths_held self.now.archives) (paths_of self.now) }
        ensures runs { ShowsInOrder (deref {X = StorePath}) }
    {
        self.holding.paths()
    }

    /// Whether an entry is on the desk.
    pub fn has(&self, entry: &DeskEntry) -> bool
        ensures { result ≡ is_on entry.now self.now }
    {
        match entry {
            DeskEntry::Source(path) => self.known.has_source(path),
            DeskEntry::Record(added) => self.records.has(added),
        }
    }

    /// Whether there may be one such entry more.
    pub fn has_place_for(&self, entry: &DeskEntry) -> bool
        ensures { result ≡ has_place entry.now self.now }
    {
        match entry {
            DeskEntry::Source(_) => self.known.source_count() < MOST_SOURCES,
            DeskEntry::Record(_) => self.records.len() < MOST_RECORDS,
        }
    }

    /// What is charged more for a path whose archive has so many bytes: nothing where it is held.
    pub fn charged_for(&self, path: &StorePath, archive: u64) -> u64
        ensures { result ≡ charged_more path.now archive self.now }
    {
        if self.holds(path) { 0 } else { archive }
    }

    /// Adds an entry that is not there yet, whose archive has so many bytes: they are charged unless
    /// its path is held. What its labels name is on the desk. `check` is asked when no more memory is
    /// needed, and may still refuse it; the answer is what it told.
    ///
    /// # Errors
    ///
    /// Nothing has changed then.
    ///
    /// - `Memory` only where memory was refused, or by `check`.
    /// - What `check` refused it for.
    pub fn add_if<F: FnOnce() -> Result<bool, Refusal>>(
        &mut self,
        alloc: Global,
        entry: DeskEntry,
        archive: u64,
        check: F,
    ) -> Result<bool, Refusal>
        requires callable { F.IsAlwaysCallable check }
        requires absent { is_on entry self.old ≡ false }
        requires fits { self.old.charge + charged_more (entry_path entry) archive self.old < 2 ^ 64 }
        requires closed { IsClosedWithEntry self.old entry }
        ensures { MatchResult result
            (λ told. F.post check (Ok told) × (self.new ≡ holds_entry entry archive self.old))
            (λ e. ((e ≡ Memory) ⊎ F.post check (Err e)) × (self.new ≡ self.old)) }
    {
        self.holding.reserve(1)?;
        let path = entry.path().clone()?;
        let told = put_entry_if(alloc, &mut self.known, &mut self.records, entry, check)?;
        self.holding.put_reserved(path, archive);
        Ok(told)
    }

    /// What is charged more for entries whose archives have so many bytes: each path once, and
    /// nothing for one that is held.
    ///
    /// # Errors
    ///
    /// - `Memory` only where memory was refused.
    pub fn charged_for_all(
        &self,
        alloc: Global,
        entries: &[(DeskEntry, u64)],
    ) -> Result<u64, Refusal>
        requires { AreCountable entries.now }
        ensures { MatchResult result
            (λ more. more ≡ charged_all entries.now self.now)
            (λ e. e ≡ Memory) }
    {
        self.holding.charged_for_all(alloc, entries)
    }

    /// Adds entries that are not there yet, all or none, whose archives have so many bytes: those of
    /// each path are charged once, and not where it is held. What their labels name is on the desk or
    /// among them.
    ///
    /// # Errors
    ///
    /// - `Memory` only where memory was refused. Then nothing has changed.
    pub fn add_all(&mut self, alloc: Global, entries: Vec<(DeskEntry, u64)>) -> Result<(), Refusal>
        requires absent { AreAbsent (bare entries.items) self.old }
        requires fits { self.old.charge + charged_all entries.items self.old < 2 ^ 64 }
        requires closed { IsClosed (holds_each entries.items self.old) }
        ensures { MatchResult result
            (λ _. self.new ≡ holds_each entries.items self.old)
            (λ e. (e ≡ Memory) × (self.new ≡ self.old)) }
    {
        let parts = parted(alloc, entries)?;
        self.holding.reserve(parts.archives.len())?;
        put_parts(
            alloc,
            &mut self.known,
            &mut self.records,
            parts.sources,
            parts.records,
        )?;
        self.holding.put_all_reserved(parts.archives);
        Ok(())
    }

    /// Adds a derivation that is not there yet.
    ///
    /// # Errors
    ///
    /// - `Memory` only where memory was refused. Then nothing has changed.
    pub fn add_derivation(&mut self, admitted: Admitted) -> Result<(), Refusal>
        requires absent { known_at self.old.known admitted.path ≡ None }
        ensures { MatchResult result
            (λ _. self.new ≡ holds_derivation admitted self.old)
            (λ e. (e ≡ Memory) × (self.new ≡ self.old)) }
    {
        self.known.add_derivation(admitted)
    }

    /// Pins a path for a class, in the place of the older one, or as the last.
    ///
    /// # Errors
    ///
    /// - `Memory` only where memory was refused. Then nothing has changed.
    pub fn pin(&mut self, class: StorePath, path: StorePath) -> Result<(), Refusal>
        ensures { MatchResult result
            (λ _. self.new ≡ with_pins (pinned class path self.old.pins) self.old)
            (λ e. (e ≡ Memory) × (self.new ≡ self.old)) }
    {
        self.pins.put(class, path)
    }

    /// Takes the pin of a class back, if there is one.
    pub fn unpin(&mut self, class: &StorePath)
        ensures { self.new ≡ with_pins (unpinned class.now self.old.pins) self.old }
    {
        self.pins.remove(class);
    }
}
