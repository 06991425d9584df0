//! Repaired records that were used last, so many and so many bytes of them at most.

ghost use Rattle.std.specs.Prelude.{◌≡◌, ◌+◌, ◌≤◌, [], Some, IfOk, IfSome, IfNone, option_copied};
ghost use Rattle.classes.specs.Admitting.{one_more};
ghost use Rattle.model.specs.Repairs.{repaired};
ghost use Rattle.repair.specs.AtHand.{IsOf, IsKept, paths_of_key};
ghost use Rattle.repair.specs.Keeping.{sizes};
ghost use Rattle.repair.specs.declared.repair.Repair.{Repair as RepairValue};

use crate::repair::{Repair, copy_of};
use crate::replacements::Replacement;
use lru::LruCache;
use model::Refusal;
use records::Realisation;
use std::alloc::{AllocError, Global};
use std::hash::RandomState;
use std::num::NonZeroUsize;
use storepath::StorePath;

/// The records that were used last, and how many look-ups they answered. There are so many of them at most, and
/// so many bytes.
#[derive(Drop)]
pub(crate) struct Kept {
    records: LruCache<Vec<StorePath>, Repair, RandomState>,
    /// How many bytes the records count.
    bytes: u64,
    most_bytes: u32,
    hits: u64,
    ghost counted: { bytes ≡ sizes records.entries },
    ghost bounded: { bytes ≤ most_bytes },
}

/// What came of a record whose labels are replaced so, if this is that record.
pub(crate) fn outcome_in<'a>(
    kept: Option<&'a Repair>,
    chosen: &Realisation,
    replacements: &[Replacement],
) -> Option<&'a Result<Realisation, Refusal>>
    ensures outcome { IfSome result (λ o. o.now ≡ repaired chosen.now replacements.now) }
    ensures some { IfSome result (λ _. (one : RepairValue) × (option_copied kept.entry ≡ Some one)
        × IsOf chosen.now replacements.now one) }
    ensures none { IfNone result ((one : RepairValue) → option_copied kept.entry ≡ Some one
        → IsOf chosen.now replacements.now one → ⊥) }
{
    kept?.outcome_for(chosen, replacements)
}

impl Kept {
    /// No records, where so many are kept at most, and so many bytes.
    pub(crate) fn new(
        alloc: Global,
        hashing: RandomState,
        most: NonZeroUsize,
        most_bytes: u32,
    ) -> Result<Kept, AllocError>
        ensures { IfOk result (λ kept. (kept.records.entries ≡ [])
            × (kept.most_bytes ≡ most_bytes) × (kept.hits ≡ 0)) }
    {
        let records = LruCache::with_hasher(alloc, most, hashing)?;
        Ok(Kept {
            records,
            bytes: 0,
            most_bytes,
            hits: 0,
        })
    }

    /// How many look-ups the records answered; at the greatest number it stays there.
    pub(crate) fn hits(&self) -> u64
        ensures { result ≡ self.now.hits }
    {
        self.hits
    }

    /// A copy of what came of a record whose labels are replaced so, if it is kept under a key. The one error
    /// is memory.
    pub(crate) fn copy_for(
        &mut self,
        key: &Vec<StorePath>,
        chosen: &Realisation,
        replacements: &[Replacement],
    ) -> Result<Option<Result<Realisation, Refusal>>, AllocError>
        requires { key.now.items ≡ paths_of_key chosen.now replacements.now }
        ensures found { IfOk result (λ found. IfSome found
            (λ o. o ≡ repaired chosen.now replacements.now)) }
        ensures some { IfOk result (λ found. IfSome found (λ _.
            IsKept self.old.records.entries chosen.now replacements.now)) }
        ensures none { IfOk result (λ found. IfNone found (
            IsKept self.old.records.entries chosen.now replacements.now → ⊥)) }
        ensures hit { IfOk result (λ found. IfSome found (λ _.
            self.new.hits ≡ one_more self.old.hits)) }
        ensures no_hit { IfOk result (λ found. IfNone found (self.new.hits ≡ self.old.hits)) }
        ensures bound { self.new.most_bytes ≡ self.old.most_bytes }
    {
        self.records.promote(key);
        let Some(outcome) = outcome_in(self.records.peek(key), chosen, replacements) else {
            return Ok(None);
        };
        let copy = copy_of(outcome)?;
        self.hits = self.hits.saturating_add(1);
        Ok(Some(copy))
    }

    /// Lets records go, those first that were used least lately, until there is room for so many bytes.
    fn make_room(&mut self, size: u64)
        requires { size ≤ self.old.most_bytes }
        ensures room { self.new.bytes + size ≤ self.new.most_bytes }
        ensures bound { self.new.most_bytes ≡ self.old.most_bytes }
        ensures hits { self.new.hits ≡ self.old.hits }
    {
        let room = u64::from(self.most_bytes) - size;
        while self.bytes > room {
            let Some((_key, gone)) = self.records.pop_lru() else {
                return;
            };
            self.bytes -= gone.size();
        }
    }

    /// Keeps a record under a key, if it counts no more bytes than may be kept, and there is memory for it.
    /// Those that were used least lately make room for it.
    pub(crate) fn keep(&mut self, key: Vec<StorePath>, made: Repair)
        ensures bound { self.new.most_bytes ≡ self.old.most_bytes }
        ensures hits { self.new.hits ≡ self.old.hits }
    {
        let size = made.size();
        if size > u64::from(self.most_bytes) {
            return;
        }
        self.make_room(size);
        let _count = self.records.len();
        match self.records.push(key, made) {
            Ok(Some((_key, gone))) => self.bytes = self.bytes + size - gone.size(),
            Ok(None) => self.bytes += size,
            Err(_) => {}
        }
    }

    /// Lets all records go.
    pub(crate) fn clear(&mut self)
        ensures empty { self.new.records.entries ≡ [] }
        ensures bound { self.new.most_bytes ≡ self.old.most_bytes }
        ensures hits { self.new.hits ≡ self.old.hits }
    {
        self.records.clear();
        self.bytes = 0;
    }
}
