//! Records that were repaired, so that none has to be repaired again soon.

ghost use Rattle.std.specs.Prelude.{◌≡◌, ◌≢◌, ◌⊎◌, IfOk, IfErr, IfSome, IfNone, MatchResult, OnOk, None, Some, is_some, [], Ok, Err};
ghost use Rattle.classes.specs.Admitting.{one_more};
ghost use Rattle.model.specs.Repairs.{repaired};
ghost use Rattle.model.specs.declared.refusal.Refusal.TheVariants.{Memory};
ghost use Rattle.repair.specs.AtHand.{IsMade, KeepsOthers, paths_of_key};
ghost use Rattle.repair.specs.Counting.{hits_of, bound_of, IsBounded, KeepsNone, IsAmongKept, IsAtHand, made_in, IsForStep};

use crate::kept::Kept;
use crate::made::Made;
use crate::repair::{Repair, copy_of, tried};
use crate::replacements::Replacement;
use model::Refusal;
use records::Realisation;
use std::alloc::{AllocError, Global};
use std::hash::RandomState;
use std::mem;
use std::num::NonZeroUsize;
use storepath::StorePath;

/// The path of a record, and the one in the place of each of its labels' paths, in the order of the
/// labels. The one error is memory.
fn key_of(
    alloc: Global,
    chosen: &Realisation,
    replacements: &[Replacement],
) -> Result<Vec<StorePath>, AllocError>
    ensures { IfOk result (λ key. key.items ≡ paths_of_key chosen.now replacements.now) }
{
    let mut key = Vec::new(alloc);
    key.push(chosen.path().clone()?)?;
    for one in replacements {
        key.push(one.path().clone()?)?;
    }
    Ok(key)
}

/// Records that were repaired, with what each was made of. Each is used only where all that is at
/// hand again, so that whatever they are, what is served is the same.
pub struct Cache {
    /// Those of one step, if it is for one.
    made: Option<Made>,
    /// Those that were used last, if it keeps them.
    kept: Option<Box<Kept>>,
    computed: u64,
}

impl Drop for Cache {
    fn drop(self) {
        let Cache {
            made: _,
            kept: _,
            computed: _,
        } = self;
    }
}

impl Cache {
    /// A cache that keeps the records that were used last, `most` of them and `most_bytes` bytes at most: a
    /// record counts its archive and that of what it was repaired to, which are both kept alive, and 1,024
    /// bytes for itself and for each of its labels. `hashing` has the keys of its hashers.
    ///
    /// # Errors
    ///
    /// `Memory` only where memory was refused.
    pub fn new(
        alloc: Global,
        hashing: RandomState,
        most: NonZeroUsize,
        most_bytes: u32,
    ) -> Result<Cache, Refusal>
        ensures memory { IfErr result (λ why. why ≡ Memory) }
        ensures bound { IfOk result (λ cache. bound_of cache.kept ≡ Some most_bytes) }
        ensures none { IfOk result (λ cache. (cache.made ≡ None) × KeepsNone cache.kept) }
        ensures counts { IfOk result (λ cache. (cache.computed ≡ 0) × (hits_of cache.kept ≡ 0)) }
    {
        let kept = Box::new(alloc, Kept::new(alloc, hashing, most, most_bytes)?)?;
        Ok(Cache {
            made: None,
            kept: Some(kept),
            computed: 0,
        })
    }

    /// A cache for one step, which keeps all that is made or found with it. It takes no memory.
    pub fn none() -> Cache
        ensures bound { bound_of result.kept ≡ None }
        ensures step { IsForStep result }
        ensures none { made_in result.made ≡ [] }
        ensures counts { result.computed ≡ 0 }
    {
        Cache {
            made: Some(Made::none()),
            kept: None,
            computed: 0,
        }
    }

    /// How many look-ups a record that was used lately answered; at the greatest number it stays
    /// there.
    pub fn hits(&self) -> u64
        ensures { result ≡ hits_of self.now.kept }
    {
        match &self.kept {
            Some(kept) => kept.hits(),
            None => 0,
        }
    }

    /// How many records had to be repaired; at the greatest number it stays there.
    pub fn computed(&self) -> u64
        ensures { result ≡ self.now.computed }
    {
        self.computed
    }

    /// Exchanges the records that were used last with those of another cache, with the number of their
    /// hits. What was made for one step stays.
    pub fn exchange_kept(&mut self, other: &mut Cache)
        ensures kept { (self.new.kept ≡ other.old.kept) × (other.new.kept ≡ self.old.kept) }
        ensures made { (self.new.made ≡ self.old.made) × (other.new.made ≡ other.old.made) }
        ensures computed { (self.new.computed ≡ self.old.computed)
            × (other.new.computed ≡ other.old.computed) }
    {
        mem::swap(&mut self.kept, &mut other.kept);
    }

    /// Lets all records go that were used last, so that their memory is there for others. What was made for one
    /// step stays, and so do the numbers.
    pub fn empty(&mut self)
        ensures made { self.new.made ≡ self.old.made }
        ensures computed { self.new.computed ≡ self.old.computed }
        ensures hits { hits_of self.new.kept ≡ hits_of self.old.kept }
        ensures bound { bound_of self.new.kept ≡ bound_of self.old.kept }
        ensures none { KeepsNone self.new.kept }
    {
        if let Some(kept) = &mut self.kept {
            kept.clear();
        }
    }

    /// A copy of what came of a record whose labels are replaced so, if it is kept. The one error is memory.
    fn kept_for(
        &mut self,
        alloc: Global,
        chosen: &Realisation,
        replacements: &[Replacement],
    ) -> Result<Option<Result<Realisation, Refusal>>, AllocError>
        ensures found { IfOk result (λ found. IfSome found
            (λ o. o ≡ repaired chosen.now replacements.now)) }
        ensures some { IfOk result (λ found. IfSome found (λ _.
            IsAmongKept self.old.kept chosen.now replacements.now)) }
        ensures none { IfOk result (λ found. IfNone found (
            IsAmongKept self.old.kept chosen.now replacements.now → ⊥)) }
        ensures hit { IfOk result (λ found. IfSome found (λ _.
            hits_of self.new.kept ≡ one_more (hits_of self.old.kept))) }
        ensures no_hit { IfOk result (λ found. IfNone found (
            hits_of self.new.kept ≡ hits_of self.old.kept)) }
        ensures made { self.new.made ≡ self.old.made }
        ensures computed { self.new.computed ≡ self.old.computed }
        ensures bound { bound_of self.new.kept ≡ bound_of self.old.kept }
    {
        let Some(kept) = &mut self.kept else {
            return Ok(None);
        };
        let key = key_of(alloc, chosen, replacements)?;
        kept.copy_for(&key, chosen, replacements)
    }

    /// What comes of a record whose labels are replaced. Where memory is refused, the records that were used
    /// last are let go, and it is tried once more. The one error is memory.
    fn made_of(
        &mut self,
        alloc: Global,
        chosen: &Realisation,
        replacements: &[Replacement],
    ) -> Result<Result<Realisation, Refusal>, Refusal>
        ensures outcome { IfOk result (λ outcome. outcome ≡ repaired chosen.now replacements.now) }
        ensures memory { IfErr result (λ why. why ≡ Memory) }
        ensures made { self.new.made ≡ self.old.made }
        ensures computed { self.new.computed ≡ self.old.computed }
        ensures hits { hits_of self.new.kept ≡ hits_of self.old.kept }
        ensures bound { bound_of self.new.kept ≡ bound_of self.old.kept }
    {
        if let Ok(outcome) = tried(alloc, chosen, replacements) {
            return Ok(outcome);
        }
        self.empty();
        tried(alloc, chosen, replacements)
    }

    /// Keeps what came of a record whose labels were replaced so among those that were used last, if there is
    /// memory for that, and it is not too large.
    fn keep(
        &mut self,
        alloc: Global,
        chosen: &Realisation,
        replacements: &[Replacement],
        outcome: &Result<Realisation, Refusal>,
    )
        requires { outcome.now ≡ repaired chosen.now replacements.now }
        ensures made { self.new.made ≡ self.old.made }
        ensures computed { self.new.computed ≡ self.old.computed }
        ensures hits { hits_of self.new.kept ≡ hits_of self.old.kept }
        ensures bound { bound_of self.new.kept ≡ bound_of self.old.kept }
    {
        let Some(kept) = &mut self.kept else {
            return;
        };
        let Ok(key) = key_of(alloc, chosen, replacements) else {
            return;
        };
        let Ok(one) = Repair::new(alloc, chosen, replacements, outcome) else {
            return;
        };
        kept.keep(key, one);
    }

    /// What came lately of a record whose labels are replaced so, or else what comes of it now, which is kept
    /// among those that were used last, if there is memory for that, and it is not too large. The one error
    /// is memory.
    fn kept_or_made(
        &mut self,
        alloc: Global,
        chosen: &Realisation,
        replacements: &[Replacement],
    ) -> Result<Result<Realisation, Refusal>, Refusal>
        ensures outcome { IfOk result (λ outcome. outcome ≡ repaired chosen.now replacements.now) }
        ensures memory { IfErr result (λ why. why ≡ Memory) }
        ensures at_hand { IsAmongKept self.old.kept chosen.now replacements.now
            → OnOk result (self.new.computed ≡ self.old.computed) }
        ensures computed { (IsAmongKept self.old.kept chosen.now replacements.now → ⊥)
            → OnOk result (self.new.computed ≡ one_more self.old.computed) }
        ensures hit { IsAmongKept self.old.kept chosen.now replacements.now
            → OnOk result (hits_of self.new.kept ≡ one_more (hits_of self.old.kept)) }
        ensures no_hit { (IsAmongKept self.old.kept chosen.now replacements.now → ⊥)
            → OnOk result (hits_of self.new.kept ≡ hits_of self.old.kept) }
        ensures made { self.new.made ≡ self.old.made }
        ensures bound { bound_of self.new.kept ≡ bound_of self.old.kept }
    {
        if let Some(outcome) = self.kept_for(alloc, chosen, replacements)? {
            return Ok(outcome);
        }
        let outcome = self.made_of(alloc, chosen, replacements)?;
        self.computed = self.computed.saturating_add(1);
        self.keep(alloc, chosen, replacements, &outcome);
        Ok(outcome)
    }

    /// What came of a record whose labels are replaced so, if it is kept for this step.
    fn made_for(
        &self,
        chosen: &Realisation,
        replacements: &[Replacement],
    ) -> Option<&Result<Realisation, Refusal>>
        ensures outcome { IfSome result (λ o. o.now ≡ repaired chosen.now replacements.now) }
        ensures some { IfSome result
            (λ _. IsMade (made_in self.now.made) chosen.now replacements.now) }
        ensures none { IfNone result (IsMade (made_in self.now.made) chosen.now replacements.now
            → ⊥) }
    {
        self.made.as_ref()?.outcome_for(chosen, replacements)
    }

    /// Keeps what came of a record whose labels were replaced so, where this is for a step. The one error is
    /// memory.
    fn keep_made(
        &mut self,
        alloc: Global,
        chosen: &Realisation,
        replacements: &[Replacement],
        outcome: &Result<Realisation, Refusal>,
    ) -> Result<(), Refusal>
        requires { outcome.now ≡ repaired chosen.now replacements.now }
        ensures made { IsForStep self.old
            → OnOk result (IsMade (made_in self.new.made) chosen.now replacements.now) }
        ensures others { KeepsOthers chosen.now.class.path (made_in self.old.made) (made_in
            self.new.made) }
        ensures step { is_some self.new.made ≡ is_some self.old.made }
        ensures kept { self.new.kept ≡ self.old.kept }
        ensures computed { self.new.computed ≡ self.old.computed }
        ensures memory { IfErr result (λ why. why ≡ Memory) }
    {
        match &mut self.made {
            Some(made) => made.keep(alloc, chosen, replacements, outcome),
            None => Ok(()),
        }
    }

    /// Repairs a record whose labels are replaced, unless that was done before. What comes of it is kept: for
    /// the step, if this is for one, and among those that were used last, if there is memory for that, and it
    /// is not too large.
    pub(crate) fn repaired(
        &mut self,
        alloc: Global,
        chosen: &Realisation,
        replacements: &[Replacement],
    ) -> Result<Realisation, Refusal>
        ensures answer { let answer = repaired chosen.now replacements.now in MatchResult result
            (λ made. answer ≡ Ok made)
            (λ e. (e ≡ Memory) ⊎ (answer ≡ Err e)) }
        // What was at hand is not made.
        ensures at_hand { IsAtHand self.old chosen.now replacements.now → result ≢ Err Memory
            → self.new.computed ≡ self.old.computed }
        // What was not is made once.
        ensures computed { (IsAtHand self.old chosen.now replacements.now → ⊥) → result ≢ Err Memory
            → self.new.computed ≡ one_more self.old.computed }
        // For a step it is there then, and what is there for other classes stays.
        ensures made { IsForStep self.old → result ≢ Err Memory
            → IsMade (made_in self.new.made) chosen.now replacements.now }
        ensures others { KeepsOthers chosen.now.class.path (made_in self.old.made) (made_in
            self.new.made) }
        ensures same { IsMade (made_in self.old.made) chosen.now replacements.now
            → self.new ≡ self.old }
        ensures step { is_some self.new.made ≡ is_some self.old.made }
        ensures hit { (IsMade (made_in self.old.made) chosen.now replacements.now → ⊥)
            → IsAmongKept self.old.kept chosen.now replacements.now → result ≢ Err Memory
            → hits_of self.new.kept ≡ one_more (hits_of self.old.kept) }
        ensures no_hit { (IsAtHand self.old chosen.now replacements.now → ⊥) → result ≢ Err Memory
            → hits_of self.new.kept ≡ hits_of self.old.kept }
        ensures bounded { IsBounded self.new.kept }
        ensures bound { bound_of self.new.kept ≡ bound_of self.old.kept }
    {
        if let Some(outcome) = self.made_for(chosen, replacements) {
            return copy_of(outcome)?;
        }
        let outcome = self.kept_or_made(alloc, chosen, replacements)?;
        self.keep_made(alloc, chosen, replacements, &outcome)?;
        outcome
    }
}
