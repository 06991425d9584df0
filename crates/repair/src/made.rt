//! Repaired records that are kept for one step.

ghost use Rattle.std.specs.Prelude.{◌≡◌, [], true, is_some, IfErr, IfSome, IfNone, OnOk};
ghost use Rattle.model.specs.Repairs.{repaired};
ghost use Rattle.model.specs.declared.refusal.Refusal.TheVariants.{Memory};
ghost use Rattle.repair.specs.AtHand.{IsMade, KeepsOthers};
ghost use Rattle.repair.specs.Counting.{repairs_in};

use crate::kept::outcome_in;
use crate::repair::Repair;
use crate::replacements::Replacement;
use indexmap::IndexMap;
use model::Refusal;
use records::Realisation;
use std::alloc::{AllocError, Global};
use storepath::StorePath;

/// What came of the records that a step repairs, by the paths of their classes: a plan serves each class once.
/// A plan has at most 1,024 records, so that a fixed seed of the hasher harms nobody.
#[derive(Drop)]
pub(crate) struct Made {
    /// By the class, once there are some.
    repairs: Option<Box<IndexMap<StorePath, Repair>>>,
}

impl Made {
    /// Nothing. It takes no memory.
    pub(crate) fn none() -> Made
        ensures { repairs_in result.repairs ≡ [] }
    {
        Made { repairs: None }
    }

    /// What came of a record whose labels are replaced so, if it is kept.
    pub(crate) fn outcome_for(
        &self,
        chosen: &Realisation,
        replacements: &[Replacement],
    ) -> Option<&Result<Realisation, Refusal>>
        ensures outcome { IfSome result (λ o. o.now ≡ repaired chosen.now replacements.now) }
        ensures some { IfSome result
            (λ _. IsMade (repairs_in self.now.repairs) chosen.now replacements.now) }
        ensures none { IfNone result (IsMade (repairs_in self.now.repairs) chosen.now replacements.now
            → ⊥) }
    {
        let repairs = self.repairs.as_ref()?;
        outcome_in(repairs.get(chosen.class().path()), chosen, replacements)
    }

    /// Makes the table of records, if there is none yet. The one error is memory.
    fn open(&mut self, alloc: Global) -> Result<(), AllocError>
        ensures same { repairs_in self.new.repairs ≡ repairs_in self.old.repairs }
        ensures some { OnOk result (is_some self.new.repairs ≡ true) }
    {
        if self.repairs.is_none() {
            self.repairs = Some(Box::new(alloc, IndexMap::new(alloc))?);
        }
        Ok(())
    }

    /// Keeps what came of a record whose labels were replaced so, in the place of what was kept for its
    /// class. The one error is memory.
    pub(crate) fn keep(
        &mut self,
        alloc: Global,
        chosen: &Realisation,
        replacements: &[Replacement],
        outcome: &Result<Realisation, Refusal>,
    ) -> Result<(), Refusal>
        requires { outcome.now ≡ repaired chosen.now replacements.now }
        ensures made { OnOk result (IsMade (repairs_in self.new.repairs) chosen.now replacements.now) }
        ensures others { KeepsOthers chosen.now.class.path
            (repairs_in self.old.repairs) (repairs_in self.new.repairs) }
        ensures memory { IfErr result (λ why. why ≡ Memory) }
    {
        let class = chosen.class().path().clone()?;
        let one = Repair::new(alloc, chosen, replacements, outcome)?;
        self.open(alloc)?;
        let Some(repairs) = &mut self.repairs else {
            unreachable!();
        };
        let _before = repairs.insert(class, one)?;
        Ok(())
    }
}
