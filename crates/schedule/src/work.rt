//! Values that were made before a step, and how many a step had to make.

ghost use Rattle.std.specs.Prelude.{◌≡◌};
ghost use Rattle.repair.specs.Counting.{IsForStep};

use classes::Admissions;
use outputs::{Settlements, Sources};
use repair::Cache;
use resolving::LastResolved;
use std::alloc::Global;

/// What a step is done with: paths of sources, admitted derivations, settled trees and repaired records that
/// were made before, and what was resolved last. Each names all that it was made of, and is used only where that
/// is at hand; else the step makes the value itself, and counts it, unless it is what it resolves.
#[derive(Drop)]
pub(crate) struct Work {
    pub(crate) sources: Sources,
    pub(crate) admissions: Admissions,
    pub(crate) settlements: Settlements,
    pub(crate) cache: Cache,
    pub(crate) resolved: LastResolved,
}

impl Work {
    /// Nothing was made before.
    pub(crate) fn none(alloc: Global) -> Work
        ensures { IsForStep result.cache }
    {
        Work {
            sources: Sources::none(alloc),
            admissions: Admissions::none(alloc),
            settlements: Settlements::none(alloc),
            cache: Cache::none(),
            resolved: LastResolved::none(),
        }
    }

    /// How many values had to be made; at the greatest number it stays there.
    pub(crate) fn computed(&self) -> u64 {
        self.sources
            .computed()
            .saturating_add(self.admissions.computed())
            .saturating_add(self.settlements.computed())
            .saturating_add(self.cache.computed())
    }
}

/// Values that were made outside a step. Whatever they are, a step answers as it does without them.
pub struct Ready {
    work: Work,
}

impl Drop for Ready {
    fn drop(self) {
        let Ready { work: _ } = self;
    }
}

impl Ready {
    /// No values. It takes no memory.
    pub fn none(alloc: Global) -> Ready {
        Ready {
            work: Work::none(alloc),
        }
    }

    /// These values.
    pub(crate) fn of(work: Work) -> Ready
        ensures { result.work ≡ work }
    {
        Ready { work }
    }

    /// The values.
    pub(crate) fn work(&mut self) -> &mut Work {
        &mut self.work
    }
}
