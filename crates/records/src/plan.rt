//! What a closure needs.

ghost use Rattle.std.specs.Prelude.{◌≡◌};
ghost use Rattle.records.specs.Plans.{AreInOrder, IsInOrder};

use crate::realisation::{Realisation, Source};
use std::marker::Model;

/// What a closure needs: the chosen records by rank and then class path, and the sources by path.
pub struct Plan {
    records: Vec<Realisation>,
    sources: Vec<Source>,
}

impl Drop for Plan {
    fn drop(self) {
        let Plan {
            records: _,
            sources: _,
        } = self;
    }
}

impl Model for Plan {
    ghost use Rattle.records.specs.Codes.{plan_code};
    ghost use Rattle.model.specs.Choices.{Plan as PlanValue};

    ghost Value = { PlanValue };

    ghost coded = { plan_code };

    ghost use Rattle.records.specs.Plans.{AreInOrder};

    ghost view = { λ p. record { records = p.records.items; sources = p.sources.items } };

    ghost invariant = { λ p. AreInOrder p.records.items p.sources.items };
}

impl Plan {
    /// The plan of records in the order of rank and then class path, one for each class, and of sources in that of
    /// paths.
    pub fn new(records: Vec<Realisation>, sources: Vec<Source>) -> Plan
        requires { AreInOrder records.items sources.items }
        ensures { result ≡ record { records = records.items; sources = sources.items } }
    {
        Plan { records, sources }
    }

    /// The chosen records by rank and then class path, one for each class.
    pub fn records(&self) -> &[Realisation]
        ensures records { result.now ≡ self.now.records }
        ensures in_order { IsInOrder self.now }
    {
        self.records.as_slice()
    }

    /// The sources by path.
    pub fn sources(&self) -> &[Source]
        ensures { result.now ≡ self.now.sources }
    {
        self.sources.as_slice()
    }
}
