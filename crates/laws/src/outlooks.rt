//! The law of how goals may go on.

ghost use Rattle.model.specs.Outlooks.{OutlooksForetellPlans};

/// A goal that lacks a class is refused its plan, with 51 `NotRealised`. Of one that waits and is ready,
/// a record of each input's class is seen: the plan of what its derivation needs is not refused for that.
pub fn outlooks_foretell_plans()
    ensures { OutlooksForetellPlans }
{}
