//! Laws of what serves the classes of a plan.

ghost use Rattle.closure_laws.specs.RepairLaws.{ReplacedIsGone, ServedIsSound, ServedAreMade};

/// A path that is replaced is gone from the tree of the record whose labels were replaced.
///
/// No program calls this: it states the law, which its proof shows.
pub fn replaced_is_gone()
    ensures { ReplacedIsGone }
{}

/// What serves a class has a path and a tree, where the records do.
///
/// No program calls this: it states the law, which its proof shows.
pub fn served_is_sound()
    ensures { ServedIsSound }
{}

/// Each entry that is served for a plan is the plan's own, or was made by the texts that are hashed.
///
/// No program calls this: it states the law, which its proof shows.
pub fn served_are_made()
    ensures { ServedAreMade }
{}
