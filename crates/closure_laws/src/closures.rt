//! Laws of closures.

ghost use Rattle.closure_laws.specs.GoodClosures.{ClosuresAreGood};
ghost use Rattle.closure_laws.specs.RepairLaws.{PlansKeepNoReplaced, ClosuresKeepNoReplaced};

/// What is served for a plan keeps no path that is replaced, where hash parts tell paths apart.
///
/// No program calls this: it states the law, which its proof shows.
pub fn plans_keep_no_replaced()
    ensures { PlansKeepNoReplaced }
{}

/// What is served for the plan of a view keeps no path that is replaced, where hash parts tell paths
/// apart.
///
/// No program calls this: it states the law, which its proof shows.
pub fn closures_keep_no_replaced()
    ensures { ClosuresKeepNoReplaced }
{}

/// Each closure that a user is given, or that a goal keeps once it is planned, is good: it serves no
/// class by two paths, has an entry for each label, and keeps no replaced hash part. That is so after
/// any well-formed events, no two of whose hashed texts have one folded digest.
///
/// No program calls this: it states the law, which its proof shows.
pub fn closures_are_good()
    ensures { ClosuresAreGood }
{}
