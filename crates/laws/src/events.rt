//! Laws over every list of events.

ghost use Rattle.model.specs.Laws.{IsIsolated, IsTimelyIsolated, KnowledgeIsAdmitted, KnowledgeIsRecursive, NeverFails, QueriesChangeNothing, StrikingHashesNoMore, TrustFollows};
ghost use Rattle.model.specs.KeptClosures.{GoalsHaveDerivations, KeptClosuresAreGood, OnlyPlansChangeKept, PlannedGoalsKeep, PlansFindDerivations};

/// Whatever users outside his trust closure do, a user's replies are those that he would get
/// without their events.
pub fn isolation()
    ensures { IsIsolated }
{}

/// Events reach a user only through chains of trust that is held at the times concerned: his replies
/// are those that he would get without the others. After each event the desks of those from whom
/// anything can still come to him are the same as without the others, but that a goal which is built
/// under a leader who is none of them may wait.
pub fn timed_isolation()
    ensures { IsTimelyIsolated }
{}

/// Without the events of users outside a user's trust closure no text is hashed that is not hashed
/// with them.
pub fn striking_hashes_no_more()
    ensures { StrikingHashesNoMore }
{}

/// Whom users trust after an event follows from the event, and from whom they trusted before.
pub fn trust_follows()
    ensures { TrustFollows }
{}

/// Private desks never refuse with 90 `Memory`, 91 `Clash` or 92 `Stopped`.
pub fn never_fails()
    ensures { NeverFails }
{}

/// A query, which is `Status`, `Closure` or `Fetch`, leaves the desks of all as they are.
pub fn queries_change_nothing()
    ensures { QueriesChangeNothing }
{}

/// What a desk knows of each derivation was admitted by an event of its user: it is what the
/// definition says of that derivation over what the desk knew before it.
pub fn knowledge_is_admitted()
    ensures { KnowledgeIsAdmitted }
{}

/// What a desk knows of derivations is what the recursion over derivations gives: each digest of a
/// masked text and each rank is that of a derivation over those of its inputs, and so on.
pub fn knowledge_is_recursive()
    ensures { KnowledgeIsRecursive }
{}

/// What the goals of a user keep after events was found when they were last planned, and its closure is
/// good: it serves no class by two paths, has an entry for each label, and keeps no replaced hash part.
pub fn kept_closures_are_good()
    ensures { KeptClosuresAreGood }
{}

/// What a goal keeps changes only at an event of its user that is answered that the goal is planned.
pub fn only_plans_change_kept()
    ensures { OnlyPlansChangeKept }
{}

/// A goal that is planned, or is built, keeps what it is built from.
pub fn planned_goals_keep()
    ensures { PlannedGoalsKeep }
{}

/// The derivation of each goal is on its user's desk, whatever events there were.
pub fn goals_have_derivations()
    ensures { GoalsHaveDerivations }
{}

/// A plan of a goal is never refused with 41 `UnknownDerivation`.
pub fn plans_find_derivations()
    ensures { PlansFindDerivations }
{}
