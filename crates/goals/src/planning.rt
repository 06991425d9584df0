//! Planning a goal.

ghost use Rattle.std.specs.Prelude.{◌≡◌, ℕ, ◌<◌, ◌≤◌, true, length, map, All, IfOk, IfErr, OnOk, OnErr, List, Some, Ok, is_some};
ghost use Rattle.model.specs.Worlds.{Goal as GoalValue, Entry as EntryValue};
ghost use Rattle.model.specs.Closures.{served_plan};
ghost use Rattle.model.specs.Resolutions.{input_classes};
ghost use Rattle.model.specs.declared.refusal.Refusal.TheVariants.{Memory};
ghost use Rattle.model.specs.Goals.{as_seen, is_waiting, goal_at, with_goal_at};
ghost use Rattle.model.specs.Events.{Plan as PlanRequest};
ghost use Rattle.trust.specs.Trusting.{holds, trusts};
ghost use Rattle.trust.specs.Naming.{names};
ghost use Rattle.store.specs.Stored.{put_all};
ghost use Rattle.repair.specs.AtHand.{MadeRepairs};
ghost use Rattle.repair.specs.Counting.{made_in};
ghost use Rattle.repair.specs.Prepared.{HasRepairedIf};
ghost use Rattle.jobs.specs.Owned.{goals_at, with_goals_at};
ghost use Rattle.events.specs.Statuses.{status_of};
ghost use Rattle.jobs.specs.Statuses.{planned_with};
ghost use Rattle.handlers.specs.Stored.{source_of_entry};
ghost use Rattle.handlers.specs.Sound.{IsClosure, IsStored, AreGoalsSound};
ghost use Rattle.handlers.specs.Viewing.{desk_at};
ghost use Rattle.handlers.specs.States.{HasPlace, Handles, observation_at};
ghost use Rattle.goals.specs.Planning.{IsResolvedAt, IsPlannedToBuildAt, HasRepairedToBuild, HasRepairedForGoal, TellsToPlan, HasNoneToPlan, fails, IsNotKept};
ghost use Rattle.goals.specs.Sharing.{EqualsAllLike};

use aterm::Derivation;
use choose::View;
use classes::{Admitted, input_classes};
use closure_laws::served_are_made;
use events::CopiedReply;
use handlers::{State, desks_in_view, plan_or_none, trees_of};
use jobs::{Jobs, Status};
use laws::closures_are_whole;
use model::Refusal;
use records::{Plan, Resolved};
use repair::Cache;
use resolving::{LastResolved, resolve};
use std::alloc::Global;
use store::Table;
use storepath::StorePath;
use trust::{UserSet, is_reached};

/// What a derivation whose inputs have these classes needs to be built, for the user at a place, of all that he
/// sees.
fn plan_to_build(
    alloc: Global,
    state: &State,
    place: usize,
    derivation: &Derivation,
    classes: &[StorePath],
) -> Result<Plan, Refusal>
    requires of_run { HasPlace state.now place }
    requires classes { classes.now
        ≡ input_classes (desk_at state.now.desks.items place).known derivation.now }
    ensures planned { IsPlannedToBuildAt (trusts state.now.trust) state.now.table.sources
        state.now.desks.items place derivation.now result }
    ensures closures { IfOk result (λ p. (entries : List EntryValue)
        → served_plan p ≡ Ok entries → IsClosure entries) }
{
    closures_are_whole();
    let seen = desks_in_view(alloc, state, place)?;
    let view = View::new(&state.table, seen);
    let pins = state.desks[place].pins();
    let sources = &derivation.parts().sources;
    choose::plan(alloc, &view, pins, classes, sources)
}

/// The classes of a derivation's inputs, as the user at a place knows them. The one error is memory.
pub(crate) fn classes_for(
    alloc: Global,
    state: &State,
    place: usize,
    derivation: &Derivation,
) -> Result<Vec<StorePath>, Refusal>
    requires { HasPlace state.now place }
    ensures classes { IfOk result (λ classes. classes.items
        ≡ input_classes (desk_at state.now.desks.items place).known derivation.now) }
    ensures memory { IfErr result (λ why. why ≡ Memory) }
{
    input_classes(alloc, state.desks[place].known(), derivation)
}

/// What a derivation is built from, for the user at a place, of all that he sees.
fn resolved_for(
    alloc: Global,
    state: &State,
    place: usize,
    cache: &mut Cache,
    last: &mut LastResolved,
    admitted: &Admitted,
) -> Result<Resolved, Refusal>
    requires { HasPlace state.now place }
    ensures resolved { IsResolvedAt (trusts state.now.trust) state.now.table.sources
        state.now.desks.items place admitted.now.derivation result }
    ensures closure { IfOk result (λ r. IsClosure r.closure) }
    ensures at_hand { HasRepairedToBuild (observation_at state.now place) admitted.now.derivation
        (made_in cache.old.made) → cache.new ≡ cache.old }
{
    let derivation = admitted.derivation();
    let classes = classes_for(alloc, state, place, derivation)?;
    let plan = plan_to_build(alloc, state, place, derivation, &classes)?;
    resolve(alloc, &plan, admitted, &classes, cache, last)
}

/// Whether a goal waits, as one sees it who reaches the users of a set.
fn waits(state: &State, reached: UserSet, status: &Status) -> bool
    ensures { result
        ≡ is_waiting (as_seen (names state.now.users (holds reached)) (status_of status.now)) }
{
    match status {
        Status::Waiting => true,
        Status::Building(job) => !is_reached(&state.users, reached, job.leader()),
        _ => false,
    }
}

/// What is known of the derivation of a goal that is to be planned, for the user at a place, who reaches the users of
/// a set.
///
/// A number without a goal is refused with 42 `UnknownGoal`, a goal that does not wait with 43
/// `WrongState`, and one whose derivation is not on the desk with 41 `UnknownDerivation`.
fn derivation_to_plan(
    state: &State,
    reached: UserSet,
    place: usize,
    number: u16,
) -> Result<&Admitted, Refusal>
    requires { HasPlace state.now place }
    ensures told { TellsToPlan (goals_at place state.now.jobs)
        (desk_at state.now.desks.items place).known (names state.now.users (holds reached))
        number result }
    ensures none { IfErr result (λ _. HasNoneToPlan (goals_at place state.now.jobs)
        (desk_at state.now.desks.items place).known (names state.now.users (holds reached)) number) }
{
    let Some(goal) = state.jobs.get(place, number) else {
        return Err(Refusal::UnknownGoal);
    };
    if !waits(state, reached, goal.status()) {
        return Err(Refusal::WrongState);
    }
    match state.desks[place].derivation(goal.derivation()) {
        Some(admitted) => Ok(admitted),
        None => Err(Refusal::UnknownDerivation),
    }
}

/// What the goal of a number of the user at a place needs to be built, as he sees it now, if it is to be planned,
/// and there is such a plan. What is repaired for it is all that [`plan`] repairs then.
///
/// # Errors
///
/// - `Memory` only where memory was refused.
pub fn plan_for_goal(
    alloc: Global,
    state: &State,
    place: usize,
    number: u16,
) -> Result<Option<Plan>, Refusal>
    requires { HasPlace state.now place }
    ensures needed { IfOk result (λ plan. (made : MadeRepairs) → HasRepairedIf plan made
        → HasRepairedForGoal (observation_at state.now place) number made) }
    ensures memory { IfErr result (λ why. why ≡ Memory) }
{
    let reached = state.trust.closure(place);
    let Ok(admitted) = derivation_to_plan(state, reached, place, number) else {
        return Ok(None);
    };
    let derivation = admitted.derivation();
    let classes = classes_for(alloc, state, place, derivation)?;
    plan_or_none(plan_to_build(alloc, state, place, derivation, &classes))
}

/// Whether a goal comes to nothing where its derivation is not resolved for this reason.
pub(crate) fn fails(why: Refusal) -> bool
    ensures { result ≡ fails why }
{
    match why {
        Refusal::NotRealised | Refusal::Memory => false,
        _ => true,
    }
}

/// The same, which shares its closure and its text with what a goal of the user at a place is built
/// from, where that is found, and is equal. It takes no memory.
fn shared(jobs: &Jobs, place: usize, resolved: Resolved) -> Resolved
    requires of_run { place < length jobs.now.goals }
    requires equal { EqualsAllLike (goals_at place jobs.now) resolved }
    ensures { result ≡ resolved }
{
    match jobs.built_like(place, &resolved) {
        Some(other) => other.clone().unwrap_or(resolved),
        None => resolved,
    }
}

/// A goal is planned, and the trees of the closure that it is built from are put into the table,
/// where their paths are new there. All that needs memory comes before the first change.
/// Another goal of the user that is planned has its trees there, so that where it is built from the same
/// but for the trees, the trees are the same too. Those of a goal that is not planned are compared.
fn keep(
    alloc: Global,
    jobs: &mut Jobs,
    table: &mut Table,
    place: usize,
    number: u16,
    resolved: Resolved,
) -> Result<(), Refusal>
    requires of_run { place < length jobs.old.goals }
    requires there { is_some (goal_at number (goals_at place jobs.old)) ≡ true }
    requires sound { AreGoalsSound table.old.sources (goals_at place jobs.old) }
    ensures planned { (g : GoalValue) → goal_at number (goals_at place jobs.old) ≡ Some g
        → OnOk result (jobs.new ≡ with_goals_at place
        (with_goal_at number (planned_with resolved g) (goals_at place jobs.old)) jobs.old) }
    ensures stored { OnOk result (table.new.sources
        ≡ put_all (map source_of_entry resolved.closure) table.old.sources) }
    ensures there { OnOk result (All (IsStored table.new.sources) resolved.closure) }
    ensures left { OnErr result ((jobs.new ≡ jobs.old) × (table.new.sources ≡ table.old.sources)) }
    ensures refused { IfErr result (IsNotKept table.old.sources resolved) }
{
    let trees = trees_of(alloc, resolved.closure())?;
    let count = trees.len();
    let trees = table.missing(alloc, trees)?;
    table.reserve(count)?;
    let resolved = shared(jobs, place, resolved);
    jobs.keep(alloc, place, number, resolved)?;
    table.put_all_reserved(trees);
    Ok(())
}

/// Finds what the goal of a number of the user at a place is built from, as he sees it now. The reply
/// is how far the goal is then: it is planned, or has failed.
///
/// # Errors
///
/// - `UnknownGoal` exactly where he has no goal of that number, and `WrongState` exactly where it does not
///   wait, whether there is memory or not.
/// - `NotRealised` exactly where no desk that he sees has a record of the class of an input.
/// - `Clash` only where another tree is stored at the path of an entry.
/// - `Memory` only where memory was refused; it may stand in the place of each answer but the first two.
///
/// Where all that is repaired for it was repaired before, nothing is. What was resolved last is used again where
/// it is of the same.
pub fn plan(
    alloc: Global,
    state: &mut State,
    place: usize,
    cache: &mut Cache,
    last: &mut LastResolved,
    number: u16,
) -> Result<CopiedReply, Refusal>
    requires { HasPlace state.old place }
    ensures handled { Handles state.old place (PlanRequest number) result state.new }
    ensures at_hand { HasRepairedForGoal (observation_at state.old place) number (made_in cache.old.made)
        → cache.new ≡ cache.old }
{
    served_are_made();
    let reached = state.trust.closure(place);
    let admitted = derivation_to_plan(state, reached, place, number)?;
    match resolved_for(alloc, state, place, cache, last, admitted) {
        Ok(resolved) => {
            keep(
                alloc,
                &mut state.jobs,
                &mut state.table,
                place,
                number,
                resolved,
            )?;
            Ok(CopiedReply::planned())
        }
        Err(why) if fails(why) => {
            state.jobs.set_status(place, number, Status::Failed(why));
            Ok(CopiedReply::failed(why))
        }
        Err(why) => Err(why),
    }
}
