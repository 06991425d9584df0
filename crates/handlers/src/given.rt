//! Asking for a closure.

ghost use Rattle.std.specs.Prelude.{◌≡◌, List, IfOk, IfErr, Ok};
ghost use Rattle.model.specs.Worlds.{Entry as EntryValue};
ghost use Rattle.model.specs.Closures.{served_plan};
ghost use Rattle.model.specs.Events.{Closure as ClosureRequest};
ghost use Rattle.model.specs.declared.refusal.Refusal.TheVariants.{Memory};
ghost use Rattle.trust.specs.Trusting.{trusts};
ghost use Rattle.repair.specs.AtHand.{MadeRepairs};
ghost use Rattle.repair.specs.Counting.{made_in};
ghost use Rattle.repair.specs.Prepared.{HasRepairedIf};
ghost use Rattle.handlers.specs.Serving.{IsServedAt, IsPlannedAt, IsServedOf, HasRepairedFor};
ghost use Rattle.handlers.specs.Sound.{IsClosure};
ghost use Rattle.handlers.specs.States.{HasPlace, Handles, observation_at};

use crate::planned::plan_or_none;
use crate::state::State;
use crate::view::desks_in_view;
use choose::{View, plan};
use events::{CopiedReply, Reply};
use laws::closures_are_whole;
use model::Refusal;
use records::{Closure, Entry, Plan};
use repair::{Cache, served_closure_with};
use std::alloc::Global;
use storepath::StorePath;

/// What the closure of a class needs, of all that the user at a place sees.
///
/// # Errors
///
/// - `NotRealised` exactly where no desk that he sees has a record of the class.
/// - `ClosureTooLarge` exactly where there would be more than 1,024 entries.
/// - `Memory` only where memory was refused; it may stand in the place of each answer.
pub fn plan_for(
    alloc: Global,
    state: &State,
    place: usize,
    class: &StorePath,
) -> Result<Plan, Refusal>
    requires { HasPlace state.now place }
    ensures planned { IsPlannedAt (trusts state.now.trust) state.now.table.sources
        state.now.desks.items place class.now result }
    ensures closures { IfOk result (λ p. (entries : List EntryValue)
        → served_plan p ≡ Ok entries → IsClosure entries) }
{
    closures_are_whole();
    let seen = desks_in_view(alloc, state, place)?;
    let view = View::new(&state.table, seen);
    let classes = [class.clone()?];
    plan(alloc, &view, state.desks[place].pins(), &classes, &[])
}

/// What the closure of a class needs that the user at a place takes, if there is such a plan. What is repaired for
/// it is all that [`take`](crate::take) repairs then.
///
/// # Errors
///
/// - `Memory` only where memory was refused.
pub fn plan_for_take(
    alloc: Global,
    state: &State,
    place: usize,
    class: &StorePath,
) -> Result<Option<Plan>, Refusal>
    requires { HasPlace state.now place }
    ensures needed { IfOk result (λ plan. (made : MadeRepairs) → HasRepairedIf plan made
        → HasRepairedFor (observation_at state.now place) class.now made) }
    ensures memory { IfErr result (λ why. why ≡ Memory) }
{
    plan_or_none(plan_for(alloc, state, place, class))
}

/// The closure that was planned, as it is told.
///
/// # Errors
///
/// - `RewriteRefused` exactly where a record cannot be repaired, with the reason of the first such class
///   by rank and then by the path of the class.
/// - `Memory` only where memory was refused; it may stand in the place of each answer.
pub fn serve_plan(alloc: Global, plan: &Plan, cache: &mut Cache) -> Result<Reply, Refusal>
    ensures { IsServedOf plan.now result }
{
    let entries = served_closure_with(alloc, plan, cache)?;
    Ok(Reply::Closure(Closure::new(entries)?))
}

/// The entries of the closure of a class for the user at a place, of all that he sees.
pub(crate) fn entries_for(
    alloc: Global,
    state: &State,
    place: usize,
    cache: &mut Cache,
    class: &StorePath,
) -> Result<Vec<Entry>, Refusal>
    requires { HasPlace state.now place }
    ensures served { IsServedAt (trusts state.now.trust) state.now.table.sources
        state.now.desks.items place class.now result }
    ensures closure { IfOk result (λ entries. IsClosure entries.items) }
    ensures at_hand { HasRepairedFor (observation_at state.now place) class.now (made_in cache.old.made)
        → cache.new ≡ cache.old }
{
    let planned = plan_for(alloc, state, place, class)?;
    served_closure_with(alloc, &planned, cache)
}

/// The closure of a class for the user at a place, of all that he sees.
///
/// # Errors
///
/// - `NotRealised` exactly where no desk that he sees has a record of the class.
/// - `ClosureTooLarge` exactly where there would be more than 1,024 entries.
/// - `RewriteRefused` exactly where a record cannot be repaired, with the reason of the first such class
///   by rank and then by the path of the class.
/// - `Memory` only where memory was refused; it may stand in the place of each answer.
pub fn closure(
    alloc: Global,
    state: &State,
    place: usize,
    cache: &mut Cache,
    class: &StorePath,
) -> Result<CopiedReply, Refusal>
    requires { HasPlace state.now place }
    ensures { Handles state.now place (ClosureRequest class.now) result state.now }
{
    let entries = entries_for(alloc, state, place, cache, class)?;
    Ok(CopiedReply::new(Reply::Closure(Closure::new(entries)?))?)
}
