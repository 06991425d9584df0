//! What the end of a job with an output settles it by, found before the job ends.

ghost use Rattle.std.specs.Prelude.{◌≡◌, ℕ, List, Some, IfOk, IfErr};
ghost use Rattle.model.specs.Archives.{Tree as TreeValue};
ghost use Rattle.model.specs.ArchiveReading.{tree_of_archive};
ghost use Rattle.model.specs.declared.refusal.Refusal.TheVariants.{Memory};
ghost use Rattle.outputs.specs.declared.settlement.Settlement.{Settlement};
ghost use Rattle.outputs.specs.Kept.{HasNeeded};
ghost use Rattle.trust.specs.Naming.{name_at};
ghost use Rattle.handlers.specs.Parts.{goals_of};
ghost use Rattle.handlers.specs.States.{HasPlace};
ghost use Rattle.handlers.specs.Viewing.{desk_at};
ghost use Rattle.endings.specs.Built.{HasBuilt};
ghost use Rattle.endings.specs.Preparing.{HasLedOutput, HasNeededFor};

use handlers::State;
use jobs::{Goal, leads};
use model::Refusal;
use outputs::{Candidates, Input};
use realise::Desk;
use std::alloc::Global;

/// What a job's output is settled by for a goal on its user's desk once the job has ended, whatever its tree
/// is. Nothing is settled where the desk has no such derivation, or the goal was not planned.
///
/// # Errors
///
/// - `Memory` only where memory was refused.
pub(crate) fn input_for_goal(
    alloc: Global,
    desk: &Desk,
    goal: &Goal,
) -> Result<Option<Input>, Refusal>
    ensures needed { IfOk result (λ input. (tree : TreeValue) (settled : List Settlement)
        → HasNeeded settled input tree → HasBuilt desk.now.known goal.now tree settled) }
    ensures memory { IfErr result (λ why. why ≡ Memory) }
{
    let Some(admitted) = desk.derivation(goal.derivation()) else {
        return Ok(None);
    };
    let Some(resolved) = goal.resolved() else {
        return Ok(None);
    };
    let labels = resolved.labels(alloc)?;
    let candidates = Candidates::of_labels(labels);
    let input = Input::new(
        alloc,
        resolved.scratch(),
        &candidates,
        admitted.derivation(),
    )?;
    Ok(Some(input))
}

/// What [`finish`](crate::finish) settles an output by for the goal that leads the job, which is that of a
/// number of the user at a place, whatever the output is, so that it can be settled before the job ends.
/// Nothing is settled where the goal leads no job.
///
/// # Errors
///
/// - `Memory` only where memory was refused.
pub fn input_for_finish(
    alloc: Global,
    state: &State,
    place: usize,
    number: u16,
) -> Result<Option<Input>, Refusal>
    requires { HasPlace state.now place }
    ensures needed { IfOk result (λ input. (output : List ℕ) (settled : List Settlement)
        → HasNeededFor output settled input → HasLedOutput (desk_at state.now.desks.items place)
        (record { leader = name_at state.now.users place; number = number })
        (goals_of state.now.jobs.goals place) output settled) }
    ensures memory { IfErr result (λ why. why ≡ Memory) }
{
    if leads(state.users.as_slice(), &state.jobs, place, number).is_err() {
        return Ok(None);
    }
    match state.jobs.get(place, number) {
        Some(goal) => input_for_goal(alloc, &state.desks[place], goal),
        None => Ok(None),
    }
}
