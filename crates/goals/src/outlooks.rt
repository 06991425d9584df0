//! How goals may go on.

ghost use Rattle.std.specs.Prelude.{◌≡◌, IfOk, IfErr, map, option_map};
ghost use Rattle.std.specs.Option.{option_copied};
ghost use Rattle.model.specs.declared.refusal.Refusal.TheVariants.{Memory};
ghost use Rattle.model.specs.Resolutions.{input_classes};
ghost use Rattle.model.specs.Outlooks as model;
ghost use Rattle.events.specs.Statuses.{status_of};
ghost use Rattle.jobs.specs.Outlooks.{next_of, TellsOutlook};
ghost use Rattle.handlers.specs.Viewing.{desk_at};
ghost use Rattle.handlers.specs.States.{HasPlace, observation_at};
ghost use Rattle.goals.specs.Outlooks.{IsNextOfInputs};

use crate::asking::as_seen;
use crate::planning::classes_for;
use choose::{View, first_lacking};
use classes::Admitted;
use handlers::{State, desks_in_view};
use jobs::{Next, Outlook, Status};
use model::Refusal;
use std::alloc::Global;
use storepath::StorePath;

/// What comes next of a goal whose inputs are of these classes, for the user at a place: it lacks the first of
/// which he sees no record. The one error is memory.
fn next_by_inputs(
    alloc: Global,
    state: &State,
    place: usize,
    classes: &[StorePath],
) -> Result<Next, Refusal>
    requires { HasPlace state.now place }
    ensures value { IfOk result (IsNextOfInputs (observation_at state.now place) classes.now) }
    ensures memory { IfErr result (λ why. why ≡ Memory) }
{
    let seen = desks_in_view(alloc, state, place)?;
    let view = View::new(&state.table, seen);
    match first_lacking(&view, classes) {
        Some(class) => Ok(Next::Lacks(class.clone()?)),
        None => Ok(Next::Ready),
    }
}

/// What comes next of a goal of the user at a place that waits for what this derivation builds, if it is known.
/// The one error is memory.
fn next_of_waiting(
    alloc: Global,
    state: &State,
    place: usize,
    known: Option<&Admitted>,
) -> Result<Next, Refusal>
    requires { HasPlace state.now place }
    ensures value { IfOk result (λ next. next_of next
        ≡ model.next_of_waiting (observation_at state.now place) (option_copied known.entry)) }
    ensures memory { IfErr result (λ why. why ≡ Memory) }
{
    let Some(admitted) = known else {
        return Ok(Next::Over);
    };
    let classes = classes_for(alloc, state, place, admitted.derivation())?;
    next_by_inputs(alloc, state, place, &classes)
}

/// What comes next of a goal of the user at a place that is so far, as he sees it. The one error is memory.
fn next_of(
    alloc: Global,
    state: &State,
    place: usize,
    known: Option<&Admitted>,
    status: Status,
) -> Result<Next, Refusal>
    requires { HasPlace state.now place }
    ensures value { IfOk result (λ next. next_of next
        ≡ model.next_of (observation_at state.now place) (option_copied known.entry) (status_of status)) }
    ensures memory { IfErr result (λ why. why ≡ Memory) }
{
    match status {
        Status::Waiting => next_of_waiting(alloc, state, place, known),
        Status::Planned => Ok(Next::Ready),
        Status::Building(job) => Ok(Next::Built(job)),
        Status::Done(_) | Status::Failed(_) => Ok(Next::Over),
    }
}

/// The path of the class of a derivation, if it is known. The one error is memory.
fn class_of(known: Option<&Admitted>) -> Result<Option<StorePath>, Refusal>
    ensures value { IfOk result (λ class. class
        ≡ option_map (λ a. a.class.path) (option_copied known.entry)) }
    ensures memory { IfErr result (λ why. why ≡ Memory) }
{
    match known {
        Some(admitted) => Ok(Some(admitted.class().path().clone()?)),
        None => Ok(None),
    }
}

/// How the goal of a number of the user at a place may go on, as he sees it now. Nothing changes. Where it waits, the
/// desks that he sees are asked for the classes of its inputs.
///
/// # Errors
///
/// - `UnknownGoal` exactly where he has no goal of that number, whether there is memory or not.
/// - `Memory` only where memory was refused.
pub fn outlook(alloc: Global, state: &State, place: usize, number: u16) -> Result<Outlook, Refusal>
    requires { HasPlace state.now place }
    ensures { TellsOutlook state.now.users
        (model.outlook (observation_at state.now place) number) result }
{
    let Some(goal) = state.jobs.get(place, number) else {
        return Err(Refusal::UnknownGoal);
    };
    let reached = state.trust.closure(place);
    let status = as_seen(state, reached, goal.status())?;
    let known = state.desks[place].derivation(goal.derivation());
    let class = class_of(known)?;
    let next = next_of(alloc, state, place, known, status)?;
    Ok(Outlook {
        class,
        next,
        reached,
    })
}
