//! What is built for the goals of a job: its output, settled for each of them.

ghost use Rattle.std.specs.Prelude.{◌≡◌, All, List, IfOk, IfErr, length, map};
ghost use Rattle.std.specs.Option.{option_copied};
ghost use Rattle.jobs.specs.Owned.{goals_at};
ghost use Rattle.handlers.specs.States.{HasPlace};
ghost use Rattle.handlers.specs.Viewing.{desk_at};
ghost use Rattle.model.specs.Endings.{labels_from, output_record};
ghost use Rattle.model.specs.Occurrences.{IsHashPart};
ghost use Rattle.model.specs.Paths.{IsPath};
ghost use Rattle.model.specs.References.{paths_of_labels};
ghost use Rattle.model.specs.Settling.{hash_part_in};
ghost use Rattle.model.specs.declared.refusal.Refusal.TheVariants.{Memory};
ghost use Rattle.endings.specs.Built.{IsBuiltBy, IsBuiltOn, IsClosedBuilt, HasInput, HasInputFrom, AreBuiltOn, built_of, built_output, record_under, all_built, numbered, HaveInputs};

use classes::Admitted;
use handlers::State;
use jobs::Goal;
use model::Refusal;
use nar::Tree;
use outputs::{Candidates, SettledTree, Settlements, record_of};
use realise::Desk;
use records::{Record, Resolved};
use std::alloc::Global;
use storepath::StorePath;

/// What was built for a goal: its record and its tree, or why it has none.
pub(crate) type Built = Result<(Record, Tree), Refusal>;

/// What is built for a derivation whose output was settled. The one error is memory.
fn built_by(
    alloc: Global,
    admitted: &Admitted,
    candidates: &Candidates,
    settled: Result<SettledTree, Refusal>,
) -> Result<Built, Refusal>
    ensures built { IfOk result (IsBuiltBy candidates.now admitted.now settled) }
    ensures memory { IfErr result (λ why. why ≡ Memory) }
{
    match settled {
        Ok(output) => {
            let record = record_of(alloc, admitted, candidates, output.named())?;
            Ok(Ok((record, output.tree().clone()?)))
        }
        Err(why) => Ok(Err(why)),
    }
}

/// What is built for a derivation from a job's output, which was built under a path and may refer to
/// these. What was settled before is used again where the output is settled by the same. The one
/// error is memory.
fn built_under(
    alloc: Global,
    admitted: &Admitted,
    path: &StorePath,
    candidates: &Candidates,
    tree: &Tree,
    settlements: &mut Settlements,
) -> Result<Built, Refusal>
    ensures built { IfOk result (λ built.
        built_of built ≡ record_under path.now candidates.now admitted.now tree.now) }
    ensures own { IfOk result (λ _. IsHashPart (hash_part_in path.now)) }
    ensures paths { IfOk result (λ _. All IsPath (paths_of_labels candidates.now)) }
    ensures memory { IfErr result (λ why. why ≡ Memory) }
{
    let derivation = admitted.derivation();
    let settled = settlements.settle_output(alloc, path, candidates, derivation, tree)?;
    built_by(alloc, admitted, candidates, settled)
}

/// What is built for a goal on its user's desk from a job's output. What was settled before is used
/// again where the output is settled by the same. The one error is memory.
fn built_for(
    alloc: Global,
    desk: &Desk,
    goal: &Goal,
    tree: &Tree,
    settlements: &mut Settlements,
) -> Result<Built, Refusal>
    requires on_desk { IsBuiltOn desk.now goal.now.resolved }
    ensures built { IfOk result (λ built.
        built_of built ≡ output_record desk.now.known goal.now tree.now) }
    ensures closed { IfOk result (IsClosedBuilt desk.now) }
    ensures input { IfOk result (HasInput tree.now goal.now.resolved) }
    ensures memory { IfErr result (λ why. why ≡ Memory) }
{
    tree.sound();
    let Some(admitted) = desk.derivation(goal.derivation()) else {
        return Ok(Err(Refusal::UnknownDerivation));
    };
    let Some(resolved) = goal.resolved() else {
        return Ok(Err(Refusal::BadOutput));
    };
    let labels = resolved.labels(alloc)?;
    let candidates = Candidates::of_labels(labels);
    let built = built_under(
        alloc,
        admitted,
        resolved.scratch(),
        &candidates,
        tree,
        settlements,
    )?;
    Ok(built)
}

/// The same from a job's output that may be no archive.
fn built_from(
    alloc: Global,
    desk: &Desk,
    goal: &Goal,
    tree: Option<&Tree>,
    settlements: &mut Settlements,
) -> Result<Built, Refusal>
    requires on_desk { IsBuiltOn desk.now goal.now.resolved }
    ensures built { IfOk result (λ built. built_of built
        ≡ built_output desk.now.known (option_copied tree.entry) goal.now) }
    ensures closed { IfOk result (IsClosedBuilt desk.now) }
    ensures input { IfOk result (HasInputFrom (option_copied tree.entry) goal.now.resolved) }
    ensures memory { IfErr result (λ why. why ≡ Memory) }
{
    match tree {
        Some(tree) => built_for(alloc, desk, goal, tree, settlements),
        None => Ok(Err(Refusal::BadOutput)),
    }
}

/// What is built for the goals of these numbers of the user at a place, on his desk, from a job's
/// output: the tree whose archive the builder wrote, if it wrote one. What was settled before is used
/// again where an output is settled by the same, for this user or another.
///
/// # Errors
///
/// - `Memory` only where memory was refused.
pub(crate) fn built_on(
    alloc: Global,
    state: &State,
    place: usize,
    numbers: &[u16],
    tree: Option<&Tree>,
    settlements: &mut Settlements,
) -> Result<Vec<(u16, Built)>, Refusal>
    requires of_run { HasPlace state.now place }
    requires on_desk { AreBuiltOn (desk_at state.now.desks.items place)
        (goals_at place state.now.jobs) numbers.now }
    ensures built { IfOk result (λ built. map numbered built.items
        ≡ all_built (desk_at state.now.desks.items place).known (option_copied tree.entry)
        (goals_at place state.now.jobs) numbers.now) }
    ensures closed { IfOk result (λ built.
        All (λ x. IsClosedBuilt (desk_at state.now.desks.items place) x.1) built.items) }
    ensures inputs { IfOk result (λ built. HaveInputs (option_copied tree.entry)
        (goals_at place state.now.jobs) built.items) }
    ensures memory { IfErr result (λ why. why ≡ Memory) }
{
    let desk = &state.desks[place];
    let mut all = Vec::new(alloc);
    for number in numbers {
        if let Some(goal) = state.jobs.get(place, *number) {
            let built = built_from(alloc, desk, goal, tree, settlements)?;
            all.push((*number, built))?;
        }
    }
    Ok(all)
}
