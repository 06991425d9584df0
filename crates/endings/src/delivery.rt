//! The end of a job with an output.

ghost use Rattle.std.specs.Prelude.{◌≡◌, ◌+◌, ◌≤◌, ◌⊎◌, ◌++◌, length, map, OnOk, IfOk, IfErr, MatchResult};
ghost use Rattle.model.specs.declared.refusal.Refusal.TheVariants.{Memory, Clash};
ghost use Rattle.store.specs.Stored.{AreTaken, put_all, sources_of};
ghost use Rattle.endings.specs.DeskDeltas.{delta_in, status_at};
ghost use Rattle.std.specs.Option.{option_copied};
ghost use Rattle.jobs.specs.Owned.{goals_at};
ghost use Rattle.trust.specs.Trusting.{trusts};
ghost use Rattle.handlers.specs.States.{HasPlace};
ghost use Rattle.handlers.specs.Viewing.{desk_at};
ghost use Rattle.endings.specs.Delivery.{Receives, trees_built, tree_built, all_trees, AreStored, AreBuiltFor, IsDeliveredAtPlace, AreDelivered, IsMadeBeside, IsNotMade};

use crate::delta::{DeskDelta, delta_for, waiting};
use crate::job_end::JobEnd;
use crate::settling::{Built, built_on};
use handlers::State;
use jobs::{Job, Status, members_reached};
use model::Refusal;
use nar::Tree;
use outputs::Settlements;
use std::alloc::Global;
use store::Table;
use storepath::StorePath;
use trust::has_place;

/// Puts the tree of what was built for a goal, with its path, behind others. The one error is memory.
fn put_tree(built: &Built, trees: &mut Vec<(StorePath, Tree)>) -> Result<(), Refusal>
    ensures { MatchResult result
        (λ _. trees.new.items ≡ trees.old.items ++ tree_built built.now)
        (λ e. e ≡ Memory) }
{
    if let Ok((record, tree)) = built {
        trees.push((record.path().clone()?, tree.clone()?))?;
    }
    Ok(())
}

/// The same of what was built for the goals of one user.
fn put_trees(built: &[(u16, Built)], trees: &mut Vec<(StorePath, Tree)>) -> Result<(), Refusal>
    ensures { MatchResult result
        (λ _. trees.new.items ≡ trees.old.items ++ trees_built built.now)
        (λ e. e ≡ Memory) }
{
    for one in built {
        put_tree(&one.1, trees)?;
    }
    Ok(())
}

/// The trees of all that was built, with their paths. The one error is memory.
fn trees_of(alloc: Global, built: &[Vec<(u16, Built)>]) -> Result<Vec<(StorePath, Tree)>, Refusal>
    ensures { MatchResult result
        (λ trees. trees.items ≡ all_trees built.now)
        (λ e. e ≡ Memory) }
{
    let mut trees = Vec::new(alloc);
    for of_user in built {
        put_trees(of_user.as_slice(), &mut trees)?;
    }
    Ok(trees)
}

/// That no other tree is at the path of one that was built, in the table or with one before it.
pub(crate) fn tested(
    alloc: Global,
    table: &Table,
    built: &[Vec<(u16, Built)>],
) -> Result<(), Refusal>
    ensures stored { OnOk result
        (AreStored (put_all (sources_of (all_trees built.now)) table.now.sources) built.now) }
    ensures refused { IfErr result (λ e. (e ≡ Memory)
        ⊎ ((e ≡ Clash) × AreTaken table.now.sources (all_trees built.now))) }
{
    let trees = trees_of(alloc, built)?;
    let _missing = table.missing(alloc, trees)?;
    Ok(())
}

/// What is built for the goals in a job of each user who reaches its leader, in the order of users; for
/// another user nothing. What was settled before is used again where an output is settled by the same.
/// The one error is memory.
fn build_from(
    alloc: Global,
    state: &State,
    end: JobEnd<'_>,
    settlements: &mut Settlements,
) -> Result<Vec<Vec<(u16, Built)>>, Refusal>
    requires { HasPlace state.now end.leader }
    ensures built { IfOk result (λ built. AreBuiltFor (option_copied end.entry.tree)
        (trusts state.now.trust) end.entry.leader end.entry.job.now
        state.now.desks.items state.now.jobs.goals built.items) }
    ensures count { IfOk result (λ built. length built.items ≡ length state.now.desks.items) }
    ensures memory { IfErr result (λ why. why ≡ Memory) }
{
    let mut all = Vec::with_capacity(alloc, state.desks.len())?;
    for place in 0..state.desks.len() {
        let numbers = members_reached(&state.trust, &state.jobs, end.leader, place, end.job);
        let built = built_on(alloc, state, place, numbers, end.tree, settlements)?;
        all.push(built)?;
    }
    Ok(all)
}

/// What a user receives of a job that ended with an output, where he reaches its leader or not: what his
/// desk gets, and how far each of his goals in the job is then. The one error is memory.
fn receive(
    alloc: Global,
    state: &State,
    place: usize,
    job: &Job,
    reached: bool,
    built: Vec<(u16, Built)>,
) -> Result<(DeskDelta, Vec<(u16, Status)>), Refusal>
    requires { HasPlace state.now place }
    ensures receives { IfOk result (λ r. Receives state.now.limits.charge
        (desk_at state.now.desks.items place) (goals_at place state.now.jobs) job.now
        reached built.items (delta_in r.0) (map status_at r.1.items)) }
    ensures charge { IfOk result (λ r.
        (desk_at state.now.desks.items place).charge + r.0.more ≤ state.now.limits.charge) }
    ensures memory { IfErr result (λ why. why ≡ Memory) }
{
    if reached {
        return delta_for(alloc, &state.desks[place], state.limits, built);
    }
    let statuses = waiting(alloc, state.jobs.members(place, job))?;
    Ok((DeskDelta::new(alloc), statuses))
}

/// What the user at a place receives of a job that ended with an output, of which this was built for his
/// goals. The one error is memory.
fn receive_at(
    alloc: Global,
    state: &State,
    end: JobEnd<'_>,
    place: usize,
    built: Vec<(u16, Built)>,
) -> Result<(DeskDelta, Vec<(u16, Status)>), Refusal>
    requires leader { HasPlace state.now end.leader }
    requires of_run { HasPlace state.now place }
    ensures delivered { IfOk result (λ r. IsDeliveredAtPlace (trusts state.now.trust) end.entry.leader
        state.now.limits.charge end.entry.job.now (desk_at state.now.desks.items place)
        (goals_at place state.now.jobs) place built.items (delta_in r.0) (map status_at r.1.items)) }
    ensures memory { IfErr result (λ why. why ≡ Memory) }
{
    let reached = has_place(state.trust.closure(place), end.leader);
    let delivered = receive(alloc, state, place, end.job, reached, built)?;
    Ok(delivered)
}

/// What each user receives of a job that ended with an output, in the order of users, of which these were
/// built for their goals. The one error is memory.
fn receive_all(
    alloc: Global,
    state: &State,
    end: JobEnd<'_>,
    built: Vec<Vec<(u16, Built)>>,
) -> Result<Vec<(DeskDelta, Vec<(u16, Status)>)>, Refusal>
    requires leader { HasPlace state.now end.leader }
    requires count { length built.items ≡ length state.now.desks.items }
    ensures delivered { IfOk result (λ delivered. AreDelivered (trusts state.now.trust)
        end.entry.leader state.now.limits.charge end.entry.job.now state.now.desks.items
        state.now.jobs.goals built.items delivered.items) }
    ensures count { IfOk result (λ delivered. length delivered.items ≡ length state.now.desks.items) }
    ensures memory { IfErr result (λ why. why ≡ Memory) }
{
    let mut all = Vec::with_capacity(alloc, built.len())?;
    for own in built {
        let place = all.len();
        all.push(receive_at(alloc, state, end, place, own)?)?;
    }
    Ok(all)
}

/// What each user receives of a job that ended with an output, in the order of users. Nothing changes.
///
/// # Errors
///
/// - `Clash` only where another tree is at the path of one that was built, in the table or with one
///   before it.
/// - `Memory` only where memory was refused.
pub(crate) fn delivered_by_all(
    alloc: Global,
    state: &State,
    end: JobEnd<'_>,
    settlements: &mut Settlements,
) -> Result<Vec<(DeskDelta, Vec<(u16, Status)>)>, Refusal>
    requires { HasPlace state.now end.leader }
    ensures delivered { IfOk result (λ delivered. IsMadeBeside state.now.table.sources
        (option_copied end.entry.tree) (trusts state.now.trust) end.entry.leader
        state.now.limits.charge end.entry.job.now
        state.now.desks.items state.now.jobs.goals delivered.items) }
    ensures count { IfOk result (λ delivered. length delivered.items ≡ length state.now.desks.items) }
    ensures refused { IfErr result (IsNotMade state.now.table.sources (option_copied end.entry.tree)
        (trusts state.now.trust) end.entry.leader end.entry.job.now
        state.now.desks.items state.now.jobs.goals) }
{
    let built = build_from(alloc, state, end, settlements)?;
    tested(alloc, &state.table, &built)?;
    let delivered = receive_all(alloc, state, end, built)?;
    Ok(delivered)
}
