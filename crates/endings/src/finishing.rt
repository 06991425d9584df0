//! The end of a job with an output: what all users receive of it is made beside everything, and then put in
//! place.

ghost use Rattle.std.specs.Prelude.{◌≡◌, ◌<◌, ◌⊎◌, ◌++◌, ℕ, All, IfOk, IfErr, OnOk, OnErr, true, is_some, length, map};
ghost use Rattle.std.specs.Option.{option_copied};
ghost use Rattle.model.specs.declared.refusal.Refusal.TheVariants.{Memory};
ghost use Rattle.model.specs.ArchiveReading.{tree_of_archive};
ghost use Rattle.model.specs.Goals.{goal_at};
ghost use Rattle.model.specs.Events.{Finish as FinishRequest};
ghost use Rattle.events.specs.declared.reply.Reply.TheVariants.{Status as StatusReply};
ghost use Rattle.events.specs.Statuses.{status_of};
ghost use Rattle.trust.specs.Trusting.{trusts};
ghost use Rattle.trust.specs.Naming.{name_at};
ghost use Rattle.jobs.specs.Owned.{goals_at};
ghost use Rattle.store.specs.Stored.{AreNew, sources_of};
ghost use Rattle.handlers.specs.Parts.{goals_of};
ghost use Rattle.handlers.specs.Viewing.{desk_at};
ghost use Rattle.endings.specs.DeskDeltas.{last_status, status_at, with_delta, with_statuses};
ghost use Rattle.endings.specs.Committing.{delta_at, statuses_for, AreToAdd, MayGain, AreSettable};
ghost use Rattle.endings.specs.Delivery.{IsNotMade};
ghost use Rattle.endings.specs.Finishing.{IsPrepared};
ghost use Rattle.handlers.specs.States.{HasPlace, Handles};

use crate::committing::{additions_of, gained_by_all, set_all};
use crate::delivery::delivered_by_all;
use crate::delta::DeskDelta;
use crate::job_end::JobEnd;
use events::{CopiedReply, Output, Reply};
use handlers::State;
use jobs::{Job, Jobs, Status, leads};
use model::Refusal;
use nar::Tree;
use outputs::Settlements;
use realise::{Addition, Desk, Limits, add_to_each};
use std::alloc::{AllocError, Global};
use store::Table;
use storepath::StorePath;

/// How far the goal of a number, which was this far, is once goals have got these states. The one error
/// is memory.
#[tactic(auto, unfolding(crate::specs::DeskDeltas::last_status))]
fn status_then(
    status: &Status,
    number: u16,
    statuses: &[(u16, Status)],
) -> Result<Status, AllocError>
    ensures { IfOk result (λ then. status_of then
        ≡ last_status number (status_of status.now) (map status_at statuses.now)) }
{
    let mut last = status;
    for (other, told) in statuses {
        if *other == number {
            last = told;
        }
    }
    last.clone()
}

/// What the end of a job with an output changes.
#[derive(Drop)]
pub(crate) struct Ending {
    delivered: Vec<(DeskDelta, Vec<(u16, Status)>)>,
    additions: Vec<Addition>,
    trees: Vec<(StorePath, Tree)>,
    told: Status,
}

/// What the end of a job changes. Nothing changes yet.
///
/// # Errors
///
/// - `Clash` only where another tree is at the path of one that was built, in the table or with one
///   before it.
/// - `Memory` only where memory was refused.
fn prepare(
    alloc: Global,
    state: &State,
    end: JobEnd<'_>,
    settlements: &mut Settlements,
) -> Result<Ending, Refusal>
    requires of_run { HasPlace state.now end.leader }
    requires there { is_some (goal_at end.job.now.number
        (goals_at end.leader state.now.jobs)) ≡ true }
    ensures prepared { IfOk result (IsPrepared state.now.table.sources (option_copied end.entry.tree)
        (trusts state.now.trust) end.entry.leader state.now.limits.charge end.entry.job.now
        state.now.desks.items state.now.jobs.goals end.entry.job.now.number) }
    ensures refused { IfErr result (IsNotMade state.now.table.sources (option_copied end.entry.tree)
        (trusts state.now.trust) end.entry.leader end.entry.job.now
        state.now.desks.items state.now.jobs.goals) }
{
    let delivered = delivered_by_all(alloc, state, end, settlements)?;
    let trees = state
        .table
        .missing(alloc, gained_by_all(alloc, &delivered)?)?;
    let additions = additions_of(alloc, &delivered)?;
    let number = end.job.number();
    let goal = state.jobs.get(end.leader, number).unwrap();
    let told = status_then(goal.status(), number, delivered[end.leader].1.as_slice())?;
    Ok(Ending {
        delivered,
        additions,
        trees,
        told,
    })
}

/// What the job changes that the goal of a number of the user at a place leads, where it ended with
/// this output.
///
/// # Errors
///
/// Those of [`prepare`].
fn prepare_led(
    alloc: Global,
    state: &State,
    place: usize,
    number: u16,
    settlements: &mut Settlements,
    output: &Output,
) -> Result<Ending, Refusal>
    requires of_run { HasPlace state.now place }
    requires there { is_some (goal_at number (goals_at place state.now.jobs)) ≡ true }
    ensures prepared { IfOk result (IsPrepared state.now.table.sources (tree_of_archive output.now)
        (trusts state.now.trust) place state.now.limits.charge
        (record { leader = name_at state.now.users place; number = number })
        state.now.desks.items state.now.jobs.goals number) }
    ensures refused { IfErr result (IsNotMade state.now.table.sources (tree_of_archive output.now)
        (trusts state.now.trust) place
        (record { leader = name_at state.now.users place; number = number })
        state.now.desks.items state.now.jobs.goals) }
{
    let leader = &state.users.as_slice()[place];
    let job = Job::new(leader.clone()?, number);
    let end = JobEnd {
        leader: place,
        job: &job,
        tree: output.tree(),
    };
    prepare(alloc, state, end, settlements)
}

/// Puts what the end of a job changes in its place. The reply is how far the goal of its leader is then.
/// The one error is memory, and changes nothing: room is made in the table first, then the desks get
/// what they gain, all or none, and what comes after takes no memory.
fn put_in_place(
    alloc: Global,
    jobs: &mut Jobs,
    table: &mut Table,
    desks: &mut [Desk],
    limits: Limits,
    ending: Ending,
) -> Result<CopiedReply, Refusal>
    requires each { length ending.delivered.items ≡ length desks.old }
    requires additions { AreToAdd ending.delivered.items ending.additions.items }
    requires may { (place : ℕ) → place < length desks.old
        → MayGain limits.charge (desk_at desks.old place) (delta_at ending.delivered.items place) }
    requires count { length ending.delivered.items ≡ length jobs.old.goals }
    requires settable { (place : ℕ) → place < length jobs.old.goals
        → AreSettable (goals_of jobs.old.goals place) (statuses_for ending.delivered.items place) }
    requires new { AreNew table.old.sources (sources_of ending.trees.items) }
    ensures told { IfOk result (λ reply. reply ≡ StatusReply ending.told) }
    ensures table { OnOk result
        (table.new.sources ≡ table.old.sources ++ sources_of ending.trees.items) }
    ensures gained { OnOk result ((place : ℕ) → place < length desks.old → desk_at desks.new place
        ≡ with_delta (delta_at ending.delivered.items place) (desk_at desks.old place)) }
    ensures statuses { OnOk result ((place : ℕ) → place < length jobs.old.goals
        → goals_of jobs.new.goals place
        ≡ with_statuses (statuses_for ending.delivered.items place) (goals_of jobs.old.goals place)) }
    ensures with_desks { length desks.new ≡ length desks.old }
    ensures with_goals { length jobs.new.goals ≡ length jobs.old.goals }
    ensures users { jobs.new.users ≡ jobs.old.users }
    ensures kept { OnErr result (table.new.sources ≡ table.old.sources) }
    ensures kept_desks { OnErr result (desks.new ≡ desks.old) }
    ensures kept_jobs { OnErr result (jobs.new ≡ jobs.old) }
    ensures memory { IfErr result (λ why. why ≡ Memory) }
{
    table.reserve(ending.trees.len())?;
    let reply = CopiedReply::new(Reply::Status(ending.told))?;
    add_to_each(alloc, desks, ending.additions)?;
    set_all(jobs, ending.delivered);
    table.put_all_reserved(ending.trees);
    Ok(reply)
}

/// The job that the goal of a number of the user at a place leads has ended with an output. Each of its
/// goals whose user reaches him is done, or has failed for itself, and the others wait. The reply is how
/// far the leader's goal is then.
///
/// # Errors
///
/// Nothing has changed then.
///
/// - `UnknownGoal` exactly where he has no goal of that number, and `WrongState` exactly where it leads no
///   job that is built now.
/// - `Clash` only where another tree is at the path of one that was built, in the table or with one
///   before it.
/// - `Memory` only where memory was refused.
pub fn finish(
    alloc: Global,
    state: &mut State,
    place: usize,
    settlements: &mut Settlements,
    number: u16,
    output: &Output,
) -> Result<CopiedReply, Refusal>
    requires { HasPlace state.old place }
    ensures { Handles state.old place (FinishRequest number output.now) result state.new }
{
    leads(state.users.as_slice(), &state.jobs, place, number)?;
    let ending = prepare_led(alloc, state, place, number, settlements, output)?;
    let State {
        jobs,
        desks,
        table,
        limits,
        ..
    } = state;
    put_in_place(alloc, jobs, table, desks.as_mut_slice(), *limits, ending)
}
