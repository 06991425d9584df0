//! The paths that a core holds.

ghost use Rattle.std.specs.Prelude.{◌≡◌, length, bytes_eq, All, IfErr, OnOk};
ghost use Rattle.model.specs.declared.refusal.Refusal.TheVariants.{Memory};
ghost use Rattle.events.specs.Statuses.{status_of};
ghost use Rattle.schedule.specs.Sweeping.{holds_path, hold_path, has_entry_at, keeps_path, keep_path, keep_any_path, IsHolding, Holds};

use indexmap::IndexSet;
use jobs::{Goal, Jobs, Status};
use model::Refusal;
use realise::Desk;
use records::Entry;
use std::hash::RandomState;
use storepath::StorePath;

/// Puts a path into a set. The one error is memory.
fn hold(held: &mut IndexSet<StorePath, RandomState>, path: &StorePath) -> Result<(), Refusal>
    ensures held { OnOk result (Holds held.old.keys (bytes_eq path.now) held.new.keys) }
    ensures memory { IfErr result (λ e. e ≡ Memory) }
{
    let _is_new = held.insert(path.clone()?)?;
    Ok(())
}

/// Puts the paths that a desk holds into a set. The one error is memory.
fn hold_desk(held: &mut IndexSet<StorePath, RandomState>, desk: &Desk) -> Result<(), Refusal>
    ensures held { OnOk result (Holds held.old.keys (holds_path desk.now) held.new.keys) }
    ensures charged { IsHolding desk.now }
    ensures memory { IfErr result (λ e. e ≡ Memory) }
{
    for path in desk.paths() {
        hold(held, path)?;
    }
    Ok(())
}

/// Puts the paths that desks hold into a set. The one error is memory.
pub(crate) fn hold_desks(
    held: &mut IndexSet<StorePath, RandomState>,
    desks: &[Desk],
) -> Result<(), Refusal>
    ensures held { OnOk result (Holds held.old.keys (hold_path desks.now) held.new.keys) }
    ensures charged { OnOk result (All IsHolding desks.now) }
    ensures memory { IfErr result (λ e. e ≡ Memory) }
{
    for desk in desks {
        hold_desk(held, desk)?;
    }
    Ok(())
}

/// Puts the paths of entries into a set. The one error is memory.
fn hold_entries(
    held: &mut IndexSet<StorePath, RandomState>,
    entries: &[Entry],
) -> Result<(), Refusal>
    ensures held { OnOk result
        (Holds held.old.keys (has_entry_at entries.now) held.new.keys) }
    ensures memory { IfErr result (λ e. e ≡ Memory) }
{
    for entry in entries {
        hold(held, entry.path())?;
    }
    Ok(())
}

/// Puts the paths that a goal keeps into a set, if it is planned or is being built. The one error is
/// memory.
fn hold_goal(held: &mut IndexSet<StorePath, RandomState>, goal: &Goal) -> Result<(), Refusal>
    ensures held { OnOk result (Holds held.old.keys (keeps_path goal.now) held.new.keys) }
    ensures memory { IfErr result (λ e. e ≡ Memory) }
{
    if !goal.status().is_planned() {
        return Ok(());
    }
    match goal.resolved() {
        Some(resolved) => hold_entries(held, resolved.closure()),
        None => Ok(()),
    }
}

/// Puts the paths that goals keep into a set. The one error is memory.
fn hold_goals(held: &mut IndexSet<StorePath, RandomState>, goals: &[Goal]) -> Result<(), Refusal>
    ensures held { OnOk result (Holds held.old.keys (keep_path goals.now) held.new.keys) }
    ensures memory { IfErr result (λ e. e ≡ Memory) }
{
    for goal in goals {
        hold_goal(held, goal)?;
    }
    Ok(())
}

/// Puts the paths that the goals of all users keep, who are so many, into a set. The one error is memory.
pub(crate) fn hold_jobs(
    held: &mut IndexSet<StorePath, RandomState>,
    jobs: &Jobs,
    count: usize,
) -> Result<(), Refusal>
    requires { length jobs.now.goals ≡ count }
    ensures held { OnOk result
        (Holds held.old.keys (keep_any_path jobs.now.goals) held.new.keys) }
    ensures memory { IfErr result (λ e. e ≡ Memory) }
{
    for place in 0..count {
        hold_goals(held, jobs.of_user(place))?;
    }
    Ok(())
}
