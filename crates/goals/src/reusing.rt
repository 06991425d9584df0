//! What was built already, and is used again.

ghost use Rattle.std.specs.Prelude.{◌≡◌, true, Some, length, filter, option_copied, is_some, IfOk, IfErr, MatchResult};
ghost use Rattle.std.specs.List.{list_any, list_all};
ghost use Rattle.model.specs.Worlds.{same_label, tree_at};
ghost use Rattle.model.specs.Goals.{goal_at};
ghost use Rattle.model.specs.Endings.{labels_from};
ghost use Rattle.model.specs.FinishedBuilds.{for_class};
ghost use Rattle.model.specs.Orders.{lesser, least_from, least};
ghost use Rattle.model.specs.declared.refusal.Refusal.TheVariants.{Memory};
ghost use Rattle.trust.specs.Trusting.{holds, trusts};
ghost use Rattle.jobs.specs.Owned.{goals_at};
ghost use Rattle.handlers.specs.Viewing.{places_of, desk_at};
ghost use Rattle.handlers.specs.States.{HasPlace, parts_of};
ghost use Rattle.records.specs.Trees.{record_at};
ghost use Rattle.goals.specs.Reusing.{path_before, is_found_at, done_path, found_by, found_on, found_in, class_for, IsFinishedBuild, IsHeldAmong, UsesAgain};

use crate::planned::Planned;
use handlers::State;
use jobs::{Goal, Status};
use model::Refusal;
use realise::{Desk, RecordsOf};
use records::{Label, Realisation, Record, Resolved};
use std::alloc::Global;
use store::Table;
use storepath::{Class, StorePath};
use trust::{UserSet, has_place};

/// Whether a label is among these.
fn is_among(label: &Label, labels: &[Label]) -> bool
    ensures { result ≡ list_any (same_label label.now) labels.now }
{
    labels.contains(label)
}

/// Whether each of some labels is among these.
fn are_among(own: &[Label], labels: &[Label]) -> bool
    ensures { result ≡ list_all (λ l. list_any (same_label l) labels.now) own.now }
{
    own.iter().all(|label| is_among(label, labels))
}

/// Whether a record is at a path, and each of its labels is among these.
fn is_found_at(one: &Record, path: &StorePath, labels: &[Label]) -> bool
    ensures { result ≡ is_found_at labels.now path.now one.now }
{
    one.path() == path && are_among(one.labels(), labels)
}

/// The best so far, or a record where its path goes before.
fn lesser<'a>(best: Option<&'a Record>, one: &'a Record) -> &'a Record
    ensures { result.now ≡ lesser path_before (option_copied best.entry) one.now }
{
    match best {
        Some(other) => {
            if one.path() < other.path() {
                one
            } else {
                other
            }
        }
        None => one,
    }
}

/// The best so far, or the first of these records whose path goes before, of those that are at a path
/// and whose labels are all among these.
fn least_of<'a>(
    best: Option<&'a Record>,
    records: RecordsOf<'a>,
    path: &StorePath,
    labels: &[Label],
) -> Option<&'a Record>
    ensures { option_copied result ≡ least_from path_before (option_copied best.entry)
        (filter (is_found_at labels.now path.now) records.entry) }
{
    let mut least = best;
    for one in records {
        if is_found_at(one, path, labels) {
            least = Some(lesser(least, one));
        }
    }
    least
}

/// The path by which a goal is done, if it is built from that.
fn done_path<'a>(goal: &'a Goal, resolved: &Resolved) -> Option<&'a StorePath>
    ensures { option_copied result ≡ done_path resolved.now goal.now }
{
    match goal.status() {
        Status::Done(path) if goal.is_built_from(resolved) => Some(path),
        _ => None,
    }
}

/// The best so far, or the least of what was built for a goal of the user of a desk.
fn least_for_goal<'a>(
    best: Option<&'a Record>,
    goal: &Goal,
    desk: &'a Desk,
    resolved: &Resolved,
    labels: &[Label],
) -> Option<&'a Record>
    ensures { option_copied result ≡ least_from path_before (option_copied best.entry)
        (found_by resolved.now labels.now desk.now goal.now) }
{
    let Some(path) = done_path(goal, resolved) else {
        return best;
    };
    match desk.derivation(goal.derivation()) {
        Some(admitted) => least_of(best, desk.records_of(admitted.class().path()), path, labels),
        None => best,
    }
}

/// The best so far, or the least of what was built for the goals of the user at a place. It looks only
/// at goals that are done and were built under the same path, of several that came to the same at the
/// first.
fn least_for_user<'a>(
    state: &'a State,
    best: Option<&'a Record>,
    place: usize,
    resolved: &Resolved,
    labels: &[Label],
) -> Option<&'a Record>
    requires { HasPlace state.now place }
    ensures { option_copied result ≡ least_from path_before (option_copied best.entry)
        (found_on resolved.now labels.now (desk_at state.now.desks.items place)
        (goals_at place state.now.jobs)) }
{
    let desk = &state.desks[place];
    let mut least = best;
    for number in state.jobs.finished_under(place, resolved.scratch()) {
        if let Some(goal) = state.jobs.get(place, *number) {
            least = least_for_goal(least, goal, desk, resolved, labels);
        }
    }
    least
}

/// The least of what was built for the goals of the users of a set. It looks only at
/// those of them who have planned goals under the same path.
fn least_for_all<'a>(
    state: &'a State,
    set: UserSet,
    resolved: &Resolved,
    labels: &[Label],
) -> Option<&'a Record>
    ensures { option_copied result ≡ least path_before (found_in resolved.now labels.now
        state.now.desks.items state.now.jobs.goals
        (places_of (holds set) (length state.now.desks.items))) }
{
    let near = set & state.jobs.planners(resolved.scratch());
    let mut least = None;
    for place in 0..state.desks.len() {
        if has_place(near, place) {
            least = least_for_user(state, least, place, resolved, labels);
        }
    }
    least
}

/// What was built already from the same, for a goal of one whom the user at a place reaches, and is
/// on that one's desk still, with labels that the closure gives: of several that of the least path.
fn finished_build<'a>(
    state: &'a State,
    place: usize,
    resolved: &Resolved,
    labels: &[Label],
) -> Option<&'a Record>
    requires of_run { HasPlace state.now place }
    requires labels { labels.now ≡ labels_from resolved.now }
    ensures found { IsFinishedBuild (trusts state.now.trust) state.now.jobs.goals
        state.now.desks.items place resolved.now (option_copied result) }
    ensures held { IsHeldAmong labels.now state.now.desks.items (option_copied result) }
{
    least_for_all(state, state.trust.closure(place), resolved, labels)
}

/// The class of the derivation of the goal of a number of the user at a place, if he knows it.
fn class_of(state: &State, place: usize, number: u16) -> Option<&Class>
    requires { HasPlace state.now place }
    ensures { option_copied result ≡ class_for (desk_at state.now.desks.items place).known
        (goal_at number (goals_at place state.now.jobs)) }
{
    let goal = state.jobs.get(place, number)?;
    let admitted = state.desks[place].derivation(goal.derivation())?;
    Some(admitted.class())
}

/// A record for another class, with the tree that a table has at its path. The one error is memory.
fn realised(
    alloc: Global,
    table: &Table,
    found: &Record,
    class: &Class,
) -> Result<Realisation, Refusal>
    requires { is_some (tree_at found.now.path table.now.sources) ≡ true }
    ensures { MatchResult result
        (λ made. (made ≡ for_class class.now (record_at table.now.sources found.now))
        × (tree_at made.path table.now.sources ≡ Some made.tree))
        (λ e. e ≡ Memory) }
{
    let tree = match table.get(found.path()) {
        Some(tree) => tree.clone()?,
        None => unreachable!(),
    };
    Ok(Realisation::new(found.for_class(alloc, class.clone()?)?, tree))
}

/// What a planned goal uses again: what was built already from the same, for the class of its derivation.
/// The one error is memory.
pub(crate) fn used_again(
    alloc: Global,
    state: &State,
    planned: Planned<'_>,
) -> Result<Option<Realisation>, Refusal>
    requires { HasPlace state.now planned.place }
    ensures used { IfOk result (UsesAgain (parts_of state.now) planned.entry.place
        planned.entry.number planned.entry.resolved.now) }
    ensures memory { IfErr result (λ e. e ≡ Memory) }
{
    let Some(class) = class_of(state, planned.place, planned.number) else {
        return Ok(None);
    };
    let labels = planned.resolved.labels(alloc)?;
    match finished_build(state, planned.place, planned.resolved, &labels) {
        Some(found) => Ok(Some(realised(alloc, &state.table, found, class)?)),
        None => Ok(None),
    }
}
