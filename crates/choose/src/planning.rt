//! Planning a closure.

ghost use Rattle.std.specs.Prelude.{◌≡◌, ◌⊎◌, ◌+◌, ℕ, List, [], nat_lt, length, Option, is_none, true, false, IfOk, MatchResult, Ok, Err};
ghost use Rattle.std.specs.List.{list_any};
ghost use Rattle.std.specs.Option.{option_copied};
ghost use Rattle.std.specs.List.Sorted.{IsPermutation, IsSortedBy};
ghost use Rattle.model.specs.Limits.{most_entries};
ghost use Rattle.model.specs.Worlds.{Record as RecordValue, Desk as DeskValue};
ghost use Rattle.model.specs.Choices.{rank_before, source_before, closure_plan};
ghost use Rattle.model.specs.Outlooks.{first_lacking};
ghost use Rattle.model.specs.declared.refusal.Refusal.TheVariants.{Memory, NotRealised, ClosureTooLarge};
ghost use Rattle.choose.specs.Visible.{visible_on, choose_in, SeesSourcesOf, SeesSourcesIn, LabelsAreVisible};
ghost use Rattle.choose.specs.Gathering.{IsChoiceAmong, IsGathered, HasClasses, IsTooMuch};

use crate::gathering::Gathering;
use crate::order::{compare_records, compare_sources};
use crate::view::View;
use model::Refusal;
use realise::Pins;
use records::{Plan, Realisation, Source};
use std::alloc::Global;
use storepath::StorePath;

// What is chosen for the classes asked for.
fn gather_classes(
    alloc: Global,
    view: &View,
    pins: &Pins,
    classes: &[StorePath],
) -> Result<Gathering, Refusal>
    ensures { let choice = choose_in view.now pins.now in
        let missing = list_any (λ c. is_none (choice c)) classes.now in
        MatchResult result
        (λ g. (missing ≡ false) × HasClasses view.now choice classes.now g)
        (λ e. (e ≡ Memory) ⊎ ((e ≡ NotRealised) × (missing ≡ true))) }
{
    let mut gathering = Gathering::new(alloc);
    for class in classes {
        gathering.add_class(view, pins, class)?;
        if !gathering.has_class(class) {
            return Err(Refusal::NotRealised);
        }
    }
    Ok(gathering)
}

// Adds the sources asked for.
fn gather_sources(
    view: &View,
    sources: &[StorePath],
    gathering: &mut Gathering,
) -> Result<(), Refusal>
    ensures { (choice : List ℕ → Option RecordValue) (classes A : List (List ℕ))
        → IsChoiceAmong view.now.records choice
        → IsGathered view.now choice classes sources.now A [] [] gathering.old
        → MatchResult result
        (λ _. IsGathered view.now choice classes sources.now A sources.now [] gathering.new)
        (λ e. e ≡ Memory) }
{
    for path in sources {
        gathering.add_source(view, path)?;
    }
    Ok(())
}

// Adds what is below each record, until there is no more, or more than a closure may have.
fn gather_below(view: &View, pins: &Pins, gathering: &mut Gathering) -> Result<(), Refusal>
    ensures { let choice = choose_in view.now pins.now in
        let g = gathering.new in
        (classes sources A P : List (List ℕ))
        → IsGathered view.now choice classes sources A P [] gathering.old → MatchResult result
        (λ _. IsGathered view.now choice classes sources A P g.records g
        × (nat_lt most_entries (length g.records + length g.sources) ≡ false))
        (λ e. (e ≡ Memory) ⊎ ((e ≡ ClosureTooLarge) × IsTooMuch view.now choice classes sources)) }
{
    let mut next = 0;
    while next < gathering.len() {
        if gathering.is_too_large() {
            return Err(Refusal::ClosureTooLarge);
        }
        let realisation = gathering.realisation(next)?;
        gathering.add_labels(view, pins, realisation.labels())?;
        next += 1;
    }
    if gathering.is_too_large() {
        return Err(Refusal::ClosureTooLarge);
    }
    Ok(())
}

// Records by rank and then class path.
fn sort_records(mut records: Vec<Realisation>) -> Result<Vec<Realisation>, Refusal>
    ensures { MatchResult result
        (λ sorted. IsPermutation records.items sorted.items × IsSortedBy rank_before sorted.items)
        (λ e. e ≡ Memory) }
{
    records.sort_by(|a, b| compare_records(a, b))?;
    Ok(records)
}

// Sources by path.
fn sort_sources(mut sources: Vec<Source>) -> Result<Vec<Source>, Refusal>
    ensures { MatchResult result
        (λ sorted. IsPermutation sources.items sorted.items × IsSortedBy source_before sorted.items)
        (λ e. e ≡ Memory) }
{
    sources.sort_by(|a, b| compare_sources(a, b))?;
    Ok(sources)
}

/// What the closure of classes and sources needs: of every class reached the chosen record, once,
/// and every source. All that the labels of visible records name is visible, so no source is
/// missing.
///
/// # Errors
///
/// - `NotRealised` exactly where no visible record is for one of the classes.
/// - `ClosureTooLarge` exactly where each class has one, and the closure would have over 1,024
///   entries.
/// - `Memory` only where memory was refused; it may stand in the place of each answer.
pub fn plan(
    alloc: Global,
    view: &View,
    pins: &Pins,
    classes: &[StorePath],
    sources: &[StorePath],
) -> Result<Plan, Refusal>
    ensures planned { (desks : List DeskValue) → visible_on desks ≡ view.now
        → let answer = closure_plan desks pins.now classes.now sources.now in
        MatchResult result
        (λ p. answer ≡ Ok p)
        (λ e. (e ≡ Memory) ⊎ (answer ≡ Err e)) }
    ensures seen { IfOk result (λ p. SeesSourcesOf view.now p.records) }
    ensures closed { IfOk result (λ _. SeesSourcesIn view.now) }
    ensures labelled { IfOk result (λ _. LabelsAreVisible view.now) }
{
    // What a view keeps of its desks holds of all that is planned.
    let _desks = &view.desks;
    let mut gathering = gather_classes(alloc, view, pins, classes)?;
    gather_sources(view, sources, &mut gathering)?;
    gather_below(view, pins, &mut gathering)?;
    let (found_records, found_sources) = gathering.into_parts();
    let records = sort_records(found_records)?;
    let sources = sort_sources(found_sources)?;
    Ok(Plan::new(records, sources))
}

/// The first of some classes of which no record is seen. It takes no memory.
pub fn first_lacking<'a>(view: &View, classes: &'a [StorePath]) -> Option<&'a StorePath>
    ensures { option_copied result ≡ first_lacking view.now.records classes.now }
{
    classes.iter().find(|class| !view.is_realised(class))
}
