//! Which record of a class is chosen.

ghost use Rattle.std.specs.Prelude.{◌≡◌, [], ◌∷◌, option_copied, MatchResult};
ghost use Rattle.model.specs.Worlds.{pin_of};
ghost use Rattle.model.specs.Orders.{lesser, least_from, least};
ghost use Rattle.model.specs.declared.refusal.Refusal.TheVariants.{Memory};
ghost use Rattle.choose.specs.Visible.{recorded_before, those_at, pinned_at, of_class, choose_recorded, choose_in};

use crate::order::is_record_before;
use crate::view::{View, tree_in};
use model::Refusal;
use realise::{Desk, Pins, RecordsOf};
use records::{Realisation, Record};
use storepath::StorePath;

// The best so far, or a record where that stands before it.
fn lesser<'a>(best: Option<&'a Record>, one: &'a Record) -> &'a Record
    ensures { result.now ≡ lesser recorded_before (option_copied best.entry) one.now }
{
    match best {
        Some(other) if !is_record_before(one, other) => other,
        _ => one,
    }
}

// The same of a record only where it has the path, if one is given.
fn lesser_at<'a>(
    best: Option<&'a Record>,
    one: &'a Record,
    path: Option<&StorePath>,
) -> Option<&'a Record>
    ensures { option_copied result ≡ least_from recorded_before (option_copied best.entry)
        (those_at (option_copied path.entry) (one.now ∷ [])) }
{
    let Some(path) = path else {
        return Some(lesser(best, one));
    };
    if one.path() == path {
        Some(lesser(best, one))
    } else {
        best
    }
}

// The best so far, or the first of these records that stand before it and before all others: of
// those with the path, if one is given.
fn least_from<'a>(
    best: Option<&'a Record>,
    records: RecordsOf<'a>,
    path: Option<&StorePath>,
) -> Option<&'a Record>
    ensures { option_copied result ≡ least_from recorded_before (option_copied best.entry)
        (those_at (option_copied path.entry) records.entry) }
{
    let mut best = best;
    for candidate in records {
        best = lesser_at(best, candidate, path);
    }
    best
}

// The least record of a class: of those with the path, if one is given.
fn least_of<'a>(
    desks: &[&'a Desk],
    class: &StorePath,
    path: Option<&StorePath>,
) -> Option<&'a Record>
    ensures { option_copied result ≡ least recorded_before
        (those_at (option_copied path.entry) (of_class class.now desks.now)) }
{
    let mut best = None;
    for desk in desks {
        best = least_from(best, desk.records_of(class), path);
    }
    best
}

// The least record of a class with the pinned path, if a path is pinned.
fn pinned_choice<'a>(desks: &[&'a Desk], pins: &Pins, class: &StorePath) -> Option<&'a Record>
    ensures { option_copied result ≡ least recorded_before
        (pinned_at (pin_of pins.now class.now) (of_class class.now desks.now)) }
{
    match pins.get(class) {
        Some(path) => least_of(desks, class, Some(path)),
        None => None,
    }
}

// The record that is chosen for a class: of those with the pinned path, if there are any.
fn choice<'a>(desks: &[&'a Desk], pins: &Pins, class: &StorePath) -> Option<&'a Record>
    ensures { option_copied result
        ≡ choose_recorded (pin_of pins.now class.now) (of_class class.now desks.now) }
{
    match pinned_choice(desks, pins, class) {
        Some(pinned) => Some(pinned),
        None => least_of(desks, class, None),
    }
}

/// The record that is chosen for a class, with its tree. The one error is memory.
pub(crate) fn chosen(
    view: &View,
    pins: &Pins,
    class: &StorePath,
) -> Result<Option<Realisation>, Refusal>
    ensures { MatchResult result
        (λ r. r ≡ choose_in view.now pins.now class.now)
        (λ e. e ≡ Memory) }
{
    let Some(kept) = choice(&view.desks, pins, class) else {
        return Ok(None);
    };
    let tree = tree_in(view.table, kept.path())?;
    Ok(Some(Realisation::new(kept.clone()?, tree)))
}
