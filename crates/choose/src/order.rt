//! The orders by which records are chosen, and in which plans are.

ghost use Rattle.std.specs.Prelude.{◌≡◌};
ghost use Rattle.std.specs.Ordering.{is_lt};
ghost use Rattle.model.specs.Orders.{list_before};
ghost use Rattle.model.specs.Choices.{label_before, rank_before, source_before};
ghost use Rattle.choose.specs.Visible.{recorded_before};

use records::{Label, Realisation, Record, Source, is_class_before};
use std::cmp::Ordering;

// Whether one label goes before another: by path, and then by class.
fn is_label_before(one: &Label, other: &Label) -> bool
    ensures { result ≡ label_before one.now other.now }
{
    if one.path() < other.path() {
        return true;
    }
    if other.path() < one.path() {
        return false;
    }
    is_class_before(one.class(), other.class())
}

// Whether labels go before others, one after another.
fn are_labels_before(one: &[Label], other: &[Label]) -> bool
    ensures { result ≡ list_before label_before one.now other.now }
{
    let mut index = 0;
    while index < one.len() && index < other.len() {
        let first = &one[index];
        let second = &other[index];
        if is_label_before(first, second) {
            return true;
        }
        if is_label_before(second, first) {
            return false;
        }
        index += 1;
    }
    one.len() < other.len()
}

/// Whether a record goes before another of its class: by path, and then by labels.
pub(crate) fn is_record_before(one: &Record, other: &Record) -> bool
    ensures { result ≡ recorded_before one.now other.now }
{
    if one.path() < other.path() {
        return true;
    }
    if other.path() < one.path() {
        return false;
    }
    are_labels_before(one.labels(), other.labels())
}

/// The order of records of several classes: by rank, and then by class path.
pub(crate) fn compare_records(a: &Realisation, b: &Realisation) -> Ordering
    ensures { is_lt result ≡ rank_before a.now b.now }
{
    let first = a.class().rank();
    let second = b.class().rank();
    if first < second {
        Ordering::Less
    } else if second < first {
        Ordering::Greater
    } else {
        a.class().path().cmp(b.class().path())
    }
}

/// The order of sources: by path.
pub(crate) fn compare_sources(a: &Source, b: &Source) -> Ordering
    ensures { is_lt result ≡ source_before a.now b.now }
{
    a.path().cmp(b.path())
}
