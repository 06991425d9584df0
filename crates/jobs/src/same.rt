//! Whether the same is built.

ghost use Rattle.std.specs.Prelude.{◌≡◌};
ghost use Rattle.std.specs.Cmp.Lexicographic.{pointwise};
ghost use Rattle.model.specs.Goals.{same_entry, same_resolved};

use records::{Entry, Resolved};

/// Whether two entries are of one class at one path, with the same labels, or are one source.
fn same_entry(one: &Entry, other: &Entry) -> bool
    ensures { result ≡ same_entry one.now other.now }
{
    match (one.class(), other.class()) {
        (None, None) => one.path() == other.path(),
        (Some(class), Some(other_class)) => {
            class.path() == other_class.path()
                && one.path() == other.path()
                && one.labels() == other.labels()
        }
        _ => false,
    }
}

/// Whether two closures have the same entries.
fn same_entries(these: &[Entry], others: &[Entry]) -> bool
    ensures { result ≡ pointwise same_entry these.now others.now }
{
    if these.len() != others.len() {
        return false;
    }
    for i in 0..these.len() {
        if !same_entry(&these[i], &others[i]) {
            return false;
        }
    }
    true
}

/// Whether the same is built: one text, under one path, from one closure.
pub(crate) fn same_resolved(one: &Resolved, other: &Resolved) -> bool
    ensures { result ≡ same_resolved one.now other.now }
{
    one.scratch() == other.scratch()
        && one.text() == other.text()
        && same_entries(one.closure(), other.closure())
}
