//! Whether what is built may be shared: it is equal, or equal but for the trees.

ghost use Rattle.std.specs.Prelude.{◌≡◌, ◌↔◌, IsTrue, option_copied};
ghost use Rattle.std.specs.Cmp.Lexicographic.{pointwise};
ghost use Rattle.jobs.specs.Shared.{equal_class, equal_class_of, equal_label, equal_but_tree, equal_but_trees, trees};

use records::{Entry, Label, Resolved};
use storepath::Class;

/// Whether two classes are equal: their paths and their ranks.
fn equal_class(one: &Class, other: &Class) -> bool
    ensures { result ≡ equal_class one.now other.now }
{
    one.path() == other.path() && one.rank() == other.rank()
}

/// Whether two classes are equal, or none is there.
fn equal_class_of(one: Option<&Class>, other: Option<&Class>) -> bool
    ensures { result ≡ equal_class_of (option_copied one.entry) (option_copied other.entry) }
{
    match (one, other) {
        (None, None) => true,
        (Some(class), Some(other_class)) => equal_class(class, other_class),
        _ => false,
    }
}

/// Whether two labels are equal.
fn equal_label(one: &Label, other: &Label) -> bool
    ensures { result ≡ equal_label one.now other.now }
{
    one.path() == other.path() && equal_class_of(one.class(), other.class())
}

/// Whether two lists of labels are equal.
fn equal_labels(these: &[Label], others: &[Label]) -> bool
    ensures { result ≡ pointwise equal_label these.now others.now }
{
    if these.len() != others.len() {
        return false;
    }
    for i in 0..these.len() {
        if !equal_label(&these[i], &others[i]) {
            return false;
        }
    }
    true
}

/// Whether two entries are equal but for their trees.
fn equal_but_tree(one: &Entry, other: &Entry) -> bool
    ensures { result ≡ equal_but_tree one.now other.now }
{
    match (one.class(), other.class()) {
        (None, None) => one.path() == other.path(),
        (Some(class), Some(other_class)) => {
            equal_class(class, other_class)
                && one.path() == other.path()
                && equal_labels(one.labels(), other.labels())
        }
        _ => false,
    }
}

/// Whether two closures are equal but for the trees.
fn equal_entries(these: &[Entry], others: &[Entry]) -> bool
    ensures { result ≡ pointwise equal_but_tree these.now others.now }
{
    if these.len() != others.len() {
        return false;
    }
    for i in 0..these.len() {
        if !equal_but_tree(&these[i], &others[i]) {
            return false;
        }
    }
    true
}

/// Whether what is built is equal but for the trees of the closure.
pub(crate) fn equal_but_trees(one: &Resolved, other: &Resolved) -> bool
    ensures { result ≡ equal_but_trees one.now other.now }
{
    one.scratch() == other.scratch()
        && one.text() == other.text()
        && equal_entries(one.closure(), other.closure())
}

/// Whether two closures have equal trees, one after another.
pub(crate) fn equal_trees(these: &[Entry], others: &[Entry]) -> bool
    ensures { IsTrue result ↔ (trees these.now ≡ trees others.now) }
{
    if these.len() != others.len() {
        return false;
    }
    for i in 0..these.len() {
        if !these[i].tree().same(others[i].tree()) {
            return false;
        }
    }
    true
}
