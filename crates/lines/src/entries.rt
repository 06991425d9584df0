//! The text of the entries of a closure.

ghost use Rattle.std.specs.Prelude.{◌≡◌, ◌++◌, ◌∷◌, [], OnOk, option_copied, flat_map, length, decimal};
ghost use Rattle.model.specs.Archives.{nar};
ghost use Rattle.model.specs.Closures.{class_of_entry, labels_of_entry, tree_of_entry};
ghost use Rattle.model.specs.Talk.{class_text, label_text, labels_text, entry_text};

use crate::pieces::{add, add_number};
use records::{Entry, Label};
use std::alloc::{AllocError, Global};
use storepath::Class;

/// Adds a mark, and what a path is there for: the path of a class, or `source`.
fn add_class(text: &mut Vec<u8>, mark: &[u8], class: Option<&Class>) -> Result<(), AllocError>
    ensures { OnOk result
        (text.new.items ≡ text.old.items ++ mark.now ++ class_text (option_copied class.entry)) }
{
    match class {
        Some(class) => add(text, mark, class.path().bytes()),
        None => add(text, mark, b"source"),
    }
}

/// Adds a mark and a label.
fn add_label(text: &mut Vec<u8>, mark: &[u8], label: &Label) -> Result<(), AllocError>
    ensures { OnOk result (text.new.items ≡ text.old.items ++ mark.now ++ label_text label.now) }
{
    add(text, mark, label.path().bytes())?;
    add_class(text, b"@", label.class())
}

/// Adds labels, each behind a comma.
fn add_more_labels(text: &mut Vec<u8>, labels: &[Label]) -> Result<(), AllocError>
    ensures { OnOk result
        (text.new.items ≡ text.old.items ++ flat_map (λ l. 44 ∷ label_text l) labels.now) }
{
    for label in labels {
        add_label(text, b",", label)?;
    }
    Ok(())
}

/// Adds a semicolon, and labels with a comma before each but the first.
fn add_labels(text: &mut Vec<u8>, labels: &[Label]) -> Result<(), AllocError>
    ensures { OnOk result (text.new.items ≡ text.old.items ++ 59 ∷ labels_text labels.now) }
{
    let [first, others @ ..] = labels else {
        return text.extend_from_slice(b";");
    };
    add_label(text, b";", first)?;
    add_more_labels(text, others)
}

/// Adds the class and the labels of an entry, behind an opening bracket.
fn add_class_and_labels(text: &mut Vec<u8>, entry: &Entry) -> Result<(), AllocError>
    ensures { OnOk result (text.new.items ≡ text.old.items ++ 40 ∷
        class_text (class_of_entry entry.now) ++ 59 ∷ labels_text (labels_of_entry entry.now)) }
{
    add_class(text, b"(", entry.class())?;
    add_labels(text, entry.labels())
}

/// Adds the length of an entry's archive in bytes, before a closing bracket.
fn add_length(alloc: Global, text: &mut Vec<u8>, entry: &Entry) -> Result<(), AllocError>
    ensures { OnOk result (text.new.items ≡ text.old.items ++ 59 ∷
        decimal (length (nar (tree_of_entry entry.now))) ++ 41 ∷ []) }
{
    add_number(alloc, text, b";", entry.tree().nar_len())?;
    text.extend_from_slice(b")")
}

/// Adds a blank and an entry: its path, its class, its labels, and the length of its archive in
/// bytes.
fn add_entry(alloc: Global, text: &mut Vec<u8>, entry: &Entry) -> Result<(), AllocError>
    ensures { OnOk result (text.new.items ≡ text.old.items ++ 32 ∷ entry_text entry.now) }
{
    add(text, b" ", entry.path().bytes())?;
    add_class_and_labels(text, entry)?;
    add_length(alloc, text, entry)
}

/// Adds entries, each behind a blank.
pub(crate) fn add_entries(
    alloc: Global,
    text: &mut Vec<u8>,
    entries: &[Entry],
) -> Result<(), AllocError>
    ensures { OnOk result
        (text.new.items ≡ text.old.items ++ flat_map (λ e. 32 ∷ entry_text e) entries.now) }
{
    for entry in entries {
        add_entry(alloc, text, entry)?;
    }
    Ok(())
}
