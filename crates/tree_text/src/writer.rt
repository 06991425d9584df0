//! Writing the text of a tree.

ghost use Rattle.std.specs.Prelude.{◌≡◌, ◌++◌, OnOk, IfOk, IfErr, true};
ghost use Rattle.hex.specs.Hex.{encode_lower};
ghost use Rattle.model.specs.Archives.{File, Link, Directory};
ghost use Rattle.model.specs.TreeTexts.{tree_text_of, entries_text_of, separator, file_mark as mark_of_file};
ghost use Rattle.model.specs.declared.refusal.Refusal.TheVariants.{Memory};
ghost use Rattle.nar.specs.NodeTrees.{tree_of, entries_of};

use crate::lengths::text_len;
use model::Refusal;
use nar::{Node, Tree};
use std::alloc::{AllocError, Global};
use std::sync::Arc;

/// The tree text of a tree: `f:` and the bytes of a file, `x:` and those of an executable file,
/// `l:` and the target of a link, or `d(`, the entries with `,` between, each its name, `=` and its
/// tree's text, and `)`. File bytes, targets and names are in lower-case base 16.
///
/// Memory is taken once.
///
/// # Errors
///
/// - `Memory` only where memory was refused.
pub fn tree_text(alloc: Global, tree: &Tree) -> Result<Vec<u8>, Refusal>
    ensures text { IfOk result (λ text. text.items ≡ tree_text_of tree.now) }
    ensures memory { IfErr result (λ why. why ≡ Memory) }
{
    let mut text = Vec::new(alloc);
    add_tree_text(&mut text, tree)?;
    Ok(text)
}

/// Adds the tree text of a tree, as [`tree_text`] gives it, behind a text. Memory is taken once, with room for one
/// byte more behind it. The error is want of memory.
pub fn add_tree_text(text: &mut Vec<u8>, tree: &Tree) -> Result<(), AllocError>
    ensures { OnOk result (text.new.items ≡ text.old.items ++ tree_text_of tree.now) }
{
    let len = text_len(tree.node());
    text.reserve_exact(len.saturating_add(1))?;
    write_node(text, tree.node())
}

#[cycle(node_text)]
fn write_node(text: &mut Vec<u8>, node: &Node) -> Result<(), AllocError>
    ensures { OnOk result (text.new.items ≡ text.old.items ++ tree_text_of (tree_of node.now)) }
{
    match node {
        Node::File { executable, bytes } => write_file(text, *executable, bytes),
        Node::Link { target } => write_link(text, target),
        Node::Directory { entries } => write_directory(text, entries),
    }
}

#[cycle(node_text)]
fn write_directory(text: &mut Vec<u8>, entries: &[(Vec<u8>, Arc<Node>)]) -> Result<(), AllocError>
    ensures { OnOk result (text.new.items ≡ text.old.items ++ tree_text_of (Directory (entries_of entries.now))) }
{
    text.extend_from_slice(b"d(")?;
    write_entries(text, entries)?;
    text.extend_from_slice(b")")
}

#[cycle(node_text)]
fn write_entries(text: &mut Vec<u8>, entries: &[(Vec<u8>, Arc<Node>)]) -> Result<(), AllocError>
    ensures { OnOk result (text.new.items ≡ text.old.items ++ entries_text_of true (entries_of entries.now)) }
{
    let mut first = true;
    for entry in entries {
        text.extend_from_slice(separator_before(first))?;
        add_digits(text, &entry.0)?;
        text.extend_from_slice(b"=")?;
        write_node(text, &entry.1)?;
        first = false;
    }
    Ok(())
}

fn write_file(text: &mut Vec<u8>, executable: bool, bytes: &[u8]) -> Result<(), AllocError>
    ensures { OnOk result (text.new.items ≡ text.old.items ++ tree_text_of (File executable bytes.now)) }
{
    text.extend_from_slice(file_mark(executable))?;
    add_digits(text, bytes)
}

fn write_link(text: &mut Vec<u8>, target: &[u8]) -> Result<(), AllocError>
    ensures { OnOk result (text.new.items ≡ text.old.items ++ tree_text_of (Link target.now)) }
{
    text.extend_from_slice(b"l:")?;
    add_digits(text, target)
}

// What stands before the bytes of a file.
fn file_mark(executable: bool) -> &'static [u8]
    ensures { result.now ≡ mark_of_file executable }
{
    if executable { b"x:" } else { b"f:" }
}

// What stands before an entry, which is the first or a later one.
pub(crate) fn separator_before(first: bool) -> &'static [u8]
    ensures { result.now ≡ separator first }
{
    if first { b"" } else { b"," }
}

/// Adds bytes in lower-case base 16, two digits a byte. Memory is taken once. The error is want of memory.
pub fn add_digits(text: &mut Vec<u8>, bytes: &[u8]) -> Result<(), AllocError>
    ensures { OnOk result (text.new.items ≡ text.old.items ++ encode_lower bytes.now) }
{
    let start = text.len();
    text.resize(start.saturating_add(2 * bytes.len()), 0)?;
    hex::encode_to_slice(bytes, &mut text[start..]).unwrap();
    Ok(())
}
