//! Lengths of tree texts.

ghost use Rattle.std.specs.Prelude.{◌≡◌, ◌^◌, ◌<◌, true, length};
ghost use Rattle.model.specs.TreeTexts.{tree_text_of, entries_text_of};
ghost use Rattle.nar.specs.NodeTrees.{tree_of, entries_of};

use crate::writer::separator_before;
use nar::Node;
use std::sync::Arc;

// The length of a node's tree text.
#[cycle(text_lengths)]
pub(crate) fn text_len(node: &Node) -> usize
    requires { length (tree_text_of (tree_of node.now)) < 2 ^ 64 }
    ensures { result ≡ length (tree_text_of (tree_of node.now)) }
{
    match node {
        Node::File { bytes, .. } => 2 + 2 * bytes.len(),
        Node::Link { target } => 2 + 2 * target.len(),
        Node::Directory { entries } => 3 + entries_text_len(entries),
    }
}

// The length of a directory's entries in a tree text.
#[cycle(text_lengths)]
fn entries_text_len(entries: &[(Vec<u8>, Arc<Node>)]) -> usize
    requires { length (entries_text_of true (entries_of entries.now)) < 2 ^ 64 }
    ensures { result ≡ length (entries_text_of true (entries_of entries.now)) }
{
    let mut len = 0;
    let mut first = true;
    for entry in entries {
        let separator = separator_before(first).len();
        len += separator + 2 * entry.0.len() + 1 + text_len(&entry.1);
        first = false;
    }
    len
}
