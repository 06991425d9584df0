//! An archive, string by string.

ghost use Rattle.model.specs.Archives.{File, Link, Directory, archive_string, executable_mark, directory_head, entry_head, nar, node_text, entries_text, IsTree};
ghost use Rattle.nar.specs.ArchiveTexts.{head_of, text_of};
ghost use Rattle.nar.specs.NodeTrees.{tree_of, entries_of};
ghost use Rattle.nar.specs.Taking.{TakesMore};

use crate::node::Node;
use crate::sink::Sink;
use crate::strings::padding;
use crate::tree::Tree;
use std::sync::Arc;

/// Hands the archive of a tree to a sink. The archive is never made, and no memory is taken but by the
/// sink.
pub fn hand_archive<S: Sink>(tree: &Tree, sink: &mut S)
    ensures archive { TakesMore S.took sink.old sink.new (nar tree.now) }
    ensures tree { IsTree tree.now }
{
    put_string(sink, b"nix-archive-1");
    put_node(sink, &tree.node);
}

/// A string: its length in eight bytes, the lowest first, its bytes, and zeros up to a multiple of eight.
#[tactic(auto, unfolding(model::specs::Archives::archive_string))]
pub(crate) fn put_string<S: Sink>(sink: &mut S, string: &[u8])
    ensures { TakesMore S.took sink.old sink.new (archive_string string.now) }
{
    let len = string.len() as u64;
    sink.take(&len.to_le_bytes());
    sink.take(string);
    sink.take(padding(string.len()));
}

#[cycle(node)]
#[tactic(auto, using(crate::proofs::NodeViews::directory_tree))]
fn put_node<S: Sink>(sink: &mut S, node: &Node)
    ensures { TakesMore S.took sink.old sink.new (node_text (tree_of node.now)) }
{
    match node {
        Node::File { executable, bytes } => put_file(sink, *executable, bytes),
        Node::Link { target } => put_link(sink, target),
        Node::Directory { entries } => put_directory(sink, entries),
    }
}

#[cycle(node)]
fn put_directory<S: Sink>(sink: &mut S, entries: &[(Vec<u8>, Arc<Node>)])
    ensures { TakesMore S.took sink.old sink.new (node_text (Directory (entries_of entries.now))) }
{
    put_head(sink, b"directory");
    put_entries(sink, entries);
    put_string(sink, b")");
}

#[cycle(node)]
fn put_entries<S: Sink>(sink: &mut S, entries: &[(Vec<u8>, Arc<Node>)])
    ensures { TakesMore S.took sink.old sink.new (entries_text (entries_of entries.now)) }
{
    for entry in entries {
        put_entry_head(sink, &entry.0);
        put_node(sink, &entry.1);
        put_string(sink, b")");
    }
}

fn put_file<S: Sink>(sink: &mut S, executable: bool, bytes: &[u8])
    ensures { TakesMore S.took sink.old sink.new (node_text (File executable bytes.now)) }
{
    put_head(sink, b"regular");
    put_executable_mark(sink, executable);
    put_text(sink, b"contents", bytes);
}

fn put_link<S: Sink>(sink: &mut S, target: &[u8])
    ensures { TakesMore S.took sink.old sink.new (node_text (Link target.now)) }
{
    put_head(sink, b"symlink");
    put_text(sink, b"target", target);
}

/// What stands before each node.
fn put_head<S: Sink>(sink: &mut S, kind: &[u8])
    ensures { TakesMore S.took sink.old sink.new (head_of kind.now) }
{
    put_string(sink, b"(");
    put_string(sink, b"type");
    put_string(sink, kind);
}

fn put_executable_mark<S: Sink>(sink: &mut S, executable: bool)
    ensures { TakesMore S.took sink.old sink.new (executable_mark executable) }
{
    if executable {
        put_string(sink, b"executable");
        put_string(sink, b"");
    }
}

/// A string behind its mark, and the end of the node.
fn put_text<S: Sink>(sink: &mut S, mark: &[u8], bytes: &[u8])
    ensures { TakesMore S.took sink.old sink.new (text_of mark.now bytes.now) }
{
    put_string(sink, mark);
    put_string(sink, bytes);
    put_string(sink, b")");
}

fn put_entry_head<S: Sink>(sink: &mut S, name: &[u8])
    ensures { TakesMore S.took sink.old sink.new (entry_head name.now) }
{
    put_string(sink, b"entry");
    put_string(sink, b"(");
    put_string(sink, b"name");
    put_string(sink, name);
    put_string(sink, b"node");
}
