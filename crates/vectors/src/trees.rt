//! Trees and their archives.

use crate::answer::Answer;
use hashmod::{Hasher, sha256};
use model::Refusal;
use nar::{Nar, Tree, decode, encode, nar_digest, write_nar};
use std::alloc::Global;
use tree_text::{read_tree_text, tree_text};

/// Adds the text of a tree.
pub(crate) fn tell(alloc: Global, tree: &Tree, out: &mut Answer) -> Result<(), Refusal> {
    out.add_bytes(&tree_text(alloc, tree)?);
    Ok(())
}

/// Whether two trees are the same.
fn word_of(are_same: bool) -> &'static str {
    if are_same { "same" } else { "another" }
}

/// `TREE`: the length and the digest of the archive of a tree's text, whether what the archive is
/// decoded as is the same tree, and the text of that.
pub(crate) fn tree(alloc: Global, text: &[u8], out: &mut Answer) -> Result<(), Refusal> {
    let tree = read_tree_text(alloc, text)?;
    let archive = encode(alloc, &tree)?;
    tell_archive(alloc, &archive, &tree, out)
}

/// Adds the length and the digest of an archive, whether what it is decoded as is this tree, and the text
/// of that.
fn tell_archive(
    alloc: Global,
    archive: &Nar,
    tree: &Tree,
    out: &mut Answer,
) -> Result<(), Refusal> {
    let again = decode(alloc, archive.bytes())?.clone()?;
    out.add(&archive.bytes().len());
    out.add_digits(&sha256(archive.bytes()));
    out.add_text(word_of(again.same(tree)));
    tell(alloc, &again, out)
}

/// `TREE`: the digest of the archive of a tree's text, which is not made for it, that of the archive as it is
/// written to a hasher, and the archive as it is written to a text.
pub(crate) fn written(alloc: Global, text: &[u8], out: &mut Answer) -> Result<(), Refusal> {
    let tree = read_tree_text(alloc, text)?;
    let mut hasher = Hasher::new();
    write_nar(&tree, &mut hasher)?;
    let mut archive = Vec::new(alloc);
    write_nar(&tree, &mut archive)?;
    out.add_digits(&nar_digest(&tree));
    out.add_digits(&hasher.finish());
    out.add_digits(&archive);
    Ok(())
}

/// `TREE TREE`: whether two texts are of the same tree.
pub(crate) fn same(alloc: Global, texts: &str, out: &mut Answer) -> Result<(), Refusal> {
    let Some((first, second)) = texts.split_once(' ') else {
        return Err(Refusal::BadLine);
    };
    let first = read_tree_text(alloc, first.as_bytes())?;
    let second = read_tree_text(alloc, second.as_bytes())?;
    out.add_text(word_of(first.same(&second)));
    Ok(())
}

/// The text of the tree of an archive.
pub(crate) fn decoded(alloc: Global, archive: &[u8], out: &mut Answer) -> Result<(), Refusal> {
    tell(alloc, &decode(alloc, archive)?, out)
}

/// Adds the length that a tree tells of its archive, and the archive in base 16.
fn tell_encoded(alloc: Global, tree: &Tree, out: &mut Answer) -> Result<(), Refusal> {
    out.add(&tree.nar_len());
    out.add_digits(encode(alloc, tree)?.bytes());
    Ok(())
}

/// The archive of a file with these bytes.
pub(crate) fn file(alloc: Global, bytes: &[u8], out: &mut Answer) -> Result<(), Refusal> {
    let tree = Tree::file(false, Vec::from_slice(alloc, bytes)?)?;
    tell_encoded(alloc, &tree, out)
}

/// The archive of a link to this target.
pub(crate) fn link(alloc: Global, target: &[u8], out: &mut Answer) -> Result<(), Refusal> {
    let tree = Tree::link(Vec::from_slice(alloc, target)?)?;
    tell_encoded(alloc, &tree, out)
}

/// `NAME..`: the archive of a directory of empty files.
pub(crate) fn directory(alloc: Global, names: &str, out: &mut Answer) -> Result<(), Refusal> {
    tell_encoded(alloc, &Tree::dir(alloc, empty_files(alloc, names)?)?, out)
}

/// The entries of a directory of empty files.
fn empty_files(alloc: Global, names: &str) -> Result<Vec<(Vec<u8>, Tree)>, Refusal> {
    let mut entries = Vec::new(alloc);
    for name in names.split_whitespace() {
        entries.push(empty_file(alloc, name)?)?;
    }
    Ok(entries)
}

/// An entry of this name, with an empty file.
fn empty_file(alloc: Global, name: &str) -> Result<(Vec<u8>, Tree), Refusal> {
    let file = Tree::file(false, Vec::new(alloc))?;
    Ok((Vec::from_slice(alloc, name.as_bytes())?, file))
}
