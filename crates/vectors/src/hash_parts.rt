//! Hash parts in trees: where they stand, trees in which they are replaced, and trees that are settled.

use crate::answer::Answer;
use crate::lines::cut;
use crate::paths::paths_of;
use crate::trees::{decoded, tell as tell_tree};
use model::Refusal;
use nar::{Nar, encode};
use path_sets::PathSet;
use rewrite::{Candidates, Images, Named, settle, source, substitute};
use scan::{Keys, Places, occurrences};
use std::alloc::Global;
use storepath::{HashPart, Name, StorePath};
use tree_text::read_tree_text;

/// The archive of a tree's text.
fn archive_of(alloc: Global, text: &str) -> Result<Nar, Refusal> {
    encode(alloc, &read_tree_text(alloc, text.as_bytes())?)
}

/// What a call gives for the archive of a tree's text, and for further words.
pub(crate) fn of_archive(
    alloc: Global,
    call: &str,
    words: &str,
    out: &mut Answer,
) -> Result<(), Refusal> {
    let (tree, words) = cut(words);
    let archive = archive_of(alloc, tree)?;
    match call {
        "occurrences" => found(alloc, &archive, words, out),
        "substitute" => replaced(alloc, &archive, words, out),
        "settle" => settled(alloc, &archive, words, out),
        "given" => given(alloc, archive, words, out),
        _ => Err(Refusal::BadLine),
    }
}

/// `KEY..`: where hash parts stand in an archive, in bytes, each with the hash part.
fn found(alloc: Global, archive: &Nar, words: &str, out: &mut Answer) -> Result<(), Refusal> {
    let mut keys = Keys::new(alloc, words.len())?;
    add_keys(&mut keys, words)?;
    tell_places(&occurrences(alloc, archive, &keys)?, out);
    Ok(())
}

/// Adds the hash parts of words.
fn add_keys(keys: &mut Keys, words: &str) -> Result<(), Refusal> {
    for word in words.split_whitespace() {
        keys.add(HashPart::read(word.as_bytes())?)?;
    }
    Ok(())
}

/// Adds places with their hash parts, each with a comma behind it.
fn tell_places(places: &Places, out: &mut Answer) {
    for (at, part) in places.as_slice() {
        out.put(at);
        out.put_text(" ");
        out.put(part);
        out.put_text(",");
    }
}

/// `KEY=IMAGE..`: the text of the tree of an archive with each key replaced by its image.
fn replaced(alloc: Global, archive: &Nar, words: &str, out: &mut Answer) -> Result<(), Refusal> {
    let mut images = Images::new(alloc);
    add_images(&mut images, words)?;
    decoded(alloc, with_images(alloc, archive, &images)?.bytes(), out)
}

/// Adds the keys of words, each with its image behind an equals sign.
fn add_images(images: &mut Images, words: &str) -> Result<(), Refusal> {
    for word in words.split_whitespace() {
        let Some((key, image)) = word.split_once('=') else {
            return Err(Refusal::BadLine);
        };
        let key = HashPart::read(key.as_bytes())?;
        images.add(key, HashPart::read(image.as_bytes())?)?;
    }
    Ok(())
}

/// An archive with images put in.
fn with_images(alloc: Global, archive: &Nar, images: &Images) -> Result<Nar, Refusal> {
    let places = occurrences(alloc, archive, &images.keys(alloc)?)?;
    substitute(alloc, archive, &places, images)
}

/// `PART NAME PATH..`: the path of a tree whose archive was built under a hash part, the paths that it
/// refers to, where its self-references stand in its archive, and its text.
fn settled(alloc: Global, archive: &Nar, words: &str, out: &mut Answer) -> Result<(), Refusal> {
    let (own, words) = cut(words);
    let own = HashPart::read(own.as_bytes())?;
    tell(alloc, &settled_under(alloc, archive, &own, words)?, out)
}

/// The paths as a set.
fn set_of(alloc: Global, paths: Vec<StorePath>) -> Result<PathSet, Refusal> {
    let mut set = PathSet::new();
    for path in paths {
        if !set.contains(&path) {
            set.add_if(alloc, path, || Ok(true))?;
        }
    }
    Ok(set)
}

/// `NAME PATH..`: an archive that was built under a hash part, settled under a name with these candidates.
fn settled_under(
    alloc: Global,
    archive: &Nar,
    own: &HashPart,
    words: &str,
) -> Result<Named, Refusal> {
    let (name, candidates) = cut(words);
    let name = Name::new(alloc, name.as_bytes())?;
    let found = set_of(alloc, paths_of(alloc, candidates)?)?;
    let candidates = Candidates {
        listed: &[],
        found: &found,
    };
    settle(alloc, archive, own, &candidates, &name)
}

/// `NAME`: the same of a source.
fn given(alloc: Global, archive: Nar, name: &str, out: &mut Answer) -> Result<(), Refusal> {
    let name = Name::new(alloc, name.as_bytes())?;
    tell(alloc, &source(alloc, archive, &name)?, out)
}

/// Adds what a tree with its path is.
fn tell(alloc: Global, named: &Named, out: &mut Answer) -> Result<(), Refusal> {
    out.add(named.path());
    out.add_list(named.refs());
    out.add_list(named.self_places());
    tell_tree(alloc, &named.tree(alloc)?, out)
}
