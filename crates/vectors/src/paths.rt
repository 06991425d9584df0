//! Digests, base 32, names and paths.

use crate::answer::Answer;
use crate::lines::cut;
use hashmod::{fold, sha256};
use hex::FromHex;
use model::Refusal;
use std::alloc::Global;
use std::cmp::Ordering;
use storepath::{HashPart, Kind, Name, StorePath, from_base32, make_path, read_path, to_base32};

/// The digest of a text and its folding in base 16, and the folding in base 32.
pub(crate) fn digest(text: &[u8], out: &mut Answer) -> Result<(), Refusal> {
    let digest = sha256(text);
    let folded = fold(&digest);
    out.add_digits(&digest);
    out.add_digits(&folded);
    out.add_bytes(&to_base32(&folded));
    Ok(())
}

/// The digits of 20 bytes in base 16.
pub(crate) fn base32(digits: &[u8], out: &mut Answer) -> Result<(), Refusal> {
    let Ok(bytes) = <[u8; 20] as FromHex>::from_hex(digits) else {
        return Err(Refusal::BadLine);
    };
    out.add_bytes(&to_base32(&bytes));
    Ok(())
}

/// The bytes of digits of base 32, in base 16.
pub(crate) fn digits(text: &[u8], out: &mut Answer) -> Result<(), Refusal> {
    out.add_digits(&from_base32(text)?);
    Ok(())
}

/// A hash part.
pub(crate) fn hash_part(text: &[u8], out: &mut Answer) -> Result<(), Refusal> {
    out.add(&HashPart::read(text)?);
    Ok(())
}

/// A name.
pub(crate) fn name(alloc: Global, text: &[u8], out: &mut Answer) -> Result<(), Refusal> {
    out.add(&Name::new(alloc, text)?.clone()?);
    Ok(())
}

/// A path, its hash part and its name.
pub(crate) fn store_path(alloc: Global, text: &[u8], out: &mut Answer) -> Result<(), Refusal> {
    let path = read_path(alloc, text)?;
    out.add(&path);
    out.add(&path.hash_part());
    out.add_bytes(path.name());
    Ok(())
}

/// `KIND DIGEST NAME PATH..`: the path that is made of a kind with these references, of a digest in
/// base 16 and of a name.
pub(crate) fn made(alloc: Global, words: &str, out: &mut Answer) -> Result<(), Refusal> {
    let (kind, rest) = cut(words);
    let (digest, rest) = cut(rest);
    let (name, rest) = cut(rest);
    let Ok(digest) = <[u8; 32] as FromHex>::from_hex(digest) else {
        return Err(Refusal::BadLine);
    };
    let references = paths_of(alloc, rest)?;
    tell_made(alloc, &kind_of(kind, &references)?, &digest, name, out)
}

/// Adds the path of a kind, of a digest and of a name.
fn tell_made(
    alloc: Global,
    kind: &Kind,
    digest: &[u8; 32],
    name: &str,
    out: &mut Answer,
) -> Result<(), Refusal> {
    let name = Name::new(alloc, name.as_bytes())?;
    out.add(&make_path(alloc, kind, digest, &name)?);
    Ok(())
}

/// The paths of words.
pub(crate) fn paths_of(alloc: Global, words: &str) -> Result<Vec<StorePath>, Refusal> {
    let mut paths = Vec::new(alloc);
    for word in words.split_whitespace() {
        paths.push(read_path(alloc, word.as_bytes())?)?;
    }
    Ok(paths)
}

/// The kind of a word, with these references.
fn kind_of<'a>(word: &str, references: &'a [StorePath]) -> Result<Kind<'a>, Refusal> {
    match word {
        "source" => Ok(Kind::Source),
        "derivation" => Ok(Kind::DerivationFile(references)),
        "class" => Ok(Kind::OutputClass),
        "scratch" => Ok(Kind::Scratch),
        "output" => Ok(Kind::Output {
            references,
            itself: false,
        }),
        "output-itself" => Ok(Kind::Output {
            references,
            itself: true,
        }),
        _ => Err(Refusal::BadLine),
    }
}

/// `PATH PATH`: how the first path stands to the second, and its hash part to that of the second.
pub(crate) fn compared(alloc: Global, paths: &str, out: &mut Answer) -> Result<(), Refusal> {
    let (first, second) = cut(paths);
    let first = read_path(alloc, first.as_bytes())?;
    let second = read_path(alloc, second.as_bytes())?;
    out.add_text(order(&first, &second));
    out.add_text(order(&first.hash_part(), &second.hash_part()));
    Ok(())
}

/// How a value stands to another.
fn order<T: Ord>(first: &T, second: &T) -> &'static str {
    let is_less = first < second;
    let is_same = first == second;
    let is_another = first != second;
    let is_greater = first > second;
    match first.cmp(second) {
        Ordering::Less if is_less && is_another => "less",
        Ordering::Equal if is_same => "equal",
        Ordering::Greater if is_greater && is_another => "greater",
        _ => "unordered",
    }
}
