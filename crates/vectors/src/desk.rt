//! What a desk knows.

use crate::answer::Answer;
use aterm::{Text, parse};
use classes::{AdmissionInput, Admissions, Admitted, Known, path_of_text};
use model::Refusal;
use std::alloc::Global;
use storepath::{StorePath, read_path};

/// A desk that knows nothing.
pub(crate) fn begin(alloc: Global, known: &mut Known, out: &mut Answer) -> Result<(), Refusal> {
    *known = Known::new(alloc);
    out.add_text("desk");
    Ok(())
}

/// Adds a source that the desk does not know yet, and prints how many it knows.
pub(crate) fn add_source(
    alloc: Global,
    known: &mut Known,
    path: &str,
    out: &mut Answer,
) -> Result<(), Refusal> {
    let path = read_path(alloc, path.as_bytes())?;
    if known.has_source(&path) {
        return Err(Refusal::BadLine);
    }
    known.add_sources(alloc, Vec::from_array(alloc, [path])?)?;
    out.add(&known.source_count());
    out.add_text("sources");
    Ok(())
}

/// Admits a derivation that the desk does not know yet and adds it. Prints the path of its file, its class,
/// its rank and the digest of its masked text.
pub(crate) fn admit(
    alloc: Global,
    known: &mut Known,
    text: &str,
    out: &mut Answer,
) -> Result<(), Refusal> {
    let text = Text::new(Vec::from_slice(alloc, text.as_bytes())?)?;
    let derivation = parse(alloc, text.bytes())?;
    let path = path_of_text(alloc, &derivation, text.bytes())?;
    let input = AdmissionInput::new(alloc, &text, derivation, known)?;
    let admitted = Admissions::none(alloc).add(alloc, path.clone()?, input)?;
    add_derivation(known, admitted)?;
    tell(known, &path, out)
}

/// Adds a derivation that the desk does not know yet.
fn add_derivation(known: &mut Known, admitted: Admitted) -> Result<(), Refusal> {
    if known.derivation(admitted.path()).is_some() {
        return Err(Refusal::BadLine);
    }
    known.add_derivation(admitted)
}

/// Adds the path of a derivation's file, and the class, the rank and the digest of the masked text that
/// the desk knows of it.
fn tell(known: &Known, path: &StorePath, out: &mut Answer) -> Result<(), Refusal> {
    let Some(found) = known.derivation(path) else {
        return Err(Refusal::BadLine);
    };
    out.add(found.path());
    out.add(found.class().path());
    out.add(&found.class().rank());
    out.add_digits(found.masked());
    Ok(())
}
