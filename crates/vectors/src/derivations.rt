//! Derivations and their texts.

use crate::answer::Answer;
use crate::lines::cut;
use aterm::{Derivation, Parts, Text, parse, print, print_with_inputs};
use model::Refusal;
use std::alloc::Global;
use storepath::read_path;

/// What a call gives for the derivation of a text: its text, its text with `x` in place of its inputs, or
/// its parts.
pub(crate) fn of_text(
    alloc: Global,
    call: &str,
    text: &[u8],
    out: &mut Answer,
) -> Result<(), Refusal> {
    answer(alloc, call, &parse(alloc, text)?, out)
}

/// Adds what a call gives for a derivation.
fn answer(
    alloc: Global,
    call: &str,
    derivation: &Derivation,
    out: &mut Answer,
) -> Result<(), Refusal> {
    match call {
        "derivation" => tell(alloc, derivation, out),
        "masked" => tell_masked(alloc, derivation, out),
        "parts" => tell_parts(derivation, out),
        _ => Err(Refusal::BadLine),
    }
}

/// Adds the text of a derivation.
fn tell(alloc: Global, derivation: &Derivation, out: &mut Answer) -> Result<(), Refusal> {
    out.add_bytes(&print(alloc, derivation)?);
    Ok(())
}

/// Adds the text of a derivation, with `x` in place of its inputs.
fn tell_masked(alloc: Global, derivation: &Derivation, out: &mut Answer) -> Result<(), Refusal> {
    let inputs = one_mask(alloc)?;
    out.add_bytes(&print_with_inputs(alloc, derivation, &inputs)?);
    Ok(())
}

/// The one text `x`.
fn one_mask(alloc: Global) -> Result<Vec<Text>, Refusal> {
    let mask = Text::new(Vec::from_slice(alloc, b"x")?)?;
    Ok(vec![in alloc; mask]?)
}

/// `PATH PATH TEXT`: the text of the derivation of a text, with one input and one source more.
pub(crate) fn with_paths(alloc: Global, words: &str, out: &mut Answer) -> Result<(), Refusal> {
    let (input, rest) = cut(words);
    let (source, text) = cut(rest);
    let mut parts = parse(alloc, text.as_bytes())?.into_parts();
    add_paths(alloc, &mut parts, input, source)?;
    tell(alloc, &Derivation::new(parts)?, out)
}

/// Adds an input and a source to the parts of a derivation.
fn add_paths(alloc: Global, parts: &mut Parts, input: &str, source: &str) -> Result<(), Refusal> {
    parts.inputs.push(read_path(alloc, input.as_bytes())?)?;
    parts.sources.push(read_path(alloc, source.as_bytes())?)?;
    Ok(())
}

/// Adds the name of a derivation, its inputs, its sources, its platform, its builder and its arguments,
/// these in base 16.
fn tell_parts(derivation: &Derivation, out: &mut Answer) -> Result<(), Refusal> {
    let parts = derivation.parts();
    out.add_bytes(derivation.name());
    out.add_list(&parts.inputs);
    out.add_list(&parts.sources);
    out.add_bytes(parts.platform.bytes());
    out.add_bytes(parts.builder.bytes());
    tell_arguments(&parts.arguments, out);
    Ok(())
}

/// Adds texts in base 16 in brackets, each with a comma behind it.
fn tell_arguments(texts: &[Text], out: &mut Answer) {
    out.add_text("[");
    for text in texts {
        out.put_digits(text.bytes());
        out.put_text(",");
    }
    out.put_text("]");
}
