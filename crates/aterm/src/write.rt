//! Writing a derivation's text.

ghost use Rattle.std.specs.Prelude.{◌≡◌, ◌++◌, MatchResult, OnOk, [], map, codes};
ghost use Rattle.std.specs.List.{position};
ghost use Rattle.model.specs.Derivations.{character_text, quoted, listed, variable_text, derivation_text};
ghost use Rattle.model.specs.declared.refusal.Refusal.TheVariants.{Memory};
ghost use Rattle.aterm.specs.Parts.{derivation_of};
ghost use Rattle.aterm.specs.Runs.{may_have_escape};
ghost use Rattle.aterm.specs.Writing.{between, members, rest_text};

use crate::derivation::{Derivation, Parts};
use crate::text::Text;
use model::Refusal;
use std::alloc::{AllocError, Global};
use storepath::StorePath;

// Room for a short text, which most are.
const SHORT_TEXT: usize = 512;

// What stands before the inputs.
const HEAD: &[u8] = b"Derive([(\"out\",\"\",\"\",\"\")],[";

// What stands before and behind an input's path.
const BEFORE_INPUT: &[u8] = b"(";

const BEHIND_INPUT: &[u8] = b",[\"out\"])";

#[tactic(auto, unfolding(model::specs::Derivations::character_text))]
fn put_character(out: &mut Vec<u8>, byte: u8) -> Result<(), AllocError>
    ensures { OnOk result (out.new.items ≡ out.old.items ++ character_text byte) }
{
    match byte {
        b'"' => out.extend_from_slice(b"\\\""),
        b'\\' => out.extend_from_slice(b"\\\\"),
        b'\n' => out.extend_from_slice(b"\\n"),
        b'\r' => out.extend_from_slice(b"\\r"),
        b'\t' => out.extend_from_slice(b"\\t"),
        _ => out.extend_from_slice(&[byte]),
    }
}

// Where the first byte stands that may have an escape. To a byte behind the quote, such as a letter, it
// takes two comparisons.
fn next_escape(text: &[u8]) -> Option<usize>
    ensures { result ≡ position may_have_escape text.now }
{
    text.iter()
        .position(|byte| matches!(*byte, 0..=b'"' | b'\\'))
}

// A string, in quotes. The bytes between two escapes are put at once.
fn put_string(out: &mut Vec<u8>, text: &[u8]) -> Result<(), AllocError>
    ensures { OnOk result (out.new.items ≡ out.old.items ++ quoted text.now) }
{
    let mut rest = text;
    out.extend_from_slice(b"\"")?;
    while let Some(at) = next_escape(rest) {
        out.extend_from_slice(&rest[..at])?;
        put_character(out, rest[at])?;
        rest = &rest[at + 1..];
    }
    out.extend_from_slice(rest)?;
    out.extend_from_slice(b"\"")
}

// A string between two tags, behind a separator.
fn put_member(
    out: &mut Vec<u8>,
    separator: &[u8],
    opening: &[u8],
    text: &[u8],
    closing: &[u8],
) -> Result<(), AllocError>
    ensures { OnOk result (out.new.items
        ≡ out.old.items ++ separator.now ++ between opening.now closing.now text.now) }
{
    out.extend_from_slice(separator)?;
    out.extend_from_slice(opening)?;
    put_string(out, text)?;
    out.extend_from_slice(closing)
}

// A list of paths, each between two tags, behind a head that ends in the list's bracket.
#[tactic(auto, unfolding(model::specs::Derivations::listed))]
fn put_paths(
    out: &mut Vec<u8>,
    head: &[u8],
    opening: &[u8],
    paths: &[StorePath],
    closing: &[u8],
) -> Result<(), AllocError>
    ensures { OnOk result (out.new.items
        ≡ out.old.items ++ head.now ++ members opening.now closing.now paths.now) }
{
    let mut separator = b"".as_slice();
    out.extend_from_slice(head)?;
    for path in paths {
        put_member(out, separator, opening, path.bytes(), closing)?;
        separator = b",";
    }
    out.extend_from_slice(b"]")
}

// A list of strings, each between two tags, behind a head that ends in the list's bracket.
#[tactic(auto, unfolding(model::specs::Derivations::listed))]
fn put_texts(
    out: &mut Vec<u8>,
    head: &[u8],
    opening: &[u8],
    texts: &[Text],
    closing: &[u8],
) -> Result<(), AllocError>
    ensures { OnOk result (out.new.items
        ≡ out.old.items ++ head.now ++ members opening.now closing.now texts.now) }
{
    let mut separator = b"".as_slice();
    out.extend_from_slice(head)?;
    for text in texts {
        put_member(out, separator, opening, text.bytes(), closing)?;
        separator = b",";
    }
    out.extend_from_slice(b"]")
}

// A variable, behind a separator.
#[tactic(auto, unfolding(model::specs::Derivations::variable_text))]
fn put_variable(
    out: &mut Vec<u8>,
    separator: &[u8],
    key: &[u8],
    value: &[u8],
) -> Result<(), AllocError>
    ensures { OnOk result (out.new.items
        ≡ out.old.items ++ separator.now ++ variable_text (key.now, value.now)) }
{
    put_member(out, separator, b"(", key, b",")?;
    put_member(out, b"", b"", value, b")")
}

// A list of variables, behind a head that ends in the list's bracket.
#[tactic(auto, unfolding(model::specs::Derivations::listed))]
fn put_variables(
    out: &mut Vec<u8>,
    head: &[u8],
    environment: &[(Text, Text)],
) -> Result<(), AllocError>
    ensures { OnOk result (out.new.items
        ≡ out.old.items ++ head.now ++ listed [] (map variable_text environment.now)) }
{
    let mut separator = b"".as_slice();
    out.extend_from_slice(head)?;
    for (key, value) in environment {
        put_variable(out, separator, key.bytes(), value.bytes())?;
        separator = b",";
    }
    out.extend_from_slice(b"]")
}

// What stands behind the inputs.
fn put_rest(out: &mut Vec<u8>, parts: &Parts) -> Result<(), AllocError>
    ensures { OnOk result (out.new.items
        ≡ out.old.items ++ rest_text (derivation_of parts.now)) }
{
    put_paths(out, b",[", b"", &parts.sources, b"")?;
    put_member(out, b",", b"", parts.platform.bytes(), b"")?;
    put_member(out, b",", b"", parts.builder.bytes(), b"")?;
    put_texts(out, b",[", b"", &parts.arguments, b"")?;
    put_variables(out, b",[", &parts.environment)?;
    out.extend_from_slice(b")")
}

/// The text of what a derivation is made of. Whether the store takes such a derivation is not asked.
///
/// # Errors
///
/// - `Memory` only where memory was refused.
pub fn print_parts(alloc: Global, parts: &Parts) -> Result<Vec<u8>, Refusal>
    ensures { MatchResult result
        (λ text. text.items ≡ derivation_text (derivation_of parts.now))
        (λ e. e ≡ Memory) }
{
    let mut out = Vec::with_capacity(alloc, SHORT_TEXT)?;
    put_paths(&mut out, HEAD, BEFORE_INPUT, &parts.inputs, BEHIND_INPUT)?;
    put_rest(&mut out, parts)?;
    Ok(out)
}

/// The text of a derivation.
///
/// # Errors
///
/// - `Memory` only where memory was refused.
pub fn print(alloc: Global, derivation: &Derivation) -> Result<Vec<u8>, Refusal>
    ensures { MatchResult result
        (λ text. text.items ≡ derivation_text derivation.now)
        (λ e. e ≡ Memory) }
{
    print_parts(alloc, derivation.parts())
}

/// The text of a derivation with other strings in place of its inputs' paths.
///
/// # Errors
///
/// - `Memory` only where memory was refused.
pub fn print_with_inputs(
    alloc: Global,
    derivation: &Derivation,
    inputs: &[Text],
) -> Result<Vec<u8>, Refusal>
    ensures { MatchResult result
        (λ text. text.items ≡ derivation_text (record derivation.now { inputs = inputs.now }))
        (λ e. e ≡ Memory) }
{
    let parts = derivation.parts();
    let mut out = Vec::with_capacity(alloc, SHORT_TEXT)?;
    put_texts(&mut out, HEAD, BEFORE_INPUT, inputs, BEHIND_INPUT)?;
    put_rest(&mut out, parts)?;
    Ok(out)
}
