//! Reading a derivation's text.

ghost use Rattle.std.specs.Prelude.{◌≡◌, IfOk, MatchResult, Some};
ghost use Rattle.std.specs.List.{position};
ghost use Rattle.model.specs.Derivations.{derivation_text, IsDerivation, IsOnlyDerivation};
ghost use Rattle.model.specs.DerivationTexts.{tag_at, escaped_at, quoted_at, member_at, members_at, variable_at, variables_at, derivation_at, derivation_of_text};
ghost use Rattle.aterm.specs.Parts.{derivation_of};
ghost use Rattle.aterm.specs.Runs.{ends_run};
ghost use Rattle.aterm.specs.Strings.{derivation_read};
ghost use Rattle.aterm.specs.Refused.{AreNoPaths, HasNoPaths, IsRefused, IsNotRead, IsUnread};
ghost use Rattle.model.specs.ReadOutcomes.{Gives};

use crate::derivation::{Derivation, Parts};
use crate::text::Text;
use model::{ReadError, Refusal};
use std::alloc::Global;
use storepath::{StorePath, read_path};

// What stands before the first input.
const HEAD: &[u8] = b"Derive([(\"out\",\"\",\"\",\"\")],[";

// What follows this tag.
#[tactic(auto, unfolding(model::specs::DerivationTexts::tag_at))]
fn expect<'a>(bytes: &'a [u8], tag: &[u8]) -> Result<&'a [u8], ReadError>
    ensures { Gives (λ r. r.now) result (tag_at tag.now bytes.now) }
{
    match bytes.strip_prefix(tag) {
        Some(rest) => Ok(rest),
        None => Err(ReadError::Malformed),
    }
}

// The character that the letter behind a backslash stands for, and what follows it.
#[tactic(auto, unfolding(model::specs::DerivationTexts::escaped_at))]
fn read_escaped(bytes: &[u8]) -> Result<(u8, &[u8]), ReadError>
    ensures { Gives (λ r. (r.0, r.1.now)) result (escaped_at bytes.now) }
{
    let Some((letter, rest)) = bytes.split_first() else {
        return Err(ReadError::Malformed);
    };
    match *letter {
        b'"' | b'\\' => Ok((*letter, rest)),
        b'n' => Ok((b'\n', rest)),
        b'r' => Ok((b'\r', rest)),
        b't' => Ok((b'\t', rest)),
        _ => Err(ReadError::Malformed),
    }
}

// Where the first byte stands that does not stand for itself in a string.
fn run_end(bytes: &[u8]) -> Option<usize>
    ensures { result ≡ position ends_run bytes.now }
{
    bytes.iter().position(|byte| matches!(*byte, b'"' | b'\\') || !matches!(*byte, 32..=126))
}

// The string behind this tag. The characters between two escapes are taken at once.
#[tactic(auto, unfolding(model::specs::DerivationTexts::quoted_at))]
fn read_string<'a>(
    alloc: Global,
    bytes: &'a [u8],
    tag: &[u8],
) -> Result<(Text, &'a [u8]), ReadError>
    ensures { Gives (λ r. (r.0, r.1.now)) result (quoted_at tag.now bytes.now) }
{
    let mut rest = expect(bytes, tag)?;
    let mut characters = Vec::new(alloc);
    while let Some(at) = run_end(rest) {
        let (run, behind) = rest.split_at(at);
        characters.extend_from_slice(run)?;
        if let Some(after) = behind.strip_prefix(b"\"".as_slice()) {
            let text = Text::new(characters)?;
            return Ok((text, after));
        }
        let letters = expect(behind, b"\\")?;
        let (character, after) = read_escaped(letters)?;
        characters.push(character)?;
        rest = after;
    }
    Err(ReadError::Malformed)
}

// A string between two tags, behind a separator.
#[tactic(auto, unfolding(model::specs::DerivationTexts::member_at))]
fn read_member<'a>(
    alloc: Global,
    bytes: &'a [u8],
    separator: &[u8],
    opening: &[u8],
    closing: &[u8],
) -> Result<(Text, &'a [u8]), ReadError>
    ensures { Gives (λ r. (r.0, r.1.now)) result
        (member_at opening.now closing.now separator.now bytes.now) }
{
    let rest = expect(bytes, separator)?;
    let (text, rest) = read_string(alloc, rest, opening)?;
    let rest = expect(rest, closing)?;
    Ok((text, rest))
}

// Strings, each between two tags, behind a tag that ends with the opening bracket.
#[tactic(auto, unfolding(model::specs::DerivationTexts::members_at))]
fn read_members<'a>(
    alloc: Global,
    bytes: &'a [u8],
    tag: &[u8],
    opening: &[u8],
    closing: &[u8],
) -> Result<(Vec<Text>, &'a [u8]), ReadError>
    ensures { Gives (λ r. (r.0.items, r.1.now)) result
        (members_at tag.now opening.now closing.now bytes.now) }
{
    let mut rest = expect(bytes, tag)?;
    let mut separator = b"".as_slice();
    let mut members = Vec::new(alloc);
    for _ in 0..rest.len() {
        if let Some(after) = rest.strip_prefix(b"]".as_slice()) {
            return Ok((members, after));
        }
        let (member, after) = read_member(alloc, rest, separator, opening, closing)?;
        members.push(member)?;
        separator = b",".as_slice();
        rest = after;
    }
    Err(ReadError::Malformed)
}

// A variable's key and value, behind a separator.
#[tactic(auto, unfolding(model::specs::DerivationTexts::variable_at))]
fn read_variable<'a>(
    alloc: Global,
    bytes: &'a [u8],
    separator: &[u8],
) -> Result<((Text, Text), &'a [u8]), ReadError>
    ensures { Gives (λ r. ((r.0.0, r.0.1), r.1.now)) result (variable_at separator.now bytes.now) }
{
    let rest = expect(bytes, separator)?;
    let (key, rest) = read_string(alloc, rest, b"(\"")?;
    let (value, rest) = read_string(alloc, rest, b",\"")?;
    let rest = expect(rest, b")")?;
    Ok(((key, value), rest))
}

// Variables, behind a tag that ends with the opening bracket.
#[tactic(auto, unfolding(model::specs::DerivationTexts::variables_at))]
fn read_variables<'a>(
    alloc: Global,
    bytes: &'a [u8],
    tag: &[u8],
) -> Result<(Vec<(Text, Text)>, &'a [u8]), ReadError>
    ensures { Gives (λ r. (r.0.items, r.1.now)) result (variables_at tag.now bytes.now) }
{
    let mut rest = expect(bytes, tag)?;
    let mut separator = b"".as_slice();
    let mut variables = Vec::new(alloc);
    for _ in 0..rest.len() {
        if let Some(after) = rest.strip_prefix(b"]".as_slice()) {
            return Ok((variables, after));
        }
        let (variable, after) = read_variable(alloc, rest, separator)?;
        variables.push(variable)?;
        separator = b",".as_slice();
        rest = after;
    }
    Err(ReadError::Malformed)
}

// The strings of a derivation, its paths among them.
#[derive(Drop)]
struct Strings {
    inputs: Vec<Text>,
    sources: Vec<Text>,
    platform: Text,
    builder: Text,
    arguments: Vec<Text>,
    environment: Vec<(Text, Text)>,
}

// The strings of a whole text.
#[tactic(auto, unfolding(model::specs::DerivationTexts::derivation_at))]
fn read_strings(alloc: Global, text: &[u8]) -> Result<Strings, ReadError>
    ensures { Gives derivation_read result (derivation_at text.now) }
{
    let (inputs, rest) = read_members(alloc, text, HEAD, b"(\"", b",[\"out\"])")?;
    let (sources, rest) = read_members(alloc, rest, b",[", b"\"", b"")?;
    let (platform, rest) = read_string(alloc, rest, b",\"")?;
    let (builder, rest) = read_string(alloc, rest, b",\"")?;
    let (arguments, rest) = read_members(alloc, rest, b",[", b"\"", b"")?;
    let (environment, rest) = read_variables(alloc, rest, b",[")?;
    if rest != b")".as_slice() {
        return Err(ReadError::Malformed);
    }
    Ok(Strings {
        inputs,
        sources,
        platform,
        builder,
        arguments,
        environment,
    })
}

// The paths of these texts.
fn read_paths(alloc: Global, texts: &[Text]) -> Result<Vec<StorePath>, ReadError>
    ensures { MatchResult result (λ paths. paths.items ≡ texts.now) (AreNoPaths texts.now) }
{
    let mut paths = Vec::new(alloc);
    for text in texts {
        match read_path(alloc, text.bytes()) {
            Ok(path) => paths.push(path)?,
            Err(Refusal::BadPath) => return Err(ReadError::Malformed),
            Err(_) => return Err(ReadError::Memory),
        }
    }
    Ok(paths)
}

// The parts that these strings stand for.
fn read_parts(alloc: Global, strings: Strings) -> Result<Parts, ReadError>
    ensures { MatchResult result
        (λ parts. derivation_of parts ≡ derivation_read strings)
        (HasNoPaths (derivation_read strings)) }
{
    let inputs = read_paths(alloc, &strings.inputs)?;
    let sources = read_paths(alloc, &strings.sources)?;
    Ok(Parts {
        inputs,
        sources,
        platform: strings.platform,
        builder: strings.builder,
        arguments: strings.arguments,
        environment: strings.environment,
    })
}

// The parts of the derivation of a whole text.
fn read_text(alloc: Global, text: &[u8]) -> Result<Parts, ReadError>
    ensures { MatchResult result
        (λ parts. derivation_at text.now ≡ Some (derivation_of parts))
        (IsUnread text.now) }
{
    let strings = read_strings(alloc, text)?;
    read_parts(alloc, strings)
}

/// The derivation of a text. There is at most one.
///
/// # Errors
///
/// - `BadDerivation` exactly where no derivation has the text, unless memory was refused before that
///   was found.
/// - `Memory` only where memory was refused.
pub fn parse(alloc: Global, text: &[u8]) -> Result<Derivation, Refusal>
    ensures read { MatchResult result
        (λ d. IsDerivation d × (derivation_text d ≡ text.now))
        (IsRefused text.now) }
    ensures only { IfOk result (IsOnlyDerivation text.now) }
    ensures same { MatchResult result
        (λ d. derivation_of_text text.now ≡ Some d)
        (IsNotRead text.now) }
{
    match read_text(alloc, text) {
        Ok(parts) => Derivation::new(parts),
        Err(ReadError::Malformed) => Err(Refusal::BadDerivation),
        Err(ReadError::Memory) => Err(Refusal::Memory),
    }
}
