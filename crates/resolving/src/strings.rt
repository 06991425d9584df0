//! The strings of a resolved derivation.

ghost use Rattle.std.specs.Prelude.{◌≡◌, map, false, MatchResult};
ghost use Rattle.std.specs.List.{list_any};
ghost use Rattle.model.specs.Substitutions.{put_text};
ghost use Rattle.model.specs.Resolutions.{is_crowded, images_for, put_variable, resolved_derivation};
ghost use Rattle.aterm.specs.Parts.{derivation_of};
ghost use Rattle.rewrite.specs.Strings.{IsOverlap};
ghost use Rattle.resolving.specs.Resolving.{is_variable_crowded, is_crowded_in, overlaps, ArePut};

use crate::served::{Served, images_for};
use crate::sources::sources_with;
use aterm::{Derivation, Parts, Text};
use model::Refusal;
use rewrite::Replacer;
use std::alloc::Global;

// A string with hash parts put anew.
fn put_text(alloc: Global, replacer: &Replacer, text: &Text) -> Result<Text, Refusal>
    ensures { let overlaps = is_crowded replacer.now text.now in MatchResult result
        (λ new. (overlaps ≡ false) × (new ≡ put_text replacer.now text.now))
        (IsOverlap overlaps) }
{
    let bytes = replacer.put_text(alloc, text.bytes())?;
    Ok(Text::new(bytes)?)
}

// Strings with hash parts put anew.
fn put_texts(alloc: Global, replacer: &Replacer, texts: &[Text]) -> Result<Vec<Text>, Refusal>
    ensures { let overlaps = list_any (is_crowded replacer.now) texts.now in MatchResult result
        (λ new. (overlaps ≡ false) × (new.items ≡ map (put_text replacer.now) texts.now))
        (IsOverlap overlaps) }
{
    let mut new = Vec::new(alloc);
    for text in texts {
        new.push(put_text(alloc, replacer, text)?)?;
    }
    Ok(new)
}

// A variable with hash parts put anew in its value; that of `name` stays.
fn put_variable(
    alloc: Global,
    replacer: &Replacer,
    key: &Text,
    value: &Text,
) -> Result<(Text, Text), Refusal>
    ensures { let overlaps = is_variable_crowded replacer.now (key.now, value.now) in
        MatchResult result
        (λ new. (overlaps ≡ false) × (new ≡ put_variable replacer.now (key.now, value.now)))
        (IsOverlap overlaps) }
{
    if key.bytes() == b"name".as_slice() {
        return Ok((key.clone()?, value.clone()?));
    }
    let new_value = put_text(alloc, replacer, value)?;
    Ok((key.clone()?, new_value))
}

// Variables with hash parts put anew in their values.
fn put_variables(
    alloc: Global,
    replacer: &Replacer,
    environment: &[(Text, Text)],
) -> Result<Vec<(Text, Text)>, Refusal>
    ensures { let overlaps = list_any (is_variable_crowded replacer.now) environment.now in
        MatchResult result
        (λ new. (overlaps ≡ false) × (new.items ≡ map (put_variable replacer.now) environment.now))
        (IsOverlap overlaps) }
{
    let mut new = Vec::new(alloc);
    for (key, value) in environment {
        new.push(put_variable(alloc, replacer, key, value)?)?;
    }
    Ok(new)
}

/// The builder, the arguments and the variables of parts, with hash parts put anew.
fn put_strings(
    alloc: Global,
    replacer: &Replacer,
    parts: &Parts,
) -> Result<(Text, Vec<Text>, Vec<(Text, Text)>), Refusal>
    ensures { let overlaps = is_crowded_in replacer.now (derivation_of parts.now) in
        MatchResult result
        (λ new. (overlaps ≡ false)
        × ArePut replacer.now (derivation_of parts.now) new.0 new.1.items new.2.items)
        (IsOverlap overlaps) }
{
    let builder = put_text(alloc, replacer, &parts.builder)?;
    let arguments = put_texts(alloc, replacer, &parts.arguments)?;
    let environment = put_variables(alloc, replacer, &parts.environment)?;
    Ok((builder, arguments, environment))
}

/// The builder, the arguments and the variables of parts, in which the paths that serve classes
/// stand.
fn served_strings(
    alloc: Global,
    parts: &Parts,
    served: &[Served],
) -> Result<(Text, Vec<Text>, Vec<(Text, Text)>), Refusal>
    ensures { let overlaps = is_crowded_in (images_for served.now) (derivation_of parts.now) in
        MatchResult result
        (λ new. (overlaps ≡ false)
        × ArePut (images_for served.now) (derivation_of parts.now) new.0 new.1.items new.2.items)
        (IsOverlap overlaps) }
{
    let replacer = Replacer::new(alloc, images_for(alloc, served)?)?;
    put_strings(alloc, &replacer, parts)
}

/// What a derivation is made of without inputs: the paths that serve their classes are among its
/// sources, and stand in its strings.
///
/// # Errors
///
/// - `RewriteRefused` with `Overlap` exactly where the hash parts of two classes share bytes in one
///   string, that is in the builder, an argument, or the value of a variable other than `name`.
/// - `Memory` only where memory was refused; it may stand in the place of each answer.
pub(crate) fn resolved_parts(
    alloc: Global,
    derivation: &Derivation,
    served: &[Served],
) -> Result<Parts, Refusal>
    ensures { let overlaps = overlaps served.now derivation.now in MatchResult result
        (λ parts. (overlaps ≡ false)
        × (derivation_of parts ≡ resolved_derivation served.now derivation.now))
        (IsOverlap overlaps) }
{
    let parts = derivation.parts();
    let sources = sources_with(alloc, &parts.sources, served)?;
    let platform = parts.platform.clone()?;
    let (builder, arguments, environment) = served_strings(alloc, parts, served)?;
    Ok(Parts {
        inputs: Vec::new(alloc),
        sources,
        platform,
        builder,
        arguments,
        environment,
    })
}
