//! Derivations.

ghost use Rattle.std.specs.Prelude.{◌≡◌, MatchResult, All, IsTrue, is_ok, true, [], option_copied};
ghost use Rattle.std.specs.List.{list_all};
ghost use Rattle.model.specs.Archives.{bytes_before};
ghost use Rattle.model.specs.Paths.{IsPath, is_name};
ghost use Rattle.model.specs.Derivations.{is_text, is_variable, has_texts, ascend, is_derivation_path, has_sound_paths, has_sound_builder, is_key_character, is_key, variable_keys, value_of, is_derivation_name, is_there, has_sound_environment, is_derivation, IsDerivation, name_of};
ghost use Rattle.model.specs.Characters.{is_digit};
ghost use Rattle.model.specs.declared.refusal.Refusal.TheVariants.{BadDerivation};
ghost use Rattle.aterm.specs.Parts.{derivation_of};

use crate::text::{Text, is_text};
use model::{LONGEST_KEY, Refusal};
use std::marker::Model;
use storepath::{StorePath, is_name};

/// What a derivation is made of.
pub struct Parts {
    /// The derivation files whose outputs it uses.
    pub inputs: Vec<StorePath>,
    /// The sources that it uses.
    pub sources: Vec<StorePath>,
    /// The machine that it is built on.
    pub platform: Text,
    /// The program that builds it.
    pub builder: Text,
    /// What the program is given.
    pub arguments: Vec<Text>,
    /// The program's variables, each with its key and its value.
    pub environment: Vec<(Text, Text)>,
}

impl Drop for Parts {
    fn drop(self) {
        let Parts {
            inputs: _,
            sources: _,
            platform: _,
            builder: _,
            arguments: _,
            environment: _,
        } = self;
    }
}

/// A derivation of one output, `out`, that has a text.
pub struct Derivation {
    parts: Parts,
}

impl Drop for Derivation {
    fn drop(self) {
        let Derivation { parts: _ } = self;
    }
}

impl Model for Derivation {
    ghost use Rattle.model.specs.Derivations.{Derivation as DerivationValue, IsDerivation};
    ghost use Rattle.aterm.specs.Parts.{derivation_of};

    ghost Value = { DerivationValue };

    ghost view = { λ a. derivation_of a.parts };

    ghost invariant = { λ a. IsDerivation (derivation_of a.parts) };
}

impl Derivation {
    /// The derivation of these parts. It takes no memory.
    ///
    /// # Errors
    ///
    /// - `BadDerivation` exactly where they are no derivation's. Of one, inputs, sources and keys
    ///   ascend strictly by bytes; the inputs end in `.drv`; strings have bytes 32 to 126, tabs,
    ///   newlines and carriage returns; the platform and the builder have at most 255 bytes, the
    ///   builder at least one; a key has 1 to 64 ASCII letters, digits and `_`, no digit first, and
    ///   is not `INPUTS`; there is a `name`, a name of at most 207 bytes, and an `out`, which is
    ///   empty.
    pub fn new(parts: Parts) -> Result<Derivation, Refusal>
        ensures derivation { let d = derivation_of parts in MatchResult result
            (λ r. (r ≡ d) × IsDerivation d)
            (λ e. (e ≡ BadDerivation) × (IsDerivation d → ⊥)) }
        ensures test { is_ok result ≡ is_derivation (derivation_of parts) }
    {
        if has_texts(&parts)
            && has_sound_paths(&parts)
            && has_sound_builder(&parts)
            && has_sound_environment(&parts.environment)
        {
            Ok(Derivation { parts })
        } else {
            Err(Refusal::BadDerivation)
        }
    }

    /// The parts.
    pub fn parts(&self) -> &Parts
        ensures parts { derivation_of result.now ≡ self.now }
        ensures derivation { IsDerivation self.now }
        ensures passes { is_derivation self.now ≡ true }
    {
        &self.parts
    }

    /// The parts, to make another derivation of.
    pub fn into_parts(self) -> Parts
        ensures { derivation_of result ≡ self }
    {
        let Derivation { parts } = self;
        parts
    }

    /// The value of `name`: a name that has room for `.drv` behind it.
    pub fn name(&self) -> &[u8]
        ensures name { result.now ≡ name_of self.now }
        ensures named { is_derivation_name result.now ≡ true }
    {
        value_of(&self.parts.environment, b"name").unwrap_or(b"")
    }
}

fn has_texts(parts: &Parts) -> bool
    ensures { result ≡ has_texts (derivation_of parts.now) }
{
    is_text(parts.platform.bytes())
        && is_text(parts.builder.bytes())
        && are_texts(&parts.arguments)
        && are_variables(&parts.environment)
}

fn are_texts(texts: &[Text]) -> bool
    ensures { result ≡ list_all is_text texts.now }
{
    texts.iter().all(|text| is_text(text.bytes()))
}

fn are_variables(environment: &[(Text, Text)]) -> bool
    ensures { result ≡ list_all is_variable environment.now }
{
    environment.iter().all(|(key, value)| is_text(key.bytes()) && is_text(value.bytes()))
}

fn comes_before(first: &[u8], second: &[u8]) -> bool
    ensures { result ≡ bytes_before first.now second.now }
{
    first.cmp(second).is_lt()
}

// Whether the paths stand in the order of bytes, each once.
fn ascend(paths: &[StorePath]) -> bool
    ensures order { result ≡ ascend [] paths.now }
    ensures paths { IsTrue result → All IsPath paths.now }
{
    let mut last = b"".as_slice();
    for path in paths {
        if !comes_before(last, path.bytes()) {
            return false;
        }
        last = path.bytes();
    }
    true
}

fn are_derivation_paths(paths: &[StorePath]) -> bool
    ensures { result ≡ list_all is_derivation_path paths.now }
{
    paths.iter().all(|path| path.bytes().ends_with(b".drv"))
}

fn has_sound_paths(parts: &Parts) -> bool
    ensures sound { result ≡ has_sound_paths (derivation_of parts.now) }
    ensures paths { IsTrue result
        → All IsPath parts.now.inputs.items × All IsPath parts.now.sources.items }
{
    are_derivation_paths(&parts.inputs) && ascend(&parts.inputs) && ascend(&parts.sources)
}

fn has_sound_builder(parts: &Parts) -> bool
    ensures { result ≡ has_sound_builder (derivation_of parts.now) }
{
    let platform = parts.platform.bytes();
    let builder = parts.builder.bytes();
    platform.len() <= 255 && !builder.is_empty() && builder.len() <= 255
}

// Whether a text is the key of a variable.
#[tactic(auto, unfolding(model::specs::Derivations::is_key))]
fn is_key(key: &[u8]) -> bool
    ensures { result ≡ is_key key.now }
{
    if key.is_empty() || key.len() > LONGEST_KEY || key[0].is_ascii_digit() {
        return false;
    }
    has_key_characters(key) && key != b"INPUTS".as_slice()
}

fn has_key_characters(key: &[u8]) -> bool
    ensures { result ≡ list_all is_key_character key.now }
{
    key.iter()
        .all(|byte| byte.is_ascii_alphanumeric() || *byte == b'_')
}

fn are_keys(environment: &[(Text, Text)]) -> bool
    ensures { result ≡ list_all (λ v. is_key v.0) environment.now }
{
    environment.iter().all(|(key, _)| is_key(key.bytes()))
}

// Whether the keys stand in the order of bytes, each once.
fn keys_ascend(environment: &[(Text, Text)]) -> bool
    ensures { result ≡ ascend [] (variable_keys environment.now) }
{
    let mut last = b"".as_slice();
    for (key, _) in environment {
        if !comes_before(last, key.bytes()) {
            return false;
        }
        last = key.bytes();
    }
    true
}

fn value_of<'a>(environment: &'a [(Text, Text)], sought: &[u8]) -> Option<&'a [u8]>
    ensures { option_copied result ≡ value_of sought.now environment.now }
{
    for (key, value) in environment {
        if key.bytes() == sought {
            return Some(value.bytes());
        }
    }
    None
}

fn has_sound_environment(environment: &[(Text, Text)]) -> bool
    ensures { result ≡ has_sound_environment environment.now }
{
    are_keys(environment)
        && keys_ascend(environment)
        && value_of(environment, b"name").is_some_and(|name| is_name(name) && name.len() <= 207)
        && value_of(environment, b"out").is_some_and(|value| value.is_empty())
}
