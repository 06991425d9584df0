//! What a derivation is admitted by.

ghost use Rattle.std.specs.Prelude.{◌≡◌, ◌≤◌, ◌+◌, ◌⊎◌, IfOk, IfErr, MatchResult, map, Ok, Err, false};
ghost use Rattle.hex.specs.Hex.{encode_lower};
ghost use Rattle.sha2.specs.Sha256.{sha256};
ghost use Rattle.classes.specs.Inputs.{has_inputs};
ghost use Rattle.classes.specs.Admitting.{mask_in, rank_in, text_with_masks, admission_by, has_sources, AreInputs, HasInputs, IsReadFrom, IsInput, made_by};
ghost use Rattle.model.specs.Paths.{OutputClass, store_path};
ghost use Rattle.model.specs.Derivations.{name_of};
ghost use Rattle.model.specs.Classes.{greatest, derivation_path, admit};
ghost use Rattle.model.specs.declared.refusal.Refusal.TheVariants.{MissingInput, Memory};
ghost use Rattle.model.specs.Limits.{greatest_rank};

use crate::admitted::Admitted;
use crate::admitted_text::AdmittedText;
use crate::known::Known;
use aterm::{Derivation, Text, print_with_inputs};
use hashmod::sha256;
use model::{GREATEST_RANK, Refusal};
use std::alloc::{AllocError, Global};
use std::marker::Model;
use storepath::{Class, Kind, Name, StorePath, make_path};

// The digest of an input's masked text, in base 16.
fn mask(alloc: Global, input: &Admitted) -> Result<Text, AllocError>
    ensures { IfOk result (λ mask. mask ≡ encode_lower input.now.masked) }
{
    let digits = hex::encode(alloc, input.masked().as_slice())?;
    Text::new(digits.into_bytes())
}

// The digests of the inputs' masked texts, in base 16, in the order of the inputs.
fn masks_of(alloc: Global, inputs: &[Admitted]) -> Result<Vec<Text>, AllocError>
    ensures { IfOk result (λ masks. masks.items ≡ map mask_in inputs.now) }
{
    let mut masks = Vec::with_capacity(alloc, inputs.len())?;
    for input in inputs {
        masks.push(mask(alloc, input)?)?;
    }
    Ok(masks)
}

// The greatest rank of the inputs, 0 with none.
fn greatest_of(inputs: &[Admitted]) -> u8
    ensures greatest { result ≡ greatest (map rank_in inputs.now) }
    ensures most { result ≤ greatest_rank }
{
    let mut greatest = 0;
    for input in inputs {
        greatest = greatest.max(input.class().rank());
    }
    greatest
}

// Whether all of the sources are known.
pub(crate) fn has_sources(known: &Known, sources: &[StorePath]) -> bool
    ensures { result ≡ has_sources known.now sources.now }
{
    for path in sources {
        if !known.has_source(path) {
            return false;
        }
    }
    true
}

// The derivations of these paths, as a desk knows them.
fn known_inputs(alloc: Global, known: &Known, paths: &[StorePath]) -> Result<Vec<Admitted>, Refusal>
    ensures { MatchResult result
        (λ inputs. AreInputs known.now paths.now inputs.items)
        (λ e. (e ≡ Memory) ⊎ ((e ≡ MissingInput) × (has_inputs known.now paths.now ≡ false))) }
{
    let mut inputs = Vec::with_capacity(alloc, paths.len())?;
    for path in paths {
        let Some(admitted) = known.derivation(path) else {
            return Err(Refusal::MissingInput);
        };
        inputs.push(admitted.clone()?)?;
    }
    Ok(inputs)
}

// The rank of the class of a derivation with these inputs.
fn rank_for(derivation: &Derivation, known: &Known, inputs: &[Admitted]) -> Result<u8, Refusal>
    requires inputs { AreInputs known.now derivation.now.inputs inputs.now }
    ensures rank { IfOk result (λ rank. rank ≡ 1 + greatest (map rank_in inputs.now)) }
    ensures most { IfOk result (λ rank. rank ≤ 64) }
    ensures answer { MatchResult result
        (λ _. admit known.now derivation.now ≡ Ok (admission_by inputs.now derivation.now))
        (λ e. admit known.now derivation.now ≡ Err e) }
{
    if !has_sources(known, &derivation.parts().sources) {
        return Err(Refusal::MissingInput);
    }
    let greatest = greatest_of(inputs);
    if greatest >= GREATEST_RANK {
        return Err(Refusal::RankTooHigh);
    }
    Ok(greatest + 1)
}

// The digest of the masked text of a derivation that has this text and these inputs: with none it is the text
// itself.
fn masked_digest(
    alloc: Global,
    text: &Text,
    derivation: &Derivation,
    inputs: &[Admitted],
) -> Result<[u8; 32], Refusal>
    requires { HasInputs text.now derivation.now inputs.now }
    ensures { MatchResult result
        (λ masked. masked ≡ sha256 (text_with_masks inputs.now derivation.now))
        (λ e. e ≡ Memory) }
{
    if inputs.is_empty() {
        return Ok(sha256(text.bytes()));
    }
    let mut masks = masks_of(alloc, inputs)?;
    masks.sort()?;
    Ok(sha256(&print_with_inputs(alloc, derivation, &masks)?))
}

// The path of the class with this digest.
fn class_path(
    alloc: Global,
    derivation: &Derivation,
    masked: &[u8; 32],
) -> Result<StorePath, Refusal>
    ensures { MatchResult result
        (λ path. path ≡ store_path OutputClass masked.now (name_of derivation.now))
        (λ e. e ≡ Memory) }
{
    let name = Name::new(alloc, derivation.name())?;
    make_path(alloc, &Kind::OutputClass, masked, &name)
}

/// What a derivation is admitted by: its text, itself, and the derivations of its inputs, as a desk knows
/// them.
pub struct AdmissionInput {
    text: Text,
    derivation: Derivation,
    inputs: Vec<Admitted>,
    rank: u8,
}

impl Drop for AdmissionInput {
    fn drop(self) {
        let AdmissionInput {
            text: _,
            derivation: _,
            inputs: _,
            rank: _,
        } = self;
    }
}

impl Model for AdmissionInput {
    ghost use Rattle.std.specs.Prelude.{◌≡◌, ◌≤◌, ◌+◌, map};
    ghost use Rattle.model.specs.Classes.{greatest};
    ghost use Rattle.classes.specs.Admitting.{rank_in, HasInputs, Input};

    ghost Value = { Input };

    ghost view = { λ a. record { text = a.text; derivation = a.derivation; inputs = a.inputs.items } };

    ghost invariant = { λ a. HasInputs a.text a.derivation a.inputs.items
        × (a.rank ≡ 1 + greatest (map rank_in a.inputs.items)) × (a.rank ≤ 64) };
}

impl AdmissionInput {
    /// That of a derivation that has this text.
    ///
    /// # Errors
    ///
    /// - `MissingInput` exactly where an input or a source is not known, unless memory was refused.
    /// - `RankTooHigh` exactly where all are known and the rank would be over 64, unless memory was
    ///   refused.
    /// - `Memory` only where memory was refused; it may stand in place of each answer.
    pub fn new(
        alloc: Global,
        text: &Text,
        derivation: Derivation,
        known: &Known,
    ) -> Result<AdmissionInput, Refusal>
        requires read { IsReadFrom text.now derivation }
        ensures { MatchResult result
            (λ input. IsInput known.now text.now derivation input)
            (λ e. (e ≡ Memory) ⊎ (admit known.now derivation ≡ Err e)) }
    {
        let inputs = known_inputs(alloc, known, &derivation.parts().inputs)?;
        let rank = rank_for(&derivation, known, &inputs)?;
        let text = text.clone()?;
        Ok(AdmissionInput {
            text,
            derivation,
            inputs,
            rank,
        })
    }

    /// The derivation.
    pub fn derivation(&self) -> &Derivation
        ensures { result.now ≡ self.now.derivation }
    {
        &self.derivation
    }

    /// The text of the derivation.
    pub fn text(&self) -> &Text
        ensures text { result.now ≡ self.now.text }
        ensures read { IsReadFrom self.now.text self.now.derivation }
    {
        &self.text
    }

    /// What a desk will know of the derivation, whose file has this path: beside that its class, and the digest
    /// of its masked text, that is of its text with each input's path replaced by the digest of that input's
    /// masked text. The one error is memory.
    pub(crate) fn admit(self, alloc: Global, path: StorePath) -> Result<AdmittedText, Refusal>
        requires path { path ≡ derivation_path self.derivation }
        ensures made { IfOk result (λ made. made ≡ made_by self) }
        ensures memory { IfErr result (λ e. e ≡ Memory) }
    {
        let AdmissionInput {
            text,
            derivation,
            inputs,
            rank,
        } = self;
        let masked = masked_digest(alloc, &text, &derivation, &inputs)?;
        let class = Class::new(class_path(alloc, &derivation, &masked)?, rank);
        let admitted = Admitted::new(alloc, derivation, path, class, masked)?;
        AdmittedText::new(text, inputs, admitted)
    }
}
