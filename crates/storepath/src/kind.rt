//! What a path is the path of, and the path that is made of it (Nix Reference Manual, "Complete Store Path Calculation").

ghost use Rattle.std.specs.Prelude.{◌≡◌, ◌++◌, OnOk, IfOk, IfErr};
ghost use Rattle.model.specs.Paths.{fingerprint, kind_text, references_text, store_path};
ghost use Rattle.storepath.specs.Kinds.{kind_of};

use crate::name::Name;
use crate::path::{StorePath, path_of};
use hashmod::{fold, sha256};
use model::Refusal;
use std::alloc::{AllocError, Global};

/// What a path is the path of, with the paths that it refers to.
///
/// A store's paths have their references in the order of bytes, each once. They are written as they are given.
#[derive(Clone, Copy, Debug)]
pub enum Kind<'a> {
    /// A source.
    Source,
    /// The file of a derivation, with its input derivations and its sources.
    DerivationFile(&'a [StorePath]),
    /// The class of a derivation's output.
    OutputClass,
    /// The place at which a build writes its output.
    Scratch,
    /// The output of a build.
    Output {
        /// The other paths that it refers to.
        references: &'a [StorePath],
        /// Whether it refers to its own path.
        itself: bool,
    },
}

/// Appends each reference behind a colon.
fn append_references(text: &mut Vec<u8>, references: &[StorePath]) -> Result<(), AllocError>
    ensures { OnOk result (text.new.items ≡ text.old.items ++ references_text references.now) }
{
    for path in references {
        text.extend_from_slice(b":")?;
        text.extend_from_slice(path.bytes())?;
    }
    Ok(())
}

impl Kind<'_> {
    /// Appends the text that stands for the kind in a fingerprint.
    #[tactic(auto, using(std::proofs::Common::append_assoc), unfolding(model::specs::Paths::kind_text))]
    fn append_to(&self, text: &mut Vec<u8>) -> Result<(), AllocError>
        ensures { OnOk result (text.new.items ≡ text.old.items ++ kind_text (kind_of self.now)) }
    {
        match self {
            Kind::Source => text.extend_from_slice(b"source"),
            Kind::DerivationFile(references) => {
                text.extend_from_slice(b"text")?;
                append_references(text, references)
            }
            Kind::OutputClass => text.extend_from_slice(b"output:out"),
            Kind::Scratch => text.extend_from_slice(b"scratch"),
            Kind::Output { references, itself } => {
                text.extend_from_slice(b"source")?;
                append_references(text, references)?;
                if *itself {
                    text.extend_from_slice(b":self")?;
                }
                Ok(())
            }
        }
    }
}

/// Room for the longest text that a hash part is made of where there are no references.
const LONGEST_ALONE: usize = 320;

/// The text that a hash part is made of.
#[tactic(auto, using(std::proofs::Common::append_assoc), unfolding(model::specs::Paths::fingerprint))]
fn fingerprint(
    alloc: Global,
    kind: &Kind<'_>,
    digest: &[u8; 32],
    name: &Name,
) -> Result<Vec<u8>, AllocError>
    ensures { IfOk result (λ text. text.items ≡ fingerprint (kind_of kind.now) digest.now name.now) }
{
    let mut text = Vec::with_capacity(alloc, LONGEST_ALONE)?;
    kind.append_to(&mut text)?;
    text.extend_from_slice(b":sha256:")?;
    text.extend_from_slice(hex::encode(alloc, digest.as_slice())?.as_bytes())?;
    text.extend_from_slice(b":/nix/store:")?;
    text.extend_from_slice(name.bytes())?;
    Ok(text)
}

/// The path of a kind, of the SHA-256 digest of what it is made of, and of a name.
///
/// # Errors
///
/// - `Memory` only where memory was refused.
pub fn make_path(
    alloc: Global,
    kind: &Kind<'_>,
    digest: &[u8; 32],
    name: &Name,
) -> Result<StorePath, Refusal>
    ensures made { IfOk result (λ path. path ≡ store_path (kind_of kind.now) digest.now name.now) }
    ensures error { IfErr result (λ why. why ≡ Refusal.Memory) }
{
    let text = fingerprint(alloc, kind, digest, name)?;
    let hash_part = fold(&sha256(&text));
    Ok(path_of(alloc, &hash_part, name)?)
}
