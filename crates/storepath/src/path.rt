//! The texts of store paths (Nix Reference Manual, "Store Path").

ghost use Rattle.std.specs.Prelude.{◌≡◌, ◌↔◌, ◌⊎◌, ℕ, List, true, false, IfOk, IfErr, IsTrue};
ghost use Rattle.std.specs.Cmp.Rules.{comparing};
ghost use Rattle.std.specs.Str.{bytes_eq};
ghost use Rattle.std.proofs.Common.{rules};
ghost use Rattle.model.specs.Paths.{base32, is_name, is_path, path_text, IsPath};
ghost use Rattle.storepath.specs.Parts.{hash_part_of, name_of};

use crate::base32::to_base32;
use crate::hash_part::{HashPart, is_hash_part};
use crate::name::{Name, is_name};
use model::{Refusal, SharedBytes};
use std::alloc::{AllocError, Global};
use std::marker::Model;
use std::{fmt, str};

/// What stands before each hash part.
const STORE: [u8; 11] = *b"/nix/store/";

/// Where the hash part begins, in bytes.
const HASH_PART: usize = 11;

/// Where the dash behind the hash part stands, in bytes.
const DASH: usize = 43;

/// Where the name begins, in bytes.
const NAME: usize = 44;

/// The text of a store path: `/nix/store/`, a hash part of 32 digits, `-` and a name, in all 45 to 255
/// bytes. A copy shares the text. Paths stand in the order of their bytes.
#[derive(Debug, Eq, PartialOrd, Ord, Hash)]
pub struct StorePath {
    text: SharedBytes,
}

impl Drop for StorePath {
    fn drop(self) {
        let StorePath { text: _ } = self;
    }
}

impl Model for StorePath {
    ghost Value = { List ℕ };

    ghost view = { λ path. path.text };

    ghost invariant = { λ path. IsPath path.text };

    ghost inverse = { λ text. record { text = text } };
}

impl StorePath {
    /// It is a store path as the definition has it.
    pub fn sound(&self)
        ensures { IsPath self.now }
    {
        let _ = &self.text;
    }

    /// The bytes of the path.
    pub fn bytes(&self) -> &[u8]
        ensures value { result.now ≡ self.now }
        ensures path { IsPath self.now }
        ensures passes { is_path self.now ≡ true }
    {
        self.text.as_slice()
    }

    /// The hash part. It takes no memory.
    pub fn hash_part(&self) -> HashPart
        ensures value { result ≡ hash_part_of self.now }
        ensures part { (path : IsPath self.now) × (result ≡ base32 path.hash_part) }
    {
        HashPart::from_digits(&self.bytes()[HASH_PART..DASH])
    }

    /// The bytes of the name.
    pub fn name(&self) -> &[u8]
        ensures value { result.now ≡ name_of self.now }
        ensures part { (path : IsPath self.now) × (result.now ≡ path.name) }
    {
        &self.bytes()[NAME..]
    }
}

/// The path with a hash part and a name.
pub(crate) fn path_of(
    alloc: Global,
    hash_part: &[u8; 20],
    name: &Name,
) -> Result<StorePath, AllocError>
    ensures { IfOk result (λ path. path ≡ path_text hash_part.now name.now) }
{
    let mut text = Vec::with_capacity(alloc, NAME + name.bytes().len())?;
    text.extend_from_slice(&STORE)?;
    text.extend_from_slice(&to_base32(hash_part))?;
    text.extend_from_slice(b"-")?;
    text.extend_from_slice(name.bytes())?;
    let text = SharedBytes::from_vec(text)?;
    Ok(StorePath { text })
}

/// Whether a text is a path's.
fn is_path(text: &[u8]) -> bool
    ensures path { IsTrue result ↔ IsPath text.now }
    ensures test { result ≡ is_path text.now }
{
    let Some(rest) = text.strip_prefix(&STORE) else {
        return false;
    };
    let Some((digits, rest)) = rest.split_at_checked(DASH - HASH_PART) else {
        return false;
    };
    let Some(name) = rest.strip_prefix(b"-") else {
        return false;
    };
    is_hash_part(digits) && is_name(name)
}

/// The path of a text.
///
/// # Errors
///
/// - `BadPath` exactly where the text is no path's.
/// - `Memory` only where it is one, and memory was refused.
pub fn read_path(alloc: Global, text: &[u8]) -> Result<StorePath, Refusal>
    ensures read { IfOk result (λ path. (path ≡ text.now) × IsPath text.now) }
    ensures refused { (result ≡ Err Refusal.BadPath) ↔ (¬ (IsPath text.now)) }
    ensures memory { result ≡ Err Refusal.Memory → IsPath text.now }
    ensures errors { IfErr result (λ why. (why ≡ Refusal.BadPath) ⊎ (why ≡ Refusal.Memory)) }
    ensures passes { IfOk result (λ _. is_path text.now ≡ true) }
    ensures fails { (result ≡ Err Refusal.BadPath) ↔ (is_path text.now ≡ false) }
    ensures passes_at_memory { result ≡ Err Refusal.Memory → is_path text.now ≡ true }
{
    if !is_path(text) {
        return Err(Refusal::BadPath);
    }
    let text = SharedBytes::from_slice(alloc, text)?;
    Ok(StorePath { text })
}

/// Paths are equal where their texts are. It is written, since proofs that search among paths need
/// `bytes_eq` by its name.
impl PartialEq for StorePath {
    ghost eq = { bytes_eq };

    ghost laws = { Prim.search (comparing, rules) };

    fn eq(&self, other: &StorePath) -> bool {
        self.text == other.text
    }
}

/// The copy is equal, and shares the text. It takes no memory.
impl Clone for StorePath {
    ghost is_clone = { λ path copy. copy ≡ path };

    fn clone(&self) -> Result<StorePath, AllocError> {
        let text = self.text.clone()?;
        Ok(StorePath { text })
    }
}

/// The text of the path.
impl fmt::Display for StorePath {
    ghost use Rattle.std.specs.Prelude.{Some};

    ghost output = { λ path. Some path };

    fn fmt<W: fmt::Write>(&self, f: &mut fmt::Formatter<W>) -> fmt::Result {
        match str::from_utf8(self.bytes()) {
            Ok(text) => f.write_str(text),
            Err(_) => unreachable!(),
        }
    }
}
