//! The hash parts of store paths (Nix Reference Manual, "Store Path").

ghost use Rattle.std.specs.Prelude.{◌≡◌, ◌↔◌, true, false, length, IfOk, IfErr};
ghost use Rattle.std.specs.List.{list_all};
ghost use Rattle.model.specs.Paths.{is_digit_32};
ghost use Rattle.model.specs.Occurrences.{IsHashPart};
ghost use Rattle.storepath.specs.Parts.{is_hash_part};

use crate::base32::is_digit;
use model::Refusal;
use std::hash::{Hash, Hasher};
use std::marker::Model;
use std::{fmt, str};

/// Whether a text is a hash part: 32 digits of base 32.
pub(crate) fn is_hash_part(text: &[u8]) -> bool
    ensures { result ≡ is_hash_part text.now }
{
    text.len() == 32 && text.iter().all(|character| is_digit(*character))
}

/// The hash part of a store path: 32 digits of base 32. Hash parts stand in the order of their
/// digits.
#[derive(Clone, Copy, Debug, PartialEq, Eq, PartialOrd, Ord)]
pub struct HashPart {
    digits: [u8; 32],
}

impl Model for HashPart {
    ghost use Rattle.std.specs.Prelude.{◌≡◌, List, ℕ, true};
    ghost use Rattle.storepath.specs.Parts.{is_hash_part};

    ghost Value = { List ℕ };

    ghost view = { λ part. part.digits };

    ghost invariant = { λ part. is_hash_part part.digits ≡ true };

    ghost inverse = { λ digits. record { digits = digits } };
}

impl HashPart {
    /// The hash part of its digits.
    pub(crate) fn from_digits(text: &[u8]) -> HashPart
        requires { is_hash_part text.now ≡ true }
        ensures { result ≡ text.now }
    {
        let mut digits = [0; 32];
        digits.copy_from_slice(text);
        HashPart { digits }
    }

    /// The hash part of a text.
    ///
    /// It takes no memory.
    ///
    /// # Errors
    ///
    /// - `BadPath` exactly where the text is not 32 digits of base 32.
    pub fn read(text: &[u8]) -> Result<HashPart, Refusal>
        ensures read { IfOk result (λ part. (part ≡ text.now) × (is_hash_part text.now ≡ true)) }
        ensures refused { (result ≡ Err Refusal.BadPath) ↔ (is_hash_part text.now ≡ false) }
        ensures error { IfErr result (λ why. why ≡ Refusal.BadPath) }
    {
        if !is_hash_part(text) {
            return Err(Refusal::BadPath);
        }
        Ok(HashPart::from_digits(text))
    }

    /// It has 32 digits of base 32.
    pub fn sound(&self)
        ensures length { length self.now ≡ 32 }
        ensures digits { list_all is_digit_32 self.now ≡ true }
    {
        let _ = &self.digits;
    }

    /// The 32 digits.
    pub fn bytes(&self) -> &[u8]
        ensures value { result.now ≡ self.now }
        ensures length { length self.now ≡ 32 }
        ensures digits { list_all is_digit_32 self.now ≡ true }
    {
        &self.digits
    }

    /// The same as an array.
    pub fn digits(&self) -> &[u8; 32]
        ensures value { result.now ≡ self.now }
        ensures digits { IsHashPart self.now }
    {
        &self.digits
    }
}

/// Hash parts that are equal have one hash, that of the digits, which are written at once.
impl Hash for HashPart {
    ghost use Rattle.std.proofs.Common.{rules};
    ghost use Rattle.std.specs.Cmp.Rules.{hashing};
    ghost use Rattle.std.specs.Prelude.{[], ◌∷◌};

    ghost hash_input = { λ digits. digits ∷ [] };

    ghost respects_eq = { Prim.search (hashing, rules) };

    fn hash<H: Hasher>(&self, state: &mut H) {
        state.write(&self.digits);
    }
}

/// The digits of the hash part.
impl fmt::Display for HashPart {
    ghost use Rattle.std.specs.Prelude.{Some};

    ghost output = { λ part. Some part };

    fn fmt<W: fmt::Write>(&self, f: &mut fmt::Formatter<W>) -> fmt::Result {
        match str::from_utf8(self.bytes()) {
            Ok(text) => f.write_str(text),
            Err(_) => unreachable!(),
        }
    }
}
