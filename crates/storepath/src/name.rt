//! Names of store paths (Nix Reference Manual, "Store Path").

ghost use Rattle.std.specs.Prelude.{◌≡◌, ◌↔◌, ◌⊎◌, ℕ, List, true, false, IfOk, IfErr};
ghost use Rattle.model.specs.Paths.{is_name, is_name_byte};

use model::{LONGEST_NAME, Refusal, SharedBytes};
use std::alloc::{AllocError, Global};
use std::marker::Model;
use std::{fmt, str};

/// Whether a byte may stand in a name.
fn is_name_byte(byte: u8) -> bool
    ensures { result ≡ is_name_byte byte }
{
    byte.is_ascii_alphanumeric() || b"+-._?=".contains(&byte)
}

/// Whether a text is a name of a store path: what [`Name::new`] takes. It takes no memory.
pub fn is_name(text: &[u8]) -> bool
    ensures { result ≡ is_name text.now }
{
    if text.is_empty() || text.len() > LONGEST_NAME || text[0] == b'.' {
        return false;
    }
    text.iter().all(|byte| is_name_byte(*byte))
}

/// A name of a store path: 1 to 211 ASCII letters, digits and `+-._?=`, the first no dot. A copy
/// shares the bytes.
#[derive(Debug)]
pub struct Name {
    text: SharedBytes,
}

impl Drop for Name {
    fn drop(self) {
        let Name { text: _ } = self;
    }
}

impl Model for Name {
    ghost Value = { List ℕ };

    ghost view = { λ name. name.text };

    ghost invariant = { λ name. is_name name.text ≡ true };
}

impl Name {
    /// The name of a text.
    ///
    /// # Errors
    ///
    /// - `BadName` exactly where the text is no name.
    /// - `Memory` only where it is one, and memory was refused.
    pub fn new(alloc: Global, text: &[u8]) -> Result<Name, Refusal>
        ensures named { IfOk result (λ name. (name ≡ text.now) × (is_name text.now ≡ true)) }
        ensures refused { (result ≡ Err Refusal.BadName) ↔ (is_name text.now ≡ false) }
        ensures errors { IfErr result (λ why. (why ≡ Refusal.BadName) ⊎ (why ≡ Refusal.Memory)) }
    {
        if !is_name(text) {
            return Err(Refusal::BadName);
        }
        let text = SharedBytes::from_slice(alloc, text)?;
        Ok(Name { text })
    }

    /// The bytes of the name.
    pub fn bytes(&self) -> &[u8]
        ensures value { result.now ≡ self.now }
        ensures named { is_name self.now ≡ true }
    {
        self.text.as_slice()
    }
}

/// The copy is equal, and shares the bytes. It takes no memory.
impl Clone for Name {
    ghost is_clone = { λ name copy. copy ≡ name };

    fn clone(&self) -> Result<Name, AllocError> {
        let text = self.text.clone()?;
        Ok(Name { text })
    }
}

/// The text of the name.
impl fmt::Display for Name {
    ghost use Rattle.std.specs.Prelude.{Some};

    ghost output = { λ name. Some name };

    fn fmt<W: fmt::Write>(&self, f: &mut fmt::Formatter<W>) -> fmt::Result {
        match str::from_utf8(self.bytes()) {
            Ok(text) => f.write_str(text),
            Err(_) => unreachable!(),
        }
    }
}
