//! The strings of a derivation.

ghost use Rattle.std.specs.Prelude.{◌≡◌, List, ℕ, IfOk};
ghost use Rattle.model.specs.Archives.{AreBytes};
ghost use Rattle.model.specs.Derivations.{is_character, is_text};

use model::SharedBytes;
use std::alloc::AllocError;
use std::marker::Model;

/// A string of a derivation, of any bytes. A copy shares them. Strings stand in the order of their
/// bytes.
///
/// A derivation's own strings have bytes 32 to 126, tabs, newlines and carriage returns alone.
#[derive(PartialEq, Eq, PartialOrd, Ord)]
pub struct Text {
    bytes: SharedBytes,
}

impl Drop for Text {
    fn drop(self) {
        let Text { bytes: _ } = self;
    }
}

impl Model for Text {
    ghost Value = { List ℕ };

    ghost view = { λ text. text.bytes };

    ghost inverse = { λ bytes. record { bytes = bytes } };
}

impl Text {
    /// The string of these bytes, which are not copied. The one error is memory.
    pub fn new(bytes: Vec<u8>) -> Result<Text, AllocError>
        ensures { IfOk result (λ text. text ≡ bytes.items) }
    {
        let bytes = SharedBytes::from_vec(bytes)?;
        Ok(Text { bytes })
    }

    /// The bytes.
    pub fn bytes(&self) -> &[u8]
        ensures { result.now ≡ self.now }
    {
        self.bytes.as_slice()
    }

    /// Each of them is a number below 256.
    pub fn sound(&self)
        ensures { AreBytes self.now }
    {
        self.bytes.sound();
    }
}

/// The copy is equal, and shares the bytes. It takes no memory.
impl Clone for Text {
    ghost is_clone = { λ text copy. copy ≡ text };

    fn clone(&self) -> Result<Text, AllocError> {
        let bytes = self.bytes.clone()?;
        Ok(Text { bytes })
    }
}

// Whether a derivation may have this string.
pub(crate) fn is_text(text: &[u8]) -> bool
    ensures { result ≡ is_text text.now }
{
    text.iter().all(|byte| is_character(*byte))
}

fn is_character(byte: u8) -> bool
    ensures { result ≡ is_character byte }
{
    matches!(byte, 32..=126 | b'\t' | b'\n' | b'\r')
}
