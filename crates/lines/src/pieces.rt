//! Adding pieces to a text.

ghost use Rattle.std.specs.Prelude.{◌≡◌, ◌++◌, OnOk, decimal};

use std::alloc::{AllocError, Global};

/// Adds a word and what stands behind it.
pub(crate) fn add(text: &mut Vec<u8>, word: &[u8], value: &[u8]) -> Result<(), AllocError>
    ensures { OnOk result (text.new.items ≡ text.old.items ++ word.now ++ value.now) }
{
    text.extend_from_slice(word)?;
    text.extend_from_slice(value)
}

/// Adds a word and the number behind it.
pub(crate) fn add_number(
    alloc: Global,
    text: &mut Vec<u8>,
    word: &[u8],
    number: usize,
) -> Result<(), AllocError>
    ensures { OnOk result (text.new.items ≡ text.old.items ++ word.now ++ decimal number) }
{
    let digits = number.to_string(alloc)?;
    add(text, word, digits.as_bytes())
}
