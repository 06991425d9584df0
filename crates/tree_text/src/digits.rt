//! Digits of base 16 in lower case, many at a time.

ghost use Rattle.std.specs.Prelude.{◌≡◌, ◌*◌, ◌⊎◌, length, true, IfOk, IfErr, Ok, Err};
ghost use Rattle.std.specs.List.{list_all};
ghost use Rattle.hex.specs.Hex.{decode_of};
ghost use Rattle.hex.specs.declared.error.FromHexError.TheVariants.{OutOfMemory};
ghost use Rattle.tree_text.specs.Digits.{AreValues};
ghost use Rattle.tree_text.specs.TextReading.{is_lower_digit};

use hex::FromHexError;
use std::alloc::Global;

/// From so many digits on they are looked up in a table, which takes some hundred steps to fill.
const MANY: usize = 8_192;

// What each byte stands for as a digit, as `hex` has it: a byte that is none stands for nothing.
fn digit_values() -> [u8; 256]
    ensures { AreValues result }
{
    let mut values = [0u8; 256];
    for value in 0..16u8 {
        let mut digits = [0u8; 2];
        hex::encode_to_slice([value], &mut digits).unwrap();
        values[digits[1] as usize] = value;
    }
    values
}

// Puts the bytes of digits into room for them.
fn put_bytes(values: &[u8; 256], digits: &[u8], bytes: &mut [u8])
    requires values { AreValues values.now }
    requires digits { list_all is_lower_digit digits.now ≡ true }
    requires room { length digits.now ≡ 2 * length bytes.old }
    ensures decoded { decode_of digits.now ≡ Ok bytes.new }
    ensures long { length bytes.new ≡ length bytes.old }
{
    for i in 0..bytes.len() {
        let high = values[digits[2 * i] as usize];
        let low = values[digits[2 * i + 1] as usize];
        bytes[i] = high * 16 + low;
    }
}

/// The bytes of digits, all of which are in lower case, as `hex` has them. Many are looked up in a table.
///
/// # Errors
///
/// - `OddLength` exactly where there is an odd number of digits.
/// - `OutOfMemory` only where memory was refused.
pub fn decode_digits(alloc: Global, digits: &[u8]) -> Result<Vec<u8>, FromHexError>
    requires digits { list_all is_lower_digit digits.now ≡ true }
    ensures ok { IfOk result (λ bytes. decode_of digits.now ≡ Ok bytes.items) }
    ensures err { IfErr result (λ e. (e ≡ OutOfMemory) ⊎ (decode_of digits.now ≡ Err e)) }
{
    if digits.len() < MANY || digits.len() % 2 != 0 {
        return hex::decode(alloc, digits);
    }
    let mut bytes = vec![in alloc; 0u8; digits.len() / 2]?;
    put_bytes(&digit_values(), digits, bytes.as_mut_slice());
    Ok(bytes)
}
