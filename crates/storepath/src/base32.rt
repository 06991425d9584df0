//! Base 32 as store paths print it: 20 bytes as 32 digits.
//!
//! The bytes are one number of 160 bits, the lowest byte first, and its digits are printed the highest first (Nix Reference Manual, "Store Path").

ghost use Rattle.std.specs.Prelude.{◌≡◌, ◌↔◌, ◌≢◌, ℕ, List, ◌+◌, ◌*◌, ◌/◌, ◌%◌, ◌^◌, ◌<◌, ◌==◌, position, is_ok, IfOk, IfErr};
ghost use Rattle.model.specs.Paths.{base32, digits_32, is_digit_32, number_of, IsFolded};
ghost use Rattle.storepath.specs.Parts.{is_hash_part};

use model::Refusal;
use std::array;

/// The digits: no `e`, `o`, `u` or `t`.
const DIGITS: [u8; 32] = *b"0123456789abcdfghijklmnpqrsvwxyz";

/// The digit at a place of a number of 160 bits, counted from the lowest: its five bits lie in one
/// byte or in two.
fn digit_at(number: &[u8; 20], place: usize) -> usize
    requires { place < 32 }
    ensures { result ≡ number_of number.now / 32 ^ place % 32 }
{
    let bit = 5 * place;
    let low = number[bit / 8];
    let high = number.get(bit / 8 + 1).copied().unwrap_or(0);
    let bits = usize::from(low) + 256 * usize::from(high);
    (bits >> (bit % 8)) % 32
}

/// Multiplies a number of 160 bits by 32, and adds a digit.
fn append(number: &mut [u8; 20], digit: usize)
    requires digit { digit < 32 }
    requires fits { number_of number.old < 32 ^ 31 }
    ensures value { number_of number.new ≡ 32 * number_of number.old + digit }
    ensures bytes { IsFolded number.new }
{
    let mut carry = digit;
    for place in 0..20 {
        let value = usize::from(number[place]) * 32 + carry;
        number[place] = (value % 256) as u8;
        carry = value / 256;
    }
}

/// The digit that a character stands for.
fn digit_value(character: u8) -> Option<usize>
    ensures { result ≡ position (λ digit. digit == character) digits_32 }
{
    DIGITS.iter().position(|digit| *digit == character)
}

/// Whether a character is a digit.
pub(crate) fn is_digit(character: u8) -> bool
    ensures { result ≡ is_digit_32 character }
{
    matches!(character, b'0'..=b'9' | b'a'..=b'd' | b'f'..=b'n' | b'p'..=b's' | b'v'..=b'z')
}

/// The 32 digits of 20 bytes. It takes no memory.
pub fn to_base32(bytes: &[u8; 20]) -> [u8; 32]
    ensures { result ≡ base32 bytes.now }
{
    array::from_fn(|place| DIGITS[digit_at(bytes, 31 - place)])
}

/// The 20 bytes that a text of 32 digits stands for.
///
/// It takes no memory.
///
/// # Errors
///
/// - `BadPath` exactly where the text is not that of any 20 bytes.
pub fn from_base32(text: &[u8]) -> Result<[u8; 20], Refusal>
    ensures read { IfOk result (λ bytes. IsFolded bytes × (base32 bytes ≡ text.now)) }
    ensures refused { IfErr result (λ why. (why ≡ Refusal.BadPath) × ((bytes : List ℕ) → IsFolded bytes → base32 bytes ≢ text.now)) }
    ensures digits { is_ok result ≡ is_hash_part text.now }
{
    if text.len() != 32 {
        return Err(Refusal::BadPath);
    }
    let mut number = [0; 20];
    for character in text {
        let Some(digit) = digit_value(*character) else {
            return Err(Refusal::BadPath);
        };
        append(&mut number, digit);
    }
    Ok(number)
}
