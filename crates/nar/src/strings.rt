//! The strings of an archive, one at a time.
//!
//! The file of a builder's inputs is made of them: for each input the text of its path and its archive.

ghost use Rattle.std.specs.Prelude.{◌≡◌, ◌-◌, ◌%◌, ◌++◌, replicate, IfOk, IfErr, MatchResult, Some, None};
ghost use Rattle.model.specs.Archives.{archive_string};
ghost use Rattle.model.specs.ArchiveReading.{length_at, string_at, token_at};
ghost use Rattle.model.specs.declared.refusal.Refusal.TheVariants.{BadNar, Memory};
ghost use Rattle.model.specs.ReadOutcomes.{Gives, IsMalformed};

use crate::steps::{skip_prefix, split};
use crate::text::Text;
use crate::walk::put_string;
use model::{ReadError, Refusal};
use std::alloc::Global;

const ZEROS: [u8; 8] = [0; 8];

/// The zeros behind a string of so many bytes, up to a multiple of eight.
pub(crate) fn padding(len: usize) -> &'static [u8]
    ensures { result.now ≡ replicate ((8 - len % 8) % 8) 0 }
{
    &ZEROS[..(8 - len % 8) % 8]
}

/// A string and the rest: the string's length in eight bytes, the lowest first, its bytes, and zeros
/// up to a multiple of eight.
///
/// Nothing is taken for the string before all of it is known to be there.
///
/// # Errors
///
/// - `Malformed` exactly where the text does not begin with a string.
#[tactic(auto, unfolding(model::specs::ArchiveReading::string_at))]
pub(crate) fn read_string(bytes: &[u8]) -> Result<(&[u8], &[u8]), ReadError>
    ensures read { Gives (λ r. (r.0.now, r.1.now)) result (string_at bytes.now) }
    ensures malformed { IfErr result IsMalformed }
{
    let (len, rest) = read_length(bytes)?;
    let (text, rest) = split(rest, len)?;
    let rest = skip_prefix(rest, padding(len))?;
    Ok((text, rest))
}

/// What follows just this string.
///
/// # Errors
///
/// - `Malformed` exactly where the text does not begin with it.
#[tactic(auto, unfolding(model::specs::ArchiveReading::token_at))]
pub(crate) fn skip_string<'a>(bytes: &'a [u8], tag: &[u8]) -> Result<&'a [u8], ReadError>
    ensures read { Gives (λ rest. rest.now) result (token_at tag.now bytes.now) }
    ensures malformed { IfErr result IsMalformed }
{
    let (text, rest) = read_string(bytes)?;
    if text != tag {
        return Err(ReadError::Malformed);
    }
    Ok(rest)
}

// The number in the first eight bytes, and the rest.
#[tactic(auto, unfolding(model::specs::ArchiveReading::length_at))]
fn read_length(bytes: &[u8]) -> Result<(usize, &[u8]), ReadError>
    ensures read { Gives (λ r. (r.0, r.1.now)) result (length_at bytes.now) }
    ensures malformed { IfErr result IsMalformed }
{
    let Some((digits, rest)) = bytes.split_first_chunk::<8>() else {
        return Err(ReadError::Malformed);
    };
    let len = u64::from_le_bytes(*digits);
    Ok((len as usize, rest))
}

/// One string of an archive, with this content.
///
/// # Errors
///
/// - `Memory` only where memory was refused.
pub fn str_text(alloc: Global, content: &[u8]) -> Result<Vec<u8>, Refusal>
    ensures text { IfOk result (λ text. text.items ≡ archive_string content.now) }
    ensures memory { IfErr result (λ why. why ≡ Memory) }
{
    let mut sink = Text::new(alloc);
    put_string(&mut sink, content);
    Ok(sink.into_bytes()?)
}

/// The content of the string that a text begins with, and what follows the string. No memory is taken.
///
/// # Errors
///
/// - `BadNar` exactly where the text does not begin with a string.
pub fn read_str(bytes: &[u8]) -> Result<(&[u8], &[u8]), Refusal>
    ensures begins { IfOk result (λ r. archive_string r.0.now ++ r.1.now ≡ bytes.now) }
    ensures exact { MatchResult result
        (λ r. string_at bytes.now ≡ Some (r.0.now, r.1.now))
        (λ why. (why ≡ BadNar) × (string_at bytes.now ≡ None)) }
{
    match read_string(bytes) {
        Ok(read) => Ok(read),
        Err(_) => Err(Refusal::BadNar),
    }
}
