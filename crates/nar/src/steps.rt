//! What all readers share.

ghost use Rattle.std.specs.Prelude.{IfErr};
ghost use Rattle.model.specs.ArchiveReading.{split_at, prefix_at};
ghost use Rattle.model.specs.ReadOutcomes.{Gives, IsMalformed};

use model::ReadError;

/// So many bytes, and the rest.
///
/// # Errors
///
/// - `Malformed` exactly where there are fewer.
#[tactic(auto, unfolding(model::specs::ArchiveReading::split_at))]
pub fn split(bytes: &[u8], count: usize) -> Result<(&[u8], &[u8]), ReadError>
    ensures read { Gives (λ r. (r.0.now, r.1.now)) result (split_at count bytes.now) }
    ensures malformed { IfErr result IsMalformed }
{
    if bytes.len() < count {
        return Err(ReadError::Malformed);
    }
    Ok(bytes.split_at(count))
}

/// What follows just these bytes.
///
/// # Errors
///
/// - `Malformed` exactly where the text does not begin with them.
#[tactic(auto, unfolding(model::specs::ArchiveReading::prefix_at))]
pub fn skip_prefix<'a>(bytes: &'a [u8], prefix: &[u8]) -> Result<&'a [u8], ReadError>
    ensures read { Gives (λ rest. rest.now) result (prefix_at prefix.now bytes.now) }
    ensures malformed { IfErr result IsMalformed }
{
    let (front, rest) = split(bytes, prefix.len())?;
    if front != prefix {
        return Err(ReadError::Malformed);
    }
    Ok(rest)
}
