//! The seal of a group.

ghost use Rattle.std.specs.Prelude.{◌≡◌, ℕ, List, IfOk, MatchOption};
ghost use Rattle.journal.specs.Seals.{seal_of, IsDigest};

use hex::FromHex;
use std::alloc::{AllocError, Global};

/// The seal begins so.
const MARK: &[u8] = b"#sha256 ";

/// The digest of the replies begins so far in a seal, in bytes.
const REPLIES: usize = 73;

/// The seal of a text with this digest, and of replies.
pub(crate) fn seal_of(
    alloc: Global,
    before: &[u8; 32],
    replies: &[u8; 32],
) -> Result<Vec<u8>, AllocError>
    ensures row { IfOk result (λ row. row.items ≡ seal_of before.now replies.now) }
    ensures digest { IsDigest replies.now }
{
    let mut row = Vec::new(alloc);
    row.extend_from_slice(MARK)?;
    row.extend_from_slice(hex::encode(alloc, before.as_slice())?.as_bytes())?;
    row.extend_from_slice(b" ")?;
    row.extend_from_slice(hex::encode(alloc, replies.as_slice())?.as_bytes())?;
    Ok(row)
}

/// The digest of the replies, where a row is the seal of a text with this digest.
pub(crate) fn replies_of(
    alloc: Global,
    before: &[u8; 32],
    row: &[u8],
) -> Result<Option<[u8; 32]>, AllocError>
    ensures { IfOk result (λ replies. MatchOption replies
        ((digest : List ℕ) → IsDigest digest → row.now ≡ seal_of before.now digest → ⊥)
        (λ replies. IsDigest replies × (row.now ≡ seal_of before.now replies))) }
{
    let Some(digits) = row.get(REPLIES..) else {
        return Ok(None);
    };
    let Ok(replies) = <[u8; 32] as FromHex>::from_hex(digits) else {
        return Ok(None);
    };
    let seal = seal_of(alloc, before, &replies)?;
    if seal.as_slice() == row {
        Ok(Some(replies))
    } else {
        Ok(None)
    }
}
