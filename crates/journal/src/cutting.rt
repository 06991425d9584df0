//! Cutting a text at a byte.

ghost use Rattle.std.specs.Prelude.{◌≡◌, MatchOption};
ghost use Rattle.model.specs.Lines.{cut_at};

use memchr::memchr;

/// What stands before the first `byte` of a text, and what stands behind it.
pub(crate) fn cut(byte: u8, text: &[u8]) -> Option<(&[u8], &[u8])>
    ensures { MatchOption result (cut_at byte text.now ≡ None)
        (λ r. cut_at byte text.now ≡ Some (r.0.now, r.1.now)) }
{
    let at = memchr(byte, text)?;
    let (before, rest) = text.split_at(at);
    let (_, behind) = rest.split_at(1);
    Some((before, behind))
}
