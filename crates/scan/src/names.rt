//! The strings of an archive, one after another.

ghost use Rattle.std.specs.Prelude.{◌≡◌};
ghost use Rattle.std.specs.Option.{option_map};
ghost use Rattle.scan.specs.Pieces.{string_front, text_front, piece_front};

/// The string at the front of an archive's text, and what follows it.
#[tactic(auto, unfolding(crate::specs::Pieces::string_front, model::specs::ArchiveReading::split_at, model::specs::ArchiveReading::length_at))]
fn split_string(text: &[u8]) -> Option<(&[u8], &[u8])>
    ensures { option_map (λ r. (r.0.now, r.1.now)) result ≡ string_front text.now }
{
    let (digits, behind) = text.split_first_chunk::<8>()?;
    let len = u64::from_le_bytes(*digits) as usize;
    let (string, behind) = behind.split_at_checked(len)?;
    let (_zeros, rest) = behind.split_at_checked((8 - len % 8) % 8)?;
    Some((string, rest))
}

/// A string behind its mark and the mark behind it, and what follows.
#[tactic(auto, unfolding(crate::specs::Pieces::text_front))]
fn split_text(text: &[u8]) -> Option<(&[u8], &[u8])>
    ensures { option_map (λ r. (r.0.now, r.1.now)) result ≡ text_front text.now }
{
    let (string, behind) = split_string(text)?;
    let (_mark, rest) = split_string(behind)?;
    Some((string, rest))
}

/// A string of a tree: the name of an entry, or bytes of a file or a link's target.
#[derive(Clone, Copy)]
pub(crate) struct Part<'a> {
    /// Whether it is the name of an entry.
    pub(crate) is_name: bool,
    /// The string.
    pub(crate) bytes: &'a [u8],
}

/// The piece at the front of an archive's text: its string, if it is more than a mark, and what
/// follows it.
#[tactic(auto, unfolding(crate::specs::Pieces::piece_front, crate::specs::Pieces::piece_behind))]
pub(crate) fn split_piece(text: &[u8]) -> Option<(Option<Part<'_>>, &[u8])>
    ensures { option_map (λ r. (option_map (λ p. (p.is_name, p.bytes.now)) r.0, r.1.now)) result ≡ piece_front text.now }
{
    let (tag, behind) = split_string(text)?;
    let is_name = tag == b"name".as_slice();
    if is_name || tag == b"contents".as_slice() || tag == b"target".as_slice() {
        let (bytes, rest) = split_text(behind)?;
        return Some((Some(Part { is_name, bytes }), rest));
    }
    Some((None, behind))
}
