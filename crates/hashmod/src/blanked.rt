//! Digests of texts in which hash parts are blanked (Dolstra 2006, section 6.3.1).

ghost use Rattle.std.specs.Prelude.{◌≡◌, ◌++◌, ℕ, List, length};
ghost use Rattle.hashmod.specs.Hashing.{HasTaken};
ghost use Rattle.sha2.specs.Sha256.{sha256};
ghost use Rattle.model.specs.Substitutions.{written};
ghost use Rattle.model.specs.Settling.{AreApart, blanks, blanked_text, offsets_text};

use crate::hasher::Hasher;
use itoa::Buffer;

/// The length of a hash part in bytes.
const PART: usize = 32;

/// What stands in the place of a hash part.
const BLANK: [u8; 32] = [0; 32];

/// Hashes a text with the 32 bytes at each offset blanked.
fn hash_blanked(hasher: &mut Hasher, text: &[u8], offsets: &[u64])
    requires { AreApart 0 (length text.now) offsets.now }
    ensures { (m : List ℕ) → HasTaken hasher.old m → HasTaken hasher.new (m ++ written 0 (blanks offsets.now) text.now) }
{
    let mut from = 0;
    for offset in offsets {
        let at = *offset as usize;
        hasher.update(&text[from..at]);
        hasher.update(BLANK.as_slice());
        from = at + PART;
    }
    hasher.update(&text[from..]);
}

/// Hashes the offsets, each behind a bar.
fn hash_offsets(hasher: &mut Hasher, offsets: &[u64])
    ensures { (m : List ℕ) → HasTaken hasher.old m → HasTaken hasher.new (m ++ offsets_text offsets.now) }
{
    let mut digits = Buffer::new();
    for offset in offsets {
        hasher.update(b"|".as_slice());
        hasher.update(digits.format(*offset).as_bytes());
    }
}

/// The SHA-256 digest of a text with the 32 bytes at each offset blanked, followed by the offsets. The
/// text is not copied, and no memory is taken.
pub fn modulo_digest(text: &[u8], offsets: &[u64]) -> [u8; 32]
    requires { AreApart 0 (length text.now) offsets.now }
    ensures { result ≡ sha256 (blanked_text offsets.now text.now) }
{
    let mut hasher = Hasher::new();
    hash_blanked(&mut hasher, text, offsets);
    hash_offsets(&mut hasher, offsets);
    hasher.finish()
}
