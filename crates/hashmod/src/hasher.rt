//! SHA-256 of a text that comes in pieces.

ghost use Rattle.std.specs.Prelude.{◌≡◌, ◌++◌, ℕ, List, [], length, Ok, None};
ghost use Rattle.sha2.specs.Sha256.{sha256};

use sha2::{Digest, Sha256};
use std::io;
use std::io::Write;

/// What takes a text in pieces, and gives its SHA-256 digest, however the text was cut. It takes no memory.
///
/// It is a writer, which takes all that is written and never fails.
#[derive(Drop)]
pub struct Hasher {
    inner: Sha256,
}

impl Hasher {
    ghost use Rattle.hashmod.specs.Hashing.{HasTaken};

    /// A hasher that has taken nothing.
    pub fn new() -> Hasher
        ensures { HasTaken result [] }
    {
        Hasher {
            inner: Sha256::new(),
        }
    }

    /// Takes the next piece.
    pub fn update(&mut self, piece: &[u8])
        ensures { (taken : List ℕ) → HasTaken self.old taken → HasTaken self.new (taken ++ piece.now) }
    {
        self.inner.update(piece);
    }

    /// The digest of all that it has taken, however that was cut.
    pub fn finish(self) -> [u8; 32]
        ensures { (taken : List ℕ) → HasTaken self taken → result ≡ sha256 taken }
    {
        let Hasher { inner } = self;
        inner.finalize()
    }
}

impl Write for Hasher {
    ghost use Rattle.std.specs.Io.{WritesAtMost};
    ghost use Rattle.std.specs.Io.KnownBytes.{WriteAppends, Keeps};
    ghost use Rattle.hashmod.specs.Hashing.{HasTaken};

    fn write(&mut self, buf: &[u8]) -> io::Result<usize>
        ensures bound { WritesAtMost result buf.now }
        ensures bytes { WriteAppends None None result buf.now }
        ensures all { result ≡ Ok (length buf.now) }
        ensures taken { (taken : List ℕ) → HasTaken self.old taken → HasTaken self.new (taken ++ buf.now) }
    {
        self.update(buf);
        Ok(buf.len())
    }

    fn flush(&mut self) -> io::Result<()>
        ensures bytes { Keeps None None }
        ensures same { self.new ≡ self.old }
    {
        Ok(())
    }
}
