//! The digest of a text that grows.

ghost use Rattle.std.specs.Prelude.{◌≡◌, ◌++◌, ℕ, List, [], IfOk};
ghost use Rattle.sha2.specs.Sha256.{sha256};
ghost use Rattle.journal.specs.Rows.{row_text};

use sha2::{Digest, Sha256};
use std::alloc::AllocError;

/// The SHA-256 digest of a text that grows.
#[derive(Drop)]
pub struct TextDigest {
    inner: Sha256,
}

impl TextDigest {
    ghost use Rattle.journal.specs.TextDigests.{HasTaken};

    /// Of no text.
    pub(crate) fn new() -> TextDigest
        ensures { HasTaken result [] }
    {
        TextDigest {
            inner: Sha256::new(),
        }
    }

    /// Takes what the text grows by.
    pub(crate) fn take(&mut self, piece: &[u8])
        ensures { (text : List ℕ) → HasTaken self.old text → HasTaken self.new (text ++ piece.now) }
    {
        self.inner.update(piece);
    }

    /// Takes the text of a row.
    pub(crate) fn take_row(&mut self, row: &[u8])
        ensures { (text : List ℕ) → HasTaken self.old text → HasTaken self.new (text ++ row_text row.now) }
    {
        self.take(b"\n");
        self.take(row);
        self.take(b"\n");
    }

    /// The digest of the text so far.
    pub(crate) fn digest(&self) -> Result<[u8; 32], AllocError>
        ensures { IfOk result (λ digest. (text : List ℕ) → HasTaken self.now text → digest ≡ sha256 text) }
    {
        Ok(self.inner.clone()?.finalize())
    }
}
