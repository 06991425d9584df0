//! The text of rows.

ghost use Rattle.std.specs.Prelude.{◌≡◌, ◌++◌, [], ◌∷◌, IfOk, IsTrue, ◌↔◌};
ghost use Rattle.journal.specs.Rows.{rows_in, rows_text, at_rest, IsPlain};

use crate::cutting::cut;
use std::alloc::{AllocError, Global};

/// Rows that are written together.
#[derive(Drop)]
pub struct Rows {
    /// The rows as in a file: each behind an open gate, and a closed gate at the end.
    pub(crate) bytes: Vec<u8>,
    ghost rest: { bytes.items ≡ at_rest (rows_in bytes.items) },
}

impl Rows {
    /// No rows.
    pub fn new(alloc: Global) -> Result<Rows, AllocError>
        ensures { IfOk result (λ rows. rows_in rows.bytes.items ≡ []) }
    {
        let mut bytes = Vec::new(alloc);
        bytes.push(b'#')?;
        Ok(Rows { bytes })
    }

    /// A row more, which has no newline.
    pub fn and(self, row: &[u8]) -> Result<Rows, AllocError>
        requires { IsPlain row.now }
        ensures { IfOk result (λ rows. rows_in rows.bytes.items ≡ rows_in self.bytes.items ++ row.now ∷ []) }
    {
        let Rows { mut bytes } = self;
        let _gate = bytes.pop();
        bytes.extend_from_slice(b"\n")?;
        bytes.extend_from_slice(row)?;
        bytes.extend_from_slice(b"\n#")?;
        Ok(Rows { bytes })
    }

    /// The text of the rows, without the closed gate.
    pub(crate) fn text(&self) -> &[u8]
        ensures { result.now ≡ rows_text (rows_in self.now.bytes.items) }
    {
        &self.bytes[..self.bytes.len() - 1]
    }
}

/// Whether a text has no newline.
pub(crate) fn is_plain(text: &[u8]) -> bool
    ensures { IsTrue result ↔ IsPlain text.now }
{
    match cut(b'\n', text) {
        None => true,
        Some(_) => false,
    }
}
