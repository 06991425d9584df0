//! Rows that are added together.

ghost use Rattle.std.specs.Prelude.{◌≡◌, ◌++◌, [], ◌∷◌, IfOk, IsTrue, ◌↔◌};
ghost use Rattle.journal.specs.Rows.{rows_in};
ghost use Rattle.journal.specs.Seals.{IsEvent, AreEvents};

use crate::rows::{Rows, is_plain};
use std::alloc::{AllocError, Global};

/// Rows that are added together, all of them or none.
#[derive(Drop)]
pub struct Group {
    pub(crate) rows: Rows,
    ghost events: { AreEvents (rows_in rows.bytes.items) },
}

impl Group {
    /// No rows.
    pub fn new(alloc: Global) -> Result<Group, AllocError>
        ensures { IfOk result (λ group. rows_in group.rows.bytes.items ≡ []) }
    {
        Ok(Group {
            rows: Rows::new(alloc)?,
        })
    }

    /// A row more: a text for which [`is_event`] holds.
    pub fn and(self, row: &[u8]) -> Result<Group, AllocError>
        requires { IsEvent row.now }
        ensures { IfOk result (λ group. rows_in group.rows.bytes.items ≡ rows_in self.rows.bytes.items ++ row.now ∷ []) }
    {
        let Group { rows } = self;
        Ok(Group {
            rows: rows.and(row)?,
        })
    }
}

/// Whether a text may be a row of a group: it has no newline, and is no comment.
pub fn is_event(text: &[u8]) -> bool
    ensures { IsTrue result ↔ IsEvent text.now }
{
    is_plain(text) && !is_comment(text)
}

/// Whether a line is a comment.
pub(crate) fn is_comment(line: &[u8]) -> bool
    ensures { result ≡ Rattle.journal.specs.Seals.is_comment line.now }
{
    line.first() == Some(&b'#')
}
