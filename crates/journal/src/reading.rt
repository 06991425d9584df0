//! The rows of a file that a crash may have left, read one after another.

ghost use Rattle.std.specs.Prelude.{◌≡◌, ◌≤◌, ◌<◌, ◌^◌, ◌++◌, [], ◌∷◌, length, IfOk, OnOk, IsErrOf, MatchOption};
ghost use Rattle.journal.specs.LogFile.{Only, IsOnlyRead, LeavesOnly, HasFailed, HasCause};
ghost use Rattle.journal.specs.Rows.{rows_in, at_rest};

use crate::log_file::{LogError, LogFile};
use crate::pieces::Pieces;
use crate::row_file::RowFile;
use crate::synced::{cut_synced, write_synced};
use std::alloc::Global;

/// A file of which the first rows were read.
#[derive(Drop)]
pub struct Reading<D: LogFile> {
    /// The file.
    pub(crate) pieces: Pieces<D>,
    /// The place of the gate behind the rows that were read.
    pub(crate) end: usize,
}

impl<D: LogFile> Reading<D> {
    ghost use Rattle.journal.specs.Pieces.{rows_read, rows_left, HasRead, IsAtGate};
    ghost use Rattle.journal.specs.RowFiles.{IsSettled};

    /// A file of which no row was read.
    pub fn new(alloc: Global, file: D) -> Reading<D>
        // After a restart, what is read is what is on the disk.
        requires { D.is_honest file → Only (D.seen file) (D.may_leave file) }
        ensures file { result.pieces.file ≡ file }
        ensures end { result.end ≡ 0 }
        ensures gate { D.is_honest file → IsAtGate D.seen D.may_leave result }
    {
        Reading {
            pieces: Pieces::new(alloc, file),
            end: 0,
        }
    }

    /// Reads the next row; `None` where there is no row more. It holds a piece of the file and a row.
    ///
    /// # Errors
    /// `Memory` where that is refused, `Failed` where a call of the file fails, `Full` where a row stands behind the
    /// first 2^62 bytes.
    pub fn next_row(&mut self) -> Result<Option<Vec<u8>>, LogError>
        requires { D.is_honest self.old.pieces.file → IsAtGate D.seen D.may_leave self.old }

        ensures row { IfOk result (λ row. D.is_honest self.new.pieces.file → MatchOption row
            (rows_left D.seen self.new ≡ [])
            (λ row. (rows_left D.seen self.old ≡ row.items ∷ rows_left D.seen self.new)
            × (rows_read D.seen self.new ≡ rows_read D.seen self.old ++ row.items ∷ [])
            × IsAtGate D.seen D.may_leave self.new)) }
        ensures none { IfOk result (λ row. MatchOption row (self.new.end ≡ self.old.end) (λ _. Unit {0})) }
        ensures has_read { D.is_honest self.new.pieces.file → HasRead D.seen D.may_leave self.new }
        ensures file { IsOnlyRead D.seen D.may_leave D.moment D.left_since self.old.pieces.file self.new.pieces.file }
        ensures honest { D.is_honest self.new.pieces.file → D.is_honest self.old.pieces.file }
        ensures failed { IsErrOf result LogError.Failed → HasFailed (D.faults self.old.pieces.file) (D.faults self.new.pieces.file) }
        ensures later { D.faults self.old.pieces.file ≤ D.faults self.new.pieces.file }
        ensures full { IsErrOf result LogError.Full → 2 ^ 62 < self.new.pieces.window.place }
    {
        let Some(gate) = self.pieces.line()? else {
            return Ok(None);
        };
        if !gate.is_empty() {
            return Ok(None);
        }
        let Some(row) = self.pieces.line()? else {
            return Ok(None);
        };
        self.end = self.pieces.window.place;
        Ok(Some(row))
    }

    /// Shuts the file: cuts what stands behind its rows, and puts a closed gate there. It may crash too.
    ///
    /// # Errors
    /// `Failed` where a call of the file fails.
    pub fn shut(&mut self) -> Result<(), LogError>
        requires read { D.is_honest self.old.pieces.file → HasRead D.seen D.may_leave self.old }
        requires all { D.is_honest self.old.pieces.file → rows_left D.seen self.old ≡ [] }

        ensures at_rest { OnOk result (D.is_honest self.new.pieces.file →
            D.seen self.new.pieces.file ≡ at_rest (rows_in (D.seen self.old.pieces.file))) }
        ensures durable { OnOk result (D.is_honest self.new.pieces.file →
            Only (D.seen self.new.pieces.file) (D.may_leave self.new.pieces.file)) }
        ensures end { self.new.end ≡ self.old.end }

        // A crash at any moment leaves the same rows.
        ensures any_moment { D.is_honest self.new.pieces.file →
            LeavesOnly D.moment D.left_since self.old.pieces.file self.new.pieces.file
            (λ c. rows_in c ≡ rows_in (D.seen self.old.pieces.file)) }
        ensures honest { D.is_honest self.new.pieces.file → D.is_honest self.old.pieces.file }
        ensures cause { HasCause (D.faults self.old.pieces.file) (D.faults self.new.pieces.file) result }
    {
        cut_synced(&mut self.pieces.file, self.end)?;
        // The cut has to be on the disk first: behind a gate that is torn open, what was there would count.
        write_synced(&mut self.pieces.file, self.end, b"#")
    }
}
