//! Rows in a file, each group of them on the disk before it is told, or none of it.
//!
//! Before each row stands a gate, one byte: it is open if it is a newline, so that what is left is an empty line.
//! Behind the last row stands a closed one, `#`, which begins a comment. It is on the disk before anything is
//! written behind it, and is opened by a write of its own.

ghost use Rattle.std.specs.Prelude.{◌≡◌, ◌*◌, ◌<◌, ◌^◌, ◌++◌, List, ℕ, OnOk, IsErrOf};
ghost use Rattle.model.specs.Lines.{lines_of};
ghost use Rattle.journal.specs.LogFile.{LeavesOnly, HasFailed};
ghost use Rattle.journal.specs.Rows.{rows_in, at_rest, with_gates, ArePlain, IsBeforeOrAfter};
ghost use Rattle.journal.specs.RowFiles.{IsSettled, rows_of, HasFirst};

use crate::log_file::{LogError, LogFile};
use crate::rows::Rows;
use crate::synced::write_synced;

/// The rows of a file may end so far in it, in bytes.
pub const LONGEST: usize = 1 << 62;

/// A file of rows, and where they end.
#[derive(Drop)]
pub struct RowFile<D: LogFile> {
    /// The file.
    pub(crate) file: D,
    /// The place of the closed gate.
    pub(crate) end: usize,
}

impl<D: LogFile> RowFile<D> {
    /// Adds rows. At `Ok` they may be told: from then on each crash leaves a file that has them. At `Err` the file is
    /// to be opened again.
    ///
    /// # Errors
    /// `Failed` where a call of the file fails, `Full` where the rows end behind the first 2^62 bytes.
    pub fn append(&mut self, group: &Rows) -> Result<(), LogError>
        requires { D.is_honest self.old.file → IsSettled D.seen D.may_leave self.old }

        ensures told { OnOk result (D.is_honest self.new.file → IsSettled D.seen D.may_leave self.new
            × (rows_in (D.seen self.new.file) ≡ rows_in (D.seen self.old.file) ++ rows_in group.now.bytes.items)) }

        // A crash at any moment of the call leaves the rows from before it, with all of the group or none.
        ensures any_moment { D.is_honest self.new.file → LeavesOnly D.moment D.left_since self.old.file self.new.file
            (IsBeforeOrAfter (rows_in (D.seen self.old.file)) (rows_in group.now.bytes.items)) }

        ensures honest { D.is_honest self.new.file → D.is_honest self.old.file }

        // It does not give up by itself.
        ensures failed { IsErrOf result LogError.Failed → HasFailed (D.faults self.old.file) (D.faults self.new.file) }
        ensures full { IsErrOf result LogError.Full → 2 ^ 62 < self.old.end }
    {
        if self.end > LONGEST {
            return Err(LogError::Full);
        }
        if group.bytes.len() < 2 {
            return Ok(());
        }
        let gate = self.end;
        let body = &group.bytes[1..];
        write_synced(&mut self.file, gate + 1, body)?;
        write_synced(&mut self.file, gate, b"\n")?;
        self.end = gate + body.len();
        Ok(())
    }

    /// Adds groups, one after another. A crash at any moment leaves the first of them, each of them whole.
    ///
    /// # Errors
    /// Those of [`RowFile::append`].
    pub fn append_all(&mut self, groups: &[Rows]) -> Result<(), LogError>
        requires { D.is_honest self.old.file → IsSettled D.seen D.may_leave self.old }

        ensures told { OnOk result (D.is_honest self.new.file → IsSettled D.seen D.may_leave self.new
            × (rows_in (D.seen self.new.file) ≡ rows_in (D.seen self.old.file) ++ rows_of groups.now)) }
        ensures any_moment { D.is_honest self.new.file → LeavesOnly D.moment D.left_since self.old.file self.new.file
            (HasFirst (rows_in (D.seen self.old.file)) groups.now) }
    {
        for group in groups {
            self.append(group)?;
        }
        Ok(())
    }
}

/// The rows of a file have no newline, and are read back from its text; and the lines of that text are the rows, each
/// behind an empty line, and a comment.
pub fn rows_are_lines()
    ensures plain { (file : List ℕ) → ArePlain (rows_in file) }
    ensures read_back { (rows : List (List ℕ)) → ArePlain rows → rows_in (at_rest rows) ≡ rows }
    ensures lines { (rows : List (List ℕ)) → ArePlain rows → lines_of (at_rest rows) ≡ with_gates rows }
{}
