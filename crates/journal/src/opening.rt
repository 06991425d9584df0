//! A history that is opened: read row by row, each seal looked at, and then shut.

ghost use Rattle.std.specs.Prelude.{◌≡◌, ◌<◌, ◌^◌, [], ◌∷◌, IfOk, IfErr, OnOk, IsErrOf, MatchOption};
ghost use Rattle.journal.specs.LogFile.{Only, IsOnlyRead, LeavesOnly, HasFailed, HasCause};
ghost use Rattle.journal.specs.Rows.{rows_in, rows_text};
ghost use Rattle.journal.specs.Seals.{header_row};
ghost use Rattle.journal.specs.declared.log_file.LogError.TheVariants.{Memory};

use crate::group::is_comment;
use crate::journal::{Journal, VERSION};
use crate::log_file::{LogError, LogFile};
use crate::reading::Reading;
use crate::row_file::RowFile;
use crate::seal::replies_of;
use crate::text_digest::TextDigest;
use std::alloc::{AllocError, Global};

/// What stands next in a history.
#[derive(Drop)]
pub enum Part {
    /// The row of an event.
    Event(Vec<u8>),
    /// The end of a group: the digest of the replies to its rows.
    Seal([u8; 32]),
}

/// Why a file is not opened.
#[derive(Clone, Copy, Debug, PartialEq, Eq)]
pub enum OpenError {
    /// The file or memory failed.
    Log(LogError),
    /// The file does not begin with the header of a history of this version.
    NotAHistory,
    /// Its header has other settings.
    OtherSettings,
    /// A group ends without its seal, or a seal does not hold: the place of its row, in bytes.
    Broken(usize),
}

impl From<LogError> for OpenError {
    ghost use Rattle.journal.specs.declared.opening.OpenError.TheVariants.{Log};

    ghost from_gives = { λ error e. e ≡ Log error };

    fn from(error: LogError) -> Self {
        OpenError::Log(error)
    }
}

impl From<AllocError> for OpenError {
    ghost use Rattle.journal.specs.declared.opening.OpenError.TheVariants.{Log};

    ghost from_gives = { λ _ e. e ≡ Log Memory };

    fn from(_: AllocError) -> Self {
        OpenError::Log(LogError::Memory)
    }
}

/// A file that is opened as a history: `header` and then `next` read it and change nothing, `shut` shuts it behind
/// the last row, and `into_journal` lets it grow.
#[derive(Drop)]
pub struct Opening<D: LogFile> {
    pub(crate) reading: Reading<D>,
    /// The digest of the text of the rows that were read.
    pub(crate) text: TextDigest,
    /// Whether the last of them ends a group.
    pub(crate) closed: bool,
}

impl<D: LogFile> Opening<D> {
    ghost use Rattle.journal.specs.Pieces.{rows_read, rows_left};
    ghost use Rattle.journal.specs.Openings.{IsUnread, IsOpening, IsAllRead, IsShut, HasReadPart, IsHeaderFault, IsRowFault};
    ghost use Rattle.journal.specs.Journals.{IsJournal};
    ghost use Rattle.journal.specs.declared.log_file.LogError.TheVariants.{Failed};
    ghost use Rattle.journal.specs.declared.opening.OpenError.TheVariants.{Log};

    /// A file of which nothing was read.
    pub fn new(alloc: Global, file: D) -> Opening<D>
        // After a restart, what is read is what is on the disk.
        requires { D.is_honest file → Only (D.seen file) (D.may_leave file) }
        ensures file { result.reading.pieces.file ≡ file }
        ensures unread { D.is_honest file → IsUnread D.seen D.may_leave result }
    {
        Opening {
            reading: Reading::new(alloc, file),
            text: TextDigest::new(),
            closed: true,
        }
    }

    /// Reads the first row, which has to be the header of a history with these settings.
    ///
    /// # Errors
    /// `NotAHistory` where there is none, or of another version; `OtherSettings` where it has other settings; `Log`
    /// where the file or memory fails. The file is left as it is.
    pub fn header(&mut self, settings: &[u8]) -> Result<(), OpenError>
        requires { D.is_honest self.old.reading.pieces.file → IsUnread D.seen D.may_leave self.old }

        ensures opened { OnOk result (D.is_honest self.new.reading.pieces.file → IsOpening D.seen D.may_leave self.new
            × (rows_read D.seen self.new.reading ≡ header_row settings.now ∷ [])) }
        ensures refused { IfErr result (λ error. D.is_honest self.new.reading.pieces.file →
            IsHeaderFault settings.now (rows_in (D.seen self.old.reading.pieces.file)) error) }
        ensures file { IsOnlyRead D.seen D.may_leave D.moment D.left_since
            self.old.reading.pieces.file self.new.reading.pieces.file }
        ensures honest { D.is_honest self.new.reading.pieces.file → D.is_honest self.old.reading.pieces.file }
        ensures failed { result ≡ Err (Log Failed) →
            HasFailed (D.faults self.old.reading.pieces.file) (D.faults self.new.reading.pieces.file) }
    {
        let Some(row) = self.reading.next_row()? else {
            return Err(OpenError::NotAHistory);
        };
        let Some(given) = row.strip_prefix(VERSION) else {
            return Err(OpenError::NotAHistory);
        };
        if given != settings {
            return Err(OpenError::OtherSettings);
        }
        self.text.take_row(&row);
        self.closed = true;
        Ok(())
    }

    /// Reads the next row: an event, or the seal of the group before it, which holds; `None` where there is none more.
    ///
    /// # Errors
    /// `Broken` where a group ends without its seal, or a comment is no seal of all that stands before it; `Log` where
    /// the file or memory fails. The file is left as it is.
    pub fn next(&mut self, alloc: Global) -> Result<Option<Part>, OpenError>
        requires { D.is_honest self.old.reading.pieces.file → IsOpening D.seen D.may_leave self.old }

        ensures part { IfOk result (λ part. D.is_honest self.new.reading.pieces.file → MatchOption part
            (IsAllRead D.seen D.may_leave self.new)
            (HasReadPart D.seen D.may_leave self.old self.new)) }
        ensures refused { IfErr result (λ error. D.is_honest self.new.reading.pieces.file →
            IsRowFault self.old.reading.end (rows_text (rows_read D.seen self.old.reading)) self.old.closed
            (rows_left D.seen self.old.reading) error) }
        ensures file { IsOnlyRead D.seen D.may_leave D.moment D.left_since
            self.old.reading.pieces.file self.new.reading.pieces.file }
        ensures honest { D.is_honest self.new.reading.pieces.file → D.is_honest self.old.reading.pieces.file }
        ensures failed { result ≡ Err (Log Failed) →
            HasFailed (D.faults self.old.reading.pieces.file) (D.faults self.new.reading.pieces.file) }
    {
        let place = self.reading.end;
        let Some(row) = self.reading.next_row()? else {
            return if self.closed {
                Ok(None)
            } else {
                Err(OpenError::Broken(place))
            };
        };
        if !is_comment(&row) {
            self.text.take_row(&row);
            self.closed = false;
            return Ok(Some(Part::Event(row)));
        }
        let before = self.text.digest()?;
        let Some(replies) = replies_of(alloc, &before, &row)? else {
            return Err(OpenError::Broken(place));
        };
        self.text.take_row(&row);
        self.closed = true;
        Ok(Some(Part::Seal(replies)))
    }

    /// The place behind the rows that were read, in bytes.
    pub fn place(&self) -> usize
        ensures { result ≡ self.now.reading.end }
    {
        self.reading.end
    }

    /// Shuts a file of which all rows were read: cuts what a crash left behind them. It may crash too.
    ///
    /// # Errors
    /// `Failed` where a call of the file fails.
    pub fn shut(&mut self) -> Result<(), LogError>
        requires { D.is_honest self.old.reading.pieces.file → IsAllRead D.seen D.may_leave self.old }

        ensures shut { OnOk result (D.is_honest self.new.reading.pieces.file → IsShut D.seen D.may_leave self.new
            × (rows_in (D.seen self.new.reading.pieces.file) ≡ rows_in (D.seen self.old.reading.pieces.file))) }

        // A crash at any moment leaves the same rows.
        ensures any_moment { D.is_honest self.new.reading.pieces.file →
            LeavesOnly D.moment D.left_since self.old.reading.pieces.file self.new.reading.pieces.file
            (λ c. rows_in c ≡ rows_in (D.seen self.old.reading.pieces.file)) }
        ensures honest { D.is_honest self.new.reading.pieces.file → D.is_honest self.old.reading.pieces.file }
        ensures cause { HasCause (D.faults self.old.reading.pieces.file) (D.faults self.new.reading.pieces.file) result }
    {
        self.reading.shut()
    }

    /// The history of a file that was shut.
    pub fn into_journal(self) -> Journal<D>
        requires { D.is_honest self.reading.pieces.file → IsShut D.seen D.may_leave self }
        ensures file { result.rows.file ≡ self.reading.pieces.file }
        ensures journal { D.is_honest result.rows.file → IsJournal D.seen D.may_leave result }
    {
        let Opening {
            reading,
            text,
            closed: _,
        } = self;
        let Reading { pieces, end } = reading;
        Journal {
            rows: RowFile {
                file: pieces.into_file(),
                end,
            },
            text,
        }
    }
}
