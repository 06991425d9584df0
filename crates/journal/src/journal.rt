//! A history in a file.

ghost use Rattle.std.specs.Prelude.{◌≡◌, ◌*◌, ◌<◌, ◌^◌, ◌++◌, [], ◌∷◌, IfOk, OnOk, IsErrOf};
ghost use Rattle.journal.specs.LogFile.{Only, LeavesOnly, HasFailed};
ghost use Rattle.journal.specs.Rows.{rows_in, IsPlain, IsBeforeOrAfter};
ghost use Rattle.journal.specs.Seals.{header_row, sealed};

use crate::group::Group;
use crate::log_file::{LogError, LogFile};
use crate::row_file::RowFile;
use crate::rows::Rows;
use crate::seal::seal_of;
use crate::synced::write_synced;
use crate::text_digest::TextDigest;
use std::alloc::Global;

/// The first row of a history begins so.
pub(crate) const VERSION: &[u8] = b"#intstore history 1 ";

/// A history in a file: a header, and groups of rows, behind each of which stands its seal.
#[derive(Drop)]
pub struct Journal<D: LogFile> {
    pub(crate) rows: RowFile<D>,
    /// The digest of the text of the rows.
    pub(crate) text: TextDigest,
}

impl<D: LogFile + Drop> Journal<D> {
    ghost use Rattle.journal.specs.Journals.{IsJournal};

    /// Begins a history in an empty file: its header, with the settings that its rows are to be read with.
    ///
    /// # Errors
    /// `Memory` where that is refused, `Failed` where a call of the file fails.
    pub fn begin(alloc: Global, file: D, settings: &[u8]) -> Result<Journal<D>, LogError>
        requires plain { IsPlain settings.now }
        requires empty { D.is_honest file → D.seen file ≡ [] }
        requires durable { D.is_honest file → Only (D.seen file) (D.may_leave file) }
        ensures begun { IfOk result (λ journal. D.is_honest journal.rows.file → IsJournal D.seen D.may_leave journal
            × (rows_in (D.seen journal.rows.file) ≡ header_row settings.now ∷ [])) }
        ensures honest { IfOk result (λ journal. D.is_honest journal.rows.file → D.is_honest file) }
    {
        let mut header = Vec::new(alloc);
        header.extend_from_slice(VERSION)?;
        header.extend_from_slice(settings)?;
        let rows = Rows::new(alloc)?.and(&header)?;
        let mut text = TextDigest::new();
        text.take_row(&header);
        let mut file = file;
        write_synced(&mut file, 0, &rows.bytes)?;
        let end = rows.bytes.len() - 1;
        Ok(Journal {
            rows: RowFile { file, end },
            text,
        })
    }
}

impl<D: LogFile> Journal<D> {
    ghost use Rattle.journal.specs.Journals.{IsJournal};

    /// Adds a group with its seal, which has the digest of the replies to its rows. At `Ok` the replies may be told:
    /// from then on each crash leaves a file that has the rows. At `Err` the file is to be opened again.
    ///
    /// # Errors
    /// `Memory` where that is refused, `Failed` where a call of the file fails, `Full` where the rows end behind the
    /// first 2^62 bytes.
    pub fn append(
        &mut self,
        alloc: Global,
        group: Group,
        replies: &[u8; 32],
    ) -> Result<(), LogError>
        requires { D.is_honest self.old.rows.file → IsJournal D.seen D.may_leave self.old }

        ensures told { OnOk result (D.is_honest self.new.rows.file → IsJournal D.seen D.may_leave self.new
            × (rows_in (D.seen self.new.rows.file) ≡ rows_in (D.seen self.old.rows.file)
            ++ sealed (rows_in (D.seen self.old.rows.file)) (rows_in group.rows.bytes.items) replies.now)) }

        // A crash at any moment of the call leaves the rows from before it, with all of the group and its seal, or none.
        ensures any_moment { D.is_honest self.new.rows.file →
            LeavesOnly D.moment D.left_since self.old.rows.file self.new.rows.file
            (IsBeforeOrAfter (rows_in (D.seen self.old.rows.file))
            (sealed (rows_in (D.seen self.old.rows.file)) (rows_in group.rows.bytes.items) replies.now)) }

        ensures honest { D.is_honest self.new.rows.file → D.is_honest self.old.rows.file }

        // It does not give up by itself.
        ensures failed { IsErrOf result LogError.Failed →
            HasFailed (D.faults self.old.rows.file) (D.faults self.new.rows.file) }
        ensures full { IsErrOf result LogError.Full → 2 ^ 62 < self.old.rows.end }
    {
        let Group { rows } = group;
        self.text.take(rows.text());
        let before = self.text.digest()?;
        let seal = seal_of(alloc, &before, replies)?;
        self.text.take_row(&seal);
        let rows = rows.and(&seal)?;
        self.rows.append(&rows)
    }
}
