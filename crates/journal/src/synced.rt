//! Changes of a file that are on the disk when they are told.

ghost use Rattle.std.specs.Prelude.{◌≡◌, ◌≤◌, length, take, OnOk};
ghost use Rattle.journal.specs.LogFile.{Only, Torn, Cut, Holds, LeavesOnly, HasCause};

use crate::log_file::{LogError, LogFile};

/// Writes at a place of a file that is on the disk, and syncs.
pub(crate) fn write_synced<D: LogFile>(
    file: &mut D,
    at: usize,
    bytes: &[u8],
) -> Result<(), LogError>
    requires durable { D.is_honest file.old → Only (D.seen file.old) (D.may_leave file.old) }
    requires place { D.is_honest file.old → at ≤ length (D.seen file.old) }

    ensures written { OnOk result (D.is_honest file.new → Holds (D.seen file.old) at bytes.now (D.seen file.new)) }
    ensures durable { OnOk result (D.is_honest file.new → Only (D.seen file.new) (D.may_leave file.new)) }
    ensures any_moment { D.is_honest file.new → LeavesOnly D.moment D.left_since file.old file.new
        (Torn at (length bytes.now) (D.seen file.old)) }
    ensures honest { D.is_honest file.new → D.is_honest file.old }
    ensures cause { HasCause (D.faults file.old) (D.faults file.new) result }
{
    file.write_at(at, bytes)?;
    file.sync()
}

/// Cuts a file that is on the disk, and syncs.
pub(crate) fn cut_synced<D: LogFile>(file: &mut D, len: usize) -> Result<(), LogError>
    requires durable { D.is_honest file.old → Only (D.seen file.old) (D.may_leave file.old) }
    requires place { D.is_honest file.old → len ≤ length (D.seen file.old) }

    ensures cut { OnOk result (D.is_honest file.new → D.seen file.new ≡ take len (D.seen file.old)) }
    ensures durable { OnOk result (D.is_honest file.new → Only (D.seen file.new) (D.may_leave file.new)) }
    ensures any_moment { D.is_honest file.new → LeavesOnly D.moment D.left_since file.old file.new
        (Cut len (D.seen file.old)) }
    ensures honest { D.is_honest file.new → D.is_honest file.old }
    ensures cause { HasCause (D.faults file.old) (D.faults file.new) result }
{
    file.cut(len)?;
    file.sync()
}
