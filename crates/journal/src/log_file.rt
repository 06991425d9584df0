//! A file that a journal is written to: what its calls do, and what a crash may leave of it.

ghost use Rattle.std.specs.Prelude.{◌≡◌, ◌≤◌, List, ℕ, length, take, drop, IfOk, OnOk};
ghost use Rattle.journal.specs.declared.log_file.LogError.TheVariants.{Memory};
ghost use Rattle.journal.specs.LogFile.{Only, NoMore, Follows, Torn, Cut, Holds, Elapses, HasCause};

use std::alloc::{AllocError, AllocFailed, Global};

/// Why a call of a journal or of its file gave up.
#[derive(Clone, Copy, Debug, PartialEq, Eq)]
pub enum LogError {
    /// Memory was refused.
    Memory,
    /// A call of the file failed.
    Failed,
    /// A place in the file is behind its first 2^62 bytes.
    Full,
}

impl From<AllocError> for LogError {
    ghost from_gives = { λ _ e. e ≡ Memory };

    fn from(_: AllocError) -> Self {
        LogError::Memory
    }
}

impl<T: Drop> From<AllocFailed<T>> for LogError {
    ghost from_gives = { λ _ e. e ≡ Memory };

    fn from(_: AllocFailed<T>) -> Self {
        LogError::Memory
    }
}

/// A file, of which it is known what its calls do as long as it is honest.
///
/// Of an honest file a crash may leave any bytes where something was written and not synced since. Bytes beside a
/// write stay, and a sync tells the truth. A file that cannot promise that, as one of the system, is never honest.
pub trait LogFile {
    /// All that it has answered so far is so.
    ghost is_honest: { Self → Type 0 };

    /// The bytes that are read.
    ghost seen: { Self → List ℕ };

    /// What a crash at this moment may leave.
    ghost may_leave: { Self → List ℕ → Type 0 };

    /// The moment, as a number that does not fall.
    ghost moment: { Self → ℕ };

    /// What a crash at some moment from that one on might have left, during a call or between two.
    ghost left_since: { Self → ℕ → List ℕ → Type 0 };

    /// How often it has failed.
    ghost faults: { Self → ℕ };

    /// At most so many bytes from this place on; fewer only where the file ends.
    fn read(&mut self, alloc: Global, at: usize, most: usize) -> Result<Vec<u8>, LogError>
        ensures bytes { IfOk result (λ bytes. is_honest self.new → bytes.items ≡ take most (drop at (seen self.old))) }
        ensures honest { is_honest self.new → is_honest self.old }
        ensures seen { seen self.new ≡ seen self.old }
        ensures crash { NoMore (may_leave self.old) (may_leave self.new) }
        ensures time { Elapses moment left_since may_leave self.old self.new }
        ensures cause { HasCause (faults self.old) (faults self.new) result };

    /// Writes over what is there, and past the end. Until a sync a crash may leave any bytes in the range.
    fn write_at(&mut self, at: usize, bytes: &[u8]) -> Result<(), LogError>
        requires { is_honest self.old → at ≤ length (seen self.old) }
        ensures written { OnOk result (is_honest self.new → Holds (seen self.old) at bytes.now (seen self.new)) }
        ensures honest { is_honest self.new → is_honest self.old }
        ensures crash { Follows (Torn at (length bytes.now)) (may_leave self.old) (may_leave self.new) }
        ensures time { Elapses moment left_since may_leave self.old self.new }
        ensures cause { HasCause (faults self.old) (faults self.new) result };

    /// Cuts the file to a length in bytes.
    fn cut(&mut self, len: usize) -> Result<(), LogError>
        requires { is_honest self.old → len ≤ length (seen self.old) }
        ensures cut { OnOk result (is_honest self.new → seen self.new ≡ take len (seen self.old)) }
        ensures honest { is_honest self.new → is_honest self.old }
        ensures crash { Follows (Cut len) (may_leave self.old) (may_leave self.new) }
        ensures time { Elapses moment left_since may_leave self.old self.new }
        ensures cause { HasCause (faults self.old) (faults self.new) result };

    /// Puts all that was written on the disk: from then on a crash leaves what is read.
    fn sync(&mut self) -> Result<(), LogError>
        ensures durable { OnOk result (is_honest self.new → Only (seen self.old) (may_leave self.new)) }
        ensures honest { is_honest self.new → is_honest self.old }
        ensures seen { seen self.new ≡ seen self.old }
        ensures crash { NoMore (may_leave self.old) (may_leave self.new) }
        ensures time { Elapses moment left_since may_leave self.old self.new }
        ensures cause { HasCause (faults self.old) (faults self.new) result };

    /// This moment is one of those since an earlier one.
    ghost counts_now: { (file : Self) (t : ℕ) (c : List ℕ) → t ≤ moment file → may_leave file c → left_since file t c };

    /// Since this moment there is no other.
    ghost only_now: { (file : Self) (c : List ℕ) → left_since file (moment file) c → may_leave file c };
}
