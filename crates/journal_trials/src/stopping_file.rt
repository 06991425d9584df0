//! A file that stops.

ghost use Rattle.std.specs.Prelude.{◌^◌, ◌-◌, []};
ghost use Rattle.journal.specs.LogFile.{HasCause};

use journal::{LogError, LogFile};
use std::alloc::{AllocError, Global};

/// What is left of a change that was not synced.
#[derive(Clone, Copy)]
pub(crate) struct Torn {
    /// So many bytes of it are there.
    pub(crate) kept: usize,
    /// What the others are, if they do not stay as they were.
    pub(crate) fill: Option<u8>,
}

/// A file in memory that makes some calls which change it, and fails from then on. It reads short, as a system may.
/// Of what it does no clause says anything.
#[derive(Drop)]
pub(crate) struct StoppingFile<'a> {
    alloc: Global,
    /// What is read.
    bytes: Vec<u8>,
    /// What a crash leaves.
    disk: &'a mut Vec<u8>,
    /// So many calls are left.
    calls: usize,
    torn: Torn,
}

impl<'a> StoppingFile<'a> {
    /// A file with the bytes that are on a disk.
    pub(crate) fn new(
        alloc: Global,
        disk: &'a mut Vec<u8>,
        calls: usize,
        torn: Torn,
    ) -> Result<StoppingFile<'a>, AllocError> {
        let bytes = disk.to_vec(alloc)?;
        Ok(StoppingFile {
            alloc,
            bytes,
            disk,
            calls,
            torn,
        })
    }

    /// Takes one call away; none is left where it fails.
    fn call(&mut self) -> Result<(), LogError>
        ensures { HasCause (2 ^ 64 - 1) (2 ^ 64 - 1) result }
    {
        if self.calls == 0 {
            return Err(LogError::Failed);
        }
        self.calls -= 1;
        Ok(())
    }

    /// Puts on the disk what is torn of a write.
    fn tear(&mut self, at: usize, bytes: &[u8]) -> Result<(), AllocError> {
        let Torn { kept, fill } = self.torn;
        for (place, byte) in bytes.iter().enumerate() {
            let there = at.saturating_add(place);
            let Some(left) = (if place < kept { Some(*byte) } else { fill }) else {
                return Ok(());
            };
            put(self.disk, there, left)?;
        }
        Ok(())
    }
}

/// Puts a byte at a place, or behind the last.
fn put(bytes: &mut Vec<u8>, place: usize, byte: u8) -> Result<(), AllocError> {
    match bytes.get_mut(place) {
        Some(there) => *there = byte,
        None => bytes.push(byte)?,
    }
    Ok(())
}

impl LogFile for StoppingFile<'_> {
    ghost is_honest = { λ _. ⊥ };

    ghost seen = { λ _. [] };

    ghost may_leave = { λ _ _. ⊥ };

    ghost moment = { λ _. 0 };

    ghost left_since = { λ _ _ _. ⊥ };

    ghost faults = { λ _. 2 ^ 64 - 1 };

    ghost counts_now = { λ file t c le left. left };

    ghost only_now = { λ file c left. left };

    fn read(&mut self, alloc: Global, at: usize, most: usize) -> Result<Vec<u8>, LogError> {
        let from = at.min(self.bytes.len());
        let count = most.min(3).min(self.bytes.len() - from);
        Ok(self.bytes[from..from + count].to_vec(alloc)?)
    }

    fn write_at(&mut self, at: usize, bytes: &[u8]) -> Result<(), LogError> {
        self.tear(at, bytes)?;
        self.call()?;
        for (place, byte) in bytes.iter().enumerate() {
            put(&mut self.bytes, at.saturating_add(place), *byte)?;
        }
        Ok(())
    }

    fn cut(&mut self, len: usize) -> Result<(), LogError> {
        if self.torn.kept > 0 {
            self.disk.truncate(len);
        }
        self.call()?;
        self.bytes.truncate(len);
        Ok(())
    }

    fn sync(&mut self) -> Result<(), LogError> {
        self.call()?;
        *self.disk = self.bytes.to_vec(self.alloc)?;
        Ok(())
    }
}
