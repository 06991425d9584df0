//! A file in memory.

ghost use Rattle.std.specs.Prelude.{◌≡◌, ◌⊎◌, [], ◌∷◌, ◌++◌, length, drop, OnOk, OnErr};
ghost use Rattle.std.proofs.Common.{inl};
ghost use Rattle.journal.specs.Past.{HadBeen, only_bytes};

use crate::log_file::{LogError, LogFile};
use std::alloc::{AllocError, Global};

/// A file in memory, whose calls are done at once, so that a crash leaves what is there. It keeps each past content.
#[derive(Drop)]
pub struct MemoryLogFile {
    alloc: Global,
    bytes: Vec<u8>,
    past: Vec<Vec<u8>>,
}

impl MemoryLogFile {
    ghost use Rattle.journal.specs.Memory.{memory_bytes};

    /// A file with these bytes, all of them on the disk.
    pub fn new(alloc: Global, bytes: Vec<u8>) -> Self
        ensures { memory_bytes result ≡ bytes.items }
    {
        MemoryLogFile {
            alloc,
            bytes,
            past: Vec::new(alloc),
        }
    }

    /// The bytes of the file.
    pub fn bytes(&self) -> &[u8]
        ensures { result.now ≡ memory_bytes self.now }
    {
        &self.bytes
    }
}

/// Puts other bytes in the place of those that are there, which it keeps.
fn replace(
    alloc: Global,
    bytes: &mut Vec<u8>,
    past: &mut Vec<Vec<u8>>,
    next: Vec<u8>,
) -> Result<(), AllocError>
    ensures ok { OnOk result (bytes.new.items ≡ next.items) }
    ensures err { OnErr result (bytes.new.items ≡ bytes.old.items) }
    ensures past { OnOk result ((v : _) × (v.items ≡ bytes.old.items) × (past.new.items ≡ past.old.items ++ v ∷ [])) }
    ensures past_err { OnErr result (past.new.items ≡ past.old.items) }
{
    past.push(bytes.to_vec(alloc)?)?;
    *bytes = next;
    Ok(())
}

impl LogFile for MemoryLogFile {
    ghost is_honest = { λ _. Unit {0} };

    ghost seen = { λ file. file.bytes.items };

    ghost may_leave = { λ file c. c ≡ file.bytes.items };

    ghost moment = { λ file. length file.past.items };

    ghost left_since = { λ file t c. (c ≡ file.bytes.items) ⊎ HadBeen (drop t file.past.items) c };

    ghost faults = { λ _. 0 };

    ghost counts_now = { λ file t c le now. inl now };

    ghost only_now = { λ file c left. only_bytes file.past.items file.bytes.items c left };

    fn read(&mut self, alloc: Global, at: usize, most: usize) -> Result<Vec<u8>, LogError> {
        let from = at.min(self.bytes.len());
        let count = most.min(self.bytes.len() - from);
        Ok(self.bytes[from..from + count].to_vec(alloc)?)
    }

    fn write_at(&mut self, at: usize, bytes: &[u8]) -> Result<(), LogError> {
        let mut next = self.bytes[..at].to_vec(self.alloc)?;
        next.extend_from_slice(bytes)?;
        if bytes.len() < self.bytes.len() - at {
            next.extend_from_slice(&self.bytes[at + bytes.len()..])?;
        }
        Ok(replace(self.alloc, &mut self.bytes, &mut self.past, next)?)
    }

    fn cut(&mut self, len: usize) -> Result<(), LogError> {
        let next = self.bytes[..len].to_vec(self.alloc)?;
        Ok(replace(self.alloc, &mut self.bytes, &mut self.past, next)?)
    }

    fn sync(&mut self) -> Result<(), LogError> {
        Ok(())
    }
}
