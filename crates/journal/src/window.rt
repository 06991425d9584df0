//! The part of a file that is at hand.

ghost use Rattle.std.specs.Prelude.{◌≡◌, ◌+◌, ◌^◌, ◌≤◌, ◌<◌, [], ℕ, length, drop, vec_len, OnOk, OnErr, IfErr};
ghost use Rattle.journal.specs.declared.log_file.LogError.TheVariants.{Full};

use crate::log_file::LogError;
use std::alloc::Global;

/// The bytes of a file at hand, and their place.
#[derive(Drop)]
pub struct Window {
    /// The place of the next byte.
    pub(crate) place: usize,
    /// What was read last.
    bytes: Vec<u8>,
    /// So much of that was taken.
    start: usize,
    ghost within: { start ≤ vec_len bytes },
    ghost bounded: { place + vec_len bytes < 2 ^ 64 + start },
}

impl Window {
    ghost use Rattle.journal.specs.Windows.{at_hand};

    /// Nothing, at the beginning of the file.
    pub(crate) fn new(alloc: Global) -> Window
        ensures place { result.place ≡ 0 }
        ensures none { at_hand result ≡ [] }
    {
        Window {
            place: 0,
            bytes: Vec::new(alloc),
            start: 0,
        }
    }

    /// The bytes at hand.
    pub(crate) fn at_hand(&self) -> &[u8]
        ensures { result.now ≡ at_hand self.now }
    {
        &self.bytes[self.start..]
    }

    /// Takes bytes that are at hand.
    pub(crate) fn take(&mut self, count: usize)
        requires { count ≤ length (at_hand self.old) }
        ensures place { self.new.place ≡ self.old.place + count }
        ensures at_hand { at_hand self.new ≡ drop count (at_hand self.old) }
    {
        self.place += count;
        self.start += count;
    }

    /// Puts other bytes in the place of those at hand.
    pub(crate) fn fill(&mut self, bytes: Vec<u8>) -> Result<(), LogError>
        ensures at_hand { OnOk result (at_hand self.new ≡ bytes.items) }
        ensures place { self.new.place ≡ self.old.place }
        ensures same { OnErr result (self.new ≡ self.old) }
        ensures full { IfErr result (λ e. (e ≡ Full) × (2 ^ 62 < self.old.place)) }
    {
        if self.place.checked_add(bytes.len()).is_none() {
            return Err(LogError::Full);
        }
        self.bytes = bytes;
        self.start = 0;
        Ok(())
    }
}
