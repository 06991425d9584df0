//! What is kept of what a builder writes to its standard error.

ghost use Rattle.std.specs.Prelude.{◌≡◌, ◌++◌, ◌-◌, [], length, take, IfOk, OnOk, OnErr};
ghost use Rattle.std.specs.Io.KnownBytes.{Appends};
ghost use Rattle.circular_buffer.specs.Buffer.{buffer, keep_last};
ghost use Rattle.builder.specs.Logs.{IsNewLog};

use circular_buffer::HeapCircularBuffer;
use std::alloc::{AllocError, Global};
use std::io;
use std::io::Write;
use std::path::PathBuf;

/// The most bytes that a log has: 16 MiB.
const MOST_KEPT: usize = 16_777_216;

/// The most bytes that a tail has.
const MOST_IN_TAIL: usize = 2_048;

/// The last bytes that a builder wrote to its standard error: 2,048 at most.
#[derive(Drop)]
pub struct Tail {
    bytes: HeapCircularBuffer<u8>,
}

impl Tail {
    /// A tail of nothing.
    fn new(alloc: Global) -> Result<Tail, AllocError>
        ensures { IfOk result (λ tail. tail.bytes ≡ buffer [] 2048) }
    {
        let bytes = HeapCircularBuffer::with_capacity(alloc, MOST_IN_TAIL)?;
        Ok(Tail { bytes })
    }

    /// Its bytes. The one error is memory.
    pub(crate) fn to_vec(&self, alloc: Global) -> Result<Vec<u8>, AllocError>
        ensures { IfOk result (λ v. v.items ≡ self.now.bytes.items) }
    {
        self.bytes.to_vec(alloc)
    }
}

/// A log that is written: the first 16 MiB of what it is handed go to its file, and the last of it are in its
/// tail, whether they went to the file or not.
#[derive(Drop)]
pub struct Log<W> {
    file: W,
    room: usize,
    tail: Tail,
}

impl<W: Write + Drop> Log<W> {
    /// A log in a file that is empty. The one error is memory.
    pub(crate) fn new(alloc: Global, file: W) -> Result<Log<W>, AllocError>
        ensures { IfOk result (IsNewLog file) }
    {
        let tail = Tail::new(alloc)?;
        Ok(Log {
            file,
            room: MOST_KEPT,
            tail,
        })
    }

    /// Takes what a builder wrote next. What there is no room for in the file is dropped.
    ///
    /// # Errors
    ///
    /// What writing to the file gave: nothing goes to it from then on.
    pub fn keep(&mut self, bytes: &[u8]) -> io::Result<()>
        ensures written { OnOk result
            (Appends (W.contents self.old.file) (W.contents self.new.file) (take self.old.room bytes.now)) }
        ensures room { OnOk result (self.new.room ≡ self.old.room - length bytes.now) }
        ensures failed { OnErr result (self.new.room ≡ 0) }
        ensures tail { self.new.tail.bytes ≡ buffer (keep_last self.old.tail.bytes.capacity
            (self.old.tail.bytes.items ++ bytes.now)) self.old.tail.bytes.capacity }
    {
        self.tail.bytes.extend_from_slice(bytes);
        let kept = if bytes.len() <= self.room {
            bytes
        } else {
            &bytes[..self.room]
        };
        let written = self.file.write_all(kept);
        self.room = if written.is_ok() {
            self.room - kept.len()
        } else {
            0
        };
        written
    }

    /// Closes it. Gives the last of what it was handed.
    pub fn into_tail(self) -> Tail
        ensures { result ≡ self.tail }
    {
        let Log { tail, .. } = self;
        tail
    }
}

/// A log that was kept.
#[derive(Drop)]
pub struct Logged {
    /// The name of its file.
    pub path: PathBuf,
    /// The last bytes that the builder wrote to its standard error, 2,048 at most; none where there was no memory for
    /// them.
    pub tail: Vec<u8>,
}
