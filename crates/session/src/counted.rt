//! A reader and a writer that count their failures.

ghost use Rattle.std.specs.Prelude.{◌≡◌};
ghost use Rattle.std.specs.Io.{ReadsAtMost, WritesAtMost};
ghost use Rattle.std.specs.Io.KnownBytes.{Keeps, ReadConsumes, WriteAppends};
ghost use Rattle.session.specs.Counting.{Counts};

use nar::Faults;
use std::io;
use std::io::{ErrorKind, Read, Write};

/// A reader or a writer that counts how often it failed. An interruption is no failure. At the
/// greatest number the count stays.
#[derive(Drop)]
pub struct Counted<T: Drop> {
    inner: T,
    failures: u64,
}

impl<T: Drop> Counted<T> {
    /// A reader or a writer that has not failed.
    pub fn new(inner: T) -> Self
        ensures { (result.inner ≡ inner) × (result.failures ≡ 0) }
    {
        Counted { inner, failures: 0 }
    }

    /// What was read from or written to.
    pub fn into_inner(self) -> T
        ensures { result ≡ self.inner }
    {
        self.inner
    }

    /// Counts what came of a call.
    fn count<O>(&mut self, outcome: &io::Result<O>)
        ensures inner { self.new.inner ≡ self.old.inner }
        ensures counted { Counts self.old.failures outcome.now self.new.failures }
    {
        if let Err(error) = outcome {
            if error.kind() != ErrorKind::Interrupted {
                self.failures = self.failures.saturating_add(1);
            }
        }
    }
}

impl<T: Drop> Faults for Counted<T> {
    ghost failed = { λ counted. counted.failures };

    fn failures(&self) -> u64 {
        self.failures
    }
}

impl<R: Read + Drop> Read for Counted<R> {
    ghost remaining = { λ counted. R.remaining counted.inner };

    fn read(&mut self, buffer: &mut [u8]) -> io::Result<usize>
        ensures bound { ReadsAtMost result buffer.new }
        ensures bytes { ReadConsumes (R.remaining self.old.inner) (R.remaining self.new.inner) result buffer.new }
        ensures counted { Counts self.old.failures result self.new.failures }
    {
        let read = self.inner.read(buffer);
        self.count(&read);
        read
    }
}

impl<W: Write + Drop> Write for Counted<W> {
    ghost contents = { λ counted. W.contents counted.inner };

    fn write(&mut self, bytes: &[u8]) -> io::Result<usize>
        ensures bound { WritesAtMost result bytes.now }
        ensures bytes { WriteAppends (W.contents self.old.inner) (W.contents self.new.inner) result bytes.now }
        ensures counted { Counts self.old.failures result self.new.failures }
    {
        let written = self.inner.write(bytes);
        self.count(&written);
        written
    }

    fn flush(&mut self) -> io::Result<()>
        ensures bytes { Keeps (W.contents self.old.inner) (W.contents self.new.inner) }
        ensures counted { Counts self.old.failures result self.new.failures }
    {
        let flushed = self.inner.flush();
        self.count(&flushed);
        flushed
    }
}
