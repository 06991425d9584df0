//! A reader and a writer whose calls are counted, and of which one call may fail.

use crate::text::number;
use model::Refusal;
use session::Faults;
use std::alloc::Global;
use std::io;
use std::io::{ErrorKind, Read, Write};

/// What the calls of a reader or a writer do: each moves at most `step` bytes, the `part`th at most
/// one, and the `fails`th fails. There is no call of number 0.
#[derive(Clone, Copy)]
pub struct Calls {
    step: usize,
    part: usize,
    fails: usize,
}

impl Calls {
    /// Calls that move so many bytes each, of which one moves a single byte, and one fails.
    pub fn new(step: usize, part: usize, fails: usize) -> Calls {
        Calls { step, part, fails }
    }

    /// Calls of which none fails.
    pub fn sound(step: usize) -> Calls {
        Calls::new(step, 0, 0)
    }
}

/// `STEP PART FAILS`, and what follows the blank behind them.
pub fn calls_of(text: &str) -> Result<(Calls, &str), Refusal> {
    let (step, rest) = number(text)?;
    let (part, rest) = number(rest)?;
    let (fails, rest) = number(rest)?;
    Ok((Calls::new(step, part, fails), rest))
}

/// The calls so far.
#[derive(Drop)]
pub struct Count {
    calls: Calls,
    pub made: usize,
    failed: u64,
}

impl Count {
    fn new(calls: Calls) -> Count {
        Count {
            calls,
            made: 0,
            failed: 0,
        }
    }

    /// Counts a call. Gives how many bytes it moves at most.
    fn call(&mut self) -> io::Result<usize> {
        self.made = self.made.saturating_add(1);
        if self.made == self.calls.fails {
            self.failed = self.failed.saturating_add(1);
            Err(io::Error::from(ErrorKind::Other))
        } else if self.made == self.calls.part {
            Ok(1)
        } else {
            Ok(self.calls.step)
        }
    }
}

/// Gives its bytes.
#[derive(Drop)]
pub struct Source {
    bytes: Vec<u8>,
    at: usize,
    pub count: Count,
}

impl Source {
    pub fn new(bytes: Vec<u8>, calls: Calls) -> Source {
        Source {
            bytes,
            at: 0,
            count: Count::new(calls),
        }
    }
}

impl Faults for Source {
    ghost failed = { λ s. s.count.failed };

    fn failures(&self) -> u64 {
        self.count.failed
    }
}

impl Read for Source {
    fn read(&mut self, buf: &mut [u8]) -> io::Result<usize> {
        let most = self.count.call()?;
        let rest = self.bytes.as_slice().get(self.at..).unwrap_or(&[]);
        let n = rest.len().min(most).min(buf.len());
        buf[..n].copy_from_slice(&rest[..n]);
        self.at = self.at.saturating_add(n);
        Ok(n)
    }
}

/// Takes bytes, and shows them once it is flushed.
#[derive(Drop)]
pub struct Sink {
    pub bytes: Vec<u8>,
    pub shown: usize,
    pub flushes: u64,
    pub count: Count,
}

impl Sink {
    pub fn new(alloc: Global, calls: Calls) -> Sink {
        Sink {
            bytes: Vec::new(alloc),
            shown: 0,
            flushes: 0,
            count: Count::new(calls),
        }
    }
}

impl Faults for Sink {
    ghost failed = { λ s. s.count.failed };

    fn failures(&self) -> u64 {
        self.count.failed
    }
}

impl Write for Sink {
    fn write(&mut self, buf: &[u8]) -> io::Result<usize> {
        let most = self.count.call()?;
        let n = buf.len().min(most);
        match self.bytes.extend_from_slice(&buf[..n]) {
            Ok(()) => Ok(n),
            Err(_) => Err(io::Error::from(ErrorKind::OutOfMemory)),
        }
    }

    fn flush(&mut self) -> io::Result<()> {
        self.count.call()?;
        self.shown = self.bytes.len();
        self.flushes = self.flushes.saturating_add(1);
        Ok(())
    }
}
