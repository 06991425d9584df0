//! What a process of the machine writes, as it is read.

use crate::deadline::Deadline;
use crate::log::{Log, Tail};
use libc::net::{POLLIN, poll};
use libc::types::pollfd;
use std::io;
use std::io::{Error, ErrorKind, Read, Write};
use std::os::fd::{AsRawFd, RawFd};
use std::process::{Child, ChildStderr, ChildStdout, SystemProcess};
use std::time::Clock;

/// How often in all it is asked what can be read, where the machine does not tell: a signal may interrupt it.
const MOST_TRIES: u32 = 1_000;

/// How long it is waited for a standard error alone before it is asked whether the process has ended, in
/// milliseconds.
const TURN: i32 = 100;

/// How many pieces are read of a standard error whose process has ended: 1 MiB, which is what a pipe may have, and no
/// more, so that nobody who writes on is waited for.
const MOST_LEFT: u32 = 64;

/// How much of a standard error is read at once.
const PIECE: usize = 16_384;

/// What is asked of a stream: whether it can be read without waiting, or is at its end.
fn asking(stream: RawFd) -> pollfd {
    pollfd {
        fd: stream,
        events: POLLIN,
        revents: 0,
    }
}

/// Waits until one of the streams can be read, for so many milliseconds, or without a limit where that is negative.
fn wait_for_any(asked: &mut [pollfd], limit: i32) -> io::Result<()> {
    for _ in 0..MOST_TRIES {
        if poll(asked, limit) >= 0 {
            return Ok(());
        }
    }
    Err(Error::from(ErrorKind::TimedOut))
}

/// Waits until one of the streams can be read.
///
/// # Errors
///
/// `TimedOut` where the deadline passes before.
fn wait_until(asked: &mut [pollfd], clock: &impl Clock, deadline: Deadline) -> io::Result<()> {
    for _ in 0..u64::MAX {
        let left = deadline.left(clock)?;
        wait_for_any(asked, left)?;
        if asked.iter().any(|stream| stream.revents != 0) {
            return Ok(());
        }
        if left == 0 {
            break;
        }
    }
    Err(Error::from(ErrorKind::TimedOut))
}

/// The standard error of a process, and the log that it goes into.
#[derive(Drop)]
struct Errors<F> {
    stream: ChildStderr,
    log: Log<F>,
    is_at_end: bool,
}

impl<F: Write + Drop> Errors<F> {
    /// Reads a piece of it into the log. What cannot be written there is let go.
    fn read_piece(&mut self) -> io::Result<()> {
        let mut piece = [0u8; PIECE];
        match self.stream.read(&mut piece) {
            Ok(0) => self.is_at_end = true,
            Ok(count) => {
                let _ = self.log.keep(&piece[..count]);
            }
            Err(error) if error.kind() == ErrorKind::Interrupted => {}
            Err(error) => return Err(error),
        }
        Ok(())
    }

    /// Reads what comes of it until the standard output can be read without waiting, or the deadline passes.
    fn read_beside(
        &mut self,
        output: &ChildStdout,
        clock: &impl Clock,
        deadline: Deadline,
    ) -> io::Result<()> {
        for _ in 0..u64::MAX {
            if self.is_at_end {
                break;
            }
            let mut asked = [asking(output.as_raw_fd()), asking(self.stream.as_raw_fd())];
            wait_until(&mut asked, clock, deadline)?;
            if asked[1].revents != 0 {
                self.read_piece()?;
            }
            if asked[0].revents != 0 {
                break;
            }
        }
        Ok(())
    }

    /// Reads a piece of it, if one comes within so many milliseconds. Whether one did.
    fn read_within(&mut self, limit: i32) -> io::Result<bool> {
        let mut asked = [asking(self.stream.as_raw_fd())];
        wait_for_any(&mut asked, limit)?;
        let comes = asked[0].revents != 0;
        if comes {
            self.read_piece()?;
        }
        Ok(comes)
    }

    /// Reads to its end, or until the process has ended, and then what it left.
    fn read_until_ended(&mut self, process: &mut Child<SystemProcess>) -> io::Result<()> {
        for _ in 0..u64::MAX {
            if self.is_at_end || process.try_wait()?.is_some() {
                break;
            }
            let _came = self.read_within(TURN)?;
        }
        for _ in 0..MOST_LEFT {
            if self.is_at_end || !self.read_within(0)? {
                break;
            }
        }
        Ok(())
    }
}

/// What a process of the machine writes. What is read of it is its standard output; and while that is waited for,
/// its standard error goes into its log, if it has one. Behind the deadline reading fails.
#[derive(Drop)]
pub struct Written<'a, R, F> {
    clock: &'a R,
    output: ChildStdout,
    errors: Option<Errors<F>>,
    deadline: Deadline,
}

impl<'a, R: Clock, F: Write + Drop> Written<'a, R, F> {
    /// What these streams give until the deadline.
    pub(crate) fn new(
        clock: &'a R,
        output: ChildStdout,
        stderr: Option<ChildStderr>,
        log: Option<Log<F>>,
        deadline: Deadline,
    ) -> Written<'a, R, F> {
        let errors = match (stderr, log) {
            (Some(stream), Some(log)) => Some(Errors {
                stream,
                log,
                is_at_end: false,
            }),
            _ => None,
        };
        Written {
            clock,
            output,
            errors,
            deadline,
        }
    }

    /// Waits until the standard output can be read, where the standard error is read meanwhile or there is a deadline.
    fn wait_for_output(&mut self) -> io::Result<()> {
        if let Some(errors) = &mut self.errors {
            errors.read_beside(&self.output, self.clock, self.deadline)?;
        }
        if self.deadline.is_set() {
            let mut asked = [asking(self.output.as_raw_fd())];
            wait_until(&mut asked, self.clock, self.deadline)?;
        }
        Ok(())
    }

    /// Closes the standard output, and reads what comes of the standard error until the process has ended. Where
    /// that cannot be read it is closed, so that the process does not wait for it. Gives the last of what went into
    /// the log, if there is one.
    pub(crate) fn read_to_end_of(self, process: &mut Child<SystemProcess>) -> Option<Tail> {
        let Written { output, errors, .. } = self;
        drop(output);
        let mut errors = errors?;
        let _read = errors.read_until_ended(process);
        Some(errors.log.into_tail())
    }
}

impl<R: Clock, F: Write + Drop> Read for Written<'_, R, F> {
    fn read(&mut self, buffer: &mut [u8]) -> io::Result<usize> {
        self.wait_for_output()?;
        self.output.read(buffer)
    }
}
