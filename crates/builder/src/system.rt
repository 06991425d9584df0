//! The files and processes of the machine.

ghost use Rattle.std.specs.Io.{ReadsAtMost};
ghost use Rattle.builder.specs.Steps.{nothing_said};

use crate::command::Streams;
use crate::deadline::Deadline;
use crate::log::{Log, Tail};
use crate::outside::Outside;
use crate::written::Written;
use std::fs::{Files, OpenOptions};
use std::io::{Error, ErrorKind, Read, Write};
use std::process::{Child, ChildStdout, Command, ExitStatus, Processes, SystemProcess};
use std::time::Clock;
use std::{fs, io};

/// How often a call is made in all that signals interrupt.
const MOST_TRIES: u32 = 1_000;

/// How much is read of an output at once: a page of its pipe.
const PIECE: usize = 4_096;

/// Reads. A call that a signal interrupts is made again.
fn read_again<R: Read>(reader: &mut R, buffer: &mut [u8]) -> io::Result<usize>
    ensures { ReadsAtMost result buffer.new }
{
    for _ in 1..u64::MAX {
        match reader.read(buffer) {
            Err(error) if error.kind() == ErrorKind::Interrupted => {}
            read => return read,
        }
    }
    reader.read(buffer)
}

/// The files and processes of the machine, through the runtime. A call that a signal interrupts is made again.
#[derive(Drop)]
pub struct System<'a, R> {
    rt: &'a R,
    limit: Option<u64>,
}

impl<'a, R: Files + Processes<Started = SystemProcess> + Clock> System<'a, R> {
    /// Those of this runtime. Where builders are kept to so many seconds, what a child of one keeps open is not waited for
    /// longer than 5 seconds behind that: reading the output fails then.
    pub fn new(rt: &'a R, limit: Option<u64>) -> System<'a, R> {
        System { rt, limit }
    }

    /// Starts a process, or fails, at the first signal too.
    fn start_once(
        &self,
        command: &Command,
        streams: &Streams,
    ) -> io::Result<(Child<SystemProcess>, ChildStdout)> {
        let Streams {
            stdin,
            stdout,
            stderr,
        } = streams;
        let mut child = self.rt.spawn(command, stdin, stdout, stderr)?;
        match child.stdout.take() {
            Some(output) => Ok((child, output)),
            None => {
                let _ = child.kill();
                let _ = child.wait();
                Err(Error::from(ErrorKind::BrokenPipe))
            }
        }
    }

    /// Starts a process. A call that a signal interrupts is made again.
    fn start_again(
        &self,
        command: &Command,
        streams: &Streams,
    ) -> io::Result<(Child<SystemProcess>, ChildStdout)> {
        for _ in 1..MOST_TRIES {
            match self.start_once(command, streams) {
                Err(error) if error.kind() == ErrorKind::Interrupted => {}
                started => return started,
            }
        }
        self.start_once(command, streams)
    }
}

impl<'a, R: Files + Processes<Started = SystemProcess> + Clock> Outside for System<'a, R> {
    type File = R::File;

    type Output = Written<'a, R, R::File>;

    type Process = Child<SystemProcess>;

    ghost steps = { nothing_said };

    fn remove(&mut self, path: &str) -> io::Result<()> {
        for _ in 1..MOST_TRIES {
            match fs::remove_file(self.rt, path) {
                Err(error) if error.kind() == ErrorKind::Interrupted => {}
                removed => return removed,
            }
        }
        fs::remove_file(self.rt, path)
    }

    fn open(&mut self, how: &OpenOptions, path: &str) -> io::Result<Self::File> {
        how.open(self.rt, path)
    }

    fn write(&mut self, file: &mut Self::File, bytes: &[u8]) -> io::Result<()> {
        file.write_all(bytes)
    }

    fn close(&mut self, file: Self::File) {
        drop(file);
    }

    fn start(
        &mut self,
        command: &Command,
        streams: &Streams,
        log: Option<Log<Self::File>>,
    ) -> io::Result<(Self::Process, Self::Output)>
        ensures { Unit {0} }
    {
        let deadline = Deadline::of(self.rt, self.limit)?;
        let (mut process, output) = self.start_again(command, streams)?;
        let stderr = process.stderr.take();
        let written = Written::new(self.rt, output, stderr, log, deadline);
        Ok((process, written))
    }

    fn read(&mut self, output: &mut Self::Output, kept: &mut Vec<u8>) -> io::Result<usize> {
        let mut piece = [0u8; PIECE];
        let count = read_again(output, &mut piece)?;
        kept.extend_from_slice(&piece[..count])?;
        Ok(count)
    }

    fn kill(&mut self, process: &mut Self::Process) {
        let _ = process.kill();
    }

    fn wait(
        &mut self,
        mut process: Self::Process,
        output: Self::Output,
    ) -> (io::Result<ExitStatus>, Option<Tail>) {
        let tail = output.read_to_end_of(&mut process);
        (process.wait(), tail)
    }
}
