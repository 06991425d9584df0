//! What a runner reaches outside the program: files, and processes.

ghost use Rattle.builder.specs.Pieces.{ReadsBehind};
ghost use Rattle.builder.specs.Steps.{Steps};

use crate::command::Streams;
use crate::log::{Log, Tail};
use std::fs::OpenOptions;
use std::io;
use std::io::Write;
use std::process::{Command, ExitStatus};

/// Files and processes, as a runner uses them. Each call is a step, of which contracts see a relation: what
/// was outside before, what the call was given, what it answered, and what is outside after. An error is of a
/// file, a pipe or a process, whatever its reason, want of memory among them.
pub trait Outside {
    /// A file that is written.
    type File: Write + Drop;
    /// What a process writes to its standard output.
    type Output: Drop;
    /// A process that was started.
    type Process: Drop;

    /// What the calls do, step by step.
    ghost steps: { Steps Self Self.File Self.Output Self.Process };

    /// Removes what has this name: of a link the link, and not what it names.
    fn remove(&mut self, path: &str) -> io::Result<()>
        ensures { steps.removed self.old path.now result self.new };

    /// Opens a file as the options ask.
    fn open(&mut self, how: &OpenOptions, path: &str) -> io::Result<Self::File>
        ensures { steps.opened self.old how.now path.now result self.new };

    /// Writes all of these bytes to a file, behind what was written before.
    fn write(&mut self, file: &mut Self::File, bytes: &[u8]) -> io::Result<()>
        ensures { steps.wrote self.old file.old bytes.now result file.new self.new };

    /// Closes a file.
    fn close(&mut self, file: Self::File)
        ensures { steps.closed self.old file self.new };

    /// Starts a process with these streams. The output is the other end of its standard output. What it writes to its
    /// standard error goes into the log, if there is one, while the output is read and while the process is waited
    /// for.
    fn start(
        &mut self,
        command: &Command,
        streams: &Streams,
        log: Option<Log<Self::File>>,
    ) -> io::Result<(Self::Process, Self::Output)>
        ensures { steps.started self.old command.now streams.now log result self.new };

    /// Reads what comes next of an output behind what was kept of it, and gives how much that is: 0 at its end.
    fn read(&mut self, output: &mut Self::Output, kept: &mut Vec<u8>) -> io::Result<usize>
        ensures { ReadsBehind steps self.old output.old kept.old.items result kept.new.items output.new self.new };

    /// Kills a process, if it can be.
    fn kill(&mut self, process: &mut Self::Process)
        ensures { steps.killed self.old process.old process.new self.new };

    /// Closes an output, and waits until its process has ended. Gives how it ended, and the last of what went into
    /// its log, if it had one.
    fn wait(
        &mut self,
        process: Self::Process,
        output: Self::Output,
    ) -> (io::Result<ExitStatus>, Option<Tail>)
        ensures { steps.waited self.old process output result.0 self.new };
}
