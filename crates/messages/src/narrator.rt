//! A runner that says what it does.

ghost use Rattle.std.specs.Prelude.{◌≡◌, Err};
ghost use Rattle.builder.specs.Outputs.{bytes_of, HasFailed};
ghost use Rattle.builder.specs.declared.runner.RunFault.TheVariants.{Device};

use builder::{Explains, Fault, Logged, RunFault, Runner};
use events::{Reply, Status};
use jobs::RunningJob;
use std::alloc::Global;
use std::fmt::{Display, Formatter};
use std::io::Eprint;
use std::time::{Clock, Instant};
use std::{fmt, str};

/// The most lines of a log that are shown.
const MOST_LINES: usize = 10;

/// How a builder ended, how far its goal is then, and which log tells more, if one does.
#[derive(Drop)]
struct Ended<'a> {
    fault: Option<Fault>,
    reply: &'a Reply,
    log: Option<&'a Logged>,
}

impl Display for Ended<'_> {
    fn fmt<W: fmt::Write>(&self, f: &mut Formatter<W>) -> fmt::Result {
        if let Some(fault) = self.fault {
            write!(f, "{fault}, ")?;
        }
        match self.reply {
            Reply::Status(Status::Done(path)) => write!(f, "done {}", text_of(path.bytes())),
            Reply::Status(Status::Failed(why)) => write!(f, "failed {}", why.number()),
            Reply::Refused(why) => write!(f, "refused {}", why.number()),
            _ => f.write_str("its goal waits"),
        }?;
        match self.log {
            Some(log) => write!(f, ", log {}", log.path.as_str()),
            None => Ok(()),
        }
    }
}

/// A line that a builder wrote. What is no plain text of ASCII in it is shown by its number, so that it does
/// nothing to a terminal.
#[derive(Drop)]
struct Shown<'a>(&'a [u8]);

impl Display for Shown<'_> {
    fn fmt<W: fmt::Write>(&self, f: &mut Formatter<W>) -> fmt::Result {
        for byte in self.0 {
            match *byte {
                b' '..=b'~' => f.write_char(char::from(*byte))?,
                other => write!(f, "\\x{other:02x}")?,
            }
        }
        Ok(())
    }
}

/// Whether a reply says that a goal has failed.
fn has_failed(reply: &Reply) -> bool {
    matches!(reply, Reply::Status(Status::Failed(_)))
}

/// The bytes of a name, as a text.
pub(crate) fn text_of(bytes: &[u8]) -> &str {
    str::from_utf8(bytes).unwrap_or("?")
}

/// The whole seconds since then, as far as there is a clock.
fn seconds_since(clock: &impl Clock, begun: Option<Instant>) -> u64 {
    let Some(begun) = begun else {
        return 0;
    };
    match begun.elapsed(clock) {
        Ok(time) => time.as_secs(),
        Err(_) => 0,
    }
}

/// A builder that runs: what it is called in what is said of it, and when it began.
#[derive(Drop)]
struct Running {
    name: String,
    begun: Option<Instant>,
}

impl Running {
    /// The builder of a job: it is called by the user, the number of his goal and the name of its derivation. There is
    /// none where there is no memory for that.
    fn new(alloc: Global, clock: &impl Clock, job: &RunningJob) -> Option<Running> {
        let user = text_of(job.job().leader().bytes());
        let number = job.job().number();
        let derivation = text_of(job.resolved().scratch().name());
        let name = format!(in alloc; "{user} {number} {derivation}").ok()?;
        let begun = Instant::now(clock).ok();
        Some(Running { name, begun })
    }
}

/// A runner that says on standard error as each builder starts, and how it and its goal ended, if it is to say
/// anything. Where the goal failed and the builder has a log, it names that and shows the last lines of it. What
/// cannot be said is let go.
#[derive(Drop)]
pub struct Narrator<'a, H, Q: Drop> {
    host: &'a H,
    is_verbose: bool,
    runner: Q,
    running: Option<Running>,
}

impl<'a, H: Clock + Eprint, Q: Runner + Explains + Drop> Narrator<'a, H, Q> {
    /// One that builds by this runner.
    pub fn new(host: &'a H, is_verbose: bool, runner: Q) -> Narrator<'a, H, Q>
        ensures verbose { result.is_verbose ≡ is_verbose }
        ensures runner { result.runner ≡ runner }
    {
        Narrator {
            host,
            is_verbose,
            runner,
            running: None,
        }
    }

    /// Says that the builder of a job starts.
    fn say_start(&self) {
        if let Some(Running { name, .. }) = &self.running {
            let _ = eprintln!(self.host; "intstore: {name} starts");
        }
    }

    /// Says how it ended, and after how many seconds.
    fn say_end<D: Display + Drop>(&self, ended: D) {
        if let Some(Running { name, begun }) = &self.running {
            let seconds = seconds_since(self.host, *begun);
            let _ = eprintln!(self.host; "intstore: {name} ends, {ended}, {seconds} s");
        }
    }

    /// Shows the last lines of what a builder wrote to its standard error, each behind what the builder is called.
    fn show_lines(&self, tail: &[u8]) {
        let Some(Running { name, .. }) = &self.running else {
            return;
        };
        let text = tail.strip_suffix(b"\n").unwrap_or(tail);
        if text.is_empty() {
            return;
        }
        let count = text.split(|byte| *byte == b'\n').count();
        let skipped = count.saturating_sub(MOST_LINES);
        for line in text.split(|byte| *byte == b'\n').skip(skipped) {
            let shown = Shown(line);
            let _ = eprintln!(self.host; "intstore: {name}: {shown}");
        }
    }

    /// Builds a job, and says so. How it ended is said when its job has; but where memory was refused to the
    /// runner, nothing ends the job.
    fn run_aloud(&mut self, alloc: Global, job: &RunningJob) -> Result<Vec<u8>, RunFault>
        ensures gives { Q.gives self.old.runner job.now (bytes_of result) self.new.runner }
        ensures device { bytes_of result ≡ Err Device → HasFailed (Q.failed self.old.runner) (Q.failed self.new.runner) }
    {
        self.running = Running::new(alloc, self.host, job);
        self.say_start();
        let given = self.runner.run(alloc, job);
        if let Err(RunFault::Memory) = &given {
            self.say_end(Fault::Memory);
        }
        given
    }
}

/// It builds as its runner does.
impl<H: Clock + Eprint, Q: Runner + Explains + Drop> Runner for Narrator<'_, H, Q> {
    ghost gives = { λ old job given new. Q.gives old.runner job given new.runner };

    ghost failed = { λ narrator. Q.failed narrator.runner };

    fn run(&mut self, alloc: Global, job: &RunningJob) -> Result<Vec<u8>, RunFault> {
        if self.is_verbose {
            self.run_aloud(alloc, job)
        } else {
            self.runner.run(alloc, job)
        }
    }

    fn tell(&self, reply: &Reply) {
        self.runner.tell(reply);
        let fault = self.runner.fault();
        let log = if has_failed(reply) {
            self.runner.log()
        } else {
            None
        };
        self.say_end(Ended { fault, reply, log });
        if let Some(log) = log {
            self.show_lines(log.tail.as_slice());
        }
    }

    fn failures(&self) -> u64 {
        self.runner.failures()
    }
}
