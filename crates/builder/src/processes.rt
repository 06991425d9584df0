//! A runner that builds by processes.

ghost use Rattle.std.specs.Prelude.{◌≡◌, Some, None, Err, IfSome};
ghost use Rattle.std.specs.Path.{path_buf_bytes};
ghost use Rattle.builder.specs.Outputs.{bytes_of};
ghost use Rattle.builder.specs.Meaning.{counted, output_of};
ghost use Rattle.builder.specs.Running.{Ends, MakesAnew, Runs, RunsInFolder, RunsLogged, RunsWithLog, WritesAndRuns, log_name};
ghost use Rattle.builder.specs.Building.{Builds, log_path_in};

use crate::command::builder_streams;
use crate::fault::{Explains, Fault, fault_in, told};
use crate::inputs::{made_anew, write_inputs};
use crate::log::{Log, Logged, Tail};
use crate::meaning::{is_gone, meaning};
use crate::output::read_output;
use crate::outside::Outside;
use crate::preparing::{Prepared, Settings, prepare};
use crate::runner::{RunFault, Runner};
use jobs::RunningJob;
use records::Entry;
use std::alloc::Global;
use std::io;
use std::path::PathBuf;
use std::process::Command;

/// What a process came to: what it wrote, or why that is none; and the last of its log, if it had one.
#[derive(Drop)]
struct Ended {
    output: Result<Vec<u8>, Fault>,
    tail: Option<Tail>,
}

impl Ended {
    /// There was no process, for this reason.
    fn without_process(fault: Fault) -> Ended
        ensures { output_of result.output ≡ Err fault }
    {
        Ended {
            output: Err(fault),
            tail: None,
        }
    }
}

/// Reads what a process writes, and waits until it has ended, whatever came of it. Where it cannot be read,
/// the process is killed before.
fn end<O: Outside>(
    alloc: Global,
    outside: &mut O,
    mut process: O::Process,
    mut output: O::Output,
) -> Ended
    ensures { Ends O.steps outside.old process output (output_of result.output) outside.new }
{
    let read = read_output(alloc, outside, &mut output);
    if read.is_err() {
        outside.kill(&mut process);
    }
    let (ended, tail) = outside.wait(process, output);
    Ended {
        output: meaning(read, ended),
        tail,
    }
}

/// Starts a process, and waits until it has ended.
fn run_process<O: Outside>(
    alloc: Global,
    outside: &mut O,
    command: &Command,
    log: Option<Log<O::File>>,
) -> Ended
    ensures { Runs O.steps outside.old command.now log (output_of result.output) outside.new }
{
    match outside.start(command, &builder_streams(log.is_some()), log) {
        Ok((process, output)) => end(alloc, outside, process, output),
        Err(_) => Ended::without_process(Fault::NotStarted),
    }
}

/// Makes a file anew. What has the name before is removed, and where it stays, no file is made.
fn make_anew<O: Outside>(outside: &mut O, path: &str) -> io::Result<O::File>
    ensures { MakesAnew O.steps outside.old path.now result outside.new }
{
    let _before = outside.remove(path);
    outside.open(&made_anew(), path)
}

/// Runs a process with a log in a file that was made for it, if it was.
fn run_with_log<O: Outside>(
    alloc: Global,
    outside: &mut O,
    command: &Command,
    made: io::Result<O::File>,
) -> Ended
    ensures { RunsWithLog O.steps made outside.old command.now (output_of result.output) outside.new }
{
    let Ok(file) = made else {
        return Ended::without_process(Fault::LogNotMade);
    };
    match Log::new(alloc, file) {
        Ok(log) => run_process(alloc, outside, command, Some(log)),
        Err(_) => Ended::without_process(Fault::LogNotMade),
    }
}

/// Runs a process, with a log that is made anew for it, if it is to have one.
fn run_logged<O: Outside>(alloc: Global, outside: &mut O, prepared: &Prepared) -> Ended
    ensures { RunsLogged O.steps (log_name prepared.now) outside.old prepared.now.command
        (output_of result.output) outside.new }
{
    match &prepared.log {
        Some(path) => {
            let made = make_anew(outside, path.as_str());
            run_with_log(alloc, outside, &prepared.command, made)
        }
        None => run_process(alloc, outside, &prepared.command, None),
    }
}

/// Writes the file of inputs and closes it, and runs a process.
fn run_with_inputs<O: Outside>(
    alloc: Global,
    outside: &mut O,
    mut file: O::File,
    closure: &[Entry],
    prepared: &Prepared,
) -> Ended
    ensures { WritesAndRuns O.steps outside.old file closure.now prepared.now
        (output_of result.output) outside.new }
{
    let written = write_inputs(alloc, outside, &mut file, closure);
    outside.close(file);
    match written {
        Ok(()) => run_logged(alloc, outside, prepared),
        Err(why) => Ended::without_process(why),
    }
}

/// Runs a process with a file of inputs that is made anew for it, and is removed whatever came of it.
fn run_in_folder<O: Outside>(
    alloc: Global,
    outside: &mut O,
    closure: &[Entry],
    prepared: &Prepared,
) -> Ended
    ensures { RunsInFolder O.steps outside.old closure.now prepared.now
        (output_of result.output) outside.new }
{
    let inputs = prepared.inputs.as_str();
    let Ok(file) = make_anew(outside, inputs) else {
        return Ended::without_process(Fault::InputsNotWritten);
    };
    let ended = run_with_inputs(alloc, outside, file, closure, prepared);
    if is_gone(outside.remove(inputs)) {
        ended
    } else {
        Ended {
            output: Err(Fault::InputsNotWritten),
            tail: ended.tail,
        }
    }
}

/// What a build came to: what its builder wrote, or why that is none; and its log, if it was started with one.
#[derive(Drop)]
struct Built {
    output: Result<Vec<u8>, Fault>,
    log: Option<Logged>,
}

/// The log of this name, if there is one, and the last of what went into it.
fn logged(alloc: Global, path: Option<PathBuf>, tail: Option<Tail>) -> Option<Logged>
    ensures { IfSome result (λ log. path ≡ Some log.path) }
{
    match (path, tail) {
        (Some(path), Some(tail)) => Some(Logged {
            path,
            tail: tail.to_vec(alloc).unwrap_or(Vec::new(alloc)),
        }),
        _ => None,
    }
}

/// Builds a job.
fn build<O: Outside>(alloc: Global, outside: &mut O, settings: &Settings, job: &RunningJob) -> Built
    ensures builds { Builds O.steps settings.now outside.old job.now
        (output_of result.output) outside.new }
    ensures log { IfSome result.log (λ log. log_path_in settings.now.folders job.now.job ≡ Some (path_buf_bytes log.path)) }
{
    let prepared = match prepare(alloc, settings, job) {
        Ok(prepared) => prepared,
        Err(why) => {
            return Built {
                output: Err(why),
                log: None,
            };
        }
    };
    let Ended { output, tail } = run_in_folder(alloc, outside, job.resolved().closure(), &prepared);
    Built {
        output,
        log: logged(alloc, prepared.log, tail),
    }
}

/// A runner that builds by processes.
#[derive(Drop)]
pub struct ProcessRunner<O> {
    outside: O,
    settings: Settings,
    failures: u64,
    fault: Option<Fault>,
    log: Option<Logged>,
}

impl<O: Outside> ProcessRunner<O> {
    /// A runner that has not failed, and builds with these settings.
    pub fn new(outside: O, settings: Settings) -> ProcessRunner<O>
        ensures outside { result.outside ≡ outside }
        ensures settings { result.settings ≡ settings }
        ensures failures { result.failures ≡ 0 }
        ensures fault { result.fault ≡ None }
        ensures log { result.log ≡ None }
    {
        ProcessRunner {
            outside,
            settings,
            failures: 0,
            fault: None,
            log: None,
        }
    }
}

/// A count of failures behind this: one more where a device failed, as far as the number goes.
fn counted(failures: u64, given: &Result<Vec<u8>, RunFault>) -> u64
    ensures { result ≡ counted failures (bytes_of given.now) }
{
    match given {
        Err(RunFault::Device) => failures.saturating_add(1),
        _ => failures,
    }
}

impl<O> Explains for ProcessRunner<O> {
    fn fault(&self) -> Option<Fault>
        ensures { result ≡ self.now.fault }
    {
        self.fault
    }

    fn log(&self) -> Option<&Logged> {
        self.log.as_ref()
    }
}

impl<O: Outside> Runner for ProcessRunner<O> {
    ghost use Rattle.builder.specs.Given.{Gives};

    ghost gives = { Gives O.steps };

    ghost failed = { λ runner. runner.failures };

    fn run(&mut self, alloc: Global, job: &RunningJob) -> Result<Vec<u8>, RunFault> {
        let Built { output, log } = build(alloc, &mut self.outside, &self.settings, job);
        self.fault = fault_in(&output);
        self.log = log;
        let given = told(output);
        self.failures = counted(self.failures, &given);
        given
    }

    fn failures(&self) -> u64 {
        self.failures
    }
}
