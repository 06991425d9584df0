//! The program `intstore`: it runs files of lines, one event a line.
#![tactic(auto)]

ghost use Rattle.std.specs.Prelude.{IfOk};
ghost use Rattle.app.specs.Actions.{EndsAs, IsStatusOf};

mod actions;
mod launchers;
mod runs;
mod streams;

use crate::actions::tell_bad_lines;
use command_line::{Action, Options, options};
use files::{Machine, open, open_all, report_refused};
use messages::{CANNOT_READ_OR_WRITE, COMMAND_LINE_FAULT, Fault, OUT_OF_MEMORY, report};
use model::Refusal;
use replaying::BadLines;
use session::Counted;
use std::fs::File;
use std::hash::RandomState;
use std::io;
use std::io::ErrorKind;
use std::process::ExitCode;
use std::sync::Wait;

/// Runs lines of a file as the options ask, and prints what comes of them, with what each refusal means where they
/// ask for that.
fn run_reader(
    rt: &HostRuntime,
    wait: &impl Wait,
    options: &Options,
    name: &str,
    reader: &mut Counted<File>,
) -> io::Result<Result<Option<BadLines>, Refusal>>
    ensures { IfOk result (EndsAs options.now.action reader.old.failures reader.new.failures) }
{
    let hashing = RandomState::new(rt)?;
    if let Action::Replay { explain: true, .. } = &options.action {
        let mut writer = Counted::new(streams::explained(rt, name)?);
        return Ok(actions::run_lines(wait, rt.alloc(), hashing, options, reader, &mut writer));
    }
    let mut writer = streams::output(rt)?;
    Ok(actions::run_lines(wait, rt.alloc(), hashing, options, reader, &mut writer))
}

/// Runs lines of a file as the options ask, says on standard error what went wrong, and gives the exit status.
/// A file that cannot be opened ends like one that cannot be read.
fn run_file(rt: &HostRuntime, wait: &impl Wait, options: &Options, name: &str) -> io::Result<u8>
    ensures { IfOk result (IsStatusOf options.now.action) }
{
    let Some(mut reader) = open(rt, name)? else {
        return Ok(report(rt, &Err(Refusal::InputFault), name));
    };
    let told = run_reader(rt, wait, options, name, &mut reader)?;
    let ended = tell_bad_lines(rt, told);
    Ok(report(rt, &ended, name))
}

/// What the words of a command line ask for.
#[derive(Drop)]
enum Asked {
    /// What these options say.
    For(Options),
    /// Nothing: what there is to say is said, and this is the exit status.
    Nothing(u8),
}

/// What the words of the command line ask for. A fault in them is said on standard error; what cannot be
/// said is let go.
fn read_words(rt: &HostRuntime) -> io::Result<Asked> {
    let words: Vec<String> = match std::env::args(rt) {
        Ok(words) => words.collect(rt.alloc())?,
        Err(error) if error.kind() == ErrorKind::InvalidData => {
            let _ = rt.eprintln(Fault::WordNotUtf8);
            return Ok(Asked::Nothing(COMMAND_LINE_FAULT));
        }
        Err(error) => return Err(error),
    };
    match options(rt.alloc(), words.as_slice()) {
        Ok(options) => Ok(Asked::For(options)),
        Err(error) if error.kind() == clap::error::ErrorKind::OutOfMemory => {
            Err(io::Error::from(ErrorKind::OutOfMemory))
        }
        Err(error) => {
            let _ = rt.eprint(error);
            Ok(Asked::Nothing(COMMAND_LINE_FAULT))
        }
    }
}

/// The exit status of a run that ended so. What it lacked is said on standard error: memory, or else the
/// random bytes that it begins with, since each other failure was told where it was met.
fn exit_status(rt: &HostRuntime, ended: io::Result<u8>) -> u8 {
    match ended {
        Ok(status) => status,
        Err(error) if error.kind() == ErrorKind::OutOfMemory => {
            let _ = rt.eprintln(Fault::OutOfMemory);
            OUT_OF_MEMORY
        }
        Err(_) => {
            let _ = rt.eprintln(Fault::NoRandomBytes);
            CANNOT_READ_OR_WRITE
        }
    }
}

// The runners of `run` are made here, where it is known what the runtime is: a function over any runtime
// could not hand them to threads.
fn main(rt: HostRuntime) -> ExitCode {
    let held = match streams::hold_closed_streams(&rt) {
        Ok(held) => held,
        Err(error) => return ExitCode::from(exit_status(&rt, Err(io::Error::from(error)))),
    };
    let ended = match read_words(&rt) {
        Ok(Asked::For(options)) => match &options.action {
            Action::Replay { file, .. } => run_file(&rt, &rt, &options, file.as_str()),
            Action::Strike { file, .. } => run_file(&rt, &rt, &options, file.as_str()),
            Action::Run(run) => {
                streams::tell_missing_folders(&rt, run);
                match launchers::missing_program(&rt, run) {
                    Ok(None) => match open_all(rt.alloc(), &Machine(&rt), run) {
                        Ok(files) => runs::run_files(&rt, &rt, &options, run, files),
                        Err(refused) => Ok(report_refused(&rt, refused)),
                    },
                    Ok(Some(program)) => {
                        let _ = rt.eprintln(Fault::NoLauncher(program));
                        Ok(CANNOT_READ_OR_WRITE)
                    }
                    Err(error) => Err(io::Error::from(error)),
                }
            }
        },
        Ok(Asked::Nothing(status)) => Ok(status),
        Err(error) => Err(error),
    };
    let status = exit_status(&rt, ended);
    drop(held);
    ExitCode::from(status)
}
