//! Files whose lines are run as sessions of one store that builds.

ghost use Rattle.std.specs.Prelude.{◌≡◌, ◌⊎◌, IfOk, IfErr};
ghost use Rattle.std.specs.Io.KnownBytes.{Appends};
ghost use Rattle.model.specs.declared.refusal.Refusal.TheVariants.{OutputFault};
ghost use Rattle.session.specs.Serving.{IsShown, MayBeFault};
ghost use Rattle.files.specs.Outputs.{texts_of};
ghost use Rattle.app.specs.Runs.{EndsRun, HasNotRun, HasNotPrinted, RunsFiles};

use crate::actions::run_parts;
use crate::streams;
use builder::Runner;
use command_line::{Options, Run};
use files::{Opened, Parts, Refused, parts_of, print_all, report_all, report_refused};
use messages::tell_waiting;
use model::Refusal;
use running::Results;
use session::Faults;
use std::alloc::Global;
use std::hash::RandomState;
use std::io::{Read, Write};
use std::sync::Wait;
use std::thread::Threads;
use std::{io, mem};

/// Runs the lines of files that are open as sessions of one store.
///
/// # Errors
///
/// They come before any line is run, or no output is given: those of [`parts_of`], with the name of a file, and
/// those of [`running::run`], with none.
fn run_opened<
    'a,
    H: Threads + Wait + Sync,
    Q: Runner + Send + Drop,
    I: Read + Faults + Send + Drop,
>(
    host: &H,
    alloc: Global,
    hashing: RandomState,
    options: &Options,
    files: Vec<Opened<'a, I, Q>>,
) -> Result<Results, Refused<'a>>
    ensures ran { IfOk result (RunsFiles options.now.charge Q.gives I.remaining files.entry.items) }
    ensures refused { IfErr result (HasNotRun I.remaining I.failed files.entry.items) }
{
    let Parts { users, parts } = parts_of(alloc, files)?;
    match run_parts(host, alloc, hashing, users, options, parts) {
        Ok(results) => Ok(results),
        Err(why) => Err(Refused::of_none(why)),
    }
}

/// Runs the lines of files that are open as sessions of one store, and prints what they gave, in their order.
///
/// # Errors
///
/// - Those of [`run_opened`], where nothing is printed.
/// - Those of [`print_all`], where a beginning of it is.
fn run_and_print<
    'a,
    H: Threads + Wait + Sync,
    Q: Runner + Send + Drop,
    I: Read + Faults + Send + Drop,
    W: Write + Faults,
>(
    host: &H,
    alloc: Global,
    hashing: RandomState,
    options: &Options,
    files: Vec<Opened<'a, I, Q>>,
    writer: &mut W,
) -> Result<Results, Refused<'a>>
    ensures ran { IfOk result (RunsFiles options.now.charge Q.gives I.remaining files.entry.items) }
    ensures printed { IfOk result (λ results.
        Appends (W.contents writer.old) (W.contents writer.new) (texts_of results.outputs.items)) }
    ensures shown { IsShown result (W.failed writer.old) (W.failed writer.new) }
    ensures refused { IfErr result (λ refused.
        ((writer.new ≡ writer.old) × HasNotRun I.remaining I.failed files.entry.items refused)
        ⊎ (HasNotPrinted options.now.charge Q.gives I.remaining files.entry.items
        (W.contents writer.old) (W.contents writer.new) refused.why
        × MayBeFault OutputFault (W.failed writer.old) (W.failed writer.new) refused.why)) }
{
    let results = match run_opened(host, alloc, hashing, options, files) {
        Ok(results) => results,
        Err(refused) => return Err(refused),
    };
    match print_all(writer, results.outputs.as_slice()) {
        Ok(()) => Ok(results),
        Err(why) => Err(Refused::of_none(why)),
    }
}

/// Runs the lines of files that are open as sessions of one store that builds, prints what they gave, says on
/// standard error what went wrong, and gives the exit status.
///
/// Files whose first line that gets a reply names no users are told, the first of them, before any line is run.
///
/// # Errors
///
/// - Memory was refused, or random bytes, before any line is run.
// No contract can say what standard output and standard error take: what is proved of what is printed is proved of any
// writer, by `run_and_print`.
pub(crate) fn run_files<
    H: Threads + Wait + Sync,
    Q: Runner + Send + Drop,
    I: Read + Faults + Send + Drop,
>(
    rt: &HostRuntime,
    host: &H,
    options: &Options,
    run: &Run,
    files: Vec<Opened<'_, I, Q>>,
) -> io::Result<u8>
    ensures { IfOk result
        (EndsRun options.now.charge Q.gives I.remaining I.failed files.entry.items) }
{
    let hashing = RandomState::new(rt)?;
    let mut writer = streams::output(rt)?;
    match run_and_print(host, rt.alloc(), hashing, options, files, &mut writer) {
        Ok(Results { outputs, history }) => {
            if run.verbose {
                tell_waiting(rt, rt.alloc(), hashing, history.rows.as_slice());
            }
            // The program ends with them, and their memory is given back at once.
            mem::forget(history);
            Ok(report_all(rt, run.files.as_slice(), outputs.as_slice()))
        }
        Err(refused) => Ok(report_refused(rt, refused)),
    }
}
