//! The files of a run as they are opened, each with what builds for it.

ghost use Rattle.std.specs.Prelude.{◌≡◌, ℕ, List, map, option_map, IfOk, IfErr, IfSome, MatchOption, string_bytes};
ghost use Rattle.std.specs.Path.{path_buf_bytes};
ghost use Rattle.command_line.specs.declared.settings.Run.{Run};
ghost use Rattle.files.specs.Opening.{AreFoldersOf, AreOpened, AreRunners, AreSettingsOf, AreUnopened, BuildsIn, HasNotFailed, IsOpened, CannotOpen};

use builder::{Folders, ProcessRunner, Settings, System, launcher};
use command_line::Run;
use messages::Narrator;
use model::Refusal;
use session::Counted;
use std::alloc::{AllocError, AllocFailed, Global};
use std::fs;
use std::fs::Files;
use std::io::{Eprint, ErrorKind};
use std::path::PathBuf;
use std::process::{Processes, SystemProcess};
use std::time::Clock;

/// What builds: a process for each job, of which something may be said.
pub type HostRunner<'a, H> = Narrator<'a, H, ProcessRunner<System<'a, H>>>;

/// A file that is open, and what builds for it.
#[derive(Drop)]
pub struct Opened<'a, I: Drop, Q: Drop> {
    /// Its name.
    pub name: &'a str,
    /// What reads it.
    pub reader: I,
    /// What builds the goals of its lines: a worker has each.
    pub runners: Vec<Q>,
    /// Whether the store gives back what nobody holds after each round of builds.
    pub sweeps: bool,
}

/// Why files are not run, and the name of the file of which this comes. There is no name where it comes of none.
#[derive(Drop)]
pub struct Refused<'a> {
    /// The name, or nothing.
    pub name: &'a str,
    /// Why they are not run.
    pub why: Refusal,
}

impl Refused<'_> {
    /// A refusal that comes of no file.
    pub fn of_none(why: Refusal) -> Self
        ensures { result.why ≡ why }
    {
        Refused { name: "", why }
    }
}

impl From<AllocError> for Refused<'_> {
    ghost use Rattle.std.specs.Prelude.{◌≡◌};
    ghost use Rattle.model.specs.declared.refusal.Refusal.TheVariants.{Memory};

    ghost from_gives = { λ _ refused. refused.why ≡ Memory };

    fn from(_error: AllocError) -> Self {
        Refused::of_none(Refusal::Memory)
    }
}

impl<T: Drop> From<AllocFailed<T>> for Refused<'_> {
    ghost use Rattle.std.specs.Prelude.{◌≡◌};
    ghost use Rattle.model.specs.declared.refusal.Refusal.TheVariants.{Memory};

    ghost from_gives = { λ _ refused. refused.why ≡ Memory };

    fn from(_error: AllocFailed<T>) -> Self {
        Refused::of_none(Refusal::Memory)
    }
}

/// What opens files for reading, and makes what builds for them.
pub trait Provides<I, Q> {
    /// What is known of a file that was opened under a name.
    ghost opened: { List ℕ → I → Type 0 };

    /// What is known of a name under which no file could be opened.
    ghost missing: { List ℕ → Type 0 };

    /// What is known of runners that were made as the options ask.
    ghost made: { Run → List Q → Type 0 };

    /// Opens the file of a name. There is none where it cannot be opened.
    ///
    /// # Errors
    ///
    /// It fails only where memory was refused.
    fn open(&self, name: &str) -> Result<Option<I>, AllocError>
        ensures { IfOk result (λ file. MatchOption file (missing name.now) (opened name.now)) };

    /// Makes what builds for a file: a runner for each of its workers.
    ///
    /// # Errors
    ///
    /// It fails only where memory was refused.
    fn runners(&self, alloc: Global, run: &Run) -> Result<Vec<Q>, AllocError>
        ensures { IfOk result (λ runners. made run.now runners.items) };
}

/// The path of an option.
fn path_of(alloc: Global, option: &String) -> Result<PathBuf, AllocError>
    ensures { IfOk result (λ path. path_buf_bytes path ≡ string_bytes option.now) }
{
    PathBuf::from_str(alloc, option.as_str())
}

/// The path of an option that may be left out.
fn path_if_any(alloc: Global, option: &Option<String>) -> Result<Option<PathBuf>, AllocError>
    ensures { IfOk result (λ path. option_map path_buf_bytes path ≡ option_map string_bytes option.now) }
{
    match option {
        Some(option) => Ok(Some(path_of(alloc, option)?)),
        None => Ok(None),
    }
}

/// The folders that the options name.
fn folders_of(alloc: Global, run: &Run) -> Result<Folders, AllocError>
    ensures { IfOk result (AreFoldersOf run.now) }
{
    Ok(Folders {
        builders: path_of(alloc, &run.builders)?,
        work: path_of(alloc, &run.work)?,
        logs: path_if_any(alloc, &run.logs)?,
    })
}

/// What builders are started with as the options ask.
fn settings_of(alloc: Global, run: &Run) -> Result<Settings, AllocError>
    ensures { IfOk result (AreSettingsOf run.now) }
{
    Ok(Settings {
        folders: folders_of(alloc, run)?,
        launcher: launcher(alloc, run.limit, &run.launcher)?,
    })
}

/// What builds as the options ask.
fn runner_for<'a, H: Files + Processes<Started = SystemProcess> + Clock + Eprint>(
    alloc: Global,
    host: &'a H,
    run: &Run,
) -> Result<HostRunner<'a, H>, AllocError>
    ensures { IfOk result (BuildsIn run.now) }
{
    let runner = ProcessRunner::new(System::new(host, run.limit), settings_of(alloc, run)?);
    Ok(Narrator::new(host, run.verbose, runner))
}

/// What builds for a file: a runner for each of its workers.
fn runners_for<'a, H: Files + Processes<Started = SystemProcess> + Clock + Eprint>(
    alloc: Global,
    host: &'a H,
    run: &Run,
) -> Result<Vec<HostRunner<'a, H>>, AllocError>
    ensures { IfOk result (λ runners. AreRunners run.now runners.items) }
{
    let mut runners = Vec::new(alloc);
    for worker in 0..run.workers {
        let _worker = worker;
        runners.push(runner_for(alloc, host, run)?)?;
    }
    Ok(runners)
}

/// The machine, through the runtime.
#[derive(Drop)]
pub struct Machine<'a, H>(pub &'a H);

/// A file that is to be read, whose reader has not failed, or nothing where it cannot be opened.
///
/// # Errors
///
/// It fails only where memory was refused.
pub fn open<R: Files>(rt: &R, name: &str) -> Result<Option<Counted<R::File>>, AllocError>
    ensures { IfOk result (λ file. IfSome file HasNotFailed) }
{
    match fs::open(rt, name) {
        Ok(file) => Ok(Some(Counted::new(file))),
        Err(error) if error.kind() == ErrorKind::OutOfMemory => Err(AllocError),
        Err(_) => Ok(None),
    }
}

// No contract can say what a file system has under a name, so all that is known of a file that was opened there is
// that its reader has not failed. What is proved of the files of a run is proved of all that provides them, whatever
// it knows of them.
impl<'a, H: Files + Processes<Started = SystemProcess> + Clock + Eprint> Provides<
    Counted<H::File>,
    HostRunner<'a, H>,
> for Machine<'a, H> {
    ghost use Rattle.files.specs.Opening.{AreRunners, HasNotFailed};

    ghost opened = { λ name file. HasNotFailed file };

    ghost missing = { λ name. Unit {0} };

    ghost made = { AreRunners };

    fn open(&self, name: &str) -> Result<Option<Counted<H::File>>, AllocError> {
        open(self.0, name)
    }

    fn runners(&self, alloc: Global, run: &Run) -> Result<Vec<HostRunner<'a, H>>, AllocError> {
        runners_for(alloc, self.0, run)
    }
}

/// Opens a file, and makes what builds for it.
fn open_one<'a, I: Drop, Q: Drop, P: Provides<I, Q>>(
    alloc: Global,
    provider: &P,
    run: &Run,
    name: &'a str,
) -> Result<Opened<'a, I, Q>, Refused<'a>>
    ensures opened { IfOk result (IsOpened P.opened P.made run.now name.now) }
    ensures refused { IfErr result (CannotOpen P.missing name.now) }
{
    match provider.open(name)? {
        Some(reader) => Ok(Opened {
            name,
            reader,
            runners: provider.runners(alloc, run)?,
            sweeps: run.sweep,
        }),
        None => Err(Refused {
            name,
            why: Refusal::InputFault,
        }),
    }
}

/// Opens all files of a run in their order, and makes what builds for each.
///
/// # Errors
///
/// - `InputFault`, with the name of the first file that cannot be opened.
/// - `Memory` where memory was refused.
pub fn open_all<'a, I: Drop, Q: Drop, P: Provides<I, Q>>(
    alloc: Global,
    provider: &P,
    run: &'a Run,
) -> Result<Vec<Opened<'a, I, Q>>, Refused<'a>>
    ensures opened { IfOk result (λ files.
        AreOpened P.opened P.made run.now (map string_bytes run.now.files.items) files.items) }
    ensures refused { IfErr result
        (AreUnopened P.opened P.made run.now P.missing (map string_bytes run.now.files.items)) }
{
    let mut files = Vec::new(alloc);
    for name in run.files.as_slice() {
        match open_one(alloc, provider, run, name.as_str()) {
            Ok(file) => files.push(file)?,
            Err(refused) => return Err(refused),
        }
    }
    Ok(files)
}
