//! What a process is started for, and with which files.

ghost use Rattle.std.specs.Prelude.{◌≡◌, ◌⊎◌, true, false, option_map, IfOk, IfErr};
ghost use Rattle.std.specs.Path.{path_buf_bytes};
ghost use Rattle.model.specs.Worlds.{is_user_name};
ghost use Rattle.builder.specs.Building.{IsUnusable, Prepares, builder_in, launcher_of, log_path_in};
ghost use Rattle.builder.specs.Launching.{IsLaunchedBy, is_mistaken};
ghost use Rattle.builder.specs.declared.fault.Fault.TheVariants.{Memory, NotStarted};

use crate::command::{builder_path, inputs_path, log_path};
use crate::fault::Fault;
use crate::launching::{is_mistaken, launched};
use aterm::{Derivation, parse};
use events::Job;
use jobs::RunningJob;
use model::Refusal;
use std::alloc::{AllocError, Global};
use std::path::PathBuf;
use std::process::Command;
use storepath::StorePath;

/// The folders of a runner.
#[derive(Drop)]
pub struct Folders {
    /// Where programs are looked for whose names do not begin with `/`.
    pub builders: PathBuf,
    /// Where the files of inputs stand.
    pub work: PathBuf,
    /// Where the logs stand, if any are kept.
    pub logs: Option<PathBuf>,
}

/// What a runner builds with.
#[derive(Drop)]
pub struct Settings {
    /// Its folders.
    pub folders: Folders,
    /// The launcher: a program through which each builder is started, and its words. It is empty where builders are started
    /// by themselves.
    pub launcher: Vec<String>,
}

/// What is started for a job, and the names of the files that are made for it.
#[derive(Drop)]
pub(crate) struct Prepared {
    /// What is started.
    pub(crate) command: Command,
    /// The name of the file of inputs.
    pub(crate) inputs: PathBuf,
    /// The name of the log, if one is kept.
    pub(crate) log: Option<PathBuf>,
}

/// The name of a job's log, if one is kept. The one error is memory.
fn log_path_in(alloc: Global, folders: &Folders, job: &Job) -> Result<Option<PathBuf>, AllocError>
    requires { is_user_name job.now.leader ≡ true }
    ensures { IfOk result (λ path. option_map path_buf_bytes path ≡ log_path_in folders.now job.now) }
{
    match &folders.logs {
        Some(logs) => Ok(Some(log_path(alloc, logs.as_path(), job)?)),
        None => Ok(None),
    }
}

/// What is started for a job through the launcher, with this file of inputs.
fn command_of(
    alloc: Global,
    settings: &Settings,
    derivation: &Derivation,
    scratch: &StorePath,
    inputs: &str,
) -> Result<Command, Fault>
    ensures ok { IfOk result (λ command.
        IsLaunchedBy (launcher_of settings.now) derivation.now scratch.now (builder_in settings.now derivation.now) inputs.now command
        × (is_mistaken (launcher_of settings.now) (builder_in settings.now derivation.now) ≡ false)) }
    ensures err { IfErr result (λ why. (why ≡ Memory) ⊎ ((why ≡ NotStarted)
        × (is_mistaken (launcher_of settings.now) (builder_in settings.now derivation.now) ≡ true))) }
{
    let Ok(builder) = builder_path(alloc, settings.folders.builders.as_path(), derivation) else {
        return Err(Fault::Memory);
    };
    let launcher = settings.launcher.as_slice();
    if is_mistaken(launcher, builder.as_str()) {
        return Err(Fault::NotStarted);
    }
    match launched(
        alloc,
        launcher,
        derivation,
        scratch,
        builder.as_path(),
        inputs,
    ) {
        Ok(command) => Ok(command),
        Err(_) => Err(Fault::Memory),
    }
}

/// What is started for a job, and with which files.
pub(crate) fn prepare(
    alloc: Global,
    settings: &Settings,
    job: &RunningJob,
) -> Result<Prepared, Fault>
    ensures ok { IfOk result (Prepares settings.now job.now) }
    ensures err { IfErr result (λ why. (why ≡ Memory) ⊎ ((why ≡ NotStarted) × IsUnusable settings.now job.now)) }
{
    let resolved = job.resolved();
    let derivation = match parse(alloc, resolved.text()) {
        Ok(derivation) => derivation,
        Err(Refusal::Memory) => return Err(Fault::Memory),
        Err(_) => return Err(Fault::NotStarted),
    };
    if !job.job().leader().is_well_formed() {
        return Err(Fault::NotStarted);
    }
    let folders = &settings.folders;
    let Ok(inputs) = inputs_path(alloc, folders.work.as_path(), job.job()) else {
        return Err(Fault::Memory);
    };
    let Ok(log) = log_path_in(alloc, folders, job.job()) else {
        return Err(Fault::Memory);
    };
    let command = command_of(
        alloc,
        settings,
        &derivation,
        resolved.scratch(),
        inputs.as_str(),
    )?;
    Ok(Prepared {
        command,
        inputs,
        log,
    })
}
