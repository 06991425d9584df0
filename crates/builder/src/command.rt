//! What a process is started with.

ghost use Rattle.std.specs.Prelude.{◌≡◌, ◌∷◌, [], ℕ, true, List, Some, None, IfOk, OnOk};
ghost use Rattle.std.specs.List.{list_all};
ghost use Rattle.std.specs.Str.{IsUtf8};
ghost use Rattle.std.specs.Path.{path_bytes, path_buf_bytes};
ghost use Rattle.std.specs.Process.{SameDir, SameEnv, SameProgramAndArgs, clears_env, command_arg0, command_args, command_dir, command_program, command_var};
ghost use Rattle.model.specs.Derivations.{is_text, is_variable};
ghost use Rattle.model.specs.Worlds.{is_user_name};
ghost use Rattle.builder.specs.Commands.{AddsArguments, AreStreams, IsCommandFor, Sets, SetsVariable, builder_path, inputs_path, job_path, log_path};

use aterm::{Derivation, Text};
use events::Job;
use std::alloc::{AllocError, Global};
use std::os::unix::process::CommandExt;
use std::path::{Path, PathBuf};
use std::process::{Command, Stdio};
use storepath::StorePath;

/// The streams of a process that is started.
#[derive(Drop)]
pub struct Streams {
    /// Its standard input.
    pub stdin: Stdio,
    /// Its standard output.
    pub stdout: Stdio,
    /// Its standard error.
    pub stderr: Stdio,
}

/// Those of a builder: an empty standard input, a pipe for its standard output, and for its standard error a pipe
/// where it has a log; else what it writes there is dropped.
pub(crate) fn builder_streams(has_log: bool) -> Streams
    ensures { AreStreams has_log result }
{
    Streams {
        stdin: Stdio::null(),
        stdout: Stdio::piped(),
        stderr: if has_log {
            Stdio::piped()
        } else {
            Stdio::null()
        },
    }
}

/// Bytes of text, as one.
fn text_of(bytes: &[u8]) -> &str
    requires { IsUtf8 bytes.now }
    ensures { result.now ≡ bytes.now }
{
    match str::from_utf8(bytes) {
        Ok(text) => text,
        Err(_) => unreachable!(),
    }
}

/// A string of a derivation, as a text.
#[tactic(auto, using(crate::proofs::TextLemmas::string_is_text))]
pub(crate) fn text_of_string(string: &Text) -> &str
    requires { is_text string.now ≡ true }
    ensures { result.now ≡ string.now }
{
    text_of(string.bytes())
}

/// A path, as a text.
#[tactic(auto, using(crate::proofs::TextLemmas::path_is_text))]
pub(crate) fn text_of_path(path: &StorePath) -> &str
    ensures { result.now ≡ path.now }
{
    text_of(path.bytes())
}

/// The name of a file of a job in this folder: the name of its leader, `-` and the number of the goal that leads it,
/// between these texts. The one error is memory.
#[tactic(auto, using(crate::proofs::TextLemmas::user_is_text))]
fn job_path(
    alloc: Global,
    folder: Path<'_>,
    before: &str,
    job: &Job,
    behind: &str,
) -> Result<PathBuf, AllocError>
    requires { is_user_name job.now.leader ≡ true }
    ensures { IfOk result (λ path. path_buf_bytes path
        ≡ job_path (path_bytes folder.entry) before.now job.now behind.now) }
{
    let number = job.number().to_string(alloc)?;
    let mut name = String::from_str(alloc, before)?;
    name.push_str(text_of(job.leader().bytes()))?;
    name.push_str("-")?;
    name.push_str(number.as_str())?;
    name.push_str(behind)?;
    folder.join(alloc, name.as_str())
}

/// The name of the file of a job's inputs in this folder: `inputs-LEADER-N`. The one error is memory.
pub(crate) fn inputs_path(alloc: Global, work: Path<'_>, job: &Job) -> Result<PathBuf, AllocError>
    requires { is_user_name job.now.leader ≡ true }
    ensures { IfOk result (λ path. path_buf_bytes path ≡ inputs_path (path_bytes work.entry) job.now) }
{
    job_path(alloc, work, "inputs-", job, "")
}

/// The name of a job's log in this folder: `LEADER-N.log`. The one error is memory.
pub(crate) fn log_path(alloc: Global, logs: Path<'_>, job: &Job) -> Result<PathBuf, AllocError>
    requires { is_user_name job.now.leader ≡ true }
    ensures { IfOk result (λ path. path_buf_bytes path ≡ log_path (path_bytes logs.entry) job.now) }
{
    job_path(alloc, logs, "", job, ".log")
}

/// Gives a command an argument behind its own.
pub(crate) fn add_argument(command: &mut Command, argument: &str) -> Result<(), AllocError>
    ensures { OnOk result (AddsArguments command.old (argument.now ∷ []) command.new) }
{
    command.arg(argument)?;
    Ok(())
}

/// Gives a command these arguments behind its own.
pub(crate) fn add_arguments(command: &mut Command, arguments: &[Text]) -> Result<(), AllocError>
    requires { list_all is_text arguments.now ≡ true }
    ensures { OnOk result (AddsArguments command.old arguments.now command.new) }
{
    for argument in arguments {
        add_argument(command, text_of_string(argument))?;
    }
    Ok(())
}

/// Sets a variable, and leaves the others.
fn set_variable(command: &mut Command, key: &str, value: &str) -> Result<(), AllocError>
    ensures set { OnOk result (SetsVariable command.old key.now value.now command.new) }
    ensures call { OnOk result (SameProgramAndArgs command.old command.new) }
    ensures clears { OnOk result (clears_env command.new ≡ clears_env command.old) }
    ensures folder { OnOk result (SameDir command.old command.new) }
{
    command.env(key, value)?;
    Ok(())
}

/// Sets the variables of an environment, one after another.
fn set_variables(command: &mut Command, environment: &[(Text, Text)]) -> Result<(), AllocError>
    requires { list_all is_variable environment.now ≡ true }
    ensures sets { OnOk result (Sets command.old environment.now command.new) }
    ensures call { OnOk result (SameProgramAndArgs command.old command.new) }
    ensures clears { OnOk result (clears_env command.new ≡ clears_env command.old) }
    ensures folder { OnOk result (SameDir command.old command.new) }
{
    for variable in environment {
        set_variable(
            command,
            text_of_string(&variable.0),
            text_of_string(&variable.1),
        )?;
    }
    Ok(())
}

/// A program with no arguments and no variables, in the current folder.
pub(crate) fn alone(alloc: Global, program: Path<'_>) -> Result<Command, AllocError>
    ensures program { IfOk result (λ command. command_program command ≡ path_bytes program.entry) }
    ensures arguments { IfOk result (λ command. command_args command ≡ []) }
    ensures clears { IfOk result (λ command. clears_env command ≡ true) }
    ensures variables { IfOk result (λ command. (name : List ℕ) → command_var command name ≡ None) }
    ensures folder { IfOk result (λ command. command_dir command ≡ None) }
{
    let mut command = Command::new(alloc, program)?;
    command.env_clear();
    Ok(command)
}

/// Tells a process the name of its program as its own, and leaves all else.
pub(crate) fn set_own_name(command: &mut Command, program: Path<'_>) -> Result<(), AllocError>
    ensures own { OnOk result (command_arg0 command.new ≡ Some (path_bytes program.entry)) }
    ensures call { OnOk result (SameProgramAndArgs command.old command.new) }
    ensures environment { OnOk result (SameEnv command.old command.new) }
    ensures folder { OnOk result (SameDir command.old command.new) }
{
    command.arg0(program)?;
    Ok(())
}

/// The path of the builder of a derivation, in this folder of builders. The one error is memory.
pub(crate) fn builder_path(
    alloc: Global,
    builders: Path<'_>,
    derivation: &Derivation,
) -> Result<PathBuf, AllocError>
    ensures { IfOk result (λ path. path_buf_bytes path ≡ builder_path (path_bytes builders.entry) derivation.now) }
{
    builders.join(alloc, text_of_string(&derivation.parts().builder))
}

/// What the builder of this path is started with that builds a derivation under a path. The one error is memory.
pub(crate) fn command_for(
    alloc: Global,
    derivation: &Derivation,
    scratch: &StorePath,
    builder: Path<'_>,
    inputs: &str,
) -> Result<Command, AllocError>
    ensures { IfOk result (IsCommandFor derivation.now scratch.now (path_bytes builder.entry) inputs.now) }
{
    let parts = derivation.parts();
    let mut command = alone(alloc, builder)?;
    add_arguments(&mut command, &parts.arguments)?;
    set_variables(&mut command, &parts.environment)?;
    set_variable(&mut command, "out", text_of_path(scratch))?;
    set_variable(&mut command, "INPUTS", inputs)?;
    set_own_name(&mut command, builder)?;
    Ok(command)
}
