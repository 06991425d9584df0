//! What a builder is started through.

ghost use Rattle.std.specs.Prelude.{◌≡◌, ◌∷◌, ◌++◌, [], true, map, string_bytes, IfOk, OnOk};
ghost use Rattle.std.specs.List.{list_all};
ghost use Rattle.std.specs.Path.{path_bytes};
ghost use Rattle.model.specs.Derivations.{is_variable};
ghost use Rattle.builder.specs.Commands.{AddsArguments, environment_of};
ghost use Rattle.builder.specs.Launching.{IsLaunchedBy, assignment, env_words, is_assignment, is_mistaken, limit_words};

use crate::command::{
    add_argument, add_arguments, alone, command_for, set_own_name, text_of_path, text_of_string,
};
use aterm::{Derivation, Text};
use std::alloc::{AllocError, Global};
use std::path::Path;
use std::process::Command;
use storepath::StorePath;

/// The words of a launcher behind those that keep a builder to so many seconds, if it is kept to any: `timeout` kills it
/// then, with its process group. The one error is memory.
pub fn launcher(
    alloc: Global,
    limit: Option<u64>,
    words: &[String],
) -> Result<Vec<String>, AllocError>
    ensures { IfOk result (λ launcher. map string_bytes launcher.items
        ≡ limit_words limit ++ map string_bytes words.now) }
{
    let mut launcher = Vec::new(alloc);
    if let Some(seconds) = limit {
        launcher.push(String::from_str(alloc, "/usr/bin/timeout")?)?;
        launcher.push(String::from_str(alloc, "--signal=KILL")?)?;
        launcher.push(seconds.to_string(alloc)?)?;
    }
    for word in words {
        launcher.push(String::from_str(alloc, word.as_str())?)?;
    }
    Ok(launcher)
}

/// Whether `env` would take a word for a variable.
fn is_assignment(word: &str) -> bool
    ensures { result ≡ is_assignment word.now }
{
    word.as_bytes().contains(&b'=')
}

/// Whether there is a launcher, and `env` would take the path of the builder for a variable.
pub(crate) fn is_mistaken(launcher: &[String], builder: &str) -> bool
    ensures { result ≡ is_mistaken (map string_bytes launcher.now) builder.now }
{
    !launcher.is_empty() && is_assignment(builder)
}

/// A variable, as an argument of `env`. The one error is memory.
fn assignment(alloc: Global, key: &str, value: &str) -> Result<String, AllocError>
    ensures { IfOk result (λ text. string_bytes text ≡ assignment (key.now, value.now)) }
{
    let mut text = String::from_str(alloc, key)?;
    text.push_str("=")?;
    text.push_str(value)?;
    Ok(text)
}

/// Gives a command a variable as an argument.
fn add_assignment(
    alloc: Global,
    command: &mut Command,
    key: &str,
    value: &str,
) -> Result<(), AllocError>
    ensures { OnOk result (AddsArguments command.old (assignment (key.now, value.now) ∷ []) command.new) }
{
    let text = assignment(alloc, key, value)?;
    add_argument(command, text.as_str())
}

/// Gives a command the variables of an environment as arguments.
fn add_assignments(
    alloc: Global,
    command: &mut Command,
    environment: &[(Text, Text)],
) -> Result<(), AllocError>
    requires { list_all is_variable environment.now ≡ true }
    ensures { OnOk result (AddsArguments command.old (map assignment environment.now) command.new) }
{
    for variable in environment {
        add_assignment(
            alloc,
            command,
            text_of_string(&variable.0),
            text_of_string(&variable.1),
        )?;
    }
    Ok(())
}

/// Gives a command these words as arguments.
fn add_words(command: &mut Command, words: &[String]) -> Result<(), AllocError>
    ensures { OnOk result (AddsArguments command.old (map string_bytes words.now) command.new) }
{
    for word in words {
        add_argument(command, word.as_str())?;
    }
    Ok(())
}

/// Gives a command the words by which `env` starts a builder with the variables of its environment.
fn add_call(
    alloc: Global,
    command: &mut Command,
    derivation: &Derivation,
    scratch: &StorePath,
    builder: Path<'_>,
    inputs: &str,
) -> Result<(), AllocError>
    ensures { OnOk result (AddsArguments command.old
        (env_words (environment_of derivation.now scratch.now inputs.now)
        (path_bytes builder.entry ∷ derivation.now.arguments)) command.new) }
{
    let parts = derivation.parts();
    add_argument(command, "/usr/bin/env")?;
    add_argument(command, "-i")?;
    add_argument(command, "--")?;
    add_assignments(alloc, command, &parts.environment)?;
    add_assignment(alloc, command, "out", text_of_path(scratch))?;
    add_assignment(alloc, command, "INPUTS", inputs)?;
    add_argument(command, builder.as_str())?;
    add_arguments(command, &parts.arguments)?;
    Ok(())
}

/// What the builder of this path is started with that builds a derivation under a path: through a launcher, or by
/// itself where the launcher has no words. The one error is memory.
pub(crate) fn launched(
    alloc: Global,
    launcher: &[String],
    derivation: &Derivation,
    scratch: &StorePath,
    builder: Path<'_>,
    inputs: &str,
) -> Result<Command, AllocError>
    ensures { IfOk result (IsLaunchedBy (map string_bytes launcher.now) derivation.now scratch.now
        (path_bytes builder.entry) inputs.now) }
{
    let Some((program, words)) = launcher.split_first() else {
        return command_for(alloc, derivation, scratch, builder, inputs);
    };
    let program = Path::new(program.as_str());
    let mut command = alone(alloc, program)?;
    add_words(&mut command, words)?;
    add_call(alloc, &mut command, derivation, scratch, builder, inputs)?;
    set_own_name(&mut command, program)?;
    Ok(command)
}
