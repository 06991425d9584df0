//! What a run gives.

ghost use Rattle.std.specs.Prelude.{◌≡◌, ◌≤◌, ◌++◌, [], false, length, map, string_bytes, take, IfOk, IfErr, MatchResult, option_copied};
ghost use Rattle.std.specs.List.{join_with_byte};
ghost use Rattle.model.specs.Archives.{File};
ghost use Rattle.model.specs.declared.refusal.Refusal.TheVariants.{Memory};
ghost use Rattle.nar.specs.Refusing.{IsNoTree};
ghost use Rattle.nb.specs.Outcomes.{file, EndsWith, Writes, WritesFile, WritesPaths, IsOutcome};
ghost use Rattle.model.specs.Limits.{most_archive_bytes};

use crate::inputs::paths_in;
use crate::task::{Task, task_of};
use model::Refusal;
use nar::{Tree, encode};
use std::alloc::Global;

/// The exit status of arguments that ask for nothing.
const UNKNOWN_ARGUMENTS: u8 = 2;
/// The exit status where the inputs cannot be read, or what is built not written.
pub(crate) const CANNOT_READ_OR_WRITE: u8 = 3;

/// What a run writes, and the exit status with which it ends.
#[derive(Debug, Drop)]
pub(crate) struct Outcome {
    pub(crate) written: Vec<u8>,
    pub(crate) status: u8,
}

/// A run that writes nothing, and ends with this status.
fn nothing(alloc: Global, status: u8) -> Outcome
    ensures { EndsWith status result }
{
    Outcome {
        written: Vec::new(alloc),
        status,
    }
}

/// The archive of a plain file with these bytes.
fn archive_of(bytes: Vec<u8>) -> Result<Vec<u8>, Refusal>
    ensures archive { IfOk result (λ archive. archive.items ≡ file bytes.items) }
    ensures limit { IfOk result (λ _. length (file bytes.items) ≤ most_archive_bytes) }
    ensures refused { IfErr result (IsNoTree (File false bytes.items)) }
{
    let alloc = *bytes.allocator();
    let tree = Tree::file(false, bytes)?;
    Ok(encode(alloc, &tree)?.into_bytes())
}

/// A run that writes the archive of a plain file with these bytes. One that is too large cannot be
/// written.
fn file_of(bytes: Vec<u8>) -> Result<Outcome, Refusal>
    ensures { MatchResult result (WritesFile bytes.items) (λ why. why ≡ Memory) }
{
    let alloc = *bytes.allocator();
    match archive_of(bytes) {
        Ok(written) => Ok(Outcome { written, status: 0 }),
        Err(Refusal::TooLarge) => Ok(nothing(alloc, CANNOT_READ_OR_WRITE)),
        Err(_) => Err(Refusal::Memory),
    }
}

/// A run that writes the archive of a plain file with these words, one blank between two.
fn file_of_words(alloc: Global, words: &[String]) -> Result<Outcome, Refusal>
    ensures { MatchResult result
        (WritesFile (join_with_byte 32 (map string_bytes words.now)))
        (λ why. why ≡ Memory) }
{
    let text = words.join(alloc, " ")?;
    file_of(text.into_bytes())
}

/// A run that writes the archive of a plain file with the paths of its inputs, where they can be read.
fn file_of_inputs(alloc: Global, inputs: Option<&[u8]>) -> Result<Outcome, Refusal>
    ensures { MatchResult result (WritesPaths (option_copied inputs.entry)) (λ why. why ≡ Memory) }
{
    let Some(bytes) = inputs else {
        return Ok(nothing(alloc, CANNOT_READ_OR_WRITE));
    };
    match paths_in(alloc, bytes) {
        Ok(paths) => file_of(paths),
        Err(Refusal::BadNar) => Ok(nothing(alloc, CANNOT_READ_OR_WRITE)),
        Err(_) => Err(Refusal::Memory),
    }
}

/// The archive of an empty plain file.
fn empty_file(alloc: Global) -> Result<Vec<u8>, Refusal>
    ensures { MatchResult result (λ archive. archive.items ≡ file []) (λ why. why ≡ Memory) }
{
    match archive_of(Vec::new(alloc)) {
        Ok(archive) => Ok(archive),
        Err(_) => Err(Refusal::Memory),
    }
}

/// A run that writes the first 50 bytes of an archive.
fn half(alloc: Global) -> Result<Outcome, Refusal>
    ensures { MatchResult result (Writes (take 50 (file []))) (λ why. why ≡ Memory) }
{
    let mut written = empty_file(alloc)?;
    written.truncate(50);
    Ok(Outcome { written, status: 0 })
}

/// A run that writes an archive two times.
fn twice(alloc: Global) -> Result<Outcome, Refusal>
    ensures { MatchResult result (Writes (file [] ++ file [])) (λ why. why ≡ Memory) }
{
    let mut written = empty_file(alloc)?;
    let again = empty_file(alloc)?;
    written.extend_from_slice(&again)?;
    Ok(Outcome { written, status: 0 })
}

/// What a run gives that has these arguments, this path of its own, and a file of inputs with these bytes;
/// with none, the file cannot be read.
///
/// # Errors
///
/// - `Memory` only where memory was refused.
pub(crate) fn outcome_of(
    alloc: Global,
    arguments: &[String],
    out: &[u8],
    inputs: Option<&[u8]>,
) -> Result<Outcome, Refusal>
    ensures { MatchResult result
        (IsOutcome (map string_bytes arguments.now) out.now (option_copied inputs.entry))
        (λ why. why ≡ Memory) }
{
    match task_of(arguments) {
        Some(Task::Text) => file_of_words(alloc, &arguments[1..]),
        Some(Task::Own) => file_of(Vec::from_slice(alloc, out)?),
        Some(Task::Inputs) => file_of_inputs(alloc, inputs),
        Some(Task::Fail(status)) => Ok(nothing(alloc, status.get())),
        Some(Task::Half) => half(alloc),
        Some(Task::Twice) => twice(alloc),
        None => Ok(nothing(alloc, UNKNOWN_ARGUMENTS)),
    }
}
