//! Making and writing the file of inputs.

ghost use Rattle.std.specs.Prelude.{◌≡◌, ◌∷◌, [], IfOk, IfErr};
ghost use Rattle.model.specs.Inputs.{input_of, input_text, inputs_behind, inputs_of, inputs_text};
ghost use Rattle.model.specs.Archives.{archive_string, nar};
ghost use Rattle.builder.specs.declared.fault.Fault.TheVariants.{InputsNotWritten};
ghost use Rattle.builder.specs.Commands.{IsMadeAnew};
ghost use Rattle.builder.specs.Pieces.{IsWritten};

use crate::fault::Fault;
use crate::outside::Outside;
use nar::{Tree, encode, str_text};
use records::Entry;
use std::alloc::Global;
use std::fs::OpenOptions;
use std::os::unix::fs::OpenOptionsExt;

/// How the file of inputs is opened: it is made anew, where nothing has its name, no link either, for its owner
/// alone to read and write, and is written.
pub(crate) fn made_anew() -> OpenOptions
    ensures { IsMadeAnew result }
{
    let mut how = OpenOptions::new();
    how.mode(0o600);
    how.write(true).create_new(true);
    how
}

/// A string of an archive. Where memory is refused for it, it is not written.
fn string_of(alloc: Global, content: &[u8]) -> Result<Vec<u8>, Fault>
    ensures ok { IfOk result (λ text. text.items ≡ archive_string content.now) }
    ensures err { IfErr result (λ why. why ≡ InputsNotWritten) }
{
    match str_text(alloc, content) {
        Ok(text) => Ok(text),
        Err(_) => Err(Fault::InputsNotWritten),
    }
}

/// The archive of a tree, as a string of an archive. Where memory is refused for it, it is not written.
fn tree_string(alloc: Global, tree: &Tree) -> Result<Vec<u8>, Fault>
    ensures ok { IfOk result (λ text. text.items ≡ archive_string (nar tree.now)) }
    ensures err { IfErr result (λ why. why ≡ InputsNotWritten) }
{
    match encode(alloc, tree) {
        Ok(archive) => string_of(alloc, archive.bytes()),
        Err(_) => Err(Fault::InputsNotWritten),
    }
}

/// Writes a text.
fn write_text<O: Outside>(outside: &mut O, file: &mut O::File, text: &[u8]) -> Result<(), Fault>
    ensures { IsWritten O.steps outside.old file.old text.now result file.new outside.new }
{
    match outside.write(file, text) {
        Ok(()) => Ok(()),
        Err(_) => Err(Fault::InputsNotWritten),
    }
}

/// Writes an input: its path, and the archive of its tree.
fn write_input<O: Outside>(
    alloc: Global,
    outside: &mut O,
    file: &mut O::File,
    entry: &Entry,
) -> Result<(), Fault>
    ensures { IsWritten O.steps outside.old file.old (input_text (input_of entry.now)) result file.new outside.new }
{
    let path = string_of(alloc, entry.path().bytes())?;
    let archive = tree_string(alloc, entry.tree())?;
    write_text(outside, file, &path)?;
    write_text(outside, file, &archive)
}

/// Writes an input, unless the last one has its path.
fn write_unless_written<O: Outside>(
    alloc: Global,
    outside: &mut O,
    file: &mut O::File,
    last: &[u8],
    entry: &Entry,
) -> Result<(), Fault>
    ensures { IsWritten O.steps outside.old file.old (inputs_text (inputs_behind last.now (entry.now ∷ [])))
        result file.new outside.new }
{
    if entry.path().bytes() == last {
        return Ok(());
    }
    write_input(alloc, outside, file, entry)
}

/// Writes the inputs of a closure, whose entries stand in the order of paths: each path once. No more than
/// one archive is in memory at a time.
///
/// # Errors
///
/// - `InputsNotWritten` only where writing failed, or memory was refused.
pub(crate) fn write_inputs<O: Outside>(
    alloc: Global,
    outside: &mut O,
    file: &mut O::File,
    closure: &[Entry],
) -> Result<(), Fault>
    ensures { IsWritten O.steps outside.old file.old (inputs_text (inputs_of closure.now)) result file.new outside.new }
{
    let mut last = b"".as_slice();
    for entry in closure {
        write_unless_written(alloc, outside, file, last, entry)?;
        last = entry.path().bytes();
    }
    Ok(())
}
