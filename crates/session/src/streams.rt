//! Reading from a reader, and flushing a writer, that count their failures.

ghost use Rattle.std.specs.Prelude.{◌≡◌, ◌<◌, ◌⊎◌, [], Some, Err, IsOk, OnOk, OnErr, IfOk, IfErr, length};
ghost use Rattle.std.specs.Io.KnownBytes.{Appends, Consumes};
ghost use Rattle.model.specs.declared.refusal.Refusal.TheVariants.{InputFault, OutputFault};
ghost use Rattle.session.specs.Serving.{HasFailed, IsFault, IsNoFault, IsShown, IsWant, MayBeFault, HasRead, TellsEnd};

use model::Refusal;
use nar::{Faults, has_failed};
use std::io::{Read, Write};

/// Flushes once. Whether it was flushed.
fn flush_once<W: Write + Faults>(writer: &mut W, before: u64) -> Result<bool, Refusal>
    ensures kept { Appends (W.contents writer.old) (W.contents writer.new) [] }
    ensures fault { IfErr result (IsFault OutputFault before (W.failed writer.new)) }
{
    match writer.flush() {
        Ok(()) => Ok(true),
        Err(_) => {
            if has_failed(before, writer.failures()) {
                return Err(Refusal::OutputFault);
            }
            Ok(false)
        }
    }
}

/// Flushes the writer, and then looks at its count. One that fails and does not count it is tried again, 2^64
/// times at most: nothing is promised of a flush but that the count shows no failure after it.
pub(crate) fn flush<W: Write + Faults>(writer: &mut W, before: u64) -> Result<(), Refusal>
    ensures kept { Appends (W.contents writer.old) (W.contents writer.new) [] }
    ensures shown { IsShown result before (W.failed writer.new) }
    ensures fault { IfErr result (IsFault OutputFault before (W.failed writer.new)) }
{
    for _ in 0..u64::MAX {
        if flush_once(writer, before)? {
            break;
        }
    }
    if has_failed(before, writer.failures()) {
        return Err(Refusal::OutputFault);
    }
    Ok(())
}

/// What is told in place of want of memory, or of a fault that no count shows: `OutputFault` where the
/// writer's count shows that it failed, and else `Memory`.
pub(crate) fn want_of<W: Faults>(writer: &W, before: u64) -> Refusal
    ensures { IsWant (HasFailed before (W.failed writer.now)) result }
{
    if has_failed(before, writer.failures()) {
        Refusal::OutputFault
    } else {
        Refusal::Memory
    }
}

/// Flushes the writer after what ended so, unless that is a failure of the writer, and says how it ended:
/// so, or with `OutputFault` where the writer's count shows a failure then. The counts are looked at again.
/// A failure of the reader that its count does not show, or one of the writer, is told as want of memory
/// then: they showed it, and have fallen since. And want of memory is told as a failure of the writer where
/// its count shows one.
///
/// # Errors
///
/// - `InputFault` only where the reader has failed by its count since that was `reader_before`.
/// - `OutputFault` only where the writer has failed by its count since that was `writer_before`.
/// - `Memory` only where it ended with `Memory`, or with a fault that its count does not show, and where
///   the writer's count shows no failure.
pub fn flush_after<R: Faults, W: Write + Faults>(
    reader: &R,
    reader_before: u64,
    writer: &mut W,
    writer_before: u64,
    ended: Result<(), Refusal>,
) -> Result<(), Refusal>
    ensures kept { Appends (W.contents writer.old) (W.contents writer.new) [] }
    ensures ok { OnOk result (IsOk ended) }
    // A failure of the writer is never passed over.
    ensures shown { IsShown result writer_before (W.failed writer.new) }
    // It was not flushed, or the end is told.
    ensures err { IfErr result (λ why. IsFault OutputFault writer_before (W.failed writer.new) why
        ⊎ ((first : Refusal) × (ended ≡ Err first) × TellsEnd first
        (HasFailed reader_before (R.failed reader.now)) (HasFailed writer_before (W.failed writer.new)) why)) }
    // A failure of the writer that its count shows is told.
    ensures output { ended ≡ Err OutputFault → HasFailed writer_before (W.failed writer.old)
        → result ≡ Err OutputFault }
    ensures input_fault { IfErr result
        (MayBeFault InputFault reader_before (R.failed reader.now)) }
    ensures output_fault { IfErr result
        (MayBeFault OutputFault writer_before (W.failed writer.new)) }
    ensures memory { IfErr result (IsNoFault writer_before (W.failed writer.new)) }
{
    if !matches!(ended, Err(Refusal::OutputFault)) {
        flush(writer, writer_before)?;
    }
    match ended {
        Err(Refusal::InputFault) if has_failed(reader_before, reader.failures()) => ended,
        Err(Refusal::InputFault | Refusal::OutputFault | Refusal::Memory) => {
            Err(want_of(writer, writer_before))
        }
        ended => ended,
    }
}

/// Reads some bytes, of which there are none at the input's end: that is told only where the count shows no
/// failure. `None` is a read that failed and was not counted: it may be tried again.
pub(crate) fn read_some<R: Read + Faults>(
    reader: &mut R,
    before: u64,
    chunk: &mut [u8],
) -> Result<Option<usize>, Refusal>
    requires { 0 < length chunk.old }
    ensures ok { IfOk result
        (HasRead (R.remaining reader.old) (R.remaining reader.new) chunk.new) }
    ensures err { OnErr result (Consumes (R.remaining reader.old) (R.remaining reader.new) []) }
    ensures fault { IfErr result (IsFault InputFault before (R.failed reader.new)) }
    ensures whole { IfOk result (λ n. n ≡ Some 0 → ¬ HasFailed before (R.failed reader.new)) }
{
    let read = reader.read(chunk);
    let has_failed = has_failed(before, reader.failures());
    match read {
        Ok(n) if n > 0 || !has_failed => Ok(Some(n)),
        _ if has_failed => Err(Refusal::InputFault),
        _ => Ok(None),
    }
}

/// Shows what was written, and then reads some bytes as [`read_some`] does: so that whoever waits for a reply before
/// the next line comes has it.
pub(crate) fn read_more<R: Read + Faults, W: Write + Faults>(
    reader: &mut R,
    reader_before: u64,
    writer: &mut W,
    writer_before: u64,
    chunk: &mut [u8],
) -> Result<Option<usize>, Refusal>
    requires { 0 < length chunk.old }
    ensures kept { Appends (W.contents writer.old) (W.contents writer.new) [] }
    ensures ok { IfOk result
        (HasRead (R.remaining reader.old) (R.remaining reader.new) chunk.new) }
    ensures err { OnErr result (Consumes (R.remaining reader.old) (R.remaining reader.new) []) }
    ensures fault { IfErr result (λ why. IsFault InputFault reader_before (R.failed reader.new) why
        ⊎ IsFault OutputFault writer_before (W.failed writer.new) why) }
    ensures whole { IfOk result (λ n. n ≡ Some 0 → ¬ HasFailed reader_before (R.failed reader.new)) }
{
    flush(writer, writer_before)?;
    read_some(reader, reader_before, chunk)
}
