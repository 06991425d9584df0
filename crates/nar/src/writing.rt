//! Writing to a writer that counts its failures.

ghost use Rattle.std.specs.Prelude.{◌≡◌, [], OnOk, OnErr, IfOk, IfErr, MatchResult};
ghost use Rattle.std.specs.Io.KnownBytes.{Appends};
ghost use Rattle.model.specs.declared.refusal.Refusal.TheVariants.{OutputFault};
ghost use Rattle.nar.specs.Writing.{HasFailed, IsFault, IsUnwritten, MayBeFault, HasWritten, Begins};

use crate::faults::{Faults, has_failed};
use model::Refusal;
use std::io::Write;

/// What becomes of a write that did nothing: the count of failures says whether it failed since
/// `before`.
fn stalled<W: Faults>(writer: &W, before: u64) -> Result<usize, Refusal>
    ensures { MatchResult result (λ n. n ≡ 0) (IsFault OutputFault before (W.failed writer.now)) }
{
    if has_failed(before, writer.failures()) {
        return Err(Refusal::OutputFault);
    }
    Ok(0)
}

/// Writes some of the bytes, which may be none.
fn write_some<W: Write + Faults>(
    writer: &mut W,
    before: u64,
    bytes: &[u8],
) -> Result<usize, Refusal>
    ensures ok { IfOk result
        (HasWritten (W.contents writer.old) (W.contents writer.new) bytes.now) }
    ensures err { OnErr result (Appends (W.contents writer.old) (W.contents writer.new) []) }
    ensures fault { IfErr result (IsFault OutputFault before (W.failed writer.new)) }
{
    match writer.write(bytes) {
        Ok(0) | Err(_) => stalled(writer, before),
        Ok(n) => Ok(n),
    }
}

/// Writes all of a text. It takes no memory.
///
/// # Errors
///
/// After each of them a beginning of the text is written, and not all of it.
///
/// - [`Refusal::OutputFault`] only where the writer's count of failures has risen above `before`, or stands
///   at its greatest number.
/// - [`Refusal::Memory`] only where the writer failed 2^64 times and counted none of them.
pub fn write_whole<W: Write + Faults>(
    writer: &mut W,
    before: u64,
    text: &[u8],
) -> Result<(), Refusal>
    ensures ok { OnOk result (Appends (W.contents writer.old) (W.contents writer.new) text.now) }
    ensures err { OnErr result (Begins (W.contents writer.old) (W.contents writer.new) text.now) }
    ensures errors { IfErr result IsUnwritten }
    ensures fault { IfErr result (MayBeFault OutputFault before (W.failed writer.new)) }
{
    let mut rest = text;
    for _ in 0..u64::MAX {
        if rest.is_empty() {
            return Ok(());
        }
        let n = write_some(writer, before, rest)?;
        let (_, after) = rest.split_at(n);
        rest = after;
    }
    if rest.is_empty() {
        return Ok(());
    }
    Err(Refusal::Memory)
}
