//! What the files of a run gave, printed.

ghost use Rattle.std.specs.Prelude.{◌≡◌, OnOk, IfErr};
ghost use Rattle.std.specs.Io.KnownBytes.{Appends};
ghost use Rattle.model.specs.declared.refusal.Refusal.TheVariants.{OutputFault};
ghost use Rattle.session.specs.Serving.{IsShown, IsUnwritten, MayBeFault};
ghost use Rattle.files.specs.Outputs.{AppendsFront, texts_of};

use model::Refusal;
use session::{Counted, Faults, flush_after, write_whole};
use std::io::Write;
use teams::SessionOutput;

/// Writes what files gave, in their order.
fn write_texts<W: Write + Faults>(
    writer: &mut W,
    before: u64,
    outputs: &[SessionOutput],
) -> Result<(), Refusal>
    ensures ok { OnOk result (Appends (W.contents writer.old) (W.contents writer.new) (texts_of outputs.now)) }
    ensures err { IfErr result (λ _. AppendsFront (W.contents writer.old) (W.contents writer.new) (texts_of outputs.now)) }
    ensures errors { IfErr result IsUnwritten }
{
    for output in outputs {
        write_whole(writer, before, output.text.as_slice())?;
    }
    Ok(())
}

/// Prints what files gave, in their order.
///
/// # Errors
///
/// A beginning of it is written then.
///
/// - `OutputFault` only where the writer failed during the call by its count.
/// - `Memory` only where it failed and did not count that.
pub fn print_all<W: Write + Faults>(
    writer: &mut W,
    outputs: &[SessionOutput],
) -> Result<(), Refusal>
    ensures ok { OnOk result (Appends (W.contents writer.old) (W.contents writer.new) (texts_of outputs.now)) }
    ensures err { IfErr result (λ _. AppendsFront (W.contents writer.old) (W.contents writer.new) (texts_of outputs.now)) }
    ensures errors { IfErr result IsUnwritten }
    ensures fault { IfErr result (MayBeFault OutputFault (W.failed writer.old) (W.failed writer.new)) }
    ensures shown { IsShown result (W.failed writer.old) (W.failed writer.new) }
{
    let before = writer.failures();
    let ended = write_texts(writer, before, outputs);
    // Nothing is read here, and so no reader can have failed.
    flush_after(&Counted::new(()), 0, writer, before, ended)
}
