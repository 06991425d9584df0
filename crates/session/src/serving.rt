//! Sessions over a reader and a writer.

ghost use Rattle.std.specs.Prelude.{◌≡◌, ◌<◌, ◌⊎◌, ◌∷◌, ◌++◌, [], ℕ, List, Ok, Err, OnOk, IfErr, MatchBool, length};
ghost use Rattle.std.specs.Io.KnownBytes.{Consumes, IsAtEnd};
ghost use Rattle.model.specs.declared.refusal.Refusal.TheVariants.{InputFault, Memory, OutputFault};
ghost use Rattle.model.specs.Lines.{lines_of};
ghost use Rattle.session.specs.Serving.{Link, GoesOn, EndsIn, Finishes, EndsAtLast, AnsweredSoFar, EndedEarly};
ghost use Rattle.session.specs.Serving.{EndsBehind, EndsByCounts, FinishesBehind, HasFailed, IsShown, StopsBehind};
ghost use Rattle.session.specs.Serving.{Finished, HoldsMore, IsFault, IsNoFault, IsOwn, MayBeFault, NotShown};

use crate::answer::Answer;
use crate::session::Session;
use crate::streams::{flush, read_more, want_of};
use lines::cut;
use model::{LONGEST_LINE, Mode, Refusal};
use nar::Faults;
use std::alloc::{AllocError, Global};
use std::io::{Read, Write};

/// So many bytes are read at a time.
pub(crate) const CHUNK: usize = 65_536;

/// A session that has answered the first lines of an input, and holds no line.
#[derive(Drop)]
pub struct Begun {
    /// The session.
    pub session: Session,
    /// What was read behind those lines.
    pub rest: Vec<u8>,
    /// How often the reader had failed before, by its count.
    pub reader_failures: u64,
    /// How often the writer had.
    pub writer_failures: u64,
}

/// A session on its way through the lines of an input.
#[derive(Drop)]
struct Ongoing<'a> {
    /// The session.
    session: &'a mut Session,
    /// What is held of the line begun.
    held: Vec<u8>,
}

/// What came before a session goes on with a reader and a writer.
#[derive(Drop)]
struct Before<'a> {
    /// What was read, and is not answered.
    bytes: &'a [u8],
    /// How often the reader had failed, by its count.
    reader_failures: u64,
    /// How often the writer had.
    writer_failures: u64,
}

/// Holds more of the line begun, no more than shows whether it is too long.
pub(crate) fn hold(held: &mut Vec<u8>, bytes: &[u8]) -> Result<(), AllocError>
    ensures { OnOk result (HoldsMore held.old.items bytes.now held.new.items) }
{
    let room = (LONGEST_LINE + 1).saturating_sub(held.len());
    let fits = room.min(bytes.len());
    held.extend_from_slice(&bytes[..fits])?;
    Ok(())
}

/// Whether a line is begun of which this is held.
pub(crate) fn is_begun(held: &[u8]) -> bool
    ensures { MatchBool result (0 < length held.now) (held.now ≡ []) }
{
    !held.is_empty()
}

/// Answers the line that is held, and writes what it gets. The line is let go before its event is
/// answered.
fn end_line<W: Write + Faults, A: Answer>(
    alloc: Global,
    ongoing: &mut Ongoing<'_>,
    writer: &mut W,
    before: u64,
    answer: &mut A,
) -> Result<(), Refusal>
    ensures ok { OnOk result (GoesOn (Link A.answers A.waited) answer.old answer.new
        (W.contents writer.old) (W.contents writer.new)
        ongoing.old.session.now ongoing.new.session.now
        ongoing.old.held.items ongoing.new.held.items (10 ∷ [])) }
    ensures empty { OnOk result (ongoing.new.held.items ≡ []) }
    ensures err { IfErr result (λ why. (more : List ℕ) → EndsIn (Link A.answers A.waited) answer.old answer.new
        (W.contents writer.old) (W.contents writer.new)
        ongoing.old.session.now ongoing.old.held.items (10 ∷ more) why) }
    ensures errors { IfErr result IsOwn }
    ensures fault { IfErr result (MayBeFault OutputFault before (W.failed writer.new)) }
{
    let reading = ongoing.session.read(alloc, ongoing.held.as_slice())?;
    ongoing.held = Vec::new(alloc);
    let text = ongoing.session.answer(alloc, reading, answer)?;
    text.write(writer, before)?;
    if ongoing.session.is_refused() {
        return Err(Refusal::BadUsers);
    }
    Ok(())
}

/// Takes the next piece of the input.
fn feed<W: Write + Faults, A: Answer>(
    alloc: Global,
    ongoing: &mut Ongoing<'_>,
    piece: &[u8],
    writer: &mut W,
    before: u64,
    answer: &mut A,
) -> Result<(), Refusal>
    ensures ok { OnOk result (GoesOn (Link A.answers A.waited) answer.old answer.new
        (W.contents writer.old) (W.contents writer.new)
        ongoing.old.session.now ongoing.new.session.now
        ongoing.old.held.items ongoing.new.held.items piece.now) }
    ensures err { IfErr result (EndsIn (Link A.answers A.waited) answer.old answer.new
        (W.contents writer.old) (W.contents writer.new)
        ongoing.old.session.now ongoing.old.held.items piece.now) }
    ensures errors { IfErr result IsOwn }
    ensures fault { IfErr result (MayBeFault OutputFault before (W.failed writer.new)) }
{
    let mut rest = piece;
    while let Some((line, after)) = cut(b'\n', rest) {
        hold(&mut ongoing.held, line)?;
        end_line(alloc, ongoing, writer, before, answer)?;
        rest = after;
    }
    hold(&mut ongoing.held, rest)?;
    Ok(())
}

/// Answers a last line that lacks its newline, if there is one.
fn finish<W: Write + Faults, A: Answer>(
    alloc: Global,
    ongoing: &mut Ongoing<'_>,
    writer: &mut W,
    before: u64,
    answer: &mut A,
) -> Result<(), Refusal>
    ensures ok { OnOk result (Finishes (Link A.answers A.waited) answer.old answer.new
        (W.contents writer.old) (W.contents writer.new)
        ongoing.old.session.now ongoing.old.held.items) }
    ensures err { IfErr result (EndsAtLast (Link A.answers A.waited) answer.old answer.new
        (W.contents writer.old) (W.contents writer.new)
        ongoing.old.session.now ongoing.old.held.items) }
    ensures errors { IfErr result IsOwn }
    ensures fault { IfErr result (MayBeFault OutputFault before (W.failed writer.new)) }
{
    if !is_begun(ongoing.held.as_slice()) {
        return Ok(());
    }
    end_line(alloc, ongoing, writer, before, answer)?;
    Ok(())
}

/// Answers the lines of some bytes and of the reader behind them by a session on its way, as [`serve_on`]
/// does.
fn serve_by<R: Read + Faults, W: Write + Faults, A: Answer>(
    alloc: Global,
    ongoing: &mut Ongoing<'_>,
    before: &Before<'_>,
    reader: &mut R,
    writer: &mut W,
    answer: &mut A,
) -> Result<(), Refusal>
    ensures ok { OnOk result ((input : List ℕ)
        × Consumes (R.remaining reader.old) (R.remaining reader.new) input
        × IsAtEnd (R.remaining reader.new)
        × FinishesBehind (Link A.answers A.waited) answer.old answer.new
        (W.contents writer.old) (W.contents writer.new)
        ongoing.old.session.now ongoing.old.held.items (before.now.bytes.now ++ input)) }
    ensures err { IfErr result (λ why. (input : List ℕ)
        × Consumes (R.remaining reader.old) (R.remaining reader.new) input
        × EndsBehind (Link A.answers A.waited) answer.old answer.new
        (W.contents writer.old) (W.contents writer.new)
        ongoing.old.session.now ongoing.old.held.items
        (before.now.bytes.now ++ input) (IsAtEnd (R.remaining reader.new)) why) }
    ensures failed { IfErr result (λ why. why ≡ InputFault → (input : List ℕ)
        × Consumes (R.remaining reader.old) (R.remaining reader.new) input
        × StopsBehind (Link A.answers A.waited) answer.old answer.new
        (W.contents writer.old) (W.contents writer.new)
        ongoing.old.session.now ongoing.old.held.items (before.now.bytes.now ++ input)) }
    ensures whole { OnOk result (¬ HasFailed before.now.reader_failures (R.failed reader.new)) }
    ensures errors { IfErr result (λ why. (why ≡ InputFault) ⊎ IsOwn why) }
    ensures input_fault { IfErr result
        (MayBeFault InputFault before.now.reader_failures (R.failed reader.new)) }
    ensures output_fault { IfErr result
        (MayBeFault OutputFault before.now.writer_failures (W.failed writer.new)) }
{
    let reader_before = before.reader_failures;
    let writer_before = before.writer_failures;
    feed(alloc, ongoing, before.bytes, writer, writer_before, answer)?;
    let mut chunk = [0u8; CHUNK];
    for _ in 0..u64::MAX {
        let Some(n) = read_more(reader, reader_before, writer, writer_before, &mut chunk)? else {
            continue;
        };
        if n == 0 {
            finish(alloc, ongoing, writer, writer_before, answer)?;
            return Ok(());
        }
        let (piece, _) = chunk.split_at(n);
        feed(alloc, ongoing, piece, writer, writer_before, answer)?;
    }
    Err(Refusal::Memory)
}

/// Answers the lines of an input to its end, of which the first are answered, and writes what is printed for
/// them. The reader gives what stands behind what was read. What was written is flushed before more is read, so
/// that whoever waits for a reply before the next line comes has it; at the end the writer is left to be flushed.
///
/// A line of more than 268,435,456 bytes is skipped without being kept. A reader or writer that fails
/// and does not count it is tried again.
///
/// # Errors
///
/// They are those of [`serve_behind`], by how often reader and writer had failed before the first lines.
pub fn serve_on<R: Read + Faults, W: Write + Faults, A: Answer>(
    alloc: Global,
    begun: &mut Begun,
    reader: &mut R,
    writer: &mut W,
    answer: &mut A,
) -> Result<(), Refusal>
    // To the input's end, each of its lines is answered, and all of their text is written.
    ensures ok { OnOk result ((input : List ℕ)
        × Consumes (R.remaining reader.old) (R.remaining reader.new) input
        × IsAtEnd (R.remaining reader.new)
        × FinishesBehind (Link A.answers A.waited) answer.old answer.new
        (W.contents writer.old) (W.contents writer.new) begun.old.session [] (begun.old.rest.items ++ input)) }
    // Else the first lines are, whatever comes after what was read, and a beginning of their text.
    ensures err { IfErr result (λ why. (input : List ℕ)
        × Consumes (R.remaining reader.old) (R.remaining reader.new) input
        × EndsBehind (Link A.answers A.waited) answer.old answer.new
        (W.contents writer.old) (W.contents writer.new) begun.old.session []
        (begun.old.rest.items ++ input) (IsAtEnd (R.remaining reader.new)) why) }
    // Where the reader failed, these are the lines that were read whole, and all of their text.
    ensures failed { IfErr result (λ why. why ≡ InputFault → (input : List ℕ)
        × Consumes (R.remaining reader.old) (R.remaining reader.new) input
        × StopsBehind (Link A.answers A.waited) answer.old answer.new
        (W.contents writer.old) (W.contents writer.new) begun.old.session [] (begun.old.rest.items ++ input)) }
    ensures errors { IfErr result (λ why. (why ≡ InputFault) ⊎ IsOwn why) }
    ensures counts { EndsByCounts result begun.old.reader_failures (R.failed reader.new)
        begun.old.writer_failures (W.failed writer.new) }
{
    let before = Before {
        bytes: &begun.rest,
        reader_failures: begun.reader_failures,
        writer_failures: begun.writer_failures,
    };
    let mut ongoing = Ongoing {
        session: &mut begun.session,
        held: Vec::new(alloc),
    };
    let ended = serve_by(alloc, &mut ongoing, &before, reader, writer, answer);
    as_counted(writer, before.writer_failures, ended)
}

/// Answers the lines of an input to its end, and writes what is printed for them. Some of its bytes were
/// read ahead, and the reader gives what stands behind them. What was written is flushed before more is read;
/// at the end the writer is left to be flushed.
///
/// A line of more than 268,435,456 bytes is skipped without being kept. A reader or writer that fails
/// and does not count it is tried again.
///
/// # Errors
///
/// After each of them the events answered before stand.
///
/// - `BadUsers` exactly where a line of users is refused with it, once its output is written.
/// - `InputFault` only where the reader failed during the call by its count; then the lines that were read
///   whole are answered, and all of their text is written.
/// - `OutputFault` only where the writer failed during the call by its count.
/// - `Memory` only where memory was refused, and where the writer's count shows no failure.
pub fn serve_behind<R: Read + Faults, W: Write + Faults, A: Answer>(
    alloc: Global,
    mode: Mode,
    bytes: &[u8],
    reader: &mut R,
    writer: &mut W,
    answer: &mut A,
) -> Result<(), Refusal>
    // To the input's end, each of its lines is answered, and all of their text is written.
    ensures ok { OnOk result ((input : List ℕ)
        × Consumes (R.remaining reader.old) (R.remaining reader.new) input
        × IsAtEnd (R.remaining reader.new)
        × Finished mode (Link A.answers A.waited) answer.old answer.new
        (W.contents writer.old) (W.contents writer.new) (lines_of (bytes.now ++ input))) }
    // Else the first lines are, whatever comes after what was read, and a beginning of their text.
    ensures err { IfErr result (λ why. (input : List ℕ)
        × Consumes (R.remaining reader.old) (R.remaining reader.new) input
        × EndedEarly mode (Link A.answers A.waited) answer.old answer.new
        (W.contents writer.old) (W.contents writer.new)
        (bytes.now ++ input) (IsAtEnd (R.remaining reader.new)) why) }
    // Where the reader failed, these are the lines that were read whole, and all of their text.
    ensures failed { IfErr result (λ why. why ≡ InputFault → (input : List ℕ)
        × Consumes (R.remaining reader.old) (R.remaining reader.new) input
        × AnsweredSoFar mode (Link A.answers A.waited) answer.old answer.new
        (W.contents writer.old) (W.contents writer.new) (bytes.now ++ input)) }
    ensures errors { IfErr result (λ why. (why ≡ InputFault) ⊎ IsOwn why) }
    ensures counts { EndsByCounts result (R.failed reader.old) (R.failed reader.new)
        (W.failed writer.old) (W.failed writer.new) }
{
    let before = Before {
        bytes,
        reader_failures: reader.failures(),
        writer_failures: writer.failures(),
    };
    let mut session = Session::new(alloc, mode);
    let mut ongoing = Ongoing {
        session: &mut session,
        held: Vec::new(alloc),
    };
    let ended = serve_by(alloc, &mut ongoing, &before, reader, writer, answer);
    as_counted(writer, before.writer_failures, ended)
}

/// Answers the lines of the reader to the input's end, writes what is printed for them, and flushes that
/// before more is read, and where it ends so or with `BadUsers`.
///
/// # Errors
///
/// They are those of [`serve_behind`], of no bytes. And `OutputFault` also where the writer's count shows a
/// failure once all is written.
pub fn serve<R: Read + Faults, W: Write + Faults, A: Answer>(
    alloc: Global,
    mode: Mode,
    reader: &mut R,
    writer: &mut W,
    answer: &mut A,
) -> Result<(), Refusal>
    // To the input's end, each of its lines is answered, and all of their text is written.
    ensures ok { OnOk result ((input : List ℕ)
        × Consumes (R.remaining reader.old) (R.remaining reader.new) input
        × IsAtEnd (R.remaining reader.new)
        × Finished mode (Link A.answers A.waited) answer.old answer.new
        (W.contents writer.old) (W.contents writer.new) (lines_of input)) }
    // Else the first lines are, whatever comes after what was read, and a beginning of their text; or all of
    // it is written, and was not shown.
    ensures err { IfErr result (λ why. (input : List ℕ)
        × Consumes (R.remaining reader.old) (R.remaining reader.new) input
        × (EndedEarly mode (Link A.answers A.waited) answer.old answer.new
        (W.contents writer.old) (W.contents writer.new)
        input (IsAtEnd (R.remaining reader.new)) why
        ⊎ NotShown mode (Link A.answers A.waited) answer.old answer.new
        (W.contents writer.old) (W.contents writer.new) input (IsAtEnd (R.remaining reader.new)) why)) }
    // Where the reader failed, these are the lines that were read whole, and all of their text.
    ensures failed { IfErr result (λ why. why ≡ InputFault → (input : List ℕ)
        × Consumes (R.remaining reader.old) (R.remaining reader.new) input
        × AnsweredSoFar mode (Link A.answers A.waited) answer.old answer.new
        (W.contents writer.old) (W.contents writer.new) input) }
    ensures errors { IfErr result (λ why. (why ≡ InputFault) ⊎ IsOwn why) }
    ensures counts { EndsByCounts result (R.failed reader.old) (R.failed reader.new)
        (W.failed writer.old) (W.failed writer.new) }
    ensures shown { IsShown result (W.failed writer.old) (W.failed writer.new) }
{
    let before = writer.failures();
    let ended = serve_behind(alloc, mode, b"", reader, writer, answer);
    if matches!(ended, Ok(()) | Err(Refusal::BadUsers)) {
        flush(writer, before)?;
    }
    ended
}

/// How a session ended, by the writer's count: want of memory is told as a failure of the writer where the
/// count shows one.
fn as_counted<W: Faults>(writer: &W, before: u64, ended: Result<(), Refusal>) -> Result<(), Refusal>
    ensures ok { OnOk result (ended ≡ Ok tt) }
    ensures err { IfErr result (λ why. (ended ≡ Err why)
        ⊎ ((ended ≡ Err Memory) × IsFault OutputFault before (W.failed writer.now) why)) }
    ensures memory { IfErr result (IsNoFault before (W.failed writer.now)) }
{
    match ended {
        Err(Refusal::Memory) => Err(want_of(writer, before)),
        ended => ended,
    }
}

/// Answers the whole lines of some bytes of which more was to come, and writes what is printed for
/// them. What stands behind the last newline is left alone, and the writer is left to be flushed.
///
/// # Errors
///
/// - `BadUsers`, `OutputFault` and `Memory`, each where [`serve_behind`] has it.
pub fn serve_whole_lines<W: Write + Faults, A: Answer>(
    alloc: Global,
    mode: Mode,
    bytes: &[u8],
    writer: &mut W,
    answer: &mut A,
) -> Result<(), Refusal>
    ensures ok { OnOk result (AnsweredSoFar mode (Link A.answers A.waited) answer.old answer.new
        (W.contents writer.old) (W.contents writer.new) bytes.now) }
    ensures err { IfErr result (EndedEarly mode (Link A.answers A.waited) answer.old answer.new
        (W.contents writer.old) (W.contents writer.new) bytes.now ⊥) }
    ensures errors { IfErr result IsOwn }
    ensures output_fault { IfErr result
        (MayBeFault OutputFault (W.failed writer.old) (W.failed writer.new)) }
    ensures memory { IfErr result (IsNoFault (W.failed writer.old) (W.failed writer.new)) }
{
    let before = writer.failures();
    let mut session = Session::new(alloc, mode);
    let mut ongoing = Ongoing {
        session: &mut session,
        held: Vec::new(alloc),
    };
    let ended = feed(alloc, &mut ongoing, bytes, writer, before, answer);
    as_counted(writer, before, ended)
}
