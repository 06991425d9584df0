//! The first lines of an input, up to the one that names its users.

ghost use Rattle.std.specs.Prelude.{◌≡◌, ◌⊎◌, ◌∷◌, [], ℕ, List, None, false, IfOk, IfErr, OnOk};
ghost use Rattle.std.specs.Io.KnownBytes.{Consumes, IsAtEnd};
ghost use Rattle.model.specs.declared.refusal.Refusal.TheVariants.{InputFault, Memory, OutputFault};
ghost use Rattle.model.specs.Talk.{fresh};
ghost use Rattle.session.specs.Heads.{Idle, IsHead, IsHeadLine, IsHeadPiece, IsNamedBy, rest_found, users_found};
ghost use Rattle.session.specs.Serving.{AnsweredSoFar, EndedEarly, EndsAtLast, EndsIn, Finishes, HasFailed, IsNoFault, IsOwn, MayBeFault};

use crate::answer::{Answer, NoUsers};
use crate::serving::{Begun, CHUNK, hold, is_begun};
use crate::session::Session;
use crate::streams::{read_more, want_of};
use lines::{Reading, cut};
use model::{Mode, Refusal};
use nar::Faults;
use std::alloc::{AllocError, Global};
use std::io::{Read, Write};
use trust::User;

/// The first lines of an input, which are answered.
#[derive(Drop)]
pub struct Head {
    /// The session that goes on behind them.
    pub begun: Begun,
    /// The users whom the last of them names, or nothing at the input's end.
    pub users: Option<Vec<User>>,
}

/// The users whom a line names, and what was read behind it.
#[derive(Drop)]
pub(crate) struct Found {
    pub(crate) users: Vec<User>,
    pub(crate) rest: Vec<u8>,
}

/// The users whom a line names, by what it comes to, or nothing. The one error is memory.
pub fn users_of(reading: &Reading) -> Result<Option<Vec<User>>, AllocError>
    ensures { IfOk result (IsNamedBy reading.now) }
{
    match reading {
        Reading::Names(users) => Ok(Some(users.clone()?)),
        _ => Ok(None),
    }
}

/// Answers the line that is held, before which nobody was named, and writes what it gets. Gives the users
/// whom it names, if it does. Nobody is asked.
fn answer_line<W: Write + Faults, A: Answer>(
    alloc: Global,
    session: &mut Session,
    held: &mut Vec<u8>,
    writer: &mut W,
    before: u64,
    nobody: &mut A,
) -> Result<Option<Vec<User>>, Refusal>
    requires { session.old.begun ≡ false }
    ensures ok { IfOk result (IsHeadLine (W.contents writer.old) (W.contents writer.new)
        session.old session.new held.old.items) }
    ensures empty { OnOk result (held.new.items ≡ []) }
    ensures err { IfErr result (λ why. (more : List ℕ) → EndsIn Idle tt tt (W.contents writer.old) (W.contents writer.new)
        session.old held.old.items (10 ∷ more) why) }
    ensures errors { IfErr result IsOwn }
    ensures fault { IfErr result (MayBeFault OutputFault before (W.failed writer.new)) }
{
    let reading = session.read(alloc, held.as_slice())?;
    *held = Vec::new(alloc);
    let users = users_of(&reading)?;
    let text = session.answer(alloc, reading, nobody)?;
    text.write(writer, before)?;
    if session.is_refused() {
        return Err(Refusal::BadUsers);
    }
    Ok(users)
}

/// Takes the next piece of the input, up to a line that names users. Gives them with what stands behind that
/// line, if there is one.
fn take_piece<W: Write + Faults>(
    alloc: Global,
    session: &mut Session,
    held: &mut Vec<u8>,
    piece: &[u8],
    writer: &mut W,
    before: u64,
) -> Result<Option<Found>, Refusal>
    requires { session.old.begun ≡ false }
    ensures ok { IfOk result (IsHeadPiece (W.contents writer.old) (W.contents writer.new)
        session.old session.new held.old.items held.new.items piece.now) }
    ensures err { IfErr result (EndsIn Idle tt tt (W.contents writer.old) (W.contents writer.new)
        session.old held.old.items piece.now) }
    ensures errors { IfErr result IsOwn }
    ensures fault { IfErr result (MayBeFault OutputFault before (W.failed writer.new)) }
{
    let mut rest = piece;
    while let Some((line, after)) = cut(b'\n', rest) {
        hold(held, line)?;
        if let Some(users) = answer_line(alloc, session, held, writer, before, &mut NoUsers)? {
            let rest = Vec::from_slice(alloc, after)?;
            return Ok(Some(Found { users, rest }));
        }
        rest = after;
    }
    hold(held, rest)?;
    Ok(None)
}

/// Answers a last line that lacks its newline, if there is one.
fn take_last<W: Write + Faults>(
    alloc: Global,
    session: &mut Session,
    held: &mut Vec<u8>,
    writer: &mut W,
    before: u64,
) -> Result<(), Refusal>
    requires { session.old.begun ≡ false }
    ensures ok { OnOk result (Finishes Idle tt tt (W.contents writer.old) (W.contents writer.new)
        session.old held.old.items) }
    ensures err { IfErr result (EndsAtLast Idle tt tt (W.contents writer.old) (W.contents writer.new)
        session.old held.old.items) }
    ensures errors { IfErr result IsOwn }
    ensures fault { IfErr result (MayBeFault OutputFault before (W.failed writer.new)) }
{
    if !is_begun(held.as_slice()) {
        return Ok(());
    }
    let _users = answer_line(alloc, session, held, writer, before, &mut NoUsers)?;
    Ok(())
}

/// Answers the first lines of what a reader gives by a session that has had no line, as [`serve_head`] does.
/// Gives the users whom the last of them names, with what was read behind it; or nothing at the input's end.
fn head_by<R: Read + Faults, W: Write + Faults>(
    alloc: Global,
    session: &mut Session,
    held: &mut Vec<u8>,
    reader: &mut R,
    writer: &mut W,
) -> Result<Option<Found>, Refusal>
    requires { (session.old ≡ fresh session.old.mode) × (held.old.items ≡ []) }
    ensures ok { IfOk result (λ found. (input : List ℕ)
        × Consumes (R.remaining reader.old) (R.remaining reader.new) input
        × IsHead session.old.mode (W.contents writer.old) (W.contents writer.new)
        input (IsAtEnd (R.remaining reader.new)) session.new (users_found found) (rest_found found)) }
    ensures err { IfErr result (λ why. (input : List ℕ)
        × Consumes (R.remaining reader.old) (R.remaining reader.new) input
        × EndedEarly session.old.mode Idle tt tt (W.contents writer.old) (W.contents writer.new)
        input (IsAtEnd (R.remaining reader.new)) why) }
    ensures failed { IfErr result (λ why. why ≡ InputFault → (input : List ℕ)
        × Consumes (R.remaining reader.old) (R.remaining reader.new) input
        × AnsweredSoFar session.old.mode Idle tt tt (W.contents writer.old) (W.contents writer.new) input) }
    ensures whole { IfOk result (λ found. found ≡ None → ¬ HasFailed (R.failed reader.old) (R.failed reader.new)) }
    ensures errors { IfErr result (λ why. (why ≡ InputFault) ⊎ IsOwn why) }
    ensures input_fault { IfErr result (MayBeFault InputFault (R.failed reader.old) (R.failed reader.new)) }
    ensures output_fault { IfErr result (MayBeFault OutputFault (W.failed writer.old) (W.failed writer.new)) }
{
    let reader_before = reader.failures();
    let writer_before = writer.failures();
    let mut chunk = [0u8; CHUNK];
    for _ in 0..u64::MAX {
        let Some(n) = read_more(reader, reader_before, writer, writer_before, &mut chunk)? else {
            continue;
        };
        if n == 0 {
            take_last(alloc, session, held, writer, writer_before)?;
            return Ok(None);
        }
        let (piece, _) = chunk.split_at(n);
        if let Some(found) = take_piece(alloc, session, held, piece, writer, writer_before)? {
            return Ok(Some(found));
        }
    }
    Err(Refusal::Memory)
}

/// Answers the first lines of what a reader gives, up to the one that names the users, and writes what is
/// printed for them. No such line asks anybody. What was written is flushed before more is read; at the end the
/// writer is left to be flushed.
///
/// # Errors
///
/// They are those of [`serve_behind`](crate::serve_behind).
pub fn serve_head<R: Read + Faults, W: Write + Faults>(
    alloc: Global,
    mode: Mode,
    reader: &mut R,
    writer: &mut W,
) -> Result<Head, Refusal>
    // The last of them names the users, and the rest of what was read is left; or all lines are answered.
    ensures ok { IfOk result (λ head. (input : List ℕ)
        × Consumes (R.remaining reader.old) (R.remaining reader.new) input
        × IsHead mode (W.contents writer.old) (W.contents writer.new)
        input (IsAtEnd (R.remaining reader.new)) head.begun.session head.users head.begun.rest.items) }
    // How often reader and writer had failed before.
    ensures counts { IfOk result (λ head.
        (head.begun.reader_failures ≡ R.failed reader.old) × (head.begun.writer_failures ≡ W.failed writer.old)) }
    // Else the first lines are, whatever comes after what was read, and a beginning of their text.
    ensures err { IfErr result (λ why. (input : List ℕ)
        × Consumes (R.remaining reader.old) (R.remaining reader.new) input
        × EndedEarly mode Idle tt tt (W.contents writer.old) (W.contents writer.new)
        input (IsAtEnd (R.remaining reader.new)) why) }
    // Where the reader failed, these are the lines that were read whole, and all of their text.
    ensures failed { IfErr result (λ why. why ≡ InputFault → (input : List ℕ)
        × Consumes (R.remaining reader.old) (R.remaining reader.new) input
        × AnsweredSoFar mode Idle tt tt (W.contents writer.old) (W.contents writer.new) input) }
    // All lines are answered only where the reader's count shows no failure.
    ensures whole { IfOk result (λ head. head.users ≡ None → ¬ HasFailed (R.failed reader.old) (R.failed reader.new)) }
    ensures errors { IfErr result (λ why. (why ≡ InputFault) ⊎ IsOwn why) }
    ensures input_fault { IfErr result (MayBeFault InputFault (R.failed reader.old) (R.failed reader.new)) }
    ensures output_fault { IfErr result (MayBeFault OutputFault (W.failed writer.old) (W.failed writer.new)) }
    ensures memory { IfErr result (IsNoFault (W.failed writer.old) (W.failed writer.new)) }
{
    let reader_failures = reader.failures();
    let writer_failures = writer.failures();
    let mut session = Session::new(alloc, mode);
    let mut held = Vec::new(alloc);
    let found = match head_by(alloc, &mut session, &mut held, reader, writer) {
        Ok(found) => found,
        Err(Refusal::Memory) => return Err(want_of(writer, writer_failures)),
        Err(why) => return Err(why),
    };
    let (users, rest) = match found {
        Some(Found { users, rest }) => (Some(users), rest),
        None => (None, Vec::new(alloc)),
    };
    let begun = Begun {
        session,
        rest,
        reader_failures,
        writer_failures,
    };
    Ok(Head { begun, users })
}
