//! Reading ahead to the users of a session.

ghost use Rattle.std.specs.Prelude.{◌≡◌, ◌++◌, [], true, false, ℕ, List, None, IfOk, IfErr, OnOk, OnErr, option_map};
ghost use Rattle.std.specs.Io.KnownBytes.{Consumes, IsAtEnd};
ghost use Rattle.model.specs.declared.refusal.Refusal.TheVariants.{Memory};
ghost use Rattle.model.specs.Talk.{fresh};
ghost use Rattle.session.specs.Ahead.{IsLook, NoUsersSoFar, LooksAhead, SearchesOn, SearchesLast};
ghost use Rattle.session.specs.Serving.{HasFailed};

use crate::answer::NoUsers;
use crate::serving::{CHUNK, hold, is_begun};
use crate::session::Session;
use crate::streams::read_some;
use lines::{Reading, cut};
use model::{Mode, Refusal};
use nar::Faults;
use std::alloc::Global;
use std::io::Read;
use trust::User;

/// What was read of an input, up to its first line of users that is answered `ok`.
#[derive(Drop)]
pub struct Ahead {
    /// All bytes that were read.
    pub bytes: Vec<u8>,
    /// The users of that line, or nothing where there is none.
    pub users: Option<Vec<User>>,
    /// Whether the input's end was reached.
    pub has_ended: bool,
    /// Whether the reader failed, and so not all was read.
    pub has_failed: bool,
}

/// What was found in all that was read: what [`Ahead`] says of it.
#[derive(Drop)]
struct Found {
    users: Option<Vec<User>>,
    has_ended: bool,
    has_failed: bool,
}

/// What a line is to who looks for the users.
#[derive(Drop)]
enum FirstLine {
    /// It names them.
    Users(Vec<User>),
    /// It is a line of users that is refused: a session ends with it.
    Refused,
    /// Any other line.
    Other,
}

/// Looks at the next line.
fn look_at(alloc: Global, session: &mut Session, line: &[u8]) -> Result<FirstLine, Refusal>
    ensures found { IfOk result (IsLook line.now session.old session.new) }
    ensures memory { IfErr result (λ why. why ≡ Memory) }
{
    match session.read(alloc, line)? {
        Reading::Names(users) => Ok(FirstLine::Users(users)),
        Reading::Refuses(Refusal::BadUsers) => Ok(FirstLine::Refused),
        reading => {
            session.answer(alloc, reading, &mut NoUsers)?;
            Ok(FirstLine::Other)
        }
    }
}

/// Looks at the lines that end in the next piece of the input.
fn look_on(
    alloc: Global,
    session: &mut Session,
    held: &mut Vec<u8>,
    piece: &[u8],
) -> Result<FirstLine, Refusal>
    ensures found { IfOk result
        (SearchesOn session.old held.old.items piece.now session.new held.new.items) }
    ensures memory { IfErr result (λ why. why ≡ Memory) }
{
    let mut rest = piece;
    while let Some((line, after)) = cut(b'\n', rest) {
        hold(held, line)?;
        match look_at(alloc, session, held.as_slice())? {
            FirstLine::Users(users) => return Ok(FirstLine::Users(users)),
            FirstLine::Refused => return Ok(FirstLine::Refused),
            FirstLine::Other => held.clear(),
        }
        rest = after;
    }
    hold(held, rest)?;
    Ok(FirstLine::Other)
}

/// Looks at a last line that lacks its newline, if there is one.
fn look_last(
    alloc: Global,
    session: &mut Session,
    held: &[u8],
) -> Result<Option<Vec<User>>, Refusal>
    ensures found { IfOk result (SearchesLast session.old held.now) }
    ensures memory { IfErr result (λ why. why ≡ Memory) }
{
    if !is_begun(held) {
        return Ok(None);
    }
    match look_at(alloc, session, held)? {
        FirstLine::Users(users) => Ok(Some(users)),
        FirstLine::Refused => Ok(None),
        FirstLine::Other => Ok(None),
    }
}

/// Looks for the users in what a reader gives, and keeps all that is read. The session has had no
/// line.
fn search<R: Read + Faults>(
    alloc: Global,
    session: &mut Session,
    held: &mut Vec<u8>,
    bytes: &mut Vec<u8>,
    reader: &mut R,
) -> Result<Found, Refusal>
    requires { (session.old ≡ fresh session.old.mode) × (held.old.items ≡ []) × (bytes.old.items ≡ []) }
    ensures read { OnOk result
        (Consumes (R.remaining reader.old) (R.remaining reader.new) bytes.new.items) }
    ensures ended { IfOk result (λ found.
        found.has_ended ≡ true → IsAtEnd (R.remaining reader.new)) }
    ensures failed { IfOk result (λ found.
        found.has_failed ≡ true → HasFailed (R.failed reader.old) (R.failed reader.new)) }
    ensures users { IfOk result (λ found. found.has_failed ≡ false
        → (more : List ℕ) → (found.has_ended ≡ true → more ≡ [])
        → LooksAhead session.old.mode (bytes.new.items ++ more) (option_map (λ u. u.items) found.users)) }
    ensures no_users { IfOk result (λ found. found.has_failed ≡ true
        → (found.users ≡ None) × NoUsersSoFar session.old.mode bytes.new.items) }
    ensures err { OnErr result ((input : List ℕ)
        × Consumes (R.remaining reader.old) (R.remaining reader.new) input) }
    ensures memory { IfErr result (λ why. why ≡ Memory) }
{
    let before = reader.failures();
    let mut chunk = [0u8; CHUNK];
    for _ in 0..u64::MAX {
        let n = match read_some(reader, before, &mut chunk) {
            Ok(Some(n)) => n,
            Ok(None) => continue,
            Err(_) => {
                return Ok(Found {
                    users: None,
                    has_ended: false,
                    has_failed: true,
                });
            }
        };
        if n == 0 {
            let users = look_last(alloc, session, held.as_slice())?;
            return Ok(Found {
                users,
                has_ended: true,
                has_failed: false,
            });
        }
        let (piece, _) = chunk.split_at(n);
        bytes.extend_from_slice(piece)?;
        let users = match look_on(alloc, session, held, piece)? {
            FirstLine::Users(users) => Some(users),
            FirstLine::Refused => None,
            FirstLine::Other => continue,
        };
        return Ok(Found {
            users,
            has_ended: false,
            has_failed: false,
        });
    }
    Err(Refusal::Memory)
}

/// Reads an input up to its first line of users that is answered `ok`, or up to the line of users
/// that is refused with 14, and finds the users. All bytes that are read are kept, so that
/// [`serve_behind`](crate::serve_behind) can answer them.
///
/// Where the reader fails, `has_failed` says so, and no users are given; a reader that fails and does
/// not count it is tried again.
///
/// # Errors
///
/// - `Memory` only where memory was refused.
pub fn read_ahead<R: Read + Faults>(
    alloc: Global,
    mode: Mode,
    reader: &mut R,
) -> Result<Ahead, Refusal>
    ensures read { IfOk result (λ ahead.
        Consumes (R.remaining reader.old) (R.remaining reader.new) ahead.bytes.items) }
    ensures ended { IfOk result (λ ahead.
        ahead.has_ended ≡ true → IsAtEnd (R.remaining reader.new)) }
    ensures failed { IfOk result (λ ahead.
        ahead.has_failed ≡ true → HasFailed (R.failed reader.old) (R.failed reader.new)) }
    // Whatever comes after what was read, these are the users that a session of it names.
    ensures users { IfOk result (λ ahead. ahead.has_failed ≡ false
        → (more : List ℕ) → (ahead.has_ended ≡ true → more ≡ [])
        → LooksAhead mode (ahead.bytes.items ++ more) (option_map (λ u. u.items) ahead.users)) }
    // Where the reader failed, none are given, and the whole lines of what was read name none.
    ensures no_users { IfOk result (λ ahead. ahead.has_failed ≡ true
        → (ahead.users ≡ None) × NoUsersSoFar mode ahead.bytes.items) }
    ensures err { OnErr result ((input : List ℕ)
        × Consumes (R.remaining reader.old) (R.remaining reader.new) input) }
    ensures memory { IfErr result (λ why. why ≡ Memory) }
{
    let mut session = Session::new(alloc, mode);
    let mut held = Vec::new(alloc);
    let mut bytes = Vec::new(alloc);
    let found = search(alloc, &mut session, &mut held, &mut bytes, reader)?;
    Ok(Ahead {
        bytes,
        users: found.users,
        has_ended: found.has_ended,
        has_failed: found.has_failed,
    })
}
