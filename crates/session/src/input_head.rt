//! Reading a file ahead, up to its users.

ghost use Rattle.std.specs.Prelude.{◌≡◌, ◌⊎◌, ◌++◌, ℕ, List, Some, true, false, Ok, IfOk, IfErr};
ghost use Rattle.std.specs.Io.KnownBytes.{Consumes};
ghost use Rattle.model.specs.declared.mode.Mode.TheVariants.{Run};
ghost use Rattle.model.specs.declared.refusal.Refusal.TheVariants.{Memory, BadUsers, InputFault};
ghost use Rattle.session.specs.Ahead.{LooksAhead};
ghost use Rattle.session.specs.InputHeads.{BeginsOtherwise, BeginsWithUsers};
ghost use Rattle.session.specs.Serving.{HasFailed, MayBeFault};

use crate::ahead::{Ahead, read_ahead};
use crate::answer::NoUsers;
use crate::session::Session;
use lines::cut;
use model::{Mode, Refusal};
use nar::{Faults, has_failed};
use std::alloc::Global;
use std::io::Read;
use trust::User;

/// What was read of a file whose lines may be run.
#[derive(Drop)]
pub struct InputHead {
    /// All bytes that were read.
    pub bytes: Vec<u8>,
    /// The users whom its first line that gets a reply names.
    pub users: Vec<User>,
}

/// Whether the first line that gets a reply names users. Lines behind it are left alone.
fn begins_with_users(alloc: Global, bytes: &[u8]) -> Result<bool, Refusal>
    ensures first { result ≡ Ok true → BeginsWithUsers bytes.now }
    ensures others { result ≡ Ok false → ¬ BeginsWithUsers bytes.now }
    ensures memory { IfErr result (λ why. why ≡ Memory) }
{
    let mut session = Session::new(alloc, Mode::Run);
    let mut rest = bytes;
    while let Some((line, behind)) = cut(b'\n', rest) {
        let text = session.line(alloc, line, &mut NoUsers)?;
        if !text.is_empty() {
            return Ok(session.has_users());
        }
        rest = behind;
    }
    let _text = session.line(alloc, rest, &mut NoUsers)?;
    Ok(session.has_users())
}

/// Why a file is not run that was read and does not begin with users: it could not be read, where the
/// reader's count shows a failure since it was `before`.
fn no_users<R: Faults>(reader: &R, before: u64) -> Refusal
    ensures fault { result ≡ InputFault → HasFailed before (R.failed reader.now) }
    ensures users { result ≡ BadUsers → ¬ HasFailed before (R.failed reader.now) }
    ensures either { (result ≡ InputFault) ⊎ (result ≡ BadUsers) }
{
    if has_failed(before, reader.failures()) {
        Refusal::InputFault
    } else {
        Refusal::BadUsers
    }
}

/// Reads a file up to its first line of users, and looks whether its lines may be run: the first of them
/// that gets a reply names users.
///
/// # Errors
///
/// - `InputFault` only where the reader failed during the call by its count.
/// - `BadUsers` where the first line that gets a reply is no line of users, where it is one that is
///   refused, and where there is none.
/// - `Memory` only where memory was refused.
pub fn look_ahead<R: Read + Faults>(alloc: Global, reader: &mut R) -> Result<InputHead, Refusal>
    ensures read { IfOk result (λ head.
        Consumes (R.remaining reader.old) (R.remaining reader.new) head.bytes.items) }
    // Whatever comes after what was read, these are the users that a session of it names.
    ensures users { IfOk result (λ head. (all left : List ℕ) → R.remaining reader.new ≡ Some left
        → LooksAhead Run (head.bytes.items ++ left) (Some head.users.items)) }
    // Nothing before its users gets a reply.
    ensures first { IfOk result (λ head. BeginsWithUsers head.bytes.items) }
    // A file that could not be read is not told as one that names no users.
    ensures bad_users { IfErr result (λ why. why ≡ BadUsers → ¬ HasFailed (R.failed reader.old) (R.failed reader.new)) }
    // Neither is one that begins with them, whatever was read of it.
    ensures others { IfErr result (λ why. why ≡ BadUsers → BeginsOtherwise (R.remaining reader.old)) }
    ensures why { IfErr result (λ why. (why ≡ InputFault) ⊎ (why ≡ BadUsers) ⊎ (why ≡ Memory)) }
    ensures fault { IfErr result (MayBeFault InputFault (R.failed reader.old) (R.failed reader.new)) }
{
    let before = reader.failures();
    let ahead = read_ahead(alloc, Mode::Run, reader)?;
    if ahead.has_failed {
        return Err(Refusal::InputFault);
    }
    let Ahead { bytes, users, .. } = ahead;
    let Some(users) = users else {
        return Err(no_users(reader, before));
    };
    if !begins_with_users(alloc, bytes.as_slice())? {
        return Err(no_users(reader, before));
    }
    Ok(InputHead { bytes, users })
}
