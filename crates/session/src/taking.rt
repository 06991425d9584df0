//! Taking the lines of a reader, one after another.

ghost use Rattle.std.specs.Prelude.{◌≡◌, ◌⊎◌, ℕ, List, Some, IfOk, IfErr};
ghost use Rattle.model.specs.declared.refusal.Refusal.TheVariants.{InputFault, Memory};
ghost use Rattle.session.specs.Taking.{TakesShown, IsNextLine};
ghost use Rattle.session.specs.declared.taking.Shown.TheVariants.{More};

use crate::serving::{hold, is_begun};
use lines::cut;
use model::Refusal;
use std::alloc::Global;
use std::io;
use std::io::{BufRead, ErrorKind};

/// What a reader shows of the line begun.
#[derive(Clone, Copy)]
enum Shown {
    /// More of it, or nothing where the read was interrupted.
    More,
    /// Its end.
    Line,
    /// The end of the input.
    End,
}

/// What is shown by a read that failed: one that was interrupted is to be tried again.
fn shown_by(error: &io::Error) -> Result<Shown, Refusal>
    ensures interrupted { IfOk result (λ shown. shown ≡ More) }
    ensures errors { IfErr result (λ why. (why ≡ InputFault) ⊎ (why ≡ Memory)) }
{
    match error.kind() {
        ErrorKind::Interrupted => Ok(Shown::More),
        ErrorKind::OutOfMemory => Err(Refusal::Memory),
        _ => Err(Refusal::InputFault),
    }
}

/// Takes what a reader shows of the line begun, and holds no more of it than shows whether it is too long.
fn take_shown<R: BufRead>(input: &mut R, held: &mut Vec<u8>) -> Result<Shown, Refusal>
    ensures taken { IfOk result (TakesShown (R.remaining input.old) (R.remaining input.new)
        held.old.items held.new.items) }
    ensures errors { IfErr result (λ why. (why ≡ InputFault) ⊎ (why ≡ Memory)) }
{
    let shown = match input.fill_buf() {
        Ok(shown) => shown,
        Err(error) => return shown_by(&error),
    };
    if let Some((line, _)) = cut(b'\n', shown) {
        hold(held, line)?;
        let taken = line.len() + 1;
        input.consume(taken);
        return Ok(Shown::Line);
    }
    hold(held, shown)?;
    let taken = shown.len();
    input.consume(taken);
    if taken == 0 {
        Ok(Shown::End)
    } else {
        Ok(Shown::More)
    }
}

/// Takes the next line of a reader, without its newline, which the last one may lack; or nothing at the input's
/// end. Of a line of more than 268,435,456 bytes one byte more than those is given, which shows that it is too
/// long.
///
/// # Errors
///
/// After each of them nothing is said of later lines.
///
/// - `InputFault` where a read failed, otherwise than by an interruption or for want of memory.
/// - `Memory` where memory was refused.
pub fn next_line<R: BufRead>(alloc: Global, input: &mut R) -> Result<Option<Vec<u8>>, Refusal>
    // Of a reader all of whose bytes are known.
    ensures line { IfOk result (λ line. (all : List ℕ) → R.remaining input.old ≡ Some all
        → IsNextLine all (R.remaining input.new) line) }
    ensures errors { IfErr result (λ why. (why ≡ InputFault) ⊎ (why ≡ Memory)) }
{
    let mut held = Vec::new(alloc);
    for _ in 0..u64::MAX {
        match take_shown(input, &mut held)? {
            Shown::More => {}
            Shown::Line => return Ok(Some(held)),
            Shown::End if is_begun(held.as_slice()) => return Ok(Some(held)),
            Shown::End => return Ok(None),
        }
    }
    Err(Refusal::Memory)
}
