//! The first lines of an input, up to the one that names its users.

ghost use Rattle.std.specs.Prelude.{◌≡◌, ◌⊎◌, ◌∷◌, ◌++◌, ℕ, List, if◌then◌else◌, false, [], Some, IfOk, IfErr};
ghost use Rattle.model.specs.declared.refusal.Refusal.TheVariants.{BadUsers, Memory};
ghost use Rattle.model.specs.Lines.{lines_of};
ghost use Rattle.replaying.specs.BadLines.{is_bad_reading, AreBad};
ghost use Rattle.replaying.specs.Recording.{IsFirst, NamesUsers, RefusesFirst};
ghost use Rattle.replaying.specs.Striking.{StrikeEndsBy};

use crate::bad_lines::BadLines;
use crate::numbers::Named;
use model::Refusal;
use schedule::User;
use session::{Mode, NoUsers, Reading, Session, next_line, users_of};
use std::alloc::Global;
use std::io::BufRead;

/// Whether a line is refused with 25 `BadLine`, by what it comes to.
pub(crate) fn is_bad(reading: &Reading) -> bool
    ensures { result ≡ is_bad_reading reading.now }
{
    matches!(reading, Reading::Refuses(Refusal::BadLine))
}

/// These lines, and behind them that of a number, where it is refused so.
pub(crate) fn bad_after(bad: Option<BadLines>, is_bad: bool, number: usize) -> Option<BadLines>
    ensures { (numbers : List ℕ) → AreBad bad numbers
        → AreBad result (numbers ++ (if is_bad then number ∷ [] else [])) }
{
    if !is_bad {
        return bad;
    }
    match bad {
        Some(lines) => Some(BadLines {
            count: lines.count.saturating_add(1),
            first: lines.first,
        }),
        None => Some(BadLines {
            count: 1,
            first: number,
        }),
    }
}

/// What a line was before which nobody is named.
#[derive(Drop)]
struct First {
    /// The users whom it names, if it does.
    users: Option<Vec<User>>,
    /// Whether it was refused with 25 `BadLine`.
    is_bad: bool,
}

/// Answers a line before which nobody is named. Nobody is asked.
fn answer_first(alloc: Global, session: &mut Session, line: &[u8]) -> Result<First, Refusal>
    requires { session.old.begun ≡ false }
    ensures first { IfOk result (IsFirst line.now session.old session.new) }
    ensures refused { IfErr result (λ why. (why ≡ Memory)
        ⊎ ((why ≡ BadUsers) × RefusesFirst line.now session.old)) }
{
    let reading = session.read(alloc, line)?;
    let is_bad = is_bad(&reading);
    let users = users_of(&reading)?;
    session.answer(alloc, reading, &mut NoUsers)?;
    if session.is_refused() {
        return Err(Refusal::BadUsers);
    }
    Ok(First { users, is_bad })
}

/// Answers the first lines of an input, up to the one that names its users. Where none does, no user is known.
pub(crate) fn find_users<R: BufRead>(alloc: Global, input: &mut R) -> Result<Named, Refusal>
    ensures named { IfOk result (λ named. (all : List ℕ) → R.remaining input.old ≡ Some all
        → NamesUsers (lines_of all) (R.remaining input.new) named) }
    ensures why { IfErr result (λ why. (user : List ℕ) → StrikeEndsBy user (R.remaining input.old) why) }
{
    let mut session = Session::new(alloc, Mode::Service);
    let mut bad = None;
    for _ in 0..u64::MAX {
        let Some(line) = next_line(alloc, input)? else {
            return Err(Refusal::UnknownUser);
        };
        let First { users, is_bad } = answer_first(alloc, &mut session, line.as_slice())?;
        bad = bad_after(bad, is_bad, session.line_count());
        if let Some(users) = users {
            return Ok(Named {
                session,
                users,
                bad,
            });
        }
    }
    Err(Refusal::Memory)
}
