//! Reading a line.

ghost use Rattle.std.specs.Prelude.{◌≡◌, IfOk, IfErr, Some};
ghost use Rattle.std.specs.List.{list_all};
ghost use Rattle.model.specs.declared.refusal.Refusal.TheVariants.{Memory};
ghost use Rattle.model.specs.Lines.{split, cut_at};
ghost use Rattle.model.specs.ParsedLines.{is_quiet, is_printable, parsed_names, parsed_users, parsed_first, parsed_word, parsed_later, parsed_text, parsed_line};
ghost use Rattle.lines.specs.Reading.{Becomes, BecomesOfCommand};

use crate::commands::{command_in, read_event};
use crate::cutting::{Word, cut, first_words, has_empty_word};
use crate::expand::fill;
use crate::line::Reading;
use crate::line_result::LineResult;
use crate::words::read_users;
use events::Event;
use model::{LONGEST_LINE, MOST_USERS, Mode, Refusal};
use std::alloc::Global;

/// So many words of a line tell whether it is a list of users: `users`, 64 names and one more.
const MOST_WORDS: usize = MOST_USERS + 2;

fn is_quiet(line: &[u8]) -> bool
    ensures { result ≡ is_quiet line.now }
{
    match line {
        [] => true,
        [first, ..] => *first == b'#',
    }
}

/// Whether every byte of a line may be printed. It looks at all of them, so that several are taken
/// at once.
pub(crate) fn is_printable(line: &[u8]) -> bool
    ensures { result ≡ list_all is_printable line.now }
{
    let mut is_printable = true;
    for b in line {
        is_printable = is_printable & (32 <= *b) & (*b <= 126);
    }
    is_printable
}

/// What a line comes to that makes this event, or is refused.
fn asks(event: Result<Event, Refusal>) -> Result<Reading, Refusal>
    ensures read { IfOk result (BecomesOfCommand event) }
    ensures memory { IfErr result (λ why. why ≡ Memory) }
{
    match event {
        Ok(event) => Ok(Reading::Asks(event)),
        Err(Refusal::Memory) => Err(Refusal::Memory),
        Err(why) => Ok(Reading::Refuses(why)),
    }
}

/// Reads a line with no blank, after that of users.
fn read_word(mode: Mode, word: &[u8]) -> Reading
    ensures { Becomes (parsed_word mode word.now) result }
{
    match mode {
        Mode::Run if word == b"wait".as_slice() => Reading::Waits,
        _ => Reading::Refuses(Refusal::BadLine),
    }
}

/// Reads a line after that of users.
fn read_later(alloc: Global, mode: Mode, text: &[u8]) -> Result<Reading, Refusal>
    ensures read { IfOk result (Becomes (parsed_later mode text.now (cut_at 32 text.now))) }
    ensures memory { IfErr result (λ why. why ≡ Memory) }
{
    let Some((user, behind)) = cut(b' ', text) else {
        return Ok(read_word(mode, text));
    };
    if user == b"users".as_slice() {
        return Ok(Reading::Refuses(Refusal::BadLine));
    }
    let Some(command) = command_in(alloc, mode, behind)? else {
        return Ok(Reading::Refuses(Refusal::BadLine));
    };
    asks(read_event(alloc, user, &command))
}

/// Reads the names of a line of users.
fn read_names(alloc: Global, names: &[Word<'_>]) -> Result<Reading, Refusal>
    ensures read { IfOk result (Becomes (parsed_names names.now)) }
    ensures memory { IfErr result (λ why. why ≡ Memory) }
{
    match read_users(alloc, names)? {
        Some(users) => Ok(Reading::Names(users)),
        None => Ok(Reading::Refuses(Refusal::BadUsers)),
    }
}

/// Reads the words of a line before that of users.
fn read_first_words(alloc: Global, words: &[Word<'_>]) -> Result<Reading, Refusal>
    ensures read { IfOk result (Becomes (parsed_users words.now)) }
    ensures memory { IfErr result (λ why. why ≡ Memory) }
{
    match words {
        [] => Ok(Reading::Refuses(Refusal::BadLine)),
        [first, names @ ..] => {
            if first.bytes() == b"users".as_slice() {
                read_names(alloc, names)
            } else {
                Ok(Reading::Refuses(Refusal::BadLine))
            }
        }
    }
}

/// Reads a line before that of users.
fn read_first(alloc: Global, text: &[u8]) -> Result<Reading, Refusal>
    ensures read { IfOk result (Becomes (parsed_first (split 32 text.now))) }
    ensures memory { IfErr result (λ why. why ≡ Memory) }
{
    if has_empty_word(text) {
        return Ok(Reading::Refuses(Refusal::BadLine));
    }
    let words = first_words(alloc, MOST_WORDS, text)?;
    read_first_words(alloc, words.as_slice())
}

/// Reads a line whose expansions are made.
fn read_text(alloc: Global, mode: Mode, begun: bool, text: &[u8]) -> Result<Reading, Refusal>
    ensures read { IfOk result (Becomes (parsed_text mode begun (Some text.now))) }
    ensures memory { IfErr result (λ why. why ≡ Memory) }
{
    if begun {
        read_later(alloc, mode, text)
    } else {
        read_first(alloc, text)
    }
}

/// Reads a line of that mode after others, of which one of users was answered ok or none, and whose replies told
/// this. The line is copied only where it has a brace.
///
/// # Errors
///
/// - `Memory` only where memory was refused.
pub fn read_line(
    alloc: Global,
    mode: Mode,
    begun: bool,
    told: &[LineResult],
    line: &[u8],
) -> Result<Reading, Refusal>
    ensures read { IfOk result (Becomes (parsed_line mode begun told.now line.now)) }
    ensures memory { IfErr result (λ why. why ≡ Memory) }
{
    if line.len() > LONGEST_LINE {
        return Ok(Reading::Refuses(Refusal::TooLarge));
    }
    if is_quiet(line) {
        return Ok(Reading::Silent);
    }
    if !is_printable(line) {
        return Ok(Reading::Refuses(Refusal::BadLine));
    }
    let Some(_) = cut(b'{', line) else {
        return read_text(alloc, mode, begun, line);
    };
    match fill(alloc, told, line)? {
        None => Ok(Reading::Refuses(Refusal::BadLine)),
        Some(text) => read_text(alloc, mode, begun, text.as_slice()),
    }
}
