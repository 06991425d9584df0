//! Reading the words of a line.

ghost use Rattle.std.specs.Prelude.{◌≡◌, ◌⊎◌, ◌++◌, true, false, codes, IfOk, IfErr, MatchOption};
ghost use Rattle.std.specs.List.{list_all};
ghost use Rattle.model.specs.declared.refusal.Refusal.TheVariants.{Memory, BadLine};
ghost use Rattle.model.specs.declared.verb.WordKind.TheVariants as kind;
ghost use Rattle.model.specs.Worlds.{is_user_name, are_users};
ghost use Rattle.model.specs.Words.{IsTreeText, IsRawText, IsOutputText, IsNoOutputOf, IsIll, number_in, is_goal_number, is_exit_status};
ghost use Rattle.tree_text.specs.TextReading.{is_lower_digit};

use crate::cutting::Word;
use crate::numbers::numeral_up_to;
use aterm::Text;
use events::Output;
use hex::FromHexError;
use model::{LONGEST_USER_NAME, MOST_GOALS, Refusal};
use nar::Tree;
use std::alloc::{AllocError, Global};
use tree_text::{decode_digits, read_tree_text};
use trust::{User, are_users};

/// The greatest exit status of a builder.
const GREATEST_STATUS: usize = 255;

/// The user of a word. It is copied only where it is a name.
pub(crate) fn read_user(alloc: Global, word: &[u8]) -> Result<User, Refusal>
    ensures read { IfOk result (λ user. (user ≡ word.now) × (is_user_name word.now ≡ true)) }
    ensures refused { IfErr result (λ why. (why ≡ Memory) ⊎ IsIll kind.User word.now why) }
{
    if word.len() > LONGEST_USER_NAME {
        return Err(Refusal::BadLine);
    }
    let user = User::new(alloc, word)?;
    if user.is_well_formed() {
        Ok(user)
    } else {
        Err(Refusal::BadLine)
    }
}

/// The tree of a word.
pub(crate) fn read_tree(alloc: Global, word: &[u8]) -> Result<Tree, Refusal>
    ensures read { IfOk result (IsTreeText word.now) }
    ensures refused { IfErr result (λ why. (why ≡ Memory) ⊎ IsIll kind.Tree word.now why) }
{
    read_tree_text(alloc, word)
}

/// The text of a derivation, copied from the word.
pub(crate) fn read_text(alloc: Global, word: &[u8]) -> Result<Text, AllocError>
    ensures { IfOk result (λ text. text ≡ word.now) }
{
    Text::new(Vec::from_slice(alloc, word)?)
}

/// The number of a goal.
pub(crate) fn read_number(word: &[u8]) -> Result<u16, Refusal>
    ensures read { IfOk result (λ number.
        (number ≡ number_in word.now) × (is_goal_number word.now ≡ true)) }
    ensures refused { IfErr result (IsIll kind.Number word.now) }
{
    match numeral_up_to(MOST_GOALS, word) {
        Some(number) => Ok(number as u16),
        None => Err(Refusal::BadLine),
    }
}

/// How a builder ended.
pub(crate) fn read_exit_status(word: &[u8]) -> Result<u8, Refusal>
    ensures read { IfOk result (λ status.
        (status ≡ number_in word.now) × (is_exit_status word.now ≡ true)) }
    ensures refused { IfErr result (IsIll kind.ExitStatus word.now) }
{
    if word == b"0".as_slice() {
        return Ok(0);
    }
    match numeral_up_to(GREATEST_STATUS, word) {
        Some(status) => Ok(status as u8),
        None => Err(Refusal::BadLine),
    }
}

/// Whether all are digits of base 16 in lower case.
fn are_lower_digits(digits: &[u8]) -> bool
    ensures { result ≡ list_all is_lower_digit digits.now }
{
    digits
        .iter()
        .all(|digit| matches!(*digit, b'0'..=b'9' | b'a'..=b'f'))
}

/// The bytes whose digits stand behind `n:`.
fn read_raw(alloc: Global, digits: &[u8]) -> Result<Vec<u8>, Refusal>
    ensures read { IfOk result (λ bytes. IsRawText (codes "n:" ++ digits.now) bytes.items) }
    ensures refused { IfErr result (λ why.
        (why ≡ Memory) ⊎ IsNoOutputOf true (codes "n:" ++ digits.now) why) }
{
    if !are_lower_digits(digits) {
        return Err(Refusal::BadLine);
    }
    match decode_digits(alloc, digits) {
        Ok(bytes) => Ok(bytes),
        Err(FromHexError::OutOfMemory) => Err(Refusal::Memory),
        Err(_) => Err(Refusal::BadLine),
    }
}

/// What a builder wrote: any bytes in base 16 behind `n:`, or the archive of a tree.
pub(crate) fn read_output(alloc: Global, word: &[u8]) -> Result<Output, Refusal>
    ensures read { IfOk result (IsOutputText word.now) }
    ensures refused { IfErr result (λ why. (why ≡ Memory) ⊎ IsIll kind.Output word.now why) }
{
    match word.strip_prefix(b"n:".as_slice()) {
        Some(digits) => Output::new(read_raw(alloc, digits)?),
        None => Ok(Output::archive_of(read_tree(alloc, word)?)),
    }
}

/// The users of these words, where they are a list of users.
pub(crate) fn read_users(alloc: Global, words: &[Word<'_>]) -> Result<Option<Vec<User>>, Refusal>
    ensures read { IfOk result (λ users. MatchOption users (are_users words.now ≡ false)
        (λ users. (users.items ≡ words.now) × (are_users words.now ≡ true))) }
    ensures memory { IfErr result (λ why. why ≡ Memory) }
{
    let mut users = Vec::new(alloc);
    for word in words {
        if word.bytes().len() > LONGEST_USER_NAME {
            return Ok(None);
        }
        users.push(User::new(alloc, word.bytes())?)?;
    }
    if are_users(users.as_slice()) {
        Ok(Some(users))
    } else {
        Ok(None)
    }
}
