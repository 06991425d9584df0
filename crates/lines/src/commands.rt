//! What a line asks for its user.

ghost use Rattle.std.specs.Prelude.{◌≡◌, ◌∷◌, [], length, IfOk, MatchResult, option_map};
ghost use Rattle.model.specs.declared.verb.Verb.TheVariants as verbs;
ghost use Rattle.model.specs.declared.verb.WordKind.TheVariants as kinds;
ghost use Rattle.model.specs.Verbs.{kinds_of, verb_in};
ghost use Rattle.model.specs.ParsedLines.{is_rest_of_line, words_by, command_in};
ghost use Rattle.lines.specs.Reading.{command_of, IsRequestOfCommand, IsNoRequest, IsEventOfCommand, IsNoEvent};

use crate::cutting::{Word, cut, first_words, has_empty_word, one_word};
use crate::words::{read_exit_status, read_number, read_output, read_text, read_tree, read_user};
use events::{Event, Request};
use model::{Mode, Refusal, Verb, WordKind};
use std::alloc::{AllocError, Global};
use std::marker::Model;
use storepath::{Name, read_path};

/// A verb with its words, as many as it has kinds of them.
pub(crate) struct Command<'a> {
    verb: Verb,
    words: Vec<Word<'a>>,
}

impl Drop for Command<'_> {
    fn drop(self) {
        let Command { verb: _, words: _ } = self;
    }
}

impl<'a> Model for Command<'a> {
    ghost use Rattle.std.specs.Prelude.{◌≡◌, length};
    ghost use Rattle.model.specs.Verbs.{kinds_of};
    ghost use Rattle.model.specs.ParsedLines.{Command as CommandValue};

    ghost Value = { CommandValue };

    ghost view = { λ command. record { verb = command.verb; words = command.words.items } };

    ghost invariant = { λ command. length command.words.items ≡ length (kinds_of command.verb) };
}

/// Whether all that is left of the line is one word.
fn is_text(kinds: &[WordKind]) -> bool
    ensures { result ≡ is_rest_of_line kinds.now }
{
    matches!(kinds, [WordKind::Text])
}

/// What stands behind a verb as words of these kinds.
fn words_by<'a>(
    alloc: Global,
    kinds: &[WordKind],
    text: &'a [u8],
) -> Result<Option<Vec<Word<'a>>>, AllocError>
    ensures { IfOk result (λ words. option_map (λ w. w.items) words ≡ words_by kinds.now text.now) }
{
    if is_text(kinds) {
        return Ok(Some(one_word(alloc, text)?));
    }
    if has_empty_word(text) {
        return Ok(None);
    }
    let words = first_words(alloc, kinds.len() + 1, text)?;
    if words.len() == kinds.len() {
        Ok(Some(words))
    } else {
        Ok(None)
    }
}

/// The verb that a word is in lines of the mode.
fn verb_in(mode: Mode, word: &[u8]) -> Option<Verb>
    ensures { result ≡ verb_in mode word.now }
{
    let verb = Verb::of(word)?;
    if mode.knows(verb) { Some(verb) } else { None }
}

/// What stands behind a user's name as a command, in lines of the mode.
pub(crate) fn command_in(
    alloc: Global,
    mode: Mode,
    text: &[u8],
) -> Result<Option<Command<'_>>, AllocError>
    ensures { IfOk result (λ command. command ≡ command_in mode text.now) }
{
    let Some((word, rest)) = cut(b' ', text) else {
        return Ok(None);
    };
    let Some(verb) = verb_in(mode, word) else {
        return Ok(None);
    };
    let Some(words) = words_by(alloc, verb.kinds(), rest)? else {
        return Ok(None);
    };
    Ok(Some(Command { verb, words }))
}

/// The request of a verb with one word, which is a path.
fn request_of_path(alloc: Global, verb: Verb, word: &[u8]) -> Result<Request, Refusal>
    requires { kinds_of verb ≡ kinds.Path ∷ [] }
    ensures { let command = command_of verb (word.now ∷ []) in
        MatchResult result (IsRequestOfCommand command) (IsNoRequest command) }
{
    let path = read_path(alloc, word)?;
    match verb {
        Verb::Fetch => Ok(Request::Fetch(path)),
        Verb::Unpin => Ok(Request::Unpin(path)),
        Verb::Closure => Ok(Request::Closure(path)),
        Verb::Take => Ok(Request::Take(path)),
        Verb::Build => Ok(Request::Build(path)),
        _ => Err(Refusal::BadLine),
    }
}

/// The request of a verb with one word, which is the number of a goal.
fn request_of_number(verb: Verb, word: &[u8]) -> Result<Request, Refusal>
    requires { kinds_of verb ≡ kinds.Number ∷ [] }
    ensures { let command = command_of verb (word.now ∷ []) in
        MatchResult result (IsRequestOfCommand command) (IsNoRequest command) }
{
    let number = read_number(word)?;
    match verb {
        Verb::Status => Ok(Request::Status(number)),
        Verb::Plan => Ok(Request::Plan(number)),
        Verb::Start => Ok(Request::Start(number)),
        _ => Err(Refusal::BadLine),
    }
}

/// The request of a verb with one word.
fn request_of_one(alloc: Global, verb: Verb, word: &[u8]) -> Result<Request, Refusal>
    requires { length (kinds_of verb) ≡ 1 }
    ensures { let command = command_of verb (word.now ∷ []) in
        MatchResult result (IsRequestOfCommand command) (IsNoRequest command) }
{
    match verb {
        Verb::Derivation => Ok(Request::AddDerivation(read_text(alloc, word)?)),
        Verb::Trust => Ok(Request::Trust(read_user(alloc, word)?)),
        Verb::Distrust => Ok(Request::Distrust(read_user(alloc, word)?)),
        Verb::Status | Verb::Plan | Verb::Start => request_of_number(verb, word),
        _ => request_of_path(alloc, verb, word),
    }
}

/// The request of the verb `source`.
fn source_request(alloc: Global, first: &[u8], second: &[u8]) -> Result<Request, Refusal>
    ensures { let command = command_of verbs.Source (first.now ∷ second.now ∷ []) in
        MatchResult result (IsRequestOfCommand command) (IsNoRequest command) }
{
    let name = Name::new(alloc, first)?;
    Ok(Request::AddSource(name, read_tree(alloc, second)?))
}

/// The request of the verb `offer`.
fn offer_request(alloc: Global, first: &[u8], second: &[u8]) -> Result<Request, Refusal>
    ensures { let command = command_of verbs.Offer (first.now ∷ second.now ∷ []) in
        MatchResult result (IsRequestOfCommand command) (IsNoRequest command) }
{
    let path = read_path(alloc, first)?;
    Ok(Request::Offer(path, read_tree(alloc, second)?))
}

/// The request of the verb `pin`.
fn pin_request(alloc: Global, first: &[u8], second: &[u8]) -> Result<Request, Refusal>
    ensures { let command = command_of verbs.Pin (first.now ∷ second.now ∷ []) in
        MatchResult result (IsRequestOfCommand command) (IsNoRequest command) }
{
    let class = read_path(alloc, first)?;
    Ok(Request::Pin(class, read_path(alloc, second)?))
}

/// The request of the verb `forget`.
fn forget_request(alloc: Global, first: &[u8], second: &[u8]) -> Result<Request, Refusal>
    ensures { let command = command_of verbs.Forget (first.now ∷ second.now ∷ []) in
        MatchResult result (IsRequestOfCommand command) (IsNoRequest command) }
{
    let class = read_path(alloc, first)?;
    Ok(Request::Forget(class, read_path(alloc, second)?))
}

/// The request of the verb `finish`.
fn finish_request(alloc: Global, first: &[u8], second: &[u8]) -> Result<Request, Refusal>
    ensures { let command = command_of verbs.Finish (first.now ∷ second.now ∷ []) in
        MatchResult result (IsRequestOfCommand command) (IsNoRequest command) }
{
    let number = read_number(first)?;
    Ok(Request::Finish(number, read_output(alloc, second)?))
}

/// The request of a verb with two words.
fn request_of_two(
    alloc: Global,
    verb: Verb,
    first: &[u8],
    second: &[u8],
) -> Result<Request, Refusal>
    requires { length (kinds_of verb) ≡ 2 }
    ensures { let command = command_of verb (first.now ∷ second.now ∷ []) in
        MatchResult result (IsRequestOfCommand command) (IsNoRequest command) }
{
    match verb {
        Verb::Source => source_request(alloc, first, second),
        Verb::Offer => offer_request(alloc, first, second),
        Verb::Pin => pin_request(alloc, first, second),
        Verb::Forget => forget_request(alloc, first, second),
        Verb::Finish => finish_request(alloc, first, second),
        Verb::Fail => Ok(Request::Fail(read_number(first)?, read_exit_status(second)?)),
        _ => Err(Refusal::BadLine),
    }
}

/// The request of a command.
fn request_of(alloc: Global, command: &Command<'_>) -> Result<Request, Refusal>
    ensures { MatchResult result (IsRequestOfCommand command.now) (IsNoRequest command.now) }
{
    match command.words.as_slice() {
        [word] => request_of_one(alloc, command.verb, word.bytes()),
        [first, second] => request_of_two(alloc, command.verb, first.bytes(), second.bytes()),
        _ => Err(Refusal::BadLine),
    }
}

/// The event of a user's command.
pub(crate) fn read_event(
    alloc: Global,
    user: &[u8],
    command: &Command<'_>,
) -> Result<Event, Refusal>
    ensures { MatchResult result (IsEventOfCommand user.now command.now) (IsNoEvent user.now command.now) }
{
    let actor = read_user(alloc, user)?;
    let request = request_of(alloc, command)?;
    Ok(Event { actor, request })
}
