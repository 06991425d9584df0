//! The lines of events.

ghost use Rattle.std.specs.Prelude.{◌≡◌, ◌++◌, ◌∷◌, [], OnOk, IfOk, IfSome, option_map, true};
ghost use Rattle.std.specs.List.{list_all};
ghost use Rattle.model.specs.ParsedLines.{is_printable};
ghost use Rattle.model.specs.ArchiveReading.{tree_of_archive};
ghost use Rattle.model.specs.TreeTexts.{tree_text_of};
ghost use Rattle.model.specs.Events.{AddDerivation, Finish, Fail};
ghost use Rattle.events.specs.Terms.{request_of, event_of};
ghost use Rattle.lines.specs.Writing.{verb_for, words_for, output_word, joined, event_text, may_act, is_number, may_stand, line_of, IsSound, IsReadAs};

use crate::expand::has_expansion;
use crate::parsing::is_printable;
use crate::pieces::{add, add_number};
use aterm::Text;
use events::{Event, Output, Request};
use model::{LONGEST_LINE, MOST_GOALS, Verb};
use nar::Tree;
use std::alloc::{AllocError, Global};
use tree_text::{add_digits, add_tree_text};
use trust::User;

/// The verb of a request.
fn verb_of(request: &Request) -> Verb
    ensures { result ≡ verb_for (request_of request.now) }
{
    match request {
        Request::AddSource(_, _) => Verb::Source,
        Request::AddDerivation(_) => Verb::Derivation,
        Request::Offer(_, _) => Verb::Offer,
        Request::Fetch(_) => Verb::Fetch,
        Request::Trust(_) => Verb::Trust,
        Request::Distrust(_) => Verb::Distrust,
        Request::Pin(_, _) => Verb::Pin,
        Request::Unpin(_) => Verb::Unpin,
        Request::Closure(_) => Verb::Closure,
        Request::Take(_) => Verb::Take,
        Request::Build(_) => Verb::Build,
        Request::Status(_) => Verb::Status,
        Request::Plan(_) => Verb::Plan,
        Request::Start(_) => Verb::Start,
        Request::Finish(_, _) => Verb::Finish,
        Request::Fail(_, _) => Verb::Fail,
        Request::Forget(_, _) => Verb::Forget,
    }
}

/// Adds a word, a blank, and the text of a tree.
fn add_with_tree(text: &mut Vec<u8>, word: &[u8], tree: &Tree) -> Result<(), AllocError>
    ensures { OnOk result (text.new.items ≡ text.old.items ++ joined (word.now ∷ tree_text_of tree.now ∷ [])) }
{
    add(text, word, b" ")?;
    add_tree_text(text, tree)
}

/// Adds two words with a blank between.
fn add_two(text: &mut Vec<u8>, first: &[u8], second: &[u8]) -> Result<(), AllocError>
    ensures { OnOk result (text.new.items ≡ text.old.items ++ joined (first.now ∷ second.now ∷ [])) }
{
    add(text, first, b" ")?;
    text.extend_from_slice(second)
}

/// Adds the word for what a builder wrote.
fn add_output(text: &mut Vec<u8>, output: &Output) -> Result<(), AllocError>
    ensures { OnOk result
        (text.new.items ≡ text.old.items ++ output_word (tree_of_archive output.now) output.now) }
{
    match output.tree_or_bytes() {
        Ok(tree) => add_tree_text(text, tree),
        Err(bytes) => {
            text.extend_from_slice(b"n:")?;
            add_digits(text, bytes)
        }
    }
}

/// Adds the number of a goal, a blank, and the word for what its builder wrote.
fn add_finish(
    alloc: Global,
    text: &mut Vec<u8>,
    number: usize,
    output: &Output,
) -> Result<(), AllocError>
    ensures { OnOk result
        (text.new.items ≡ text.old.items ++ joined (words_for (Finish number output.now))) }
{
    add_number(alloc, text, b"", number)?;
    text.extend_from_slice(b" ")?;
    add_output(text, output)
}

/// Adds the number of a goal, a blank, and how its builder ended.
fn add_fail(
    alloc: Global,
    text: &mut Vec<u8>,
    number: usize,
    status: usize,
) -> Result<(), AllocError>
    ensures { OnOk result (text.new.items ≡ text.old.items ++ joined (words_for (Fail number status))) }
{
    add_number(alloc, text, b"", number)?;
    add_number(alloc, text, b" ", status)
}

/// Adds the words behind the verb of a request.
fn add_words(alloc: Global, text: &mut Vec<u8>, request: &Request) -> Result<(), AllocError>
    ensures { OnOk result
        (text.new.items ≡ text.old.items ++ joined (words_for (request_of request.now))) }
{
    match request {
        Request::AddSource(name, tree) => add_with_tree(text, name.bytes(), tree),
        Request::AddDerivation(derivation) => text.extend_from_slice(derivation.bytes()),
        Request::Offer(path, tree) => add_with_tree(text, path.bytes(), tree),
        Request::Fetch(path)
        | Request::Unpin(path)
        | Request::Closure(path)
        | Request::Take(path)
        | Request::Build(path) => text.extend_from_slice(path.bytes()),
        Request::Trust(user) | Request::Distrust(user) => text.extend_from_slice(user.bytes()),
        Request::Pin(class, path) | Request::Forget(class, path) => {
            add_two(text, class.bytes(), path.bytes())
        }
        Request::Status(number) | Request::Plan(number) | Request::Start(number) => {
            add_number(alloc, text, b"", usize::from(*number))
        }
        Request::Finish(number, output) => { add_finish(alloc, text, usize::from(*number), output) }
        Request::Fail(number, status) => {
            add_fail(alloc, text, usize::from(*number), usize::from(*status))
        }
    }
}

/// Adds the text of an event.
fn add_event(alloc: Global, text: &mut Vec<u8>, event: &Event) -> Result<(), AllocError>
    ensures { OnOk result (text.new.items ≡ text.old.items ++ event_text (event_of event.now)) }
{
    add(text, event.actor.bytes(), b" ")?;
    add(text, verb_of(&event.request).word(), b" ")?;
    add_words(alloc, text, &event.request)
}

/// Whether lines of commands may begin with a user's name.
fn may_act(user: &User) -> bool
    ensures { result ≡ may_act user.now }
{
    user.is_well_formed() && user.bytes() != b"users".as_slice()
}

/// Whether a line may name the goal of this number.
fn is_number(number: usize) -> bool
    ensures { result ≡ is_number number }
{
    0 < number && number <= MOST_GOALS
}

/// Whether a derivation's text may stand in a line, and means the same on each.
fn is_plain(text: &Text) -> bool
    ensures { result ≡ may_stand (AddDerivation text.now) }
{
    is_printable(text.bytes()) && !has_expansion(text.bytes())
}

/// Whether the words of a request may stand in a line.
fn may_stand(request: &Request) -> bool
    ensures { result ≡ may_stand (request_of request.now) }
{
    match request {
        Request::AddDerivation(text) => is_plain(text),
        Request::Trust(user) | Request::Distrust(user) => user.is_well_formed(),
        Request::Status(number)
        | Request::Plan(number)
        | Request::Start(number)
        | Request::Finish(number, _)
        | Request::Fail(number, _) => is_number(usize::from(*number)),
        _ => true,
    }
}

/// A request has by its types names that are names, paths that are paths, trees that are trees, and bytes.
fn sound(request: &Request)
    ensures { IsSound (request_of request.now) }
{
    match request {
        Request::AddSource(name, tree) => {
            let _bytes = name.bytes();
            tree.sound();
        }
        Request::Offer(path, tree) => {
            path.sound();
            tree.sound();
        }
        Request::Fetch(path)
        | Request::Unpin(path)
        | Request::Closure(path)
        | Request::Take(path)
        | Request::Build(path) => path.sound(),
        Request::Pin(class, path) | Request::Forget(class, path) => {
            class.sound();
            path.sound();
        }
        Request::Finish(_, output) => output.sound(),
        Request::Fail(_, status) => {
            let _status = *status;
        }
        _ => {}
    }
}

/// The line of an event, without a newline: the user, the verb and its words, with one blank between. Wherever it
/// stands in lines of the service, behind the list of users, it is read as this event again. An event has no line
/// where its user or another one has no well-formed name or acts as `users`, where it names no goal's number, where
/// its derivation's text has other bytes than 32 to 126 or an expansion, and where the line would be over 268,435,456
/// bytes long. No tree and no output is copied but into the line. The error is want of memory.
pub fn line_of(alloc: Global, event: &Event) -> Result<Option<Vec<u8>>, AllocError>
    ensures line { IfOk result (λ line. option_map (λ l. l.items) line ≡ line_of (event_of event.now)) }
    ensures read { IfOk result (λ line. IfSome line (λ l. IsReadAs l.items (event_of event.now))) }
    ensures printable { IfOk result (λ line. IfSome line (λ l. list_all is_printable l.items ≡ true)) }
{
    if !may_act(&event.actor) || !may_stand(&event.request) {
        return Ok(None);
    }
    sound(&event.request);
    let mut line = Vec::new(alloc);
    add_event(alloc, &mut line, event)?;
    if line.len() <= LONGEST_LINE {
        Ok(Some(line))
    } else {
        Ok(None)
    }
}
