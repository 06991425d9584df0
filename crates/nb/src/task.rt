//! What a builder is asked to do.

ghost use Rattle.std.specs.Prelude.{◌<◌, ◌∷◌, [], length, codes, MatchOption, map, string_bytes};
ghost use Rattle.nb.specs.Tasks.{Asks, AskNothing};

use std::num::NonZeroU8;

/// What a builder is asked to do.
#[derive(Clone, Copy, Debug)]
pub(crate) enum Task {
    /// To give a file with the words behind the first, one blank between two.
    Text,
    /// To give a file with its own path.
    Own,
    /// To give a file with the path of each input and a newline behind it.
    Inputs,
    /// To give nothing, and to end with this status.
    Fail(NonZeroU8),
    /// To give a part of an archive.
    Half,
    /// To give an archive two times.
    Twice,
}

/// What one word asks for.
fn task_of_word(word: &str) -> Option<Task>
    ensures { let words = word.now ∷ [] in MatchOption result (AskNothing words) (Asks words) }
{
    match word {
        "self" => Some(Task::Own),
        "inputs" => Some(Task::Inputs),
        "half" => Some(Task::Half),
        "twice" => Some(Task::Twice),
        _ => None,
    }
}

/// What a failure with the status that these words write asks for: there is one word, which Rust reads as
/// a number from 1 to 255.
fn task_of_failure(others: &[String]) -> Option<Task>
    requires { 0 < length others.now }
    ensures { let words = codes "fail" ∷ map string_bytes others.now in
        MatchOption result (AskNothing words) (Asks words) }
{
    let [word] = others else {
        return None;
    };
    match word.parse::<NonZeroU8>() {
        Ok(status) => Some(Task::Fail(status)),
        Err(_) => None,
    }
}

/// What several words ask for.
fn task_of_words(verb: &str, others: &[String]) -> Option<Task>
    requires { 0 < length others.now }
    ensures { let words = verb.now ∷ map string_bytes others.now in
        MatchOption result (AskNothing words) (Asks words) }
{
    match verb {
        "text" => Some(Task::Text),
        "fail" => task_of_failure(others),
        _ => None,
    }
}

/// What these words ask for, if they ask for anything.
pub(crate) fn task_of(words: &[String]) -> Option<Task>
    ensures { let words = map string_bytes words.now in
        MatchOption result (AskNothing words) (Asks words) }
{
    match words {
        [] => None,
        [word] => task_of_word(word),
        [verb, others @ ..] => task_of_words(verb, others),
    }
}
