//! Lines, and the calls that they name.
//!
//! - `# TEXT` is printed as it is.
//! - `CALL ARGUMENT` runs a call; of most calls the argument is any bytes.
//! - `hex CALL DIGITS` gives the argument in base 16.
//! - `beginnings CALL ARGUMENT` and `beginnings hex CALL DIGITS` run the call on each beginning of the
//!   argument but the whole.
//! - `million BYTE CALL ARGUMENT` runs it on the argument with a million times the byte behind it.

use crate::answer::Answer;
use crate::{derivations, desk, hash_parts, paths, refusals, trees};
use classes::Known;
use model::Refusal;
use std::alloc::Global;
use std::str;

/// Adds what a line prints. The one error is a line that is not understood.
pub(crate) fn answer_line(
    alloc: Global,
    known: &mut Known,
    line: &str,
    out: &mut Answer,
) -> Result<(), Refusal> {
    of_line(alloc, known, line, out)?;
    out.added()
}

/// Adds what a line gives.
fn of_line(alloc: Global, known: &mut Known, line: &str, out: &mut Answer) -> Result<(), Refusal> {
    let (word, rest) = cut(line);
    match word {
        "#" => comment(line, out),
        "desk" => desk::begin(alloc, known, out),
        "source" => desk::add_source(alloc, known, rest, out),
        "admit" => admit(alloc, known, rest, out),
        "beginnings" => of_beginnings(alloc, rest, out),
        "million" => of_a_million(alloc, rest, out),
        _ => of_argument(alloc, line, out),
    }
}

/// Adds a line as it is.
fn comment(line: &str, out: &mut Answer) -> Result<(), Refusal> {
    out.add_text(line);
    Ok(())
}

/// The first word of a text, and what follows the blank behind it.
pub(crate) fn cut(text: &str) -> (&str, &str) {
    text.split_once(' ').unwrap_or((text, ""))
}

/// The call of a line and its argument.
fn call_and_argument(alloc: Global, line: &str) -> Result<(&str, Vec<u8>), Refusal> {
    let (call, rest) = cut(line);
    if call != "hex" {
        return Ok((call, Vec::from_slice(alloc, rest.as_bytes())?));
    }
    let (call, digits) = cut(rest);
    match hex::decode(alloc, digits) {
        Ok(argument) => Ok((call, argument)),
        Err(_) => Err(Refusal::BadLine),
    }
}

/// Adds what the desk gives for a derivation, or the refusal.
fn admit(alloc: Global, known: &mut Known, text: &str, out: &mut Answer) -> Result<(), Refusal> {
    let given = desk::admit(alloc, known, text, out);
    out.end(given)
}

/// Adds what a call gives for its argument, or the refusal.
fn answer(alloc: Global, call: &str, argument: &[u8], out: &mut Answer) -> Result<(), Refusal> {
    let given = of_bytes(alloc, call, argument, out);
    out.end(given)
}

/// Adds what a call gives for any bytes.
fn of_bytes(alloc: Global, call: &str, bytes: &[u8], out: &mut Answer) -> Result<(), Refusal> {
    match call {
        "digest" => paths::digest(bytes, out),
        "base32" => paths::base32(bytes, out),
        "digits" => paths::digits(bytes, out),
        "hash-part" => paths::hash_part(bytes, out),
        "name" => paths::name(alloc, bytes, out),
        "store-path" => paths::store_path(alloc, bytes, out),
        "derivation" | "masked" | "parts" => derivations::of_text(alloc, call, bytes, out),
        _ => of_tree(alloc, call, bytes, out),
    }
}

/// Adds what a call gives for any bytes of a tree.
fn of_tree(alloc: Global, call: &str, bytes: &[u8], out: &mut Answer) -> Result<(), Refusal> {
    match call {
        "tree" => trees::tree(alloc, bytes, out),
        "written" => trees::written(alloc, bytes, out),
        "decode" => trees::decoded(alloc, bytes, out),
        "file" => trees::file(alloc, bytes, out),
        "link" => trees::link(alloc, bytes, out),
        _ => match str::from_utf8(bytes) {
            Ok(words) => of_words(alloc, call, words, out),
            Err(_) => Err(Refusal::BadLine),
        },
    }
}

/// Adds what a call gives for words.
fn of_words(alloc: Global, call: &str, words: &str, out: &mut Answer) -> Result<(), Refusal> {
    match call {
        "refusal" => refusals::refusal(words, out),
        "path" => paths::made(alloc, words, out),
        "compare" => paths::compared(alloc, words, out),
        "same" => trees::same(alloc, words, out),
        "directory" => trees::directory(alloc, words, out),
        "with" => derivations::with_paths(alloc, words, out),
        "occurrences" | "substitute" | "settle" | "given" => {
            hash_parts::of_archive(alloc, call, words, out)
        }
        _ => Err(Refusal::BadLine),
    }
}

/// Adds what the call of a line gives for its argument.
fn of_argument(alloc: Global, line: &str, out: &mut Answer) -> Result<(), Refusal> {
    let (call, argument) = call_and_argument(alloc, line)?;
    answer(alloc, call, &argument, out)
}

/// Adds what the call of a line gives for the beginnings of its argument.
fn of_beginnings(alloc: Global, line: &str, out: &mut Answer) -> Result<(), Refusal> {
    let (call, argument) = call_and_argument(alloc, line)?;
    of_each_beginning(alloc, call, &argument, out)
}

/// Adds how many beginnings of the argument there are, and what the call gives for each; where it does not
/// give the same for all, the length of the first other one, and what it gives for that.
fn of_each_beginning(
    alloc: Global,
    call: &str,
    argument: &[u8],
    out: &mut Answer,
) -> Result<(), Refusal> {
    let mut first = Answer::new(alloc);
    answer(alloc, call, b"", &mut first)?;
    let mut here = Answer::new(alloc);
    for end in 1..argument.len() {
        here.clear();
        answer(alloc, call, &argument[..end], &mut here)?;
        if here.text() != first.text() {
            tell_beginnings(end, &here, out);
            return Ok(());
        }
    }
    tell_beginnings(argument.len(), &first, out);
    Ok(())
}

/// Adds the length of a beginning, or how many there are, and an answer.
fn tell_beginnings(length: usize, answer: &Answer, out: &mut Answer) {
    out.add(&length);
    out.add_text(answer.text());
}

/// Adds what the call gives for the argument with a million bytes behind it.
fn of_a_million(alloc: Global, line: &str, out: &mut Answer) -> Result<(), Refusal> {
    let (byte, rest) = cut(line);
    let (call, mut argument) = call_and_argument(alloc, rest)?;
    add_a_million(alloc, byte, &mut argument)?;
    answer(alloc, call, &argument, out)
}

/// Adds a million times the byte.
fn add_a_million(alloc: Global, byte: &str, argument: &mut Vec<u8>) -> Result<(), Refusal> {
    let [byte] = byte.as_bytes() else {
        return Err(Refusal::BadLine);
    };
    let many = vec![in alloc; *byte; 1_000_000]?;
    argument.extend_from_slice(&many)?;
    Ok(())
}
