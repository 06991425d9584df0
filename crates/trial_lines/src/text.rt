//! The words of lines, and their texts.

use model::Refusal;
use std::alloc::Global;

/// The first word of a text, and what follows the blank behind it.
pub fn cut(text: &str) -> (&str, &str) {
    text.split_once(' ').unwrap_or((text, ""))
}

/// A number, and what follows the blank behind it.
pub fn number(text: &str) -> Result<(usize, &str), Refusal> {
    let (word, rest) = cut(text);
    match word.parse::<usize>() {
        Ok(number) => Ok((number, rest)),
        Err(_) => Err(Refusal::BadLine),
    }
}

/// The text of an argument, with its newlines.
pub fn with_newlines(alloc: Global, argument: &str) -> Result<Vec<u8>, Refusal> {
    let mut text = Vec::from_slice(alloc, argument.as_bytes())?;
    for byte in text.iter_mut() {
        if *byte == b';' {
            *byte = b'\n';
        }
    }
    Ok(text)
}
