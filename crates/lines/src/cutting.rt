//! Cutting a text at a byte.

ghost use Rattle.std.specs.Prelude.{◌≡◌, ◌<◌, ◌∷◌, [], IfOk, MatchOption, length, take};
ghost use Rattle.std.specs.List.{list_any};
ghost use Rattle.model.specs.Lines.{cut_at, split};
ghost use Rattle.model.specs.ParsedLines.{is_empty_word};

use memchr::memchr;
use std::alloc::{AllocError, Global};
use std::marker::Model;

/// A word of a line.
pub(crate) struct Word<'a> {
    bytes: &'a [u8],
}

impl Drop for Word<'_> {
    fn drop(self) {
        let Word { bytes: _ } = self;
    }
}

impl<'a> Model for Word<'a> {
    ghost use Rattle.std.specs.Prelude.{List, ℕ};

    ghost Value = { List ℕ };

    ghost view = { λ word. word.bytes.now };
}

impl<'a> Word<'a> {
    /// The bytes of the word.
    pub(crate) fn bytes(&self) -> &'a [u8]
        ensures { result.now ≡ self.now }
    {
        self.bytes
    }
}

/// A whole text as one word.
pub(crate) fn one_word(alloc: Global, text: &[u8]) -> Result<Vec<Word<'_>>, AllocError>
    ensures { IfOk result (λ words. words.items ≡ text.now ∷ []) }
{
    let mut words = Vec::new(alloc);
    words.push(Word { bytes: text })?;
    Ok(words)
}

/// What stands before the first `byte` of a text, and what stands behind it.
pub fn cut(byte: u8, text: &[u8]) -> Option<(&[u8], &[u8])>
    ensures parts { MatchOption result (cut_at byte text.now ≡ None)
        (λ r. cut_at byte text.now ≡ Some (r.0.now, r.1.now)) }
    ensures shorter { MatchOption result (Unit {0}) (λ r. length r.1.now < length text.now) }
{
    let at = memchr(byte, text)?;
    let (before, rest) = text.split_at(at);
    let (_, behind) = rest.split_at(1);
    Some((before, behind))
}

/// Whether two blanks stand side by side, or one at an end.
pub(crate) fn has_empty_word(text: &[u8]) -> bool
    ensures { result ≡ list_any is_empty_word (split 32 text.now) }
{
    let mut rest = text;
    while let Some((word, others)) = cut(b' ', rest) {
        if word.is_empty() {
            return true;
        }
        rest = others;
    }
    rest.is_empty()
}

/// The first words of a text, `most` of them where there are so many. The line is not copied.
pub(crate) fn first_words<'a>(
    alloc: Global,
    most: usize,
    text: &'a [u8],
) -> Result<Vec<Word<'a>>, AllocError>
    ensures { IfOk result (λ words. words.items ≡ take most (split 32 text.now)) }
{
    let mut words = Vec::new(alloc);
    let mut rest = text;
    for _word in 0..most {
        let Some((word, others)) = cut(b' ', rest) else {
            words.push(Word { bytes: rest })?;
            return Ok(words);
        };
        words.push(Word { bytes: word })?;
        rest = others;
    }
    Ok(words)
}
