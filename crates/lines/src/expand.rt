//! The expansions of a line.

ghost use Rattle.std.specs.Prelude.{◌≡◌, ◌++◌, IfOk, OnOk, MatchOption, if◌then◌else◌, option_map, slice_index_or};
ghost use Rattle.model.specs.Lines.{named_line, is_letter, expansion_in, nothing_told, told_by, part_by, expanded_piece, joined_texts, filled};
ghost use Rattle.lines.specs.Writing.{is_expansion, has_expansion};

use crate::cutting::cut;
use crate::line_result::LineResult;
use crate::numbers::{is_numeral, numeral_up_to};
use std::alloc::{AllocError, Global};
use std::marker::Model;
use storepath::StorePath;

/// An expansion: `{p2}` stands for the path in the reply to line 2, and `{h2}` for the digits of
/// its hash part, each of their bytes in base 16. `{c2}` and `{g2}` stand for the same of the class
/// in that reply.
struct Expansion<'a> {
    letter: u8,
    line: usize,
    rest: &'a [u8],
}

impl Drop for Expansion<'_> {
    fn drop(self) {
        let Expansion {
            letter: _,
            line: _,
            rest: _,
        } = self;
    }
}

impl<'a> Model for Expansion<'a> {
    ghost use Rattle.model.specs.Lines.{Expansion as ExpansionValue};

    ghost Value = { ExpansionValue };

    ghost view = { λ e. record { letter = e.letter; line = e.line; rest = e.rest.now } };
}

/// The place of the line that digits name, where `count` lines are earlier.
fn named_line(count: usize, digits: &[u8]) -> Option<usize>
    ensures { result ≡ named_line count digits.now }
{
    let number = numeral_up_to(count, digits)?;
    Some(number.saturating_sub(1))
}

fn is_letter(letter: u8) -> bool
    ensures { result ≡ is_letter letter }
{
    (letter == b'p' || letter == b'h') || (letter == b'c' || letter == b'g')
}

/// The expansion that a text behind an opening brace begins with.
fn expansion_in(count: usize, text: &[u8]) -> Option<Expansion<'_>>
    ensures { result ≡ expansion_in count text.now }
{
    let [letter, behind @ ..] = text else {
        return None;
    };
    if !is_letter(*letter) {
        return None;
    }
    let (digits, rest) = cut(b'}', behind)?;
    let line = named_line(count, digits)?;
    Some(Expansion {
        letter: *letter,
        line,
        rest,
    })
}

/// The path that an expansion is of, where the reply to its line has one.
fn named_path<'a>(told: &'a [LineResult], expansion: &Expansion<'_>) -> Option<&'a StorePath>
    ensures { let told = slice_index_or told.now expansion.now.line nothing_told in
        let named = told_by expansion.now.letter told in
        MatchOption result (named ≡ None) (λ path. named ≡ Some path.now) }
{
    let told = told.get(expansion.line)?;
    if expansion.letter == b'c' || expansion.letter == b'g' {
        told.class.as_ref()
    } else {
        told.path.as_ref()
    }
}

/// Adds what an expansion by a letter is of a path.
fn add_part(
    alloc: Global,
    text: &mut Vec<u8>,
    letter: u8,
    path: &StorePath,
) -> Result<(), AllocError>
    ensures { OnOk result (text.new.items ≡ text.old.items ++ part_by letter path.now) }
{
    if letter == b'p' || letter == b'c' {
        return text.extend_from_slice(path.bytes());
    }
    let digits = hex::encode(alloc, path.hash_part().bytes())?;
    text.extend_from_slice(digits.as_bytes())
}

/// Adds what a text behind an opening brace comes to. Whether it comes to something.
fn add_piece(
    alloc: Global,
    text: &mut Vec<u8>,
    told: &[LineResult],
    piece: &[u8],
) -> Result<bool, AllocError>
    ensures { IfOk result (λ whole. (if whole then Some text.new.items else None)
        ≡ joined_texts (Some text.old.items) (expanded_piece told.now piece.now)) }
{
    let Some(expansion) = expansion_in(told.len(), piece) else {
        text.push(b'{')?;
        text.extend_from_slice(piece)?;
        return Ok(true);
    };
    let Some(path) = named_path(told, &expansion) else {
        return Ok(false);
    };
    add_part(alloc, text, expansion.letter, path)?;
    text.extend_from_slice(expansion.rest)?;
    Ok(true)
}

/// A line with its expansions made, or nothing where one names what its reply has not.
pub(crate) fn fill(
    alloc: Global,
    told: &[LineResult],
    line: &[u8],
) -> Result<Option<Vec<u8>>, AllocError>
    ensures { IfOk result (λ text. option_map (λ t. t.items) text ≡ filled told.now line.now) }
{
    let Some((first, pieces)) = cut(b'{', line) else {
        return Ok(Some(Vec::from_slice(alloc, line)?));
    };
    let mut text = Vec::from_slice(alloc, first)?;
    let mut rest = pieces;
    while let Some((piece, others)) = cut(b'{', rest) {
        if !add_piece(alloc, &mut text, told, piece)? {
            return Ok(None);
        }
        rest = others;
    }
    if add_piece(alloc, &mut text, told, rest)? {
        Ok(Some(text))
    } else {
        Ok(None)
    }
}

/// Whether a text behind an opening brace begins with an expansion, whichever line that names.
fn is_expansion(text: &[u8]) -> bool
    ensures { result ≡ is_expansion text.now }
{
    let [letter, behind @ ..] = text else {
        return false;
    };
    match cut(b'}', behind) {
        None => false,
        Some((digits, _)) => is_letter(*letter) && is_numeral(digits),
    }
}

/// Whether a text has an expansion, whichever line that names: on some line it would mean something else.
pub fn has_expansion(text: &[u8]) -> bool
    ensures { result ≡ has_expansion text.now }
{
    let Some((_, pieces)) = cut(b'{', text) else {
        return false;
    };
    let mut rest = pieces;
    while let Some((piece, others)) = cut(b'{', rest) {
        if is_expansion(piece) {
            return true;
        }
        rest = others;
    }
    is_expansion(rest)
}
