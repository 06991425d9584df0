//! Where in a line its fault is.

use lines::cut;
use model::{Verb, WordKind};
use std::alloc::Global;
use std::str;

/// A text that is read from its front. What is left where it stops says where that is.
type Stop<'a> = Result<&'a [u8], &'a [u8]>;

/// What follows this tag, or what is left where the text has something else.
fn expect<'a>(text: &'a [u8], tag: &[u8]) -> Stop<'a> {
    let same = text
        .iter()
        .zip(tag)
        .take_while(|both| both.0 == both.1)
        .count();
    let (_, rest) = text.split_at(same);
    if same == tag.len() {
        Ok(rest)
    } else {
        Err(rest)
    }
}

/// What follows a string behind its opening quote.
fn string_end(text: &[u8]) -> Stop<'_> {
    let mut rest = text;
    for _ in 0..text.len() {
        rest = match rest {
            [b'"', behind @ ..] => return Ok(behind),
            [b'\\', b'"' | b'\\' | b'n' | b'r' | b't', behind @ ..] => behind,
            [b'\\', behind @ ..] => return Err(behind),
            [_, behind @ ..] => behind,
            [] => return Err(rest),
        };
    }
    Err(rest)
}

/// What follows a string.
fn string<'a>(text: &'a [u8]) -> Stop<'a> {
    string_end(expect(text, b"\"")?)
}

/// What follows an input: a string, and the output of it that is taken.
fn input(text: &[u8]) -> Stop<'_> {
    expect(string(expect(text, b"(")?)?, b",[\"out\"])")
}

/// What follows a variable: two strings.
fn variable(text: &[u8]) -> Stop<'_> {
    let key = string(expect(text, b"(")?)?;
    expect(string(expect(key, b",")?)?, b")")
}

/// What a list has.
#[derive(Clone, Copy)]
enum Items {
    /// Inputs.
    Inputs,
    /// Strings.
    Strings,
    /// Variables.
    Variables,
}

/// What follows an item of a list.
fn item(items: Items, text: &[u8]) -> Stop<'_> {
    match items {
        Items::Inputs => input(text),
        Items::Strings => string(text),
        Items::Variables => variable(text),
    }
}

/// What follows a list.
fn list(items: Items, text: &[u8]) -> Stop<'_> {
    let mut rest = expect(text, b"[")?;
    if let [b']', behind @ ..] = rest {
        return Ok(behind);
    }
    for _ in 0..text.len() {
        rest = match item(items, rest)? {
            [b',', behind @ ..] => behind,
            [b']', behind @ ..] => return Ok(behind),
            other => return Err(other),
        };
    }
    Err(rest)
}

/// What follows a derivation, which is nothing.
fn derivation(text: &[u8]) -> Stop<'_> {
    let inputs = expect(text, b"Derive([(\"out\",\"\",\"\",\"\")],")?;
    let sources = expect(list(Items::Inputs, inputs)?, b",")?;
    let platform = expect(list(Items::Strings, sources)?, b",")?;
    let builder = expect(string(platform)?, b",")?;
    let arguments = expect(string(builder)?, b",")?;
    let environment = expect(list(Items::Strings, arguments)?, b",")?;
    match expect(list(Items::Variables, environment)?, b")")? {
        [] => Ok(b""),
        more => Err(more),
    }
}

/// How many bytes of a line stand before what its derivation lacks, where that is one of the signs between its parts.
fn derivation_fault(line: &[u8]) -> Option<usize> {
    let (_user, behind_user) = cut(b' ', line)?;
    let (_verb, text) = cut(b' ', behind_user)?;
    match derivation(text) {
        Ok(_) => None,
        Err(rest) => line.len().checked_sub(rest.len()),
    }
}

/// The number that digits write, with no zero in front.
fn numeral(digits: &[u8]) -> Option<u64> {
    match digits {
        [b'1'..=b'9', ..] => str::from_utf8(digits).ok()?.parse::<u64>().ok(),
        _ => None,
    }
}

/// Whether a word is the name of a user.
fn is_user(word: &[u8]) -> bool {
    let begins = matches!(word, [b'a'..=b'z', ..]);
    let goes_on = word
        .iter()
        .all(|byte| matches!(*byte, b'a'..=b'z' | b'0'..=b'9'));
    begins && goes_on && word.len() <= 32
}

/// Whether a word is a number of that size.
fn is_number_up_to(most: u64, word: &[u8]) -> bool {
    match numeral(word) {
        Some(number) => number <= most,
        None => false,
    }
}

/// How many bytes of what a builder wrote, behind `n:`, stand before its fault.
fn digits_fault(digits: &[u8]) -> Option<usize> {
    let fault = digits
        .iter()
        .position(|byte| !matches!(*byte, b'0'..=b'9' | b'a'..=b'f'));
    match fault {
        None if digits.len() % 2 == 1 => Some(digits.len()),
        fault => fault,
    }
}

/// How many bytes of a word stand before its fault, where a line is refused for that with 25.
fn word_fault(kind: WordKind, word: &[u8]) -> Option<usize> {
    let is_well = match kind {
        WordKind::User => is_user(word),
        WordKind::Number => is_number_up_to(65_535, word),
        WordKind::ExitStatus => word == b"0".as_slice() || is_number_up_to(255, word),
        WordKind::Output => {
            let digits = word.strip_prefix(b"n:".as_slice())?;
            return digits_fault(digits)?.checked_add(2);
        }
        WordKind::Name | WordKind::Path | WordKind::Tree | WordKind::Text => true,
    };
    if is_well { None } else { Some(0) }
}

/// How many bytes of words stand before one that is empty, or that is too many, or where one is missing.
fn count_fault(count: usize, words: &[u8]) -> Option<usize> {
    let mut at = 0usize;
    let mut found = 0usize;
    let mut extra = None;
    for word in words.split(|byte| *byte == b' ') {
        if word.is_empty() {
            return Some(at);
        }
        if found == count {
            extra = Some(at);
        }
        found = found.saturating_add(1);
        at = at.saturating_add(word.len()).saturating_add(1);
    }
    match extra {
        None if found < count => Some(words.len()),
        extra => extra,
    }
}

/// How many bytes of words stand before the fault of one of them.
fn words_fault(kinds: &[WordKind], words: &[u8]) -> Option<usize> {
    let mut at = 0usize;
    for (word, kind) in words.split(|byte| *byte == b' ').zip(kinds) {
        if let Some(place) = word_fault(*kind, word) {
            return at.checked_add(place);
        }
        at = at.saturating_add(word.len()).saturating_add(1);
    }
    None
}

/// How many bytes of a line stand before its fault, where the line stands behind that of users.
fn later_fault(line: &[u8]) -> Option<usize> {
    let Some((user, behind_user)) = cut(b' ', line) else {
        let is_wait = line == b"wait".as_slice();
        return Some(if is_wait { 0 } else { line.len() });
    };
    if user.is_empty() || user == b"users".as_slice() {
        return Some(0);
    }
    let (word, words) = match cut(b' ', behind_user) {
        Some((word, words)) => (word, Some(words)),
        None => (behind_user, None),
    };
    let Some(verb) = Verb::of(word) else {
        return line.len().checked_sub(behind_user.len());
    };
    let Some(words) = words else {
        return Some(line.len());
    };
    let before_words = line.len().checked_sub(words.len())?;
    let kinds = verb.kinds();
    let is_text = matches!(kinds, [WordKind::Text]);
    match count_fault(kinds.len(), words) {
        Some(place) if !is_text => before_words.checked_add(place),
        _ if !is_user(user) => Some(0),
        _ => before_words.checked_add(words_fault(kinds, words)?),
    }
}

/// How many bytes of a line stand before its fault, where it stands before that of users.
fn first_fault(line: &[u8]) -> Option<usize> {
    match cut(b' ', line) {
        Some((first, _)) if first == b"users".as_slice() => count_fault(usize::MAX, line),
        _ => Some(0),
    }
}

/// What the replies so far say: whether there are users, and which lines told a path and a class.
#[derive(Drop)]
pub(crate) struct SeenReplies {
    has_users: bool,
    named: Vec<(u64, bool)>,
    is_whole: bool,
}

impl SeenReplies {
    /// There was no reply yet.
    pub(crate) fn new(alloc: Global) -> SeenReplies {
        SeenReplies {
            has_users: false,
            named: Vec::new(alloc),
            is_whole: true,
        }
    }

    /// Learns what a reply says, of which these are the words. Where there is no memory for it, no expansion is
    /// found at fault any more.
    pub(crate) fn learn(&mut self, line: u64, user: &[u8], reply: &[u8]) {
        let has_class = reply == b"drv".as_slice();
        if user == b"-".as_slice() && reply == b"ok".as_slice() {
            self.has_users = true;
        }
        if has_class || reply == b"path".as_slice() || reply == b"done".as_slice() {
            self.is_whole = self.named.push((line, has_class)).is_ok() && self.is_whole;
        }
    }

    /// Whether an expansion of a line has what it names, or stands for itself.
    fn has(&self, line: u64, letter: u8, digits: &[u8]) -> bool {
        let is_class = matches!(letter, b'c' | b'g');
        if !is_class && !matches!(letter, b'p' | b'h') {
            return true;
        }
        match numeral(digits) {
            Some(named) if named < line => {
                match self.named.binary_search_by_key(&named, |told| told.0) {
                    Ok(place) => !is_class || self.named.get(place).is_some_and(|told| told.1),
                    Err(_) => !self.is_whole,
                }
            }
            _ => true,
        }
    }

    /// How many bytes of a line stand before an expansion that lacks what it names.
    fn expansion_fault(&self, number: u64, line: &[u8]) -> Option<usize> {
        for (place, byte) in line.iter().enumerate() {
            if *byte != b'{' {
                continue;
            }
            let Some([letter, behind @ ..]) = line.get(place + 1..) else {
                continue;
            };
            let Some(end) = behind.iter().position(|byte| *byte == b'}') else {
                continue;
            };
            if !self.has(number, *letter, &behind[..end]) {
                return Some(place);
            }
        }
        None
    }

    /// How many bytes of a line stand before that for which it is refused with 25.
    fn line_fault(&self, number: u64, line: &[u8]) -> Option<usize> {
        let odd = line.iter().position(|byte| !matches!(*byte, 32..=126));
        if odd.is_some() {
            return odd;
        }
        let missing = self.expansion_fault(number, line);
        if missing.is_some() {
            return missing;
        }
        if self.has_users {
            later_fault(line)
        } else {
            first_fault(line)
        }
    }

    /// The column of a line, from 1 on, in which that stands for which it is refused, where that can be told: of 25
    /// and 31 alone, and not of a derivation whose parts are well-formed and of the wrong order or value.
    pub(crate) fn column(&self, refusal: u8, number: u64, line: &[u8]) -> Option<usize> {
        let before = match refusal {
            25 => self.line_fault(number, line)?,
            31 => derivation_fault(line)?,
            _ => return None,
        };
        before.checked_add(1)
    }
}
