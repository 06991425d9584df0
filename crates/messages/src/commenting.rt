//! What is said of refusals among replies.

ghost use Rattle.std.specs.Prelude.{◌≢◌, IfOk, IfSome, All};
ghost use Rattle.std.specs.Io.{StartsWith};
ghost use Rattle.messages.specs.Comments.{IsComment};

use crate::columns::SeenReplies;
use crate::meanings::{Meaning, meaning_of};
use std::alloc::{AllocError, Global};
use std::fmt::{Display, Formatter};
use std::io::BufRead;
use std::{fmt, io, mem, str};

/// The most bytes that are kept of a line of replies: what tells whether it is a refusal.
const MOST_KEPT: usize = 128;

/// The lines of a file, read one after another, beside their replies.
#[derive(Drop)]
pub struct Lines<B> {
    reader: B,
    count: u64,
}

impl<B: BufRead> Lines<B> {
    /// The lines that are left of a reader.
    pub fn new(reader: B) -> Lines<B> {
        Lines { reader, count: 0 }
    }

    /// The line of that number, without its newline. There is none where it stands before one that was asked for.
    fn line(&mut self, alloc: Global, number: u64) -> io::Result<Option<Vec<u8>>> {
        for _ in self.count.saturating_add(1)..number {
            self.count = self.count.saturating_add(1);
            self.reader.skip_until(b'\n')?;
        }
        if self.count.saturating_add(1) != number {
            return Ok(None);
        }
        self.count = number;
        let mut line = Vec::new(alloc);
        self.reader.read_until(b'\n', &mut line)?;
        if line.ends_with(b"\n") {
            let _newline = line.pop();
        }
        Ok(Some(line))
    }
}

/// What is said of a refusal: where in its line the fault is, if that is known, and what it means.
#[derive(Drop)]
struct Explanation {
    column: Option<usize>,
    meaning: Meaning,
}

impl Display for Explanation {
    fn fmt<W: fmt::Write>(&self, f: &mut Formatter<W>) -> fmt::Result {
        let Meaning { when, advice } = self.meaning;
        if let Some(column) = self.column {
            write!(f, "column {column}: ")?;
        }
        write!(f, "{when}; what to do: {advice}")
    }
}

/// The front of a text that stands before its first newline, or all of it.
pub(crate) fn within_a_line(text: &[u8]) -> &[u8]
    ensures front { StartsWith text.now result.now }
    ensures inside { All (λ byte. byte ≢ 10) result.now }
{
    match text.iter().position(|byte| *byte == b'\n') {
        Some(end) => &text[..end],
        None => text,
    }
}

/// The comment that says this of a refusal.
fn comment_of(alloc: Global, explanation: Explanation) -> Result<Vec<u8>, AllocError>
    ensures { IfOk result (λ comment. IsComment comment.items) }
{
    let text = format!(in alloc; "{explanation}")?;
    let mut comment = Vec::new(alloc);
    comment.extend_from_slice(b"# ")?;
    comment.extend_from_slice(within_a_line(text.as_bytes()))?;
    comment.push(b'\n')?;
    Ok(comment)
}

/// Reads replies, and says what the refusals among them mean. The lines that are refused are read again where they can
/// be.
#[derive(Drop)]
pub(crate) struct Commentator<B> {
    alloc: Global,
    lines: Option<Lines<B>>,
    known: SeenReplies,
    /// What is kept of the line that is begun, where there was memory for it.
    kept: Option<Vec<u8>>,
}

impl<B: BufRead + Drop> Commentator<B> {
    /// One that has read nothing.
    pub(crate) fn new(alloc: Global, lines: Option<Lines<B>>) -> Commentator<B> {
        Commentator {
            alloc,
            lines,
            known: SeenReplies::new(alloc),
            kept: Some(Vec::new(alloc)),
        }
    }

    /// Keeps as much of a line of replies as shows whether it is a refusal.
    pub(crate) fn keep(&mut self, part: &[u8]) {
        let Some(mut kept) = self.kept.take() else {
            return;
        };
        let room = MOST_KEPT.saturating_sub(kept.len());
        if kept
            .extend_from_slice(part.get(..room).unwrap_or(part))
            .is_ok()
        {
            self.kept = Some(kept);
        }
    }

    /// The column of the fault in a line that is refused, where it is known.
    fn column(&mut self, refusal: u8, number: u64) -> Option<usize> {
        if !matches!(refusal, 25 | 31) {
            return None;
        }
        let line = self.lines.as_mut()?.line(self.alloc, number).ok()??;
        self.known.column(refusal, number, &line)
    }

    /// The comment on the line that was kept, where it is a refusal, and there is memory for it. The next line begins.
    pub(crate) fn comment(&mut self) -> Option<Vec<u8>>
        ensures { IfSome result (λ comment. IsComment comment.items) }
    {
        let line = mem::replace(&mut self.kept, Some(Vec::new(self.alloc)))?;
        let mut words = str::from_utf8(&line).ok()?.split(' ');
        let number = words.next()?.parse::<u64>().ok()?;
        let user = words.next()?;
        let reply = words.next()?.trim_end();
        self.known.learn(number, user.as_bytes(), reply.as_bytes());
        if reply != "refused" {
            return None;
        }
        let refusal = words.next()?.parse::<u8>().ok()?;
        let meaning = meaning_of(refusal)?;
        let column = self.column(refusal, number);
        comment_of(self.alloc, Explanation { column, meaning }).ok()
    }
}
