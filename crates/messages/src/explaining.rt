//! Replies, and what each refusal among them means.

ghost use Rattle.std.specs.Prelude.{false, ◌≡◌, ◌≤◌, [], ◌-◌, ◌<◌, All, ◌≢◌, take, drop, length, OnOk, vec_len};
ghost use Rattle.std.specs.Io.{StopsAt, WritesAtMost};
ghost use Rattle.std.specs.Io.KnownBytes.{Keeps, WriteAppends};
ghost use Rattle.messages.specs.Comments.{begins_comment, is_begun_after, known_without_comments};
ghost use Rattle.messages.specs.Explaining.{replies_of, StaysOrComments};

use crate::commenting::{Commentator, Lines, within_a_line};
use std::alloc::Global;
use std::io;
use std::io::{BufRead, ErrorKind, Write};

/// A comment, and how many bytes of it are written.
#[derive(Drop)]
struct Unwritten {
    text: Vec<u8>,
    written: usize,
}

impl Unwritten {
    /// One of which nothing is written.
    fn new(text: Vec<u8>) -> Unwritten
        ensures { (result.text ≡ text) × (result.written ≡ 0) }
    {
        Unwritten { text, written: 0 }
    }

    /// What is yet to be written.
    fn rest(&self) -> &[u8]
        ensures { result.now ≡ drop self.now.written self.now.text.items }
    {
        self.text.get(self.written..).unwrap_or(&[])
    }
}

/// A writer of replies that writes behind each refusal, in a line that begins with `# `, what it means. The comment
/// behind a line is written before the next bytes, or by a flush; where there is no memory for one, it is left out.
///
/// Its contents are what the writer within it has but for comments, which are all lines that begin with `#`. A line
/// that begins so is not taken.
#[derive(Drop)]
pub struct Explained<W, B> {
    writer: W,
    commentator: Commentator<B>,
    comment: Unwritten,
    is_begun: bool,
}

/// The front of some bytes that stands within one line, with the newline that ends it.
fn line_part(bytes: &[u8]) -> &[u8]
    ensures front { result.now ≡ take (length result.now) bytes.now }
    ensures one_line { StopsAt result.now 10 }
{
    let end = within_a_line(bytes).len();
    bytes.get(..=end).unwrap_or(bytes)
}

/// Whether a line is begun behind some bytes.
fn is_begun_after(is_begun: bool, bytes: &[u8]) -> bool
    ensures { result ≡ is_begun_after is_begun bytes.now }
{
    match bytes.last() {
        Some(last) => *last != b'\n',
        None => is_begun,
    }
}

/// Whether bytes of a line begin a comment, where one is begun before them or not.
fn begins_comment(is_begun: bool, bytes: &[u8]) -> bool
    ensures { result ≡ begins_comment is_begun bytes.now }
{
    match bytes {
        [b'#', ..] => !is_begun,
        _ => false,
    }
}

impl<W: Write + Drop, B: BufRead + Drop> Explained<W, B> {
    /// One that writes to this writer, which is to have whole lines.
    pub fn new(alloc: Global, writer: W, lines: Option<Lines<B>>) -> Explained<W, B>
        ensures { replies_of W.contents result ≡ known_without_comments false (W.contents writer) }
    {
        Explained {
            writer,
            commentator: Commentator::new(alloc, lines),
            comment: Unwritten::new(Vec::new(alloc)),
            is_begun: false,
        }
    }

    /// Writes what is left of the comment behind the last line.
    fn write_comment(&mut self) -> io::Result<()>
        ensures kept { Keeps (replies_of W.contents self.old) (replies_of W.contents self.new) }
        ensures done { OnOk result (drop self.new.comment.written self.new.comment.text.items ≡ []) }
        ensures begun { self.new.is_begun ≡ self.old.is_begun }
    {
        while self.comment.written < self.comment.text.len() {
            match self.writer.write(self.comment.rest())? {
                0 => return Err(io::Error::from(ErrorKind::WriteZero)),
                count => self.comment.written += count,
            }
        }
        Ok(())
    }

    /// Takes note of bytes of a line that were written.
    fn take_note(&mut self, bytes: &[u8])
        ensures writer { self.new.writer ≡ self.old.writer }
        ensures begun { self.new.is_begun ≡ is_begun_after self.old.is_begun bytes.now }
        ensures comment { StaysOrComments self.new.is_begun self.old.comment self.new.comment }
    {
        self.commentator.keep(bytes);
        self.is_begun = is_begun_after(self.is_begun, bytes);
        if !self.is_begun && !bytes.is_empty() {
            if let Some(comment) = self.commentator.comment() {
                self.comment = Unwritten::new(comment);
            }
        }
    }
}

impl<W: Write + Drop, B: BufRead + Drop> Write for Explained<W, B> {
    ghost use Rattle.messages.specs.Explaining.{replies_of};

    ghost contents = { replies_of W.contents };

    fn write(&mut self, bytes: &[u8]) -> io::Result<usize>
        ensures bound { WritesAtMost result bytes.now }
        ensures bytes { WriteAppends (replies_of W.contents self.old) (replies_of W.contents self.new) result bytes.now }
    {
        self.write_comment()?;
        let part = line_part(bytes);
        if begins_comment(self.is_begun, part) {
            return Err(io::Error::from(ErrorKind::InvalidInput));
        }
        let count = self.writer.write(part)?;
        self.take_note(&part[..count]);
        Ok(count)
    }

    fn flush(&mut self) -> io::Result<()>
        ensures bytes { Keeps (replies_of W.contents self.old) (replies_of W.contents self.new) }
    {
        self.write_comment()?;
        self.writer.flush()
    }
}
