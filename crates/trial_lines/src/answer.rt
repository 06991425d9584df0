//! What a line prints.

use anyhow::bail;
use model::Refusal;
use std::alloc::{AllocError, Global};
use std::fmt::Display;
use std::io::Print;
use std::str;

/// What a line prints, if all could be added.
#[derive(Drop)]
pub struct Answer {
    text: String,
    added: Result<(), Refusal>,
}

impl Answer {
    /// An empty one.
    pub fn new(alloc: Global) -> Answer {
        Answer {
            text: String::new(alloc),
            added: Ok(()),
        }
    }

    /// What was added so far.
    pub fn text(&self) -> &str {
        self.text.as_str()
    }

    /// Whether all was added.
    pub fn added(&self) -> Result<(), Refusal> {
        self.added
    }

    /// Remembers that something could not be added.
    fn note(&mut self, added: Result<(), AllocError>) {
        if let Err(error) = added {
            self.added = Err(Refusal::from(error));
        }
    }

    /// Adds a value.
    pub fn add<T: Display>(&mut self, value: &T) {
        let added = write!(self.text, "{value}");
        self.note(added);
    }

    /// Adds a text.
    pub fn add_text(&mut self, text: &str) {
        let added = self.text.push_str(text);
        self.note(added);
    }

    /// Adds bytes that are a text, with `;` for each newline.
    pub fn add_bytes(&mut self, bytes: &[u8]) {
        match str::from_utf8(bytes) {
            Ok(text) => self.add_lines(text),
            Err(_) => self.added = Err(Refusal::BadLine),
        }
    }

    /// Adds a text, with `;` for each newline.
    fn add_lines(&mut self, text: &str) {
        for letter in text.chars() {
            let added = self.text.push(if letter == '\n' { ';' } else { letter });
            self.note(added);
        }
    }

    /// Adds how something ended: `ok`, or the refusal.
    pub fn add_end(&mut self, ended: Result<(), Refusal>) {
        match ended {
            Ok(()) => self.add_text("ok"),
            Err(refusal) => self.add(&refusal),
        }
    }
}

/// Prints what a line gives, or tells that it is not understood.
pub fn print_answer<R: Print>(
    rt: &R,
    line: &str,
    given: Result<(), Refusal>,
    answer: &Answer,
) -> anyhow::Result<()> {
    if let Err(refusal) = given.and(answer.added()) {
        bail!("{line}: {refusal}");
    }
    println!(rt; "{}", answer.text())?;
    Ok(())
}
