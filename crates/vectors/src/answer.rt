//! What a line prints.

use model::Refusal;
use std::alloc::{AllocError, Global};
use std::fmt::Display;
use std::str;

/// What a line prints, if all could be added: parts with a blank between them.
#[derive(Drop)]
pub(crate) struct Answer {
    alloc: Global,
    text: String,
    added: Result<(), Refusal>,
}

impl Answer {
    /// An empty one.
    pub(crate) fn new(alloc: Global) -> Answer {
        Answer {
            alloc,
            text: String::new(alloc),
            added: Ok(()),
        }
    }

    /// What was added so far.
    pub(crate) fn text(&self) -> &str {
        self.text.as_str()
    }

    /// Takes all away that was added.
    pub(crate) fn clear(&mut self) {
        self.text.clear();
        self.added = Ok(());
    }

    /// Remembers that something could not be added.
    fn note(&mut self, added: Result<(), AllocError>) {
        if let Err(error) = added {
            self.added = Err(Refusal::from(error));
        }
    }

    /// Puts a text behind what was added.
    pub(crate) fn put_text(&mut self, text: &str) {
        let added = self.text.push_str(text);
        self.note(added);
    }

    /// Puts a value behind what was added.
    pub(crate) fn put<T: Display>(&mut self, value: &T) {
        let added = write!(self.text, "{value}");
        self.note(added);
    }

    /// Puts bytes in base 16 behind what was added.
    pub(crate) fn put_digits(&mut self, bytes: &[u8]) {
        match hex::encode(self.alloc, bytes) {
            Ok(digits) => self.put_text(digits.as_str()),
            Err(error) => self.added = Err(Refusal::from(error)),
        }
    }

    /// Puts a blank behind what was added, if anything was.
    fn part(&mut self) {
        if !self.text.is_empty() {
            self.put_text(" ");
        }
    }

    /// Adds a value.
    pub(crate) fn add<T: Display>(&mut self, value: &T) {
        self.part();
        self.put(value);
    }

    /// Adds a text.
    pub(crate) fn add_text(&mut self, text: &str) {
        self.part();
        self.put_text(text);
    }

    /// Adds bytes that are a text.
    pub(crate) fn add_bytes(&mut self, bytes: &[u8]) {
        match str::from_utf8(bytes) {
            Ok(text) => self.add_text(text),
            Err(_) => self.added = Err(Refusal::BadLine),
        }
    }

    /// Adds bytes in base 16.
    pub(crate) fn add_digits(&mut self, bytes: &[u8]) {
        self.part();
        self.put_digits(bytes);
    }

    /// Adds values in brackets, each with a comma behind it.
    pub(crate) fn add_list<T: Display>(&mut self, values: &[T]) {
        self.add_text("[");
        for value in values {
            self.put(value);
            self.put_text(",");
        }
        self.put_text("]");
    }

    /// Whether all was added.
    pub(crate) fn added(&self) -> Result<(), Refusal> {
        self.added
    }

    /// Ends the answer of a call: where it was refused, the refusal is all that is printed.
    pub(crate) fn end(&mut self, given: Result<(), Refusal>) -> Result<(), Refusal> {
        let ended = if given.is_ok() { self.added } else { given };
        match ended {
            Ok(()) | Err(Refusal::BadLine) => ended,
            Err(refusal) => {
                self.clear();
                self.add(&refusal);
                self.added
            }
        }
    }
}
