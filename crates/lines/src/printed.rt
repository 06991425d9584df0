//! What is printed for a line.

ghost use Rattle.std.specs.Prelude.{◌≡◌, ◌==◌, ◌++◌, ◌∷◌, [], length, OnOk, OnErr, IfOk, IfErr};
ghost use Rattle.std.specs.Io.KnownBytes.{Appends};
ghost use Rattle.model.specs.declared.refusal.Refusal.TheVariants.{OutputFault};
ghost use Rattle.nar.specs.Writing.{Begins, IsUnwritten, MayBeFault};

use model::{Refusal, SharedBytes};
use nar::{Faults, write_whole};
use std::alloc::{AllocError, Global};
use std::io::Write;
use std::marker::Model;

/// What is printed for a line: nothing, or a text with its newline. What was made for an earlier line lies where it was
/// made. Contracts see the text.
pub struct Printed {
    text: Vec<u8>,
    /// What comes behind, before a newline.
    rest: Option<SharedBytes>,
}

impl Drop for Printed {
    fn drop(self) {
        let Printed { text: _, rest: _ } = self;
    }
}

impl Model for Printed {
    ghost use Rattle.std.specs.Prelude.{List, ℕ};
    ghost use Rattle.lines.specs.Printing.{text_with};

    ghost Value = { List ℕ };

    ghost view = { λ p. text_with p.text.items p.rest };
}

/// Writes a text, and another one behind it, as [`write_whole`] does.
fn write_both<W: Write + Faults>(
    writer: &mut W,
    before: u64,
    first: &[u8],
    second: &[u8],
) -> Result<(), Refusal>
    ensures ok { OnOk result (Appends (W.contents writer.old) (W.contents writer.new) (first.now ++ second.now)) }
    ensures err { OnErr result (Begins (W.contents writer.old) (W.contents writer.new) (first.now ++ second.now)) }
    ensures errors { IfErr result IsUnwritten }
    ensures fault { IfErr result (MayBeFault OutputFault before (W.failed writer.new)) }
{
    write_whole(writer, before, first)?;
    write_whole(writer, before, second)
}

/// Writes a text, another one behind it, and a newline, as [`write_whole`] does.
fn write_line<W: Write + Faults>(
    writer: &mut W,
    before: u64,
    text: &[u8],
    rest: &[u8],
) -> Result<(), Refusal>
    ensures ok { OnOk result (Appends (W.contents writer.old) (W.contents writer.new) (text.now ++ (rest.now ++ 10 ∷ []))) }
    ensures err { OnErr result (Begins (W.contents writer.old) (W.contents writer.new) (text.now ++ (rest.now ++ 10 ∷ []))) }
    ensures errors { IfErr result IsUnwritten }
    ensures fault { IfErr result (MayBeFault OutputFault before (W.failed writer.new)) }
{
    write_whole(writer, before, text)?;
    write_both(writer, before, rest, b"\n")
}

impl Printed {
    /// Nothing. It takes no memory.
    pub fn nothing(alloc: Global) -> Printed
        ensures { result ≡ [] }
    {
        Printed::of_text(Vec::new(alloc))
    }

    /// A text.
    pub(crate) fn of_text(text: Vec<u8>) -> Printed
        ensures { result ≡ text.items }
    {
        Printed { text, rest: None }
    }

    /// A text, another one behind it, and a newline.
    pub(crate) fn with_rest(text: Vec<u8>, rest: SharedBytes) -> Printed
        ensures { result ≡ text.items ++ (rest ++ 10 ∷ []) }
    {
        Printed {
            text,
            rest: Some(rest),
        }
    }

    /// Whether it is nothing.
    pub fn is_empty(&self) -> bool
        ensures { result ≡ (length self.now == 0) }
    {
        match &self.rest {
            None => self.text.is_empty(),
            Some(_) => false,
        }
    }

    /// Writes it, as [`write_whole`] does.
    ///
    /// # Errors
    ///
    /// Those of [`write_whole`]. A beginning of it is written then, and not all of it.
    pub fn write<W: Write + Faults>(&self, writer: &mut W, before: u64) -> Result<(), Refusal>
        ensures ok { OnOk result (Appends (W.contents writer.old) (W.contents writer.new) self.now) }
        ensures err { OnErr result (Begins (W.contents writer.old) (W.contents writer.new) self.now) }
        ensures errors { IfErr result IsUnwritten }
        ensures fault { IfErr result (MayBeFault OutputFault before (W.failed writer.new)) }
    {
        match &self.rest {
            None => write_whole(writer, before, &self.text),
            Some(rest) => write_line(writer, before, &self.text, rest.as_slice()),
        }
    }

    /// Its bytes. The error is want of memory.
    pub fn into_bytes(self) -> Result<Vec<u8>, AllocError>
        ensures { IfOk result (λ bytes. bytes.items ≡ self) }
    {
        let Printed { mut text, rest } = self;
        if let Some(rest) = rest {
            text.extend_from_slice(rest.as_slice())?;
            text.extend_from_slice(b"\n")?;
        }
        Ok(text)
    }
}
