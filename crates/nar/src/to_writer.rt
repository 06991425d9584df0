//! A writer as what takes an archive.

ghost use Rattle.std.specs.Prelude.{◌≡◌, Ok};
ghost use Rattle.model.specs.Archives.{nar};
ghost use Rattle.nar.specs.Writing.{Wrote};

use crate::faults::Faults;
use crate::sink::Sink;
use crate::tree::Tree;
use crate::walk::hand_archive;
use crate::writing::write_whole;
use model::Refusal;
use std::io::Write;

/// A writer that takes a text until it fails, and what came of it. `before` is its count of failures at
/// the start.
#[derive(Drop)]
pub(crate) struct ToWriter<'a, W> {
    pub(crate) writer: &'a mut W,
    pub(crate) before: u64,
    pub(crate) so_far: Result<(), Refusal>,
}

impl<W: Write + Faults> ToWriter<'_, W> {
    /// Takes the archive of a tree.
    pub(crate) fn take_archive(&mut self, tree: &Tree)
        requires { self.old.so_far ≡ Ok tt }
        ensures same_reference { self.new.writer.ghost_name ≡ self.old.writer.ghost_name }
        ensures wrote { Wrote self.old.before (W.contents self.old.writer.now) (W.contents self.new.writer.now)
            (W.failed self.new.writer.now) self.new.so_far (nar tree.now) }
    {
        hand_archive(tree, self);
    }
}

impl<W: Write + Faults> Sink for ToWriter<'_, W> {
    ghost use Rattle.std.specs.Prelude.{◌≡◌};
    ghost use Rattle.nar.specs.Writing.{Wrote};

    ghost took = { λ start now taken. (now.writer.ghost_name ≡ start.writer.ghost_name) × (now.before ≡ start.before)
        × Wrote start.before (W.contents start.writer.now) (W.contents now.writer.now) (W.failed now.writer.now) now.so_far taken };

    fn take(&mut self, piece: &[u8]) {
        if self.so_far.is_ok() {
            self.so_far = write_whole(self.writer, self.before, piece);
        }
    }
}
