//! What takes the strings of an archive.

ghost use Rattle.std.specs.Prelude.{ℕ, List};
ghost use Rattle.nar.specs.Taking.{TakesMore};

/// What takes a text in pieces, one behind another. What becomes of it is told at the end, by whoever
/// made the sink: a piece is never refused.
pub trait Sink {
    /// Relates a sink as it was, as it is, and the text that it took in between.
    ghost took: { Self → Self → List ℕ → Type 0 };

    /// Takes the next piece.
    fn take(&mut self, piece: &[u8])
        ensures { TakesMore took self.old self.new piece.now };
}
