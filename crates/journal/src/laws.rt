//! What follows from the definitions of a history.

ghost use Rattle.std.specs.Prelude.{◌≡◌, ◌++◌, ℕ, Bool, List};
ghost use Rattle.journal.specs.Rows.{rows_text};
ghost use Rattle.journal.specs.Seals.{IsBegun, IsHistory};
ghost use Rattle.journal.specs.Openings.{IsHeaderFault, IsBroken};
ghost use Rattle.journal.specs.declared.opening.OpenError.TheVariants.{NotAHistory};

/// A history is not refused: where its first rows were read, and begin a history, no seal behind them is broken, and
/// where nothing was read, its header is that of a history.
pub fn histories_are_opened()
    ensures begun { (settings : List ℕ) (rows : List (List ℕ)) → IsHistory rows →
        IsHeaderFault settings rows NotAHistory → ⊥ }
    ensures unbroken { (before rows : List (List ℕ)) (closed : Bool) → IsBegun before closed →
        IsHistory (before ++ rows) → IsBroken (rows_text before) closed rows → ⊥ }
{}
