//! What names a front.

use std::marker::{Brand, PhantomData};
use std::sync::ledger::Ledger;

/// The name of a front: the ledger that counts its calls, that which counts its stops, what the run of
/// its core is given, the table of its tokens, and its history as those see it who do not take the
/// lock. It has no bytes, and exists in proofs alone. Each call of a program picks it.
pub trait FrontId: Ledger {
    ghost use Rattle.std.specs.Prelude.{ℕ};
    ghost use Rattle.model.specs.Worlds.{Setup};
    ghost use Rattle.atomic_table.specs.Seated.{TableId};
    ghost use Rattle.logbook.specs.Pages.{Book};

    ghost stops: { ℕ };

    ghost setup: { Setup };

    ghost table: { TableId };

    ghost book: { Book };
}

impl FrontId for Brand {
    ghost use Rattle.std.specs.Prelude.{[]};
    ghost use Rattle.history.specs.Tokens.{no_table};
    ghost use Rattle.history.specs.HistoryPrefixes.{no_book};

    ghost stops = { 0 };

    ghost setup = { record { users = []; charge = 0 } };

    ghost table = { no_table };

    ghost book = { no_book };
}

/// The ledger that counts the stops of a front, cut into as many parts as that of its calls.
pub struct StopCount<J: FrontId> {
    of: PhantomData<J>,
}

impl<J: FrontId> Ledger for StopCount<J> {
    ghost name = { J.stops };

    ghost parts = { J.parts };
}
