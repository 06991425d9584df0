//! What a round comes to, beside its workers.

ghost use Rattle.std.specs.Prelude.{◌≡◌, [], ◌||◌};
ghost use Rattle.builder.specs.Rounds.{tally_of};

use crate::met::Met;

/// What the workers of a round have come to so far.
#[derive(Clone, Copy)]
pub(crate) struct Tally {
    /// Whether one took a Stop, so that each ticket was taken before.
    pub(crate) whole: bool,
    /// Whether one met 90.
    pub(crate) memory: bool,
}

impl Tally {
    /// No worker is back.
    pub(crate) fn new() -> Tally
        ensures { result ≡ tally_of [] }
    {
        Tally {
            whole: false,
            memory: false,
        }
    }

    /// With what came of one worker more.
    pub(crate) fn with(self, took_stop: bool, met: Met) -> Tally
        ensures whole { result.whole ≡ (self.whole || took_stop) }
        ensures memory { result.memory ≡ (self.memory || met.memory) }
    {
        Tally {
            whole: self.whole | took_stop,
            memory: self.memory | met.memory,
        }
    }
}
