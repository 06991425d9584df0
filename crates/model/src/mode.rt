//! Which lines a session knows.

ghost use Rattle.std.specs.Prelude.{◌≡◌};
ghost use Rattle.model.specs.Verbs.{knows};

use crate::verb::Verb;

/// Which lines a session knows.
#[derive(Clone, Copy, Debug, PartialEq, Eq)]
pub enum Mode {
    /// Those of the service: every event is a line of its own.
    Service,
    /// Those of a run, where the program itself plans, starts and ends what is built: no line does, and
    /// the line `wait` waits for it.
    Run,
}

impl Mode {
    /// Whether its lines have the verb.
    pub fn knows(self, verb: Verb) -> bool
        ensures { result ≡ knows self verb }
    {
        match (self, verb) {
            (Mode::Run, Verb::Plan | Verb::Start | Verb::Finish | Verb::Fail) => false,
            _ => true,
        }
    }
}
