//! What a worker has met.

ghost use Rattle.std.specs.Prelude.{◌≡◌};
ghost use Rattle.builder.specs.Working.{nothing_met, met_with};

use model::Refusal;

/// What a worker has met since it began.
#[derive(Clone, Copy)]
pub struct Met {
    /// Whether memory was refused to it, or to what it calls: 90.
    pub memory: bool,
    /// Whether it was told that what it calls is stopped: 92.
    pub stopped: bool,
}

impl Met {
    /// Nothing yet.
    pub(crate) fn nothing() -> Met
        ensures { result ≡ nothing_met }
    {
        Met {
            memory: false,
            stopped: false,
        }
    }

    /// With what it met for one ticket more: 90, 92, or neither.
    pub(crate) fn with(self, met: Option<Refusal>) -> Met
        ensures { result ≡ met_with self met }
    {
        match met {
            Some(Refusal::Memory) => Met {
                memory: true,
                stopped: self.stopped,
            },
            Some(Refusal::Stopped) => Met {
                memory: self.memory,
                stopped: true,
            },
            _ => self,
        }
    }
}
