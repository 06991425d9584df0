//! What was asked and answered.

ghost use Rattle.std.specs.Prelude.{◌≡◌};
ghost use Rattle.history.specs.Histories.{unrecorded};

use events::{Event, Reply};
use model::Refusal;

/// One call that was answered otherwise than with 90 `Memory` or 92 `Stopped`.
#[derive(Drop)]
pub struct Row {
    /// The number of the pass that made the call, from 0 on.
    pub pass: u64,
    /// What was asked.
    pub event: Event,
    /// What was answered.
    pub reply: Reply,
}

/// Whether a reply is 90 `Memory` or 92 `Stopped`: a call that is answered so has no row.
pub fn is_unrecorded(reply: &Reply) -> bool
    ensures { result ≡ unrecorded reply.now }
{
    match reply {
        Reply::Refused(why) => matches!(why, Refusal::Memory | Refusal::Stopped),
        _ => false,
    }
}
