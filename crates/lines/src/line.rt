//! What a line comes to.

use events::Event;
use model::Refusal;
use trust::User;

/// What a line comes to: no reply, the users, a refusal, an event, or a wait.
#[derive(Drop)]
pub enum Reading {
    /// An empty line or a comment.
    Silent,
    /// It names the users.
    Names(Vec<User>),
    /// The line is refused.
    Refuses(Refusal),
    /// The line makes this event.
    Asks(Event),
    /// The line waits for the goals of the session so far.
    Waits,
}
