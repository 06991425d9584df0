//! What a worker is asked to do.

use trust::User;

/// What a worker is asked to do.
#[derive(Drop)]
pub enum Ticket {
    /// To have the goal of that number of a user built.
    Goal(User, u16),
    /// To end.
    Stop,
}
