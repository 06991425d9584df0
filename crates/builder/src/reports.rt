//! Who is told that workers are free again.

use model::Refusal;
use std::marker::Copy;
use std::sync::Wait;
use trust::User;

/// Who is told of each ticket that a worker has ended with. No contract speaks of it: what is told moves only when
/// the next tickets are put.
pub trait Reports: Copy + Drop + Send + Sync {
    /// A worker has ended with the ticket for a user's goal of that number, for which it met 90, 92, or neither.
    /// It may wait.
    fn ended<R: Wait>(&self, rt: &R, user: &User, number: u16, met: Option<Refusal>);
}
