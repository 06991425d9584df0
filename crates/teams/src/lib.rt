//! Sessions of files that share a store, each in a thread of its own, with a team of workers that build for it.
//!
//! | Name | What it is |
//! |---|---|
//! | [`all_at_once`] | serves sessions at once, and gives what they leave |
//! | [`Part`], [`SessionOutput`] | a file whose lines are run, and what they gave |
//! | [`ServedSession`], [`Left`] | a session before it is served, and what it leaves |
//! | [`Meet`] | a store that learns what others of its kind were answered |
//! | [`Scheduler`] | what is built next, for all sessions of a store |
//! | [`are_asked`] | whether workers went on only with goals that their files had asked for |
#![tactic(auto)]

mod asked;
mod builders;
mod ended_tickets;
mod meeting;
mod scheduler;
mod sessions;
mod waiting;

pub use asked::are_asked;
pub use meeting::Meet;
pub use scheduler::Scheduler;
pub use sessions::{Left, Part, ServedSession, SessionOutput, all_at_once};
