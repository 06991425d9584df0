//! What users ask of a store, and what they are answered: how far goals are, among other things.
#![tactic(auto)]

mod copied_reply;
mod event;
mod job;
mod output;
mod reply;
mod status;
mod striking;
mod undoing;

pub use copied_reply::CopiedReply;
pub use event::{Event, Request};
pub use job::{GoalId, Job};
pub use output::Output;
pub use reply::Reply;
pub use status::Status;
pub use striking::{strike, strike_timed};
