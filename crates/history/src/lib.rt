//! The history of a front: its callers, and what they know of it.
//!
//! A [`Caller`] is one caller. What it knows of the history, and what is recorded there, are tokens,
//! which have no bytes: the [`Log`] lies under the lock, and each caller has a claim.
//!
//! A [`HistoryPrefix`] is a token too: the first rows of the history, as they were seen.
#![tactic(auto)]

mod caller;
mod front_id;
mod history_prefix;
mod log;
mod row;

pub use caller::Caller;
pub use front_id::{FrontId, StopCount};
pub use history_prefix::{EmptyHistory, HistoryLength, HistoryPrefix, Lengths};
pub use log::{Claim, FrontTokens, Log, LogTable};
pub use row::{Row, is_unrecorded};
