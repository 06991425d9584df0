//! What the program says beside the replies.
//!
//! | Name | What it says |
//! |---|---|
//! | [`Fault`], [`report`] | why it cannot go on, with its exit status |
//! | [`Explained`] | behind each refusal what it means, in the place where replies are written |
//! | [`Narrator`] | as each builder starts, and how it and its goal ended |
//! | [`tell_waiting`] | which goals are left waiting when a run has ended, and for what |
#![tactic(auto)]

mod columns;
mod commenting;
mod explaining;
mod fault;
mod heard;
mod inputs;
mod meanings;
mod narrator;
mod waiting;

pub use commenting::Lines;
pub use explaining::Explained;
pub use fault::{
    ANSWERED, BAD_USERS, CANNOT_READ_OR_WRITE, COMMAND_LINE_FAULT, Fault, OUT_OF_MEMORY, fault_of,
    report, status_of,
};
pub use narrator::Narrator;
pub use waiting::tell_waiting;
