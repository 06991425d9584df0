//! Workers that build for the users of one store, which they share.
//!
//! | Name | What it is |
//! |---|---|
//! | [`run`] | runs the lines of files, each in a thread of its own, with workers that build |
#![tactic(auto)]

mod pass_lists;
mod runs;
mod shared;

pub use runs::{Results, run};
