//! What the trials share: the words of their lines, what a line prints, stores, and a reader and a writer that fail.
#![tactic(auto)]

mod answer;
mod devices;
mod new_front;
mod stores;
mod text;
mod told;

pub use answer::{Answer, print_answer};
pub use devices::{Calls, Count, Sink, Source, calls_of};
pub use new_front::NewFront;
pub use stores::{adding, core_for, fetching, new_core, store_of, tell, users_in, users_of};
pub use text::{cut, number, with_newlines};
pub use told::tell_lines;
