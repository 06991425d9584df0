//! An input of lines, answered by a new store for the users whom it names.
#![tactic(auto)]

mod bad_lines;
mod first_lines;
mod first_run;
mod input;
mod numbers;
mod one_pass;
mod recorder;
mod settings;
mod striking;

pub use bad_lines::BadLines;
pub use input::replay;
pub use settings::{Observer, Settings};
pub use striking::strike;
