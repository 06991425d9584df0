//! The command line of `intstore`: its subcommands with their arguments, and the options that the words of a
//! command line give.
#![tactic(auto)]

mod arguments;
mod matched;
mod settings;

pub use arguments::options;
pub use settings::{Action, Options, Run};
