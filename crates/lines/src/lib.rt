//! What the lines of a session are read as, the text that is printed for replies, and the lines of events.
//!
//! What a line is, which request it makes and what is printed for a reply is said by the definitions
//! of the crate `model`.
#![tactic(auto)]

mod commands;
mod cutting;
mod entries;
mod expand;
mod line;
mod line_result;
mod numbers;
mod parsing;
mod pieces;
mod printed;
mod texts;
mod words;
mod writing;

pub use cutting::cut;
pub use expand::has_expansion;
pub use line::Reading;
pub use line_result::{LineResult, told_in};
pub use parsing::read_line;
pub use printed::Printed;
pub use texts::{answer_text, printed_answer, with_text};
pub use writing::line_of;
