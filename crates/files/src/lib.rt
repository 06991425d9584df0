//! The files of `intstore run`: opened, each with what builds for it, and read up to the users whom it names;
//! and, when they have ended, what they gave printed, and how they ended said.
#![tactic(auto)]

mod ended;
mod opening;
mod parts;
mod printing;

pub use ended::{report_all, report_refused};
pub use opening::{Machine, Opened, Provides, Refused, open, open_all};
pub use parts::{Parts, parts_of};
pub use printing::print_all;
