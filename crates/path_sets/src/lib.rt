//! Sets of store paths, which are found by their hash parts.
#![tactic(auto)]

mod group;
mod path_set;
mod path_table;
mod paths;
mod slots;

pub use path_set::PathSet;
pub use paths::set_of;
pub use slots::Slots;
