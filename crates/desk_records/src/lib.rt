//! The records of a desk, in the order in which they were put there, and found by their class, by their path, and by
//! what their labels name.
//!
//! | Name | What it is |
//! |---|---|
//! | [`Records`] | all records of a desk |
//! | [`RecordsOf`] | those of one class, or at one path |
#![tactic(auto)]

mod by_class;
mod counts;
mod group;
mod groups;
mod indexes;
mod names;
mod recorded;
mod records_of;

pub use by_class::Records;
pub use records_of::RecordsOf;
