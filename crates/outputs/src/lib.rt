//! Outputs: trees that were built for a derivation get the paths of their content, and records
//! (Dolstra 2006, chapter 6). What an output may refer to are the sources of its desk, the records of its
//! derivation's inputs, and all that their labels reach (section 6.2).
#![tactic(auto)]

mod below;
mod candidates;
mod input;
mod output;
mod placed;
mod record;
mod settlement;
mod settlements;
mod sources;

pub use below::records_below;
pub use candidates::Candidates;
pub use input::Input;
pub use output::SettledTree;
pub use record::record_of;
pub use settlements::Settlements;
pub use sources::Sources;
