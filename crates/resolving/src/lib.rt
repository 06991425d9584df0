//! What a derivation is built from: its inputs are replaced by the paths that serve their classes in one closure.
#![tactic(auto)]

mod last_resolved;
mod resolution;
mod resolving;
mod same;
mod served;
mod sources;
mod strings;

pub use last_resolved::LastResolved;
pub use records::Resolved;
pub use resolving::resolve;
