//! Derivations, and their texts in the ATerm format of the Nix Reference Manual, which are read and written.
#![tactic(auto)]

mod derivation;
mod laws;
mod read;
mod text;
mod write;

pub use derivation::{Derivation, Parts};
pub use laws::{derivations_pass, reading_is_exact};
pub use read::parse;
pub use text::Text;
pub use write::{print, print_parts, print_with_inputs};
