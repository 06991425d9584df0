//! Store paths and what they are made of: names, base 32, and the paths of sources, derivations and outputs.
#![tactic(auto)]

mod base32;
mod class;
mod hash_part;
mod kind;
mod laws;
mod name;
mod order;
mod path;

pub use base32::{from_base32, to_base32};
pub use class::Class;
pub use hash_part::HashPart;
pub use kind::{Kind, make_path};
pub use laws::{paths_differ, paths_pass};
pub use name::{Name, is_name};
pub use order::paths_in_order;
pub use path::{StorePath, read_path};
