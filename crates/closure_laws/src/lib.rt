//! Laws of closures and of the repairs in them, of the definitions alone: that closures are good ones, that what is
//! replaced is gone, and that each tree that is served comes of texts that are hashed.
#![tactic(auto)]

mod closures;
mod repairs;

pub use closures::{closures_are_good, closures_keep_no_replaced, plans_keep_no_replaced};
pub use repairs::{replaced_is_gone, served_are_made, served_is_sound};
