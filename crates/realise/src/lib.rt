//! What one user has: his desk, with his records and pins (Dolstra 2006, section 6.2).
#![tactic(auto)]

mod additions;
mod desk;
mod forgetting;
mod holding;
mod limits;
mod parts;
mod pins;

pub use additions::{Addition, add_to_each};
pub use desk::Desk;
pub use desk_records::RecordsOf;
pub use limits::Limits;
pub use pins::Pins;
pub use records::{DeskEntry, Label, Record, is_class_before, labels_in_order, labels_of};
