//! What was built for classes (Dolstra 2006, section 6.2): records, the labels of what they refer to, and
//! entries, which are put on desks; plans of closures, and closures, whose entries are records and sources with
//! their trees; and what a derivation is built from.
#![tactic(auto)]

mod desk_entry;
mod entries;
mod label;
mod order;
mod plan;
mod realisation;
mod record;
mod resolved;

pub use desk_entry::DeskEntry;
pub use entries::{Closure, Entry};
pub use label::Label;
pub use order::{is_class_before, labels_in_order, labels_of};
pub use plan::Plan;
pub use realisation::{Realisation, Source};
pub use record::Record;
pub use resolved::Resolved;
