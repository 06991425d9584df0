//! What a user sees: the records and sources, which record is chosen for a class, and what the
//! closure of classes and sources needs.
#![tactic(auto)]

mod choice;
mod gathering;
mod order;
mod planning;
mod view;

pub use planning::{first_lacking, plan};
pub use records::{Closure, Entry, Plan, Realisation, Source};
pub use view::View;
