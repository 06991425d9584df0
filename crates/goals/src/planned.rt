//! A planned goal.

use records::Resolved;

/// The planned goal of a number of the user at a place, and what it is built from.
#[derive(Clone, Copy)]
pub(crate) struct Planned<'a> {
    pub(crate) place: usize,
    pub(crate) number: u16,
    pub(crate) resolved: &'a Resolved,
}
