//! What is counted of the calls of a front.

use history::{Caller, FrontId, Log, StopCount};
use std::sync::ledger::Share;

/// Some parts of both counts.
pub(crate) struct Counts<J: FrontId> {
    /// Of the calls that have a row.
    pub(crate) calls: Share<J>,
    /// Of the stops.
    pub(crate) stops: Share<StopCount<J>>,
}

impl<J: FrontId> Drop for Counts<J> {
    fn drop(self) {
        let Counts { calls: _, stops: _ } = self;
    }
}

/// A caller, and its part of the count of stops.
#[derive(Drop)]
pub(crate) struct Account<J: FrontId> {
    pub(crate) caller: Caller<J>,
    pub(crate) stops: Share<StopCount<J>>,
}

/// What passes are given parts of: both counts, and the log.
#[derive(Drop)]
pub(crate) struct Tally<J: FrontId> {
    /// The parts of the counts that no pass has.
    pub(crate) spare: Counts<J>,
    /// What is recorded of the rows, for passes to compare what they know with.
    pub(crate) log: Log<J>,
}
