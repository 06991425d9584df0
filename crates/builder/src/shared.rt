//! What the threads of a round share.

use crate::queue::{Receiver, Sender};
use crate::reports::Reports;
use std::alloc::Global;
use std::sync::atomic::AtomicUsize;

/// What the threads of a round share.
#[derive(Clone, Copy)]
pub(crate) struct Shared<'s, N: Reports> {
    /// Where memory comes from.
    pub(crate) alloc: Global,
    /// Where tickets are put.
    pub(crate) sender: &'s Sender,
    /// Where they are taken.
    pub(crate) receiver: &'s Receiver,
    /// Who is told of each ticket that a worker has ended with.
    pub(crate) reports: &'s N,
    /// The place of the worker for whom a thread could not be made just now: what was to run in it runs in the thread
    /// that would have made it, and takes no ticket.
    pub(crate) without_thread: &'s AtomicUsize,
}
