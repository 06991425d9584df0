//! Tickets that the workers of a session have ended with.

use crate::scheduler::Scheduler;
use builder::{Met, Reports};
use model::Refusal;
use std::mem;
use std::sync::{Condvar, Mutex, Wait};
use trust::User;

/// What a session is told of the tickets that its workers have ended with.
#[derive(Drop)]
pub(crate) struct Ended {
    /// How many more they are.
    pub(crate) tickets: usize,
    /// What workers met for them.
    pub(crate) met: Met,
}

/// Nothing has ended.
const NOTHING: Ended = Ended {
    tickets: 0,
    met: Met {
        memory: false,
        stopped: false,
    },
};

/// Counts the tickets that the workers of a session have ended with.
pub(crate) struct EndedTickets {
    ended: Mutex<Ended>,
    changed: Condvar,
}

impl Drop for EndedTickets {
    fn drop(self) {
        let EndedTickets {
            ended: _,
            changed: _,
        } = self;
    }
}

impl EndedTickets {
    /// None was put.
    pub(crate) fn new() -> EndedTickets {
        EndedTickets {
            ended: Mutex::new(NOTHING),
            changed: Condvar::new(),
        }
    }

    /// A worker has ended with one more, for which it met 90, 92, or neither.
    fn add_one<R: Wait>(&self, rt: &R, met: Option<Refusal>) {
        let mut guard = self.ended.lock(rt);
        let ended = &mut *guard;
        ended.tickets = ended.tickets.saturating_add(1);
        match met {
            Some(Refusal::Memory) => ended.met.memory = true,
            Some(Refusal::Stopped) => ended.met.stopped = true,
            _ => (),
        }
        self.changed.notify_all();
    }

    /// Those that have ended since this was asked last.
    pub(crate) fn take<R: Wait>(&self, rt: &R) -> Ended {
        mem::replace(&mut *self.ended.lock(rt), NOTHING)
    }

    /// Waits until one has ended since this was asked last, and tells those that have.
    pub(crate) fn wait_for_one<R: Wait>(&self, rt: &R) -> Ended {
        let guard = self.ended.lock(rt);
        let mut guard = self
            .changed
            .wait_while(rt, guard, |ended: &mut Ended| -> bool {
                ended.tickets == 0
            });
        mem::replace(&mut *guard, NOTHING)
    }
}

/// Tells a session, and the board, of the tickets that the session's workers have ended with.
#[derive(Clone, Copy, Drop)]
pub(crate) struct Reporter<'a> {
    /// Where they are counted.
    pub(crate) ended: &'a EndedTickets,
    /// What is built next.
    pub(crate) scheduler: &'a Scheduler,
}

impl Reports for Reporter<'_> {
    fn ended<R: Wait>(&self, rt: &R, user: &User, number: u16, met: Option<Refusal>) {
        self.ended.add_one(rt, met);
        self.scheduler.ended(rt, user, number);
    }
}
