//! The board that all sessions of a program share.

ghost use Rattle.std.specs.Prelude.{◌<◌, ◌≤◌};

use crate::named::{GoalName, NamedBoard, Outlook, Task, Wanted};
use std::alloc::{AllocError, Global};
use std::hash::RandomState;
use std::sync::{Condvar, Mutex, Wait};
use storepath::StorePath;
use trust::UserSet;

/// The board of a program, under one lock, with what each session waits on. Each call is one of [`NamedBoard`], after
/// which the sessions that may have something to do are notified.
pub struct Board {
    named: Mutex<NamedBoard>,
    seats: Vec<Condvar>,
}

impl Drop for Board {
    fn drop(self) {
        let Board { named: _, seats: _ } = self;
    }
}

/// Notifies the sessions that may have something to do.
fn notify(seats: &[Condvar], named: &NamedBoard) {
    for seat in 0..seats.len() {
        if named.may_step(seat) {
            seats[seat].notify_all();
        }
    }
}

impl Board {
    /// A board without goals, for so many sessions, none of which waits. So many builders may run at once, and one
    /// more for each user who has none.
    ///
    /// # Errors
    ///
    /// - `AllocError` only where memory was refused.
    pub fn new(
        alloc: Global,
        hashing: RandomState,
        sessions: usize,
        most: u64,
    ) -> Result<Board, AllocError>
        requires some { 0 < most }
        requires most { most ≤ 64 }
    {
        let mut seats = Vec::with_capacity(alloc, sessions)?;
        for _ in 0..sessions {
            seats.push(Condvar::new())?;
        }
        let named = NamedBoard::new(alloc, hashing, sessions, most)?;
        Ok(Board {
            named: Mutex::new(named),
            seats,
        })
    }

    /// So many workers of a session have threads.
    pub fn set_workers<R: Wait>(&self, rt: &R, seat: usize, workers: u64) {
        let mut guard = self.named.lock(rt);
        let named = &mut *guard;
        named.set_workers(seat, workers);
        notify(&self.seats, named);
    }

    /// A session waits for goals, from now on. Those that came on the board are to be looked at.
    ///
    /// # Errors
    ///
    /// - `AllocError` only where memory was refused, or a goal is of no user or the session none. The session waits all
    ///   the same, for those before.
    pub fn open<R: Wait>(&self, rt: &R, seat: usize, goals: &[Wanted]) -> Result<(), AllocError> {
        let mut guard = self.named.lock(rt);
        let named = &mut *guard;
        named.open(seat);
        let mut opened = Ok(());
        for wanted in goals {
            opened = named.want(seat, wanted);
            if opened.is_err() {
                break;
            }
        }
        notify(&self.seats, named);
        opened
    }

    /// What a session is to do. It waits until there is something.
    ///
    /// # Errors
    ///
    /// - `AllocError` only where memory was refused.
    pub fn next<R: Wait>(&self, rt: &R, seat: usize) -> Result<Task, AllocError> {
        let Some(signal) = self.seats.get(seat) else {
            return Ok(Task::Over);
        };
        for _ in rt.forever() {
            let guard = self.named.lock(rt);
            let mut guard = signal.wait_while(rt, guard, move |named: &mut NamedBoard| -> bool {
                !named.may_step(seat)
            });
            let named = &mut *guard;
            let task = named.next(seat)?;
            if !matches!(&task, Task::Wait) {
                notify(&self.seats, named);
                return Ok(task);
            }
        }
        unreachable!()
    }

    /// The session of a goal found how that may go on, and whom its user reaches.
    ///
    /// # Errors
    ///
    /// - `AllocError` only where memory was refused, or the goal that leads its job is of no user. The goal is still
    ///   looked at then.
    pub fn file<R: Wait>(
        &self,
        rt: &R,
        name: GoalName,
        reached: UserSet,
        outlook: &Outlook,
    ) -> Result<(), AllocError> {
        let mut guard = self.named.lock(rt);
        let named = &mut *guard;
        let filed = named.file(name, reached, outlook);
        notify(&self.seats, named);
        filed
    }

    /// The builder of a goal has ended.
    pub fn ended<R: Wait>(&self, rt: &R, name: GoalName) {
        let mut guard = self.named.lock(rt);
        let named = &mut *guard;
        named.ended(name);
        notify(&self.seats, named);
    }

    /// A class has come, by an event of any session.
    pub fn came<R: Wait>(&self, rt: &R, class: &StorePath) {
        let mut guard = self.named.lock(rt);
        let named = &mut *guard;
        named.came(class);
        notify(&self.seats, named);
    }

    /// The job that a goal leads has ended, by an event of any session.
    pub fn job_ended<R: Wait>(&self, rt: &R, name: GoalName) {
        let mut guard = self.named.lock(rt);
        let named = &mut *guard;
        named.job_ended(name);
        notify(&self.seats, named);
    }

    /// The trust of the user at a place has changed.
    pub fn trust_changed<R: Wait>(&self, rt: &R, user: usize) {
        let mut guard = self.named.lock(rt);
        let named = &mut *guard;
        named.trust_changed(user);
        notify(&self.seats, named);
    }

    /// A session waits no more.
    pub fn close<R: Wait>(&self, rt: &R, seat: usize) {
        let mut guard = self.named.lock(rt);
        let named = &mut *guard;
        named.close(seat);
        notify(&self.seats, named);
    }
}
