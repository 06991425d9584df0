//! The board of all sessions, in the names of their users.

ghost use Rattle.std.specs.Prelude.{◌<◌, ◌≤◌};

use crate::builders::Waiting;
use board::{Board, GoalName, Outlook as Filed, Task, Wanted};
use events::{Reply, Request};
use jobs::{Next, Outlook};
use session::GoalId;
use std::alloc::{AllocError, Global};
use std::hash::RandomState;
use std::sync::Wait;
use trust::{User, place_of};

/// What is built next, for all sessions of a store: a board that they share. No contract believes it: a session
/// puts tickets for goals of its own alone, whatever the board says, and no wait is told anything by it but when
/// to go on.
pub struct Scheduler {
    users: Vec<User>,
    board: Board,
}

impl Drop for Scheduler {
    fn drop(self) {
        let Scheduler { users: _, board: _ } = self;
    }
}

/// What an event that was answered means for the goals that wait.
#[derive(Clone, Copy)]
pub(crate) enum News {
    /// Nothing.
    Nothing,
    /// The user at a place has a record more, or trusts others than before.
    OfUser(usize),
}

impl Scheduler {
    /// That of so many sessions, for these users. So many builders run at once, 1 to 64, and one more for each user
    /// who has none.
    ///
    /// # Errors
    ///
    /// - `AllocError` only where memory was refused.
    pub fn new(
        alloc: Global,
        hashing: RandomState,
        users: Vec<User>,
        sessions: usize,
        most: u64,
    ) -> Result<Scheduler, AllocError>
        requires some { 0 < most }
        requires most { most ≤ 64 }
    {
        let board = Board::new(alloc, hashing, sessions, most)?;
        Ok(Scheduler { users, board })
    }

    /// A goal as the board names it, if its user is one of the run.
    pub(crate) fn name_of(&self, user: &User, number: u16) -> Option<GoalName> {
        let user = place_of(&self.users, user)?;
        Some(GoalName {
            user,
            number: number as u64,
        })
    }

    /// What an event of a user means for the goals that wait, if it is done.
    pub(crate) fn news_of(&self, actor: &User, request: &Request) -> News {
        match request {
            Request::Offer(_, _) | Request::Trust(_) | Request::Distrust(_) => {
                match place_of(&self.users, actor) {
                    Some(user) => News::OfUser(user),
                    None => News::Nothing,
                }
            }
            _ => News::Nothing,
        }
    }

    /// An event was answered.
    pub(crate) fn tell<R: Wait>(&self, rt: &R, news: News, reply: &Reply) {
        match (news, reply) {
            (News::Nothing, _) | (_, Reply::Refused(_)) => (),
            (News::OfUser(user), _) => self.board.trust_changed(rt, user),
        }
    }

    /// The goal at a place among the goals of a session is to be on the board, unless nothing comes of it.
    ///
    /// # Errors
    ///
    /// - `AllocError` only where memory was refused.
    pub(crate) fn want(
        &self,
        waiting: &mut Waiting,
        goal: &GoalId,
        place: usize,
        outlook: Outlook,
    ) -> Result<(), AllocError> {
        let Outlook {
            class,
            next: _,
            reached,
        } = outlook;
        let (Some(name), Some(class)) = (self.name_of(goal.leader(), goal.number()), class) else {
            return Ok(());
        };
        waiting.add(
            place,
            Wanted {
                name,
                class,
                reached,
            },
        )
    }

    /// A session waits from now on. Where goals of a user could have been built after their tickets as before, those who
    /// reach him look again.
    ///
    /// # Errors
    ///
    /// - `AllocError` only where memory was refused.
    pub(crate) fn open<R: Wait>(&self, rt: &R, waiting: &mut Waiting) -> Result<(), AllocError> {
        self.board
            .set_workers(rt, waiting.seat, waiting.threads as u64);
        if let Some(user) = waiting.refused {
            waiting.refused = None;
            self.board.trust_changed(rt, user);
        }
        // The board has what came last looked at first.
        waiting.wanted.reverse();
        self.board.open(rt, waiting.seat, &waiting.wanted)?;
        waiting.wanted.clear();
        Ok(())
    }

    /// What a session that waits is to do. It waits until there is something.
    ///
    /// # Errors
    ///
    /// - `AllocError` only where memory was refused.
    pub(crate) fn next<R: Wait>(&self, rt: &R, seat: usize) -> Result<Task, AllocError> {
        self.board.next(rt, seat)
    }

    /// A session found how a goal of its own may go on.
    ///
    /// # Errors
    ///
    /// - `AllocError` only where memory was refused. The goal is still looked at then.
    pub(crate) fn file<R: Wait>(
        &self,
        rt: &R,
        name: GoalName,
        outlook: Outlook,
    ) -> Result<(), AllocError> {
        let Outlook {
            class: _,
            next,
            reached,
        } = outlook;
        let next = match next {
            Next::Over => Filed::Over,
            Next::Ready => Filed::Ready,
            Next::Lacks(class) => Filed::Lacks(class),
            Next::Built(job) => match self.name_of(job.leader(), job.number()) {
                Some(leader) => Filed::Built(leader),
                None => Filed::Over,
            },
        };
        self.board.file(rt, name, reached, &next)
    }

    /// A worker has ended with a goal.
    pub(crate) fn ended<R: Wait>(&self, rt: &R, user: &User, number: u16) {
        if let Some(name) = self.name_of(user, number) {
            self.board.ended(rt, name);
        }
    }

    /// A session waits no more.
    pub(crate) fn close<R: Wait>(&self, rt: &R, seat: usize) {
        self.board.close(rt, seat);
    }
}
