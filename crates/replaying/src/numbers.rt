//! What is kept of the lines of an input that were run.

use crate::bad_lines::BadLines;
use schedule::{Event, User};
use session::Session;

/// What a line was to whom events are struck for: whether it made an event of his, and whether it was refused with
/// 25 `BadLine`.
#[derive(Clone, Copy)]
pub(crate) struct Line {
    pub(crate) is_his: bool,
    pub(crate) is_bad: bool,
}

/// The numbers of the lines that made an event of one user, and the lines that were refused with 25.
#[derive(Drop)]
pub(crate) struct Numbers {
    pub(crate) his: Vec<usize>,
    pub(crate) bad: Option<BadLines>,
}

/// A session that has answered the first lines of an input, up to the one that names the users, and those of
/// them that were refused with 25.
#[derive(Drop)]
pub(crate) struct Named {
    pub(crate) session: Session,
    pub(crate) users: Vec<User>,
    pub(crate) bad: Option<BadLines>,
}

/// A session on its way behind the line that names the users, and what is kept of its lines for one of them.
#[derive(Drop)]
pub(crate) struct Notes {
    pub(crate) session: Session,
    pub(crate) user: User,
    pub(crate) numbers: Numbers,
}

/// What the lines of an input asked, for the users whom they name, and the numbers that they have.
#[derive(Drop)]
pub(crate) struct FirstRun {
    pub(crate) users: Vec<User>,
    pub(crate) user: User,
    pub(crate) events: Vec<Event>,
    pub(crate) numbers: Numbers,
}
