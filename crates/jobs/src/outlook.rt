//! How goals may go on.

use events::Job;
use storepath::StorePath;
use trust::UserSet;

/// What comes next of a goal, as its user sees it.
#[derive(Debug, Drop)]
pub enum Next {
    /// Nothing more by itself: it is done, or has failed.
    Over,
    /// It waits, and he sees a record of the class of each input, so that it can be planned; or it is planned,
    /// and can be started.
    Ready,
    /// It is built in this job, whose leader he reaches.
    Built(Job),
    /// It waits, and this is the first class among its inputs of which he sees no record.
    Lacks(StorePath),
}

/// How a goal may go on.
#[derive(Debug, Drop)]
pub struct Outlook {
    /// The path of the class of what it builds, if its derivation is on its user's desk.
    pub class: Option<StorePath>,
    /// What comes next of it.
    pub next: Next,
    /// Those whom its user reaches, himself among them, by their places.
    pub reached: UserSet,
}
