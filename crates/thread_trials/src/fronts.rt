//! A front that is called through its one pass.

use book::{Front, FrontId, Pass};
use schedule::{Event, Reply};
use session::GoalId;
use std::alloc::Global;
use std::sync::Wait;

/// A front and its one pass, which calls it.
#[derive(Drop)]
pub(crate) struct Called<'a, J: FrontId, R> {
    pub(crate) rt: &'a R,
    pub(crate) front: Front<J>,
    pub(crate) pass: Pass<J>,
}

/// No line of the service waits.
impl<J: FrontId, R: Wait> session::Answer for Called<'_, J, R> {
    ghost answers = { λ old event reply new. Unit {0} };

    ghost waited = { λ old goals reply new. Unit {0} };

    fn call(&mut self, alloc: Global, event: Event) -> Reply {
        self.front.call(self.rt, alloc, &mut self.pass, event)
    }

    fn wait(&mut self, _alloc: Global, _goals: &[GoalId]) -> Reply {
        Reply::Ok
    }
}
