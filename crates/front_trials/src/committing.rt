//! A front that is called through its one pass.

use book::{Front, FrontId, Pass};
use model::Refusal;
use schedule::{Event, Query, Ready, Reply};
use session::GoalId;
use std::alloc::Global;
use std::sync::Wait;

/// A front and its one pass, which reads what is asked, and prepares the other events or does not.
#[derive(Drop)]
pub(crate) struct Committing<'a, J: FrontId, R> {
    pub(crate) rt: &'a R,
    pub(crate) front: Front<J>,
    pub(crate) pass: Pass<J>,
    pub(crate) prepares: bool,
}

impl<J: FrontId, R: Wait> Committing<'_, J, R> {
    /// What is made for an event before it is committed.
    fn ready_for(&mut self, alloc: Global, event: &Event) -> Result<Ready, Refusal> {
        if self.prepares {
            self.pass.prepare(event)
        } else {
            Ok(Ready::none(alloc))
        }
    }

    /// Commits an event.
    fn commit(&mut self, alloc: Global, event: Event) -> Reply {
        match self.ready_for(alloc, &event) {
            Ok(ready) => self
                .front
                .commit(self.rt, alloc, &mut self.pass, event, ready),
            Err(why) => Reply::Refused(why),
        }
    }
}

/// No line of the service waits.
impl<J: FrontId, R: Wait> session::Answer for Committing<'_, J, R> {
    ghost answers = { λ old event reply new. Unit {0} };

    ghost waited = { λ old goals reply new. Unit {0} };

    fn call(&mut self, alloc: Global, event: Event) -> Reply {
        match Query::of(event) {
            Ok(query) => self.pass.read(query),
            Err(event) => self.commit(alloc, event),
        }
    }

    fn wait(&mut self, _alloc: Global, _goals: &[GoalId]) -> Reply {
        Reply::Ok
    }
}
