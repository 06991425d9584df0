//! A store that sessions and workers share: a front, called through a pass.

ghost use Rattle.std.specs.Prelude.{◌≡◌, false};
ghost use Rattle.schedule.specs.Queries.{event_for};
ghost use Rattle.running.specs.Calling.{is_read, IsTold};
ghost use Rattle.running.specs.Meeting.{HasMet};

use book::{Front, FrontId, Pass};
use builder::Store;
use jobs::{Outlook, RunningJob};
use model::Refusal;
use schedule::{Event, Query, Reply, User};
use std::alloc::Global;
use std::marker::Model;
use std::sync::Wait;
use teams::Meet;

/// A front that threads share, and a pass of one's own to call it through. What is only read is answered
/// from what is published, and waits for nobody.
#[derive(Drop)]
pub(crate) struct SharedStore<'a, J: FrontId, R: Wait> {
    /// What waits for the lock.
    pub(crate) rt: &'a R,
    /// What is shared.
    pub(crate) front: &'a Front<J>,
    /// What it is called through.
    pub(crate) pass: Pass<J>,
    /// Whether what is shared is swept when that is asked for.
    pub(crate) sweeps: bool,
}

/// Contracts see it as its pass.
impl<'a, J: FrontId, R: Wait> Model for SharedStore<'a, J, R> {
    ghost use Rattle.std.specs.Coded.{codes};
    ghost use Rattle.model.specs.TreeCode.{tree_code};
    ghost use Rattle.history.specs.Callers.{PassKnowledge};

    ghost Value = { PassKnowledge };

    ghost coded = { Prim.hlevel (codes, tree_code) };

    ghost view = { λ s. s.pass };
}

/// Answers a query from what is published.
fn read<J: FrontId>(pass: &mut Pass<J>, query: Query) -> Reply
    ensures { IsTold J.setup pass.old (event_for query) result pass.new }
{
    pass.sure_rows_are_seen();
    pass.rows_are_counted();
    let reply = pass.read(query);
    pass.sure_rows_are_seen();
    pass.rows_are_counted();
    reply
}

/// Hands an event that is no query to a front.
fn call<J: FrontId, R: Wait>(
    rt: &R,
    alloc: Global,
    front: &Front<J>,
    pass: &mut Pass<J>,
    event: Event,
) -> Reply
    requires { is_read event ≡ false }
    ensures { IsTold J.setup pass.old event result pass.new }
{
    pass.sure_rows_are_seen();
    pass.rows_are_counted();
    let reply = front.call(rt, alloc, pass, event);
    pass.sure_rows_are_seen();
    pass.rows_are_counted();
    reply
}

/// What is only read is so after rows that the pass has seen then, and each other event that is answered
/// has a row of the pass in the history.
impl<J: FrontId, R: Wait> Store for SharedStore<'_, J, R> {
    ghost use Rattle.book.specs.Asking.{IsAskedBy};
    ghost use Rattle.running.specs.Calling.{IsTold};

    ghost called = { λ old event reply new. IsTold J.setup old event reply new };

    ghost asked = { λ old user number told new. IsAskedBy J.setup old user number told new };

    fn call(&mut self, alloc: Global, event: Event) -> Reply {
        match Query::of(event) {
            Ok(query) => read(&mut self.pass, query),
            Err(event) => call(self.rt, alloc, self.front, &mut self.pass, event),
        }
    }

    fn running_job(&mut self, user: &User, number: u16) -> Result<RunningJob, Refusal> {
        self.front.request(self.rt, &mut self.pass, user, number)
    }
}

/// Looks how a user's goal of a number may go on, from what is published.
fn look<J: FrontId>(pass: &mut Pass<J>, user: &User, number: u16) -> Result<Outlook, Refusal>
    ensures { HasMet pass.old pass.new }
{
    pass.outlook(user, number)
}

/// After it the pass has seen all rows that were published, and knows whether the front is stopped.
impl<J: FrontId, R: Wait> Meet for SharedStore<'_, J, R> {
    ghost use Rattle.running.specs.Meeting.{HasMet, IsNew, is_stopped, stops_by, met_none, met_more, met_asking, stopped_met, stopped_told, stopped_called, stops_new, stops_met, stops_called};

    ghost met = { HasMet };

    ghost stopped = { is_stopped };

    ghost is_new = { IsNew };

    ghost stops = { stops_by };

    fn meet_others(&mut self) -> bool {
        self.front.show(self.rt, &mut self.pass)
    }

    fn outlook(&mut self, user: &User, number: u16) -> Result<Outlook, Refusal> {
        look(&mut self.pass, user, number)
    }

    fn sweep(&self, alloc: Global) {
        if self.sweeps {
            let _swept = self.front.sweep(self.rt, alloc);
        }
    }

    ghost met_none = { met_none };

    ghost met_more = { met_more };

    ghost stopped_met = { stopped_met };

    ghost stopped_told = { stopped_told J.setup };

    ghost stopped_called = { stopped_called J.setup };

    ghost met_asking = { met_asking J.setup };

    ghost stops_new = { stops_new };

    ghost stops_met = { stops_met };

    ghost stops_called = { stops_called J.setup };
}
