//! What is done for one ticket.

ghost use Rattle.std.specs.Prelude.{List};
ghost use Rattle.builder.specs.Outputs.{bytes_of};
ghost use Rattle.builder.specs.Working.{Call, ending as ending_of, Ends, Asks, Starts, WorksOn};

use crate::ending::{ending, is_planned, leads_own, met_by, met_in};
use crate::runner::{RunFault, Runner};
use crate::store::Store;
use events::{Event, Request};
use model::Refusal;
use std::alloc::Global;
use trust::User;

/// Ends the job that a user leads, of which a runner gave this, and tells the runner how. Gives 90 or 92, where
/// that was met.
fn end<S: Store, Q: Runner>(
    alloc: Global,
    store: &mut S,
    runner: &Q,
    leader: User,
    number: u16,
    given: Result<Vec<u8>, RunFault>,
) -> Option<Refusal>
    ensures { (calls : List Call)
        × Ends S.called leader (ending_of number (bytes_of given)) calls store.old result store.new }
{
    let Ok(request) = ending(number, given) else {
        return Some(Refusal::Memory);
    };
    let actor = leader;
    let reply = store.call(alloc, Event { actor, request });
    runner.tell(&reply);
    met_by(&reply)
}

/// Has the job built that a user's goal leads, and ends it. Gives 90 or 92, where that was met.
fn build<S: Store, Q: Runner>(
    alloc: Global,
    store: &mut S,
    runner: &mut Q,
    leader: User,
    number: u16,
) -> Option<Refusal>
    ensures { (calls : List Call) × Asks S.called S.asked Q.gives leader number calls store.old
        runner.old result store.new runner.new }
{
    let job = match store.running_job(&leader, number) {
        Ok(job) => job,
        Err(why) => return met_in(why),
    };
    let given = runner.run(alloc, &job);
    end(alloc, store, runner, leader, number, given)
}

/// Starts a planned goal, and has its job built where it leads one. Gives 90 or 92, where that was met. What is
/// needed to end the job is there before it starts.
fn start<S: Store, Q: Runner>(
    alloc: Global,
    store: &mut S,
    runner: &mut Q,
    user: &User,
    number: u16,
) -> Option<Refusal>
    ensures { (calls : List Call) × Starts S.called S.asked Q.gives user.now number calls store.old
        runner.old result store.new runner.new }
{
    let Ok(actor) = user.clone() else {
        return Some(Refusal::Memory);
    };
    let Ok(leader) = user.clone() else {
        return Some(Refusal::Memory);
    };
    let request = Request::Start(number);
    let reply = store.call(alloc, Event { actor, request });
    if leads_own(user, number, &reply) {
        build(alloc, store, runner, leader, number)
    } else {
        met_by(&reply)
    }
}

/// Plans a user's goal, and starts it where it is planned then. Gives 90 or 92, where that was met.
pub(crate) fn work_on<S: Store, Q: Runner>(
    alloc: Global,
    store: &mut S,
    runner: &mut Q,
    user: &User,
    number: u16,
) -> Option<Refusal>
    ensures { (calls : List Call) × WorksOn S.called S.asked Q.gives user.now number calls store.old
        runner.old result store.new runner.new }
{
    let Ok(actor) = user.clone() else {
        return Some(Refusal::Memory);
    };
    let request = Request::Plan(number);
    let reply = store.call(alloc, Event { actor, request });
    if is_planned(&reply) {
        start(alloc, store, runner, user, number)
    } else {
        met_by(&reply)
    }
}
