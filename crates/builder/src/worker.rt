//! Workers.

ghost use Rattle.std.specs.Prelude.{◌≡◌, [], true, List};
ghost use Rattle.crossbeam_channel.specs.Claims.{view, IsSeatAt};
ghost use Rattle.crossbeam_channel.specs.Ends.{receives_on};
ghost use Rattle.builder.specs.Queue.{consumer as taking};
ghost use Rattle.builder.specs.Tickets.{has_stop, StopsLast};
ghost use Rattle.builder.specs.declared.ticket.Ticket.TheVariants.{Goal};
ghost use Rattle.builder.specs.Working.{Call, nothing_met, Deals, Works};

use crate::met::Met;
use crate::queue::{Consumer, take};
use crate::reports::Reports;
use crate::runner::Runner;
use crate::shared::Shared;
use crate::store::Store;
use crate::tasks::work_on;
use crate::ticket::Ticket;
use model::Refusal;
use std::sync::Wait;
use trust::User;

/// What goals are built with.
#[derive(Drop)]
pub struct Worker<S, Q> {
    /// What it hands events to.
    pub store: S,
    /// What builds.
    pub runner: Q,
}

/// What a worker made of the tickets that it took.
pub(crate) struct Worked {
    /// What it met.
    pub(crate) met: Met,
    /// Whether it took a Stop, after which it took no more. Else the queue was closed.
    pub(crate) took_stop: bool,
}

/// Works on a ticket, unless the worker has met 92, and reports that it has ended with it. Gives what the worker has
/// met then.
fn deal<S: Store, Q: Runner, N: Reports, R: Wait>(
    rt: &R,
    shared: Shared<'_, N>,
    worker: &mut Worker<S, Q>,
    met: Met,
    user: User,
    number: u16,
) -> Met
    ensures { (calls : List Call) × Deals S.called S.asked Q.gives (Goal user number) met calls
        worker.old result worker.new }
{
    if met.stopped {
        shared
            .reports
            .ended(rt, &user, number, Some(Refusal::Stopped));
        return met;
    }
    let why = work_on(
        shared.alloc,
        &mut worker.store,
        &mut worker.runner,
        &user,
        number,
    );
    shared.reports.ended(rt, &user, number, why);
    met.with(why)
}

/// Takes tickets and works on them until a Stop. Once it met 92 it takes them without working on them.
pub(crate) fn work<S: Store, Q: Runner, N: Reports, R: Wait>(
    rt: &R,
    shared: Shared<'_, N>,
    worker: &mut Worker<S, Q>,
    consumer: &mut Consumer,
) -> Worked
    requires seat { IsSeatAt (receives_on shared.receiver.now) consumer.old }
    requires takes { (view consumer.old).takes ≡ true }
    requires none { view consumer.old ≡ taking (view consumer.old).number [] }
    ensures seat { IsSeatAt (receives_on shared.entry.receiver.now) consumer.new }
    ensures took { view consumer.new ≡ taking (view consumer.old).number (view consumer.new).taken }
    ensures works { (calls : List Call) × Works S.called S.asked Q.gives (view consumer.new).taken nothing_met
        calls worker.old result.met worker.new }
    ensures stop { result.took_stop ≡ has_stop (view consumer.new).taken }
    ensures last { StopsLast (view consumer.new).taken }
{
    let mut met = Met::nothing();
    for _ in rt.forever() {
        match take(rt, shared.receiver, consumer) {
            Some(Ticket::Stop) => {
                return Worked {
                    met,
                    took_stop: true,
                };
            }
            Some(Ticket::Goal(user, number)) => {
                met = deal(rt, shared, worker, met, user, number);
            }
            None => {
                return Worked {
                    met,
                    took_stop: false,
                };
            }
        }
    }
    unreachable!()
}
