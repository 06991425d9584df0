//! What one thread of a round does.

ghost use Rattle.std.specs.Prelude.{◌≡◌, ◌||◌, [], true, IfOk, IfErr, MatchResult};
ghost use Rattle.crossbeam_channel.specs.Claims.{view, IsSeatAt};
ghost use Rattle.crossbeam_channel.specs.Ends.{receives_on};
ghost use Rattle.builder.specs.Queue.{consumer as taking};
ghost use Rattle.builder.specs.Rounds.{Returned};

use crate::met::Met;
use crate::queue::Consumer;
use crate::reports::Reports;
use crate::runner::Runner;
use crate::shared::Shared;
use crate::store::Store;
use crate::tally::Tally;
use crate::worker::{Worked, Worker, work};
use std::snapshot::Snapshot;
use std::sync::Wait;
use std::sync::atomic::Ordering;
use std::thread::{Promise, PromisedHandle, Scope, Threads};

/// What a thread gives back.
#[derive(Drop)]
pub(crate) struct Back<S, Q> {
    /// The worker.
    pub(crate) worker: Worker<S, Q>,
    /// Its end of the queue.
    pub(crate) consumer: Consumer,
    /// What the worker met.
    pub(crate) met: Met,
    /// Whether it took its Stop.
    pub(crate) took_stop: bool,
}

/// What a thread was handed.
#[derive(Drop)]
pub(crate) struct Handed<S, Q> {
    worker: Snapshot<Worker<S, Q>>,
    consumer: Snapshot<Consumer>,
}

impl<S: Store, Q: Runner> Promise<Back<S, Q>> for Handed<S, Q> {
    ghost use Rattle.builder.specs.Rounds.{Returned};

    ghost kept_by = { λ p r. Returned S.called S.asked Q.gives p.worker.value p.consumer.value
        r.worker r.consumer r.met r.took_stop };
}

/// What a thread is handed.
fn hand_to<S, Q>(worker: &Worker<S, Q>, consumer: &Consumer) -> Handed<S, Q>
    ensures worker { result.worker.value ≡ worker.now }
    ensures consumer { result.consumer.value ≡ consumer.now }
{
    Handed {
        worker: Snapshot::of(worker),
        consumer: Snapshot::of(consumer),
    }
}

/// Takes tickets and works on them until a Stop; none where there is no thread for the worker at this place.
fn run<S: Store, Q: Runner, N: Reports, R: Wait>(
    rt: &R,
    shared: Shared<'_, N>,
    place: usize,
    mut worker: Worker<S, Q>,
    mut consumer: Consumer,
) -> Back<S, Q>
    requires seat { IsSeatAt (receives_on shared.receiver.now) consumer }
    requires takes { (view consumer).takes ≡ true }
    requires none { view consumer ≡ taking (view consumer).number [] }
    ensures { Returned S.called S.asked Q.gives worker consumer result.worker result.consumer result.met
        result.took_stop }
{
    if shared.without_thread.load(Ordering::SeqCst) == place {
        return Back {
            worker,
            consumer,
            met: Met::nothing(),
            took_stop: false,
        };
    }
    let Worked { met, took_stop } = work(rt, shared, &mut worker, &mut consumer);
    Back {
        worker,
        consumer,
        met,
        took_stop,
    }
}

/// A thread that works for the worker at a place, or, where none can be made, what that gives back with no ticket taken.
pub(crate) fn start<
    's,
    E,
    S: Store + Send + Drop + 's,
    Q: Runner + Send + Drop + 's,
    N: Reports + 's,
    R: Threads + Wait + Sync,
>(
    rt: &'s R,
    scope: &Scope<'s, E>,
    shared: Shared<'s, N>,
    place: usize,
    worker: Worker<S, Q>,
    consumer: Consumer,
) -> Result<PromisedHandle<Back<S, Q>, Handed<S, Q>>, Back<S, Q>>
    requires seat { IsSeatAt (receives_on shared.receiver.now) consumer }
    requires takes { (view consumer).takes ≡ true }
    requires none { view consumer ≡ taking (view consumer).number [] }
    ensures worker { IfOk result (λ h. h.promise.worker.value ≡ worker) }
    ensures consumer { IfOk result (λ h. h.promise.consumer.value ≡ consumer) }
    ensures back { IfErr result (λ b. Returned S.called S.asked Q.gives worker consumer b.worker b.consumer
        b.met b.took_stop) }
{
    let promise = hand_to(&worker, &consumer);
    let job = move || -> Back<S, Q>
        requires seat { IsSeatAt (receives_on shared.receiver.now) consumer }
        requires takes { (view consumer).takes ≡ true }
        requires none { view consumer ≡ taking (view consumer).number [] }
        ensures { Returned S.called S.asked Q.gives worker consumer result.worker result.consumer
            result.met result.took_stop }
    { run(rt, shared, place, worker, consumer) };
    match scope.spawn_with(promise, job) {
        Ok(handle) => Ok(handle),
        Err(refused) => {
            shared.without_thread.store(place, Ordering::SeqCst);
            Err((refused.value)())
        }
    }
}

/// What a thread gave back, or what there is instead, and what the round has come to with that.
pub(crate) fn finish<S: Store, Q: Runner, R: Threads>(
    rt: &R,
    started: Result<PromisedHandle<Back<S, Q>, Handed<S, Q>>, Back<S, Q>>,
    tally: Tally,
) -> (Back<S, Q>, Tally)
    ensures back { MatchResult started
        (λ h. Returned S.called S.asked Q.gives h.promise.worker.value h.promise.consumer.value
        result.0.worker result.0.consumer result.0.met result.0.took_stop)
        (λ b. result.0 ≡ b) }
    ensures whole { result.1.whole ≡ (tally.whole || result.0.took_stop) }
    ensures memory { result.1.memory ≡ (tally.memory || result.0.met.memory) }
{
    let back = match started {
        Ok(handle) => handle.join(rt),
        Err(back) => back,
    };
    let tally = tally.with(back.took_stop, back.met);
    (back, tally)
}
