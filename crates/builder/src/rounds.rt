//! Rounds: tickets are handed to workers in threads of their own.

ghost use Rattle.std.specs.Prelude.{◌≡◌, ◌≤◌, [], IfOk, IfErr, vec_len};
ghost use Rattle.std.specs.Vec.{vec_capacity};
ghost use Rattle.crossbeam_channel.specs.Claims.{view, IsSeatAt};
ghost use Rattle.crossbeam_channel.specs.Ends.{sends_on, receives_on};
ghost use Rattle.builder.specs.Queue.{producer as keeping};
ghost use Rattle.builder.specs.Rounds.{Serves, IsRoundOf};

use crate::queue::{Producer, count, ticket_queue};
use crate::reports::Reports;
use crate::runner::Runner;
use crate::serving::{Feeding, Served, Workers, serve};
use crate::shared::Shared;
use crate::source::TicketSource;
use crate::store::Store;
use crate::tally::Tally;
use crate::worker::Worker;
use std::alloc::Global;
use std::sync::Wait;
use std::sync::atomic::AtomicUsize;
use std::thread;
use std::thread::Threads;

/// What a round takes: where its tickets come from, and who works on them.
#[derive(Drop)]
pub struct Hands<T, S, Q> {
    /// Where the tickets come from.
    pub source: T,
    /// Who works on them.
    pub workers: Vec<Worker<S, Q>>,
}

/// What a round leaves.
#[derive(Drop)]
pub struct RoundEnd<L, S, Q> {
    /// What is left of the source of its tickets.
    pub left: L,
    /// The workers, in their order.
    pub workers: Vec<Worker<S, Q>>,
    /// Whether each ticket was taken by a worker.
    pub is_whole: bool,
    /// Whether a worker met 90.
    pub has_met_memory: bool,
}

/// What the threads of a round leave.
struct ScopeEnd<L, S, Q> {
    left: L,
    done: Vec<Worker<S, Q>>,
    producer: Producer,
    tally: Tally,
}

/// Serves by threads that borrow.
fn in_scope<
    T: TicketSource + Drop,
    S: Store + Send + Drop,
    Q: Runner + Send + Drop,
    N: Reports,
    R: Threads + Wait + Sync,
>(
    rt: &R,
    shared: Shared<'_, N>,
    producer: Producer,
    workers: Workers<S, Q>,
    source: T,
) -> ScopeEnd<T::Left, S, Q>
    requires queue { receives_on shared.receiver.now ≡ sends_on shared.sender.now }
    requires seat { IsSeatAt (sends_on shared.sender.now) producer }
    requires producer { view producer ≡ keeping [] 0 [] }
    requires room { vec_len workers.left ≤ vec_capacity workers.done }
    requires none { workers.done.items ≡ [] }
    ensures seat { IsSeatAt (sends_on shared.entry.sender.now) result.producer }
    ensures serves { Serves S.called S.asked Q.gives (λ tickets. T.gave source tickets result.left)
        workers.left.items [] result.done.items (view producer) (view result.producer) result.tally }
{
    thread::scope(
        thread::scope_env(),
        rt,
        move |scope| -> ScopeEnd<T::Left, S, Q>
            requires queue { receives_on shared.receiver.now ≡ sends_on shared.sender.now }
            requires seat { IsSeatAt (sends_on shared.sender.now) producer }
            requires producer { view producer ≡ keeping [] 0 [] }
            requires room { vec_len workers.left ≤ vec_capacity workers.done }
            requires none { workers.done.items ≡ [] }
            ensures seat { IsSeatAt (sends_on shared.entry.sender.now) result.producer }
            ensures serves { Serves S.called S.asked Q.gives (λ tickets. T.gave source tickets result.left)
                workers.left.items [] result.done.items (view producer) (view result.producer)
                result.tally }
        {
            let mut workers = workers;
            let feeding = Feeding { source, threads: 0 };
            let Served {
                left,
                producer,
                tally,
            } = serve(rt, scope, shared, producer, &mut workers, feeding);
            let Workers { done, .. } = workers;
            ScopeEnd {
                left,
                done,
                producer,
                tally,
            }
        },
    )
}

/// Hands the tickets of a source to workers, each in a thread of its own, and then one Stop to each. The source puts
/// its tickets in the thread of the caller. Joins all threads, and gives the workers back, in their order, whatever
/// happens.
///
/// What they took, Stops aside, is a beginning of the tickets that the source put, in their order, each as often; all of
/// them where the round was whole. A worker works on each ticket that it took until it meets 92, and makes no call
/// more then. Each ticket that a worker has ended with is reported.
///
/// Where no thread can be made for a worker it takes no ticket; the others take all. The source is told how many
/// threads there are. With none nobody takes a ticket, and it is to put none. A call may wait for ever, as each that
/// waits for another thread.
///
/// # Errors
///
/// The source and the workers, only where there was no memory for the round, and nothing was done.
pub fn round<
    T: TicketSource + Drop,
    S: Store + Send + Drop,
    Q: Runner + Send + Drop,
    N: Reports,
    R: Threads + Wait + Sync,
>(
    rt: &R,
    alloc: Global,
    reports: N,
    hands: Hands<T, S, Q>,
) -> Result<RoundEnd<T::Left, S, Q>, Hands<T, S, Q>>
    ensures round { IfOk result (λ end. IsRoundOf S.called S.asked Q.gives
        (λ tickets. T.gave hands.source tickets end.left)
        hands.workers.items end.workers.items end.is_whole end.has_met_memory) }
    ensures nothing { IfErr result (λ back. back ≡ hands) }
{
    let Ok(done) = Vec::with_capacity(alloc, hands.workers.len()) else {
        return Err(hands);
    };
    let Ok((sender, receiver, producer)) = ticket_queue(alloc) else {
        return Err(hands);
    };
    let Hands { source, workers } = hands;
    let workers = Workers {
        left: workers,
        done,
    };
    let without_thread = AtomicUsize::new(0);
    let shared = Shared {
        alloc,
        sender: &sender,
        receiver: &receiver,
        reports: &reports,
        without_thread: &without_thread,
    };
    let ScopeEnd {
        left,
        done,
        mut producer,
        tally,
    } = in_scope(rt, shared, producer, workers, source);
    count(&sender, &mut producer);
    Ok(RoundEnd {
        left,
        workers: done,
        is_whole: tally.whole,
        has_met_memory: tally.memory,
    })
}
