//! The workers of a round, each in a thread, and the source of its tickets, in the thread of the caller.

ghost use Rattle.std.specs.Prelude.{◌≡◌, ◌+◌, ◌≤◌, [], vec_len};
ghost use Rattle.std.specs.Vec.{vec_capacity};
ghost use Rattle.crossbeam_channel.specs.Claims.{view, IsSeatAt};
ghost use Rattle.crossbeam_channel.specs.Ends.{sends_on, receives_on};
ghost use Rattle.builder.specs.Queue.{producer as keeping};
ghost use Rattle.builder.specs.Rounds.{Serves};
ghost use Rattle.builder.specs.Sources.{FedAndStopped};

use crate::putting::put_stops;
use crate::queue::{Producer, Sender, give_out, take_back};
use crate::reports::Reports;
use crate::runner::Runner;
use crate::shared::Shared;
use crate::source::{QueueId, TicketQueue, TicketSource};
use crate::store::Store;
use crate::tally::Tally;
use crate::thread::{Back, finish, start};
use crate::worker::Worker;
use std::marker::Brand;
use std::sync::Wait;
use std::thread::{Scope, Threads};

/// Where the tickets of a round come from, and how many threads take them.
#[derive(Drop)]
pub(crate) struct Feeding<T> {
    /// Where they come from.
    pub(crate) source: T,
    /// How many threads were made.
    pub(crate) threads: usize,
}

/// The workers of a round.
#[derive(Drop)]
pub(crate) struct Workers<S, Q> {
    /// Those for whom a thread is to be made.
    pub(crate) left: Vec<Worker<S, Q>>,
    /// Those who are back, the first first.
    pub(crate) done: Vec<Worker<S, Q>>,
}

/// Has a source put its tickets into the queue of this name, and then puts a Stop for each thread. Gives what is left
/// of the source.
fn feed_named<T: TicketSource, B: QueueId, R: Wait>(
    rt: &R,
    sender: &Sender,
    producer: Producer,
    feeding: Feeding<T>,
) -> (T::Left, Producer)
    requires seat { IsSeatAt (sends_on sender.now) producer }
    requires table { producer.table_id ≡ B.table }
    requires key { producer.me.0.of ≡ B.key }
    requires producer { view producer ≡ keeping [] B.out [] }
    ensures seat { IsSeatAt (sends_on sender.now) result.1 }
    ensures fed { FedAndStopped (λ tickets. T.gave feeding.source tickets result.0) (view producer) (view result.1) }
{
    let Feeding { source, threads } = feeding;
    let queue = TicketQueue::<'_, B>::new(sender, producer);
    let (left, queue) = source.feed(rt, threads, queue);
    let mut producer = queue.into_producer();
    put_stops(rt, sender, &mut producer, threads);
    (left, producer)
}

/// Has a source put its tickets, and then puts a Stop for each thread. Gives what is left of the source.
fn feed<T: TicketSource, R: Wait>(
    rt: &R,
    sender: &Sender,
    producer: Producer,
    feeding: Feeding<T>,
) -> (T::Left, Producer)
    requires seat { IsSeatAt (sends_on sender.now) producer }
    requires producer { view producer ≡ keeping [] (view producer).out [] }
    ensures seat { IsSeatAt (sends_on sender.now) result.1 }
    ensures fed { FedAndStopped (λ tickets. T.gave feeding.source tickets result.0) (view producer) (view result.1) }
{
    feed_named::<T, Brand, R>(rt, sender, producer, feeding)
}

/// What a round comes to, but for its workers.
#[derive(Drop)]
pub(crate) struct Served<L> {
    /// What is left of the source of its tickets.
    pub(crate) left: L,
    /// The producer of its queue.
    pub(crate) producer: Producer,
    /// What the workers came to.
    pub(crate) tally: Tally,
}

/// Makes a thread for each of the workers that are left, the last first, feeds them, and joins the threads.
pub(crate) fn serve<
    's,
    E,
    T: TicketSource,
    S: Store + Send + Drop + 's,
    Q: Runner + Send + Drop + 's,
    N: Reports + 's,
    R: Threads + Wait + Sync,
>(
    rt: &'s R,
    scope: &Scope<'s, E>,
    shared: Shared<'s, N>,
    mut producer: Producer,
    workers: &mut Workers<S, Q>,
    feeding: Feeding<T>,
) -> Served<T::Left>
    requires queue { receives_on shared.receiver.now ≡ sends_on shared.sender.now }
    requires seat { IsSeatAt (sends_on shared.sender.now) producer }
    requires producer { view producer ≡ keeping [] (view producer).out [] }
    requires room { vec_len workers.old.done + vec_len workers.old.left ≤ vec_capacity workers.old.done }
    ensures seat { IsSeatAt (sends_on shared.entry.sender.now) result.producer }
    ensures capacity { vec_capacity workers.new.done ≡ vec_capacity workers.old.done }
    ensures len { vec_len workers.new.done ≡ vec_len workers.old.done + vec_len workers.old.left }
    ensures serves { Serves S.called S.asked Q.gives (λ tickets. T.gave feeding.source tickets result.left)
        workers.old.left.items workers.old.done.items workers.new.done.items
        (view producer) (view result.producer) result.tally }
{
    let place = workers.left.len();
    let Some(worker) = workers.left.pop() else {
        let (left, producer) = feed(rt, shared.sender, producer, feeding);
        return Served {
            left,
            producer,
            tally: Tally::new(),
        };
    };
    let consumer = give_out(shared.sender, &mut producer);
    let started = start(rt, scope, shared, place, worker, consumer);
    let Feeding { source, threads } = feeding;
    let threads = if started.is_ok() {
        threads.saturating_add(1)
    } else {
        threads
    };
    let Served {
        left,
        mut producer,
        tally,
    } = serve(
        rt,
        scope,
        shared,
        producer,
        workers,
        Feeding { source, threads },
    );
    let (back, tally) = finish(rt, started, tally);
    let Back {
        worker,
        consumer,
        ..
    } = back;
    take_back(shared.sender, &mut producer, consumer);
    workers.done.push_reserved(worker);
    Served {
        left,
        producer,
        tally,
    }
}
