//! The queue of tickets, and its ends: the producer, who puts them, and the consumers, who take them.
//!
//! The producer keeps the queue: he puts tickets, and gives out the consumers' ends. The rule of the
//! queue says that the tickets taken, in the order in which they were taken, and then those in the
//! queue are those put; and what each consumer took are those of the tickets taken that are his own.

ghost use Rattle.std.specs.Prelude.{◌≡◌, ◌+◌, ◌++◌, ◌∷◌, [], true, List, IfOk, MatchResult, MatchOption};
ghost use Rattle.crossbeam_channel.specs.Claims.{view, IsSeatAt};
ghost use Rattle.crossbeam_channel.specs.Ends.{sends_on, receives_on, ruled_capacity};
ghost use Rattle.builder.specs.Queue.{producer as keeping, consumer as taking, Puts, Takes, Told};
ghost use Rattle.builder.specs.declared.ticket.Ticket.{Ticket};

use crate::ticket::Ticket;
use crossbeam_channel::protocol::{Join, Lesson, Outcome, Protocol, Split};
use crossbeam_channel::{Pass, RuledReceiver, RuledSender, bounded_with};
use std::alloc::{AllocError, Global};
use std::collections::LinkedList;
use std::sync::Wait;

/// The places of the queue.
pub(crate) const PLACES: usize = 64;

/// What an end of the queue knows. It is part of what a token knows, and no value of it is made.
pub(crate) struct QueueEnd {
    /// Whether it keeps the queue.
    pub keeps: bool,
    /// The tickets that were put, if it does.
    pub put: LinkedList<Ticket>,
    /// How many ends are out, if it does.
    pub out: u64,
    /// What the ends that came back took, if it does: the last given out stands last.
    pub back: LinkedList<LinkedList<Ticket>>,
    /// Whether it takes tickets.
    pub takes: bool,
    /// Its number, if it does.
    pub number: u64,
    /// What it took, if it does.
    pub taken: LinkedList<Ticket>,
}

/// The rule of the queue.
pub(crate) struct InOrder;

impl Protocol<Ticket, QueueEnd> for InOrder {
    ghost use Rattle.std.specs.Prelude.{[]};
    ghost use Rattle.builder.specs.Queue.{producer, HandsOn};

    ghost holds = { HandsOn };

    ghost first = { producer [] 0 [] };
}

/// The producer puts a ticket.
struct OnePut;

impl Outcome<Ticket, QueueEnd> for OnePut {
    ghost use Rattle.builder.specs.Queue.{Puts};

    ghost then = { Puts };
}

impl Lesson<Ticket, QueueEnd> for OnePut {
    ghost fact = { λ v items. Unit {0} };
}

/// A consumer takes a ticket.
struct OneTaken;

impl Outcome<Ticket, QueueEnd> for OneTaken {
    ghost use Rattle.builder.specs.Queue.{Takes};

    ghost then = { Takes };
}

impl Lesson<Ticket, QueueEnd> for OneTaken {
    ghost fact = { λ v items. Unit {0} };
}

/// The producer gives out a consumer's end.
struct GivenOut;

impl Split<QueueEnd> for GivenOut {
    ghost use Rattle.std.specs.Prelude.{◌+◌, []};
    ghost use Rattle.builder.specs.Queue.{producer, consumer};

    ghost left = { λ v. producer v.put (v.out + 1) v.back };

    ghost right = { λ v. consumer v.out [] };
}

/// A consumer's end comes back to the producer.
struct ComesBack;

impl Join<QueueEnd> for ComesBack {
    ghost use Rattle.std.specs.Prelude.{◌∷◌};
    ghost use Rattle.builder.specs.Queue.{producer, idle};

    ghost both = { λ v w. producer v.put w.number (w.taken ∷ v.back) };

    ghost spent = { idle };
}

/// What the producer knows of the tickets that were taken.
struct Counting;

impl Lesson<Ticket, QueueEnd> for Counting {
    ghost use Rattle.builder.specs.Queue.{Told};

    ghost fact = { Told };
}

/// Where tickets are put.
pub(crate) type Sender = RuledSender<Ticket, QueueEnd, InOrder>;

/// Where tickets are taken.
pub(crate) type Receiver = RuledReceiver<Ticket, QueueEnd, InOrder>;

/// The token of the producer.
pub(crate) type Producer = Pass<Ticket, QueueEnd>;

/// The token of an end that takes tickets.
pub(crate) type Consumer = Pass<Ticket, QueueEnd>;

/// A queue of 64 places in which no ticket was put, and its producer. The one error is memory.
pub(crate) fn ticket_queue(alloc: Global) -> Result<(Sender, Receiver, Producer), AllocError>
    ensures ends { IfOk result (λ r. receives_on r.1 ≡ sends_on r.0) }
    ensures places { IfOk result (λ r. ruled_capacity (sends_on r.0) ≡ 64) }
    ensures producer { IfOk result (λ r. IsSeatAt (sends_on r.0) r.2 × (view r.2 ≡ keeping [] 0 [])) }
{
    bounded_with::<Ticket, QueueEnd, InOrder, Global>(alloc, PLACES)
}

/// Puts a ticket. It waits while the queue is full.
///
/// # Errors
///
/// - The ticket, where the queue hands it back.
pub(crate) fn put<R: Wait>(
    rt: &R,
    sender: &Sender,
    producer: &mut Producer,
    ticket: Ticket,
) -> Result<(), Ticket>
    requires seat { IsSeatAt (sends_on sender.now) producer.old }
    requires keeps { (view producer.old).keeps ≡ true }
    ensures seat { IsSeatAt (sends_on sender.now) producer.new }
    ensures put { MatchResult result (λ _. Puts (view producer.old) ticket (view producer.new))
        (λ back. (back ≡ ticket) × (view producer.new ≡ view producer.old)) }
{
    match sender.send_as::<OnePut, R>(rt, producer, ticket) {
        Ok(()) => Ok(()),
        Err(e) => Err(e.into_inner()),
    }
}

/// Takes a ticket. It waits while the queue is empty. There is none where the queue is closed.
pub(crate) fn take<R: Wait>(rt: &R, receiver: &Receiver, consumer: &mut Consumer) -> Option<Ticket>
    requires seat { IsSeatAt (receives_on receiver.now) consumer.old }
    requires takes { (view consumer.old).takes ≡ true }
    ensures seat { IsSeatAt (receives_on receiver.now) consumer.new }
    ensures took { MatchOption result (view consumer.new ≡ view consumer.old)
        (λ ticket. Takes (view consumer.old) ticket (view consumer.new)) }
{
    match receiver.recv_as::<OneTaken, R>(rt, consumer) {
        Ok(ticket) => Some(ticket),
        Err(_) => None,
    }
}

/// Gives out a consumer's end. None has come back yet.
pub(crate) fn give_out(sender: &Sender, producer: &mut Producer) -> Consumer
    requires seat { IsSeatAt (sends_on sender.now) producer.old }
    requires keeps { (view producer.old).keeps ≡ true }
    requires none { (view producer.old).back ≡ [] }
    ensures seat { IsSeatAt (sends_on sender.now) producer.new × IsSeatAt (sends_on sender.now) result }
    ensures out { view producer.new ≡ keeping (view producer.old).put ((view producer.old).out + 1) (view producer.old).back }
    ensures consumer { view result ≡ taking (view producer.old).out [] }
{
    sender.another::<GivenOut>(producer)
}

/// Takes back the end that was given out last among those that are out.
pub(crate) fn take_back(sender: &Sender, producer: &mut Producer, consumer: Consumer)
    requires seats { IsSeatAt (sends_on sender.now) producer.old × IsSeatAt (sends_on sender.now) consumer }
    requires keeps { (view producer.old).keeps ≡ true }
    requires takes { (view consumer).takes ≡ true }
    requires last { (view consumer).number + 1 ≡ (view producer.old).out }
    ensures seat { IsSeatAt (sends_on sender.now) producer.new }
    ensures back { view producer.new ≡ keeping (view producer.old).put (view consumer).number
        ((view consumer).taken ∷ (view producer.old).back) }
{
    sender.absorb::<ComesBack>(producer, consumer);
}

/// The tickets that were taken, by the ends that took them, are a beginning of those put.
pub(crate) fn count(sender: &Sender, producer: &mut Producer)
    requires seat { IsSeatAt (sends_on sender.now) producer.old }
    requires keeps { (view producer.old).keeps ≡ true }
    ensures seat { IsSeatAt (sends_on sender.now) producer.new × (view producer.new ≡ view producer.old) }
    ensures told { (items : List Ticket) × Told (view producer.new) items }
{
    sender.learn_as::<Counting>(producer);
}
