//! Where the tickets of a round come from.

ghost use Rattle.std.specs.Prelude.{◌≡◌, ◌++◌, ◌∷◌, List, [], true, false};
ghost use Rattle.crossbeam_channel.specs.Claims.{view, IsSeatAt};
ghost use Rattle.crossbeam_channel.specs.Ends.{sends_on};
ghost use Rattle.builder.specs.Queue.{producer as keeping};
ghost use Rattle.builder.specs.Tickets.{AreGoals};
ghost use Rattle.builder.specs.declared.ticket.Ticket.{Ticket};
ghost use Rattle.builder.specs.declared.ticket.Ticket.TheVariants.{Goal};

use crate::queue::{Producer, Sender, put};
use crate::ticket::Ticket;
use std::marker::{Brand, Model, PhantomData};
use std::sync::Wait;
use trust::User;

/// What names the queue of a round. It has no bytes, and exists in proofs alone. Each round picks it.
pub trait QueueId {
    ghost use Rattle.std.specs.Prelude.{ℕ};
    ghost use Rattle.atomic_table.specs.Seated.{TableId};
    ghost use Rattle.atomic_table.specs.declared.badge.Badge.{Badge};
    ghost use Rattle.crossbeam_channel.specs.declared.flavors.array.Key.{Key};
    ghost use Rattle.builder.specs.declared.ticket.Ticket.{Ticket};

    ghost table: { TableId };

    ghost key: { Badge (Key Ticket) };

    ghost out: { ℕ };
}

impl QueueId for Brand {
    ghost use Rattle.crossbeam_channel.specs.Claims.{no_key};
    ghost use Rattle.builder.specs.declared.ticket.Ticket.{Ticket};

    ghost table = { (no_key {X = Ticket}).table_id };

    ghost key = { no_key };

    ghost out = { 0 };
}

/// The queue of a round, to the source of its tickets.
#[derive(Drop)]
pub struct TicketQueue<'q, B: QueueId> {
    sender: &'q Sender,
    producer: Producer,
    of: PhantomData<B>,
}

/// Contracts see it as the tickets that were put into it, in their order. No Stop is among them.
impl<'q, B: QueueId> Model for TicketQueue<'q, B> {
    ghost use Rattle.std.specs.Prelude.{List};
    ghost use Rattle.crossbeam_channel.specs.Claims.{view as known_to};
    ghost use Rattle.crossbeam_channel.specs.Ends.{sends_on};
    ghost use Rattle.builder.specs.declared.ticket.Ticket.{Ticket};
    ghost use Rattle.builder.specs.Sources.{IsFilling};

    ghost Value = { List Ticket };

    ghost view = { λ q. (known_to q.producer).put };

    ghost invariant = { λ q. IsFilling B.table B.key B.out (sends_on q.sender.now) q.producer };
}

impl<'q, B: QueueId> TicketQueue<'q, B> {
    /// The queue of which this is the producer. No ticket was put into it.
    pub(crate) fn new(sender: &'q Sender, producer: Producer) -> TicketQueue<'q, B>
        requires seat { IsSeatAt (sends_on sender.now) producer }
        requires table { producer.table_id ≡ B.table }
        requires key { producer.me.0.of ≡ B.key }
        requires producer { view producer ≡ keeping [] B.out [] }
        ensures { result ≡ [] }
    {
        TicketQueue {
            sender,
            producer,
            of: PhantomData,
        }
    }

    /// Puts a ticket for a user's goal of that number. It waits while 64 are in the queue. Whether it was put: else
    /// the queue is as it was.
    pub fn put<R: Wait>(&mut self, rt: &R, user: User, number: u16) -> bool
        ensures put { result ≡ true → self.new ≡ self.old ++ Goal user number ∷ [] }
        ensures none { result ≡ false → self.new ≡ self.old }
    {
        let ticket = Ticket::Goal(user, number);
        put(rt, self.sender, &mut self.producer, ticket).is_ok()
    }

    /// The token of its producer.
    pub(crate) fn into_producer(self) -> Producer
        ensures table { result.table_id ≡ B.table }
        ensures key { result.me.0.of ≡ B.key }
        ensures free { result.me.1 ≡ [] }
        ensures producer { view result ≡ keeping self.entry B.out [] }
        ensures goals { AreGoals self.entry }
    {
        let TicketQueue {
            sender: _,
            producer,
            of: _,
        } = self;
        producer
    }
}

/// Where the tickets of a round come from.
pub trait TicketSource {
    ghost use Rattle.std.specs.Prelude.{List};
    ghost use Rattle.builder.specs.declared.ticket.Ticket.{Ticket};

    /// What is left of it when no ticket comes any more.
    type Left;

    /// Relates a source, the tickets that it put, in their order, and what is left of it.
    ghost gave: { Self → List Ticket → Self.Left → Type 0 };

    /// Puts tickets, which so many threads take meanwhile. It may wait; with no thread it is to put none. After it
    /// the workers end.
    fn feed<'q, B: QueueId, R: Wait>(
        self,
        rt: &R,
        threads: usize,
        queue: TicketQueue<'q, B>,
    ) -> (Self::Left, TicketQueue<'q, B>)
        requires empty { queue ≡ [] }
        ensures { gave self result.1 result.0 };
}
