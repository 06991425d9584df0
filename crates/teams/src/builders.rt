//! Who builds for a session.

ghost use Rattle.std.specs.Prelude.{◌≡◌, ◌++◌, ◌∷◌, [], List, true, false, IfErr};
ghost use Rattle.builder.specs.declared.ticket.Ticket.{Ticket};
ghost use Rattle.model.specs.declared.refusal.Refusal.TheVariants.{Memory};
ghost use Rattle.teams.specs.Sessions.{ticket_for, PutsFor};

use crate::ended_tickets::{Ended, EndedTickets};
use crate::scheduler::Scheduler;
use board::{GoalName, Wanted};
use builder::{Met, QueueId, TicketQueue};
use indexmap::{IndexMap, IndexSet};
use jobs::{Next, Outlook};
use model::Refusal;
use session::GoalId;
use std::alloc::{AllocError, Global};
use std::marker::Model;
use std::sync::Wait;

/// What a session knows of its goals that are on the board.
#[derive(Drop)]
pub(crate) struct Waiting {
    /// The seat of the session.
    pub(crate) seat: usize,
    /// How many threads take tickets.
    pub(crate) threads: usize,
    /// The place of each goal that is on the board among the goals of the session, by a number for its name.
    places: IndexMap<u64, usize>,
    /// How many of the goals of the session were looked at to see whether they are to be on the board.
    pub(crate) known: usize,
    /// Those that are to be on the board when the session waits next.
    pub(crate) wanted: Vec<Wanted>,
    /// The places of those for which a ticket was put in this wait.
    tried: IndexSet<usize>,
    /// A user whose goal could have been built after its ticket as before, in this wait or an earlier one.
    pub(crate) refused: Option<usize>,
    /// How many tickets were put that workers have not ended with.
    pub(crate) in_work: usize,
    /// What workers met in this wait.
    pub(crate) met: Met,
}

/// A number for the name of a goal.
fn key_of(name: GoalName) -> u64 {
    (name.user as u64)
        .wrapping_mul(1 << 32)
        .wrapping_add(name.number)
}

impl Waiting {
    /// A session at a seat, none of whose goals is on the board, with so many threads.
    pub(crate) fn new(alloc: Global, seat: usize, threads: usize) -> Waiting {
        Waiting {
            seat,
            threads,
            places: IndexMap::new(alloc),
            known: 0,
            wanted: Vec::new(alloc),
            tried: IndexSet::new(alloc),
            refused: None,
            in_work: 0,
            met: Met {
                memory: false,
                stopped: false,
            },
        }
    }

    /// A wait begins.
    pub(crate) fn begin(&mut self, alloc: Global) {
        self.tried = IndexSet::new(alloc);
        self.met = Met {
            memory: false,
            stopped: false,
        };
    }

    /// The goal at a place among the goals of the session is to be on the board.
    pub(crate) fn add(&mut self, place: usize, wanted: Wanted) -> Result<(), AllocError> {
        let _before = self.places.insert(key_of(wanted.name), place)?;
        self.wanted.push(wanted)?;
        Ok(())
    }

    /// The place of a goal among the goals of the session.
    pub(crate) fn place_of(&self, name: GoalName) -> Option<usize> {
        self.places.get(&key_of(name)).copied()
    }

    /// How a goal at a place may go on, to the board. One that could be built after its ticket as before waits until its
    /// class comes.
    ///
    /// # Errors
    ///
    /// - `Memory` only where it could be built and there is no thread that builds.
    pub(crate) fn judge(
        &mut self,
        name: GoalName,
        place: usize,
        outlook: Outlook,
    ) -> Result<Outlook, Refusal>
        ensures { IfErr result (λ why. why ≡ Memory) }
    {
        let Outlook {
            class,
            next,
            reached,
        } = outlook;
        let next = match (next, &class) {
            (Next::Ready, _) if self.threads == 0 => return Err(Refusal::Memory),
            (Next::Ready, Some(own)) if self.tried.contains(&place) => {
                self.refused = Some(name.user);
                Next::Lacks(own.clone()?)
            }
            (next, _) => next,
        };
        Ok(Outlook {
            class,
            next,
            reached,
        })
    }

    /// Whether a worker has met 90 or 92 in this wait.
    pub(crate) fn has_met(&self) -> bool {
        self.met.memory || self.met.stopped
    }

    /// Waits until workers have ended with all tickets that were put.
    pub(crate) fn wait_for_all<R: Wait>(&mut self, rt: &R, ended: &EndedTickets) {
        for _ in rt.forever() {
            if self.in_work == 0 {
                return;
            }
            self.hear(ended.wait_for_one(rt));
        }
    }

    /// Workers have ended with tickets.
    pub(crate) fn hear(&mut self, ended: Ended) {
        self.in_work = self.in_work.saturating_sub(ended.tickets);
        self.met.memory |= ended.met.memory;
        self.met.stopped |= ended.met.stopped;
    }

    /// A ticket was put for the goal at a place.
    fn try_one(&mut self, place: usize) {
        self.in_work = self.in_work.saturating_add(1);
        if self.tried.insert(place).is_err() {
            self.met.memory = true;
        }
    }
}

/// Who builds for a session: the queue from which its workers take tickets.
#[derive(Drop)]
pub(crate) struct Builders<'a, 'q, B: QueueId> {
    /// What is built next, for all sessions.
    pub(crate) scheduler: &'a Scheduler,
    /// Where its workers tell which tickets they have ended with.
    pub(crate) ended: &'a EndedTickets,
    /// What it knows of its goals.
    pub(crate) waiting: Waiting,
    /// Where tickets are put.
    pub(crate) queue: TicketQueue<'q, B>,
    /// Whether a wait was told that a worker met 90.
    pub(crate) has_told: bool,
}

/// Contracts see the tickets that were put, and whether a wait was told 90.
impl<'a, 'q, B: QueueId> Model for Builders<'a, 'q, B> {
    ghost use Rattle.teams.specs.Sessions.{Handed};

    ghost Value = { Handed };

    ghost view = { λ b. record { put = b.queue; has_told = b.has_told } };
}

/// Puts a ticket for a goal. Whether that was put: there may be no memory for it.
fn put_one<B: QueueId, R: Wait>(rt: &R, queue: &mut TicketQueue<'_, B>, goal: &GoalId) -> bool
    ensures put { result ≡ true → queue.new ≡ queue.old ++ ticket_for goal.now ∷ [] }
    ensures none { result ≡ false → queue.new ≡ queue.old }
{
    let Ok(user) = goal.leader().clone() else {
        return false;
    };
    queue.put(rt, user, goal.number())
}

/// Puts a ticket for the goal to which the board gave a builder, if it is one of these. Where there is no memory, the
/// builder is given back.
pub(crate) fn put_ticket<B: QueueId, R: Wait>(
    rt: &R,
    scheduler: &Scheduler,
    waiting: &mut Waiting,
    queue: &mut TicketQueue<'_, B>,
    goals: &[GoalId],
    name: GoalName,
)
    ensures { PutsFor goals.now queue.old queue.new }
{
    let Some(place) = waiting.place_of(name) else {
        waiting.met.memory = true;
        return;
    };
    if place >= goals.len() {
        waiting.met.memory = true;
        return;
    }
    let goal = &goals[place];
    if put_one(rt, queue, goal) {
        waiting.try_one(place);
    } else {
        waiting.met.memory = true;
        scheduler.ended(rt, goal.leader(), goal.number());
    }
}
