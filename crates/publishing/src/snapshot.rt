//! What readers see.

ghost use Rattle.std.specs.Prelude.{◌≡◌, IfOk, IfErr};
ghost use Rattle.std.specs.Arc.{arc_value};
ghost use Rattle.schedule.specs.Standing.{setup_of};
ghost use Rattle.schedule.specs.Queries.{event_for};
ghost use Rattle.events.specs.Terms.{event_of};
ghost use Rattle.model.specs.declared.refusal.Refusal.TheVariants.{Memory};
ghost use Rattle.publishing.specs.Following.{Follows, FindsRead, IsNeedAfter, IsOutlookAfter};
ghost use Rattle.publishing.specs.FrontNames.{setup_in};
ghost use Rattle.publishing.specs.Showing.{showing};

use crate::law::Shown;
use closure_laws::closures_are_good;
use history::HistoryPrefix;
use left_right::Absorb;
use model::Refusal;
use schedule::{Core, Outlook, Preparation, PrepareInput, Query, ReadResult, User};
use std::alloc::{AllocError, Global};
use std::marker::Model;
use std::sync::Arc;

/// A core that has taken the events of all rows up to a moment, with these rows. Who publishes it shares the
/// core, which nobody changes as long as a snapshot has it. Contracts see the core, the rows of the history
/// that were published with it, and what it is a snapshot of.
pub struct Snapshot {
    core: Arc<Core>,
    seen: HistoryPrefix,
    /// Whether the next [`Operation::Wait`] is let through.
    waited: bool,
    alloc: Global,
}

impl Drop for Snapshot {
    fn drop(self) {
        let Snapshot {
            core: _,
            seen: _,
            waited: _,
            alloc: _,
        } = self;
    }
}

impl Model for Snapshot {
    ghost use Rattle.std.specs.Arc.{arc_value};
    ghost use Rattle.schedule.specs.Standing.{setup_of};
    ghost use Rattle.publishing.specs.declared.law.Shown.{Shown};
    ghost use Rattle.publishing.specs.Following.{Follows};
    ghost use Rattle.publishing.specs.Showing.{showing};

    ghost Value = { Shown };

    ghost use Rattle.std.specs.Coded.{codes};
    ghost use Rattle.model.specs.TreeCode.{tree_code};
    ghost use Rattle.indexmap.specs.Layout.{hash_map_code};

    ghost coded = { Prim.hlevel (codes, tree_code, hash_map_code) };

    ghost view = { λ s. showing (arc_value s.core) s.seen.seen.book s.seen.seen.log };

    ghost invariant = { λ s. Follows (setup_of (arc_value s.core)) (arc_value s.core) s.seen.seen.log };
}

/// What is published.
#[derive(Drop)]
pub enum Operation {
    /// A snapshot in the place of what is shown.
    Show(Snapshot),
    /// Nothing. At first it is refused, so that the copy which is not shown takes in what it lacks, and lets go
    /// of the core that it had, while readers go on to see what they saw.
    Wait,
}

impl Absorb<Operation> for Snapshot {
    ghost use Rattle.publishing.specs.Tied.{absorbed};

    type State = Shown;

    ghost state = { λ s. s };

    ghost applied = { absorbed };

    fn absorb_first(&mut self, operation: &Operation, _other: &Snapshot) -> Result<(), AllocError> {
        match operation {
            Operation::Show(next) => {
                *self = next.share()?;
                Ok(())
            }
            Operation::Wait => self.wait(),
        }
    }

    fn absorb_second(&mut self, operation: Operation, _other: &Snapshot) -> Result<(), Operation> {
        if let Operation::Show(next) = operation {
            *self = next;
        }
        Ok(())
    }
}

impl Snapshot {
    /// A snapshot of a core that has taken the events of these rows.
    pub fn new(alloc: Global, core: Arc<Core>, seen: HistoryPrefix) -> Snapshot
        requires { Follows (setup_of (arc_value core)) (arc_value core) seen.seen.log }
        ensures { result ≡ showing (arc_value core) seen.seen.book seen.seen.log }
    {
        Snapshot {
            core,
            seen,
            waited: false,
            alloc,
        }
    }

    /// A copy, which shares the core. It takes no memory; it fails only where there are 2^63 - 1 copies.
    fn share(&self) -> Result<Snapshot, AllocError>
        ensures { IfOk result (λ copy. copy ≡ self.now) }
    {
        Ok(Snapshot {
            core: Arc::try_clone(&self.core)?,
            seen: self.seen.clone(),
            waited: false,
            alloc: self.alloc,
        })
    }

    /// Fails each first time, and changes nothing that is shown.
    fn wait(&mut self) -> Result<(), AllocError>
        ensures { self.new ≡ self.old }
    {
        self.waited = !self.waited;
        if self.waited { Err(AllocError) } else { Ok(()) }
    }

    /// Looks for what is only read after the rows. Whatever reply is served of it is one to the query then.
    pub fn look(&self, query: &Query) -> ReadResult
        ensures { FindsRead (setup_in self.now.name) self.now.seen (event_for query.now) result }
    {
        closures_are_good();
        self.core.look(self.alloc, query)
    }

    /// What an event needs to be made after the rows. The one error is memory.
    pub fn need(&self, preparation: Preparation<'_>) -> Result<PrepareInput, Refusal>
        ensures need { IfOk result (IsNeedAfter
            (setup_in self.now.name) self.now.seen (event_of preparation.entry.event.now)) }
        ensures memory { IfErr result (λ why. why ≡ Memory) }
    {
        self.core.need(self.alloc, preparation)
    }

    /// How a user's goal of a number may go on after the rows.
    pub fn outlook(&self, user: &User, number: u16) -> Result<Outlook, Refusal>
        ensures { IsOutlookAfter (setup_in self.now.name) self.now.seen user.now number result }
    {
        self.core.outlook(self.alloc, user, number)
    }

    /// The rows of the history that were published with it.
    pub fn seen(&self) -> HistoryPrefix
        ensures log { result.seen.log ≡ self.now.seen }
        ensures book { (result.seen.book.number ≡ self.now.name.number)
            × (result.seen.book.log_name ≡ self.now.name.log_name)
            × (result.seen.book.cells_name ≡ self.now.name.cells_name) }
    {
        self.seen.clone()
    }
}
