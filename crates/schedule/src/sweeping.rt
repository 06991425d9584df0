//! Sweeping a core.

ghost use Rattle.std.specs.Prelude.{◌≡◌, ◌⊎◌, List, ℕ, true, length, bytes_eq, All, IfOk, IfErr, OnErr, OnOk};
ghost use Rattle.indexmap.specs.IndexSet.{contains};
ghost use Rattle.model.specs.declared.refusal.Refusal.TheVariants.{Memory, Stopped};
ghost use Rattle.store.specs.Stored.{kept_at};
ghost use Rattle.schedule.specs.Standing.{world_of, setup_of, stored_in, is_stopped, HasHashed, HoldsStored, KeepsStored};
ghost use Rattle.schedule.specs.Sweeping.{is_held, IsHolding};

use crate::holding::{hold_desks, hold_jobs};
use crate::state::Core;
use indexmap::IndexSet;
use model::Refusal;
use std::alloc::Global;
use std::hash::RandomState;
use storepath::StorePath;

impl Core {
    /// How many paths are stored, each once.
    pub fn stored(&self) -> u64
        ensures { result ≡ length (stored_in self.now) }
    {
        self.state.table.len() as u64
    }

    /// The paths that a desk holds, or that a goal keeps which is planned or is being built. The one error
    /// is memory.
    fn held(&self, alloc: Global) -> Result<IndexSet<StorePath, RandomState>, Refusal>
        ensures held { IfOk result (λ held. (path : List ℕ)
            → contains bytes_eq held path ≡ is_held self.now path) }
        ensures charged { OnOk result (All IsHolding self.now.state.desks.items) }
        ensures memory { IfErr result (λ e. e ≡ Memory) }
    {
        let mut held = IndexSet::with_hasher(alloc, self.state.table.hashing());
        hold_desks(&mut held, self.state.desks.as_slice())?;
        hold_jobs(&mut held, &self.state.jobs, self.state.desks.len())?;
        Ok(held)
    }

    /// Has the table keep the paths of a set, which are those that the core holds. It takes no memory.
    fn keep_held(&mut self, held: &IndexSet<StorePath, RandomState>)
        requires held { (path : List ℕ) → contains bytes_eq held.now path ≡ is_held self.old path }
        requires charged { All IsHolding self.old.state.desks.items }
        ensures stored { stored_in self.new ≡ kept_at (is_held self.old) (stored_in self.old) }
        ensures world { world_of self.new ≡ world_of self.old }
        ensures setup { setup_of self.new ≡ setup_of self.old }
    {
        self.state.table.sweep(held);
    }

    /// Has the table keep the paths that a desk holds, or that a goal keeps which is planned or is being
    /// built, with their trees, and no others. Desks, goals and whom users trust stay, and so does the
    /// world that the core stands for. It takes time by what is held and by what is stored.
    ///
    /// # Errors
    ///
    /// Nothing has changed then.
    ///
    /// - `Stopped` only where the core is stopped.
    /// - `Memory` only where memory was refused.
    pub fn sweep(&mut self, alloc: Global) -> Result<(), Refusal>
        ensures swept { OnOk result
            (stored_in self.new ≡ kept_at (is_held self.old) (stored_in self.old)) }
        ensures kept { OnErr result (stored_in self.new ≡ stored_in self.old) }
        ensures world { world_of self.new ≡ world_of self.old }
        ensures setup { setup_of self.new ≡ setup_of self.old }
        ensures hashed { (texts : List (List ℕ)) → HasHashed texts self.old → HasHashed texts self.new }
        ensures holds { HoldsStored self.new }
        ensures keeps { KeepsStored self.new }
        ensures refused { IfErr result (λ e. (e ≡ Memory)
            ⊎ ((e ≡ Stopped) × (is_stopped self.old ≡ true))) }
    {
        if self.stopped() {
            return Err(Refusal::Stopped);
        }
        let held = self.held(alloc)?;
        self.keep_held(&held);
        Ok(())
    }
}
