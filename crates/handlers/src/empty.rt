//! The state before the first event.

ghost use Rattle.std.specs.Prelude.{◌≡◌, IfOk, IfErr, [], true, vec_len, All};
ghost use Rattle.model.specs.declared.refusal.Refusal.TheVariants.{Memory};
ghost use Rattle.model.specs.Worlds.{are_users, nothing};
ghost use Rattle.handlers.specs.Sound.{IsEmpty};
ghost use Rattle.handlers.specs.Parts.{world_in};
ghost use Rattle.handlers.specs.States.{parts_of};

use crate::state::State;
use jobs::Jobs;
use model::Refusal;
use realise::{Desk, Limits};
use std::alloc::Global;
use std::hash::RandomState;
use store::Table;
use trust::{Trust, User, Users};

/// Empty desks, so many of them.
fn empty_desks(alloc: Global, hashing: RandomState, count: usize) -> Result<Vec<Desk>, Refusal>
    ensures value { IfOk result (λ desks. (All IsEmpty desks.items) × (vec_len desks ≡ count)) }
    ensures memory { IfErr result (λ e. e ≡ Memory) }
{
    let mut desks = Vec::with_capacity(alloc, count)?;
    for _desk in 0..count {
        desks.push(Desk::new(alloc, hashing))?;
    }
    Ok(desks)
}

impl State {
    /// That of users who are well-formed: nobody trusts another, desks are empty, there are no goals, and
    /// nothing is stored. `hashing` has the keys of the hashers.
    ///
    /// # Errors
    ///
    /// - `Memory` only where memory was refused.
    pub fn empty(
        alloc: Global,
        hashing: RandomState,
        users: Vec<User>,
        limits: Limits,
    ) -> Result<State, Refusal>
        requires { are_users users.items ≡ true }
        ensures users { IfOk result (λ state. state.users ≡ users.items) }
        ensures limits { IfOk result (λ state. state.limits ≡ limits) }
        ensures world { IfOk result (λ state. world_in (parts_of state) ≡ nothing) }
        ensures stored { IfOk result (λ state. state.table.sources ≡ []) }
        ensures memory { IfErr result (λ e. e ≡ Memory) }
    {
        let jobs = Jobs::new(alloc, hashing, users.as_slice())?;
        let desks = empty_desks(alloc, hashing, users.len())?;
        let users = Users::new(alloc, users)?;
        Ok(State {
            users,
            trust: Trust::new(),
            jobs,
            desks,
            table: Table::new(alloc, hashing),
            limits,
        })
    }
}
