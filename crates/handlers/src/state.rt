//! The state of a store.

ghost use Rattle.std.specs.Prelude.{◌≡◌};
ghost use Rattle.std.specs.Coded.{codes};
ghost use Rattle.std.proofs.Props.{props};
ghost use Rattle.model.specs.TreeCode.{tree_code};
ghost use Rattle.trust.specs.Trusting.{trusts};
ghost use Rattle.handlers.specs.Parts.{parts};
ghost use Rattle.handlers.specs.Runs.{IsRun};

use jobs::Jobs;
use realise::{Desk, Limits};
use store::Table;
use trust::{Trust, Users};

/// The state of a store: its users, whom they trust, their goals, a desk for each of them in their order,
/// the trees that are stored, and the limits of the desks.
///
/// Whoever changes a field keeps what the state promises of all of them (`run`, `owned`).
pub struct State {
    /// The users.
    pub users: Users,
    /// Whom they trust, by their places.
    pub trust: Trust,
    /// Their goals.
    pub jobs: Jobs,
    /// A desk for each.
    pub desks: Vec<Desk>,
    /// The trees that are stored, each once, by their paths.
    pub table: Table,
    /// The limits of each desk.
    pub limits: Limits,
    pub ghost run: { IsRun (parts users limits.charge (trusts trust) jobs.goals table.sources desks.items) } by { Prim.hlevel (props, codes, tree_code) },
    pub ghost owned: { jobs.users ≡ users },
}

impl Drop for State {
    fn drop(self) {
        let State {
            users: _,
            trust: _,
            jobs: _,
            desks: _,
            table: _,
            limits: _,
        } = self;
    }
}
