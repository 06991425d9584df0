//! The state of a store, which handlers take, what the handler of a request promises, whichever it is, and what
//! several of them do: they look at the desks that a user sees, and copy entries to a desk.
//!
//! With it stand the requests on desks: sources, derivations, offers, trust and pins, which read and change the desk of
//! their user alone, or whom he trusts; closures, and taking them, which read all that he sees. A closure
//! is planned by what the user sees, and then served of the plan alone.
#![tactic(auto)]

mod copying;
mod derivations;
mod empty;
mod entries;
mod given;
mod offers;
mod pins;
mod planned;
mod sources;
mod state;
mod taking;
mod trusting;
mod view;

pub use copying::{copy_all, copy_with, trees_of};
pub use derivations::{add_derivation, derivation_in, input_for_derivation};
pub use given::{closure, plan_for, plan_for_take, serve_plan};
pub use offers::{input_for_offer, offer};
pub use pins::{pin, unpin};
pub use planned::plan_or_none;
pub use sources::{add_source, fetch};
pub use state::State;
pub use taking::take;
pub use trusting::{add_trust, remove_trust};
pub use view::desks_in_view;
