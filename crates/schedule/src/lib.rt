//! The store of one run: one table of trees for all users, and for each user a desk of his own.
//!
//! [`Core::step`] takes one event and gives its reply; [`run`] takes a whole list of events. What
//! both promise is said in the terms of the crate `model`: the store is as good as private desks.
#![tactic(auto)]

mod holding;
mod preparation;
mod preparing;
mod query;
mod read_result;
mod reads;
mod requests;
mod running;
mod runs;
mod state;
mod step;
mod sweeping;
mod work;

pub use events::{CopiedReply, Event, Output, Reply, Request, strike, strike_timed};
pub use jobs::{Next, Outlook, RunningJob};
pub use model::LARGEST_CHARGE;
pub use preparation::Preparation;
pub use preparing::PrepareInput;
pub use query::{Query, Question};
pub use read_result::ReadResult;
pub use realise::Limits;
pub use repair::Cache;
pub use runs::run;
pub use state::Core;
pub use trust::{User, are_users};
pub use work::Ready;
