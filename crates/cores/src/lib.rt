//! Two cores of one run, shown in turn: the one that is not shown takes the next event.
//!
//! [`Cores::take`] has it take what it lacks of the other, and then the event; then it is the one that is
//! shown. Whoever shows a core shares it, and it is not changed as long as somebody has it.
#![tactic(auto)]

mod cores;
mod lag;

pub use cores::{Asked, Cores, event_again};
pub use lag::Lag;
