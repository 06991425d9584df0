//! The goals of users, and the jobs in which goals are built together: which goal leads a job, what the
//! job is built from, and which of its goals are of those who reach its leader.
#![tactic(auto)]

mod ascending;
mod finished;
mod forgetting;
mod goal;
mod goals;
mod index;
mod indexes;
mod leader;
mod members;
mod outlook;
mod planners;
mod running;
mod same;
mod shared;
mod users;

pub use events::{Job, Status};
pub use goal::Goal;
pub use leader::leads;
pub use members::members_reached;
pub use outlook::{Next, Outlook};
pub use running::{RunningJob, led_job};
pub use users::Jobs;
