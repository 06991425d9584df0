//! Building: workers have goals built, and processes build their jobs.
//!
//! | Calls | What they do |
//! |---|---|
//! | [`round`] | hands the tickets of a source to workers, each in a thread of its own, and gives the workers back |
//! | [`ProcessRunner::new`] | makes a runner that starts a process for each job |
//!
//! A worker is a [`Store`] that it hands events to, and a [`Runner`] that builds. What it does for a
//! ticket is said by `specs/Working.antt`, and what a round comes to by `specs/Rounds.antt`.
//!
//! A process is started for the resolved text of a job, with the arguments and the variables of that text, the
//! path of its output in `out`, and in `INPUTS` the name of a file with its inputs. What it writes to
//! standard output is what the job gives, and what it writes to standard error goes into a log, or is dropped.
//! Files and processes are reached through [`Outside`].
#![tactic(auto)]

mod command;
mod deadline;
mod ending;
mod fault;
mod inputs;
mod launching;
mod log;
mod meaning;
mod met;
mod output;
mod outside;
mod preparing;
mod processes;
mod putting;
mod queue;
mod reports;
mod rounds;
mod runner;
mod serving;
mod shared;
mod source;
mod store;
mod system;
mod tally;
mod tasks;
mod thread;
mod ticket;
mod worker;
mod written;

pub use command::Streams;
pub use fault::{Explains, Fault};
pub use launching::launcher;
pub use log::{Log, Logged, Tail};
pub use met::Met;
pub use outside::Outside;
pub use preparing::{Folders, Settings};
pub use processes::ProcessRunner;
pub use reports::Reports;
pub use rounds::{Hands, RoundEnd, round};
pub use runner::{RunFault, Runner};
pub use source::{QueueId, TicketQueue, TicketSource};
pub use store::Store;
pub use system::System;
pub use ticket::Ticket;
pub use worker::Worker;
pub use written::Written;
