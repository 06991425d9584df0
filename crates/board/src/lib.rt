//! The scheduler's board: how far the goals of all sessions of a program are, which of them is built next, and when a
//! wait is over.
//!
//! | Name | What it is |
//! |---|---|
//! | [`Board`] | the board that all sessions share, under one lock |
//! | [`NamedBoard`] | what lies under it, in the names of users, goals and classes |
//! | [`Wanted`], [`GoalName`], [`Outlook`], [`Task`] | what a session says of a goal, and what it is to do |
//! | [`Classes`], [`Numbers`], [`Known`] | the topics and the places that have these names |
//! | [`BoardState`], [`Step`], [`Next`] | the board by places and topics |
//! | [`Goals`], [`Topic`] | the goals, and who is woken by what; and the search along the chains of hanging-on |
//! | [`Table`], [`Seat`], [`Row`], [`Woken`] | the goals in one table, and what each session has of them |
//! | [`Goal`], [`Stage`], [`Asked`] | a goal, how far it is, and how it comes on the board |
//! | [`Ready`], [`Grant`], [`Crew`] | the goals that can be built, who is next, and the workers of sessions |
//! | [`Lane`], [`Claim`] | the goals of one user in one session that can be built, and what counts for their turn |
//! | [`Permits`], [`Share`] | how many builders run, and for whom |
#![tactic(auto)]

mod chain;
mod goals;
mod lane;
mod named;
mod names;
mod permits;
mod ready;
mod row;
mod search;
mod shared;
mod stage;
mod state;
mod table;
mod waking;
mod woken;

pub use goals::{Goals, Topic};
pub use lane::{Claim, Lane};
pub use named::{GoalName, NamedBoard, Outlook, Task, Wanted};
pub use names::{Classes, Known, Numbers};
pub use permits::{Permits, Share};
pub use ready::{Crew, Grant, Ready};
pub use row::Row;
pub use shared::Board;
pub use stage::{Asked, Goal, Stage};
pub use state::{BoardState, Next, Step};
pub use table::{Seat, Table};
pub use woken::Woken;
