//! A history that outlives its process: a file of rows that only grows, each of which is a line.
//!
//! | Name | What it is |
//! |---|---|
//! | [`Journal`] | a history in a file: [`Journal::append`] puts a [`Group`] of rows and its seal on the disk, all of it or nothing |
//! | [`Opening`] | opens what a crash left: reads it, [`Part`] by [`Part`], looks at each seal, and shuts it |
//! | [`is_event`] | whether a text may be a row of a group |
//! | [`rows_are_lines`] | what the lines of such a file are |
//! | [`histories_are_opened`] | that what a journal keeps is not refused |
//! | [`LogFile`] | what is asked of a file, and what a crash may leave of it |
//! | [`Place`], [`SystemFile`] | the names of a history; a file of the system, of which nothing is known |
//! | [`MemoryLogFile`] | a file in memory |
//! | [`RowFile`], [`Rows`], [`Reading`] | below them: rows without header and seals |
#![tactic(auto)]

mod cutting;
mod group;
mod journal;
mod laws;
mod log_file;
mod memory;
mod opening;
mod pieces;
mod place;
mod reading;
mod row_file;
mod rows;
mod seal;
mod synced;
mod system_file;
mod text_digest;
mod window;

pub use group::{Group, is_event};
pub use journal::Journal;
pub use laws::histories_are_opened;
pub use log_file::{LogError, LogFile};
pub use memory::MemoryLogFile;
pub use opening::{OpenError, Opening, Part};
pub use place::{Place, PlaceError};
pub use reading::Reading;
pub use row_file::{RowFile, rows_are_lines};
pub use rows::Rows;
pub use system_file::SystemFile;
