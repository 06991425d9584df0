//! Sessions: the lines of an input, the events that they make, and the text of the replies.
//!
//! | Calls | What they do |
//! |---|---|
//! | [`Session::line`] | answers one line: gives what is printed for it |
//! | [`Session::read`], [`Session::answer`] | the same in two steps: what the line comes to, and what is printed for that |
//! | [`serve`] | answers the lines of a reader, and writes what is printed, and flushes it before more is read |
//! | [`serve_behind`] | the same for a reader of which some was read ahead, but for the flush |
//! | [`serve_head`] | answers the first lines of a reader, up to the one that names the users |
//! | [`serve_on`] | answers the lines behind those |
//! | [`serve_whole_lines`] | the same for bytes of which more was to come |
//! | [`write_whole`] | writes all of a text |
//! | [`flush_after`] | shows what was written, and says how it ended |
//! | [`next_line`] | takes the next line of a reader |
//! | [`read_ahead`] | finds the users of an input, and keeps what was read |
//! | [`look_ahead`] | the same, and looks whether the first line that gets a reply is the one that names them |
//! | [`Counted`] | counts the failures of a reader or a writer |
//!
//! What a line is, which row it gets and what is printed for it is said by the definitions of the
//! crate `model`; whoever answers the events, and waits for the goals, is an [`Answer`]. A [`Mode`] says
//! which lines there are.
#![tactic(auto)]

mod ahead;
mod answer;
mod asking;
mod counted;
mod head;
mod input_head;
mod serving;
mod session;
mod streams;
mod taking;

pub use ahead::{Ahead, read_ahead};
pub use answer::{Answer, NoUsers};
pub use asking::{Answered, ask, wait};
pub use counted::Counted;
pub use events::GoalId;
pub use head::{Head, serve_head, users_of};
pub use input_head::{InputHead, look_ahead};
pub use lines::{Printed, Reading, answer_text};
pub use model::Mode;
pub use nar::{Faults, write_whole};
pub use serving::{Begun, serve, serve_behind, serve_on, serve_whole_lines};
pub use session::Session;
pub use streams::flush_after;
pub use taking::next_line;
