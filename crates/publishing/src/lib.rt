//! What is published of a front, and read without its lock.
//!
//! A [`Snapshot`] is a core that has taken the events of all rows up to a moment, with these rows. Its
//! writer, a [`Publisher`], publishes one after another; a reader looks at what is published ([`look`],
//! [`need`], [`outlook`]) and waits for nobody.
#![tactic(auto)]

mod ends;
mod law;
mod publisher;
mod snapshot;

pub use ends::{begin, look, need, outlook, published_rows, reader_of};
pub use law::{
    End, FrontName, KnownName, Looks, PublishedRule, Shown, SnapshotReader, SnapshotWriter, Tells,
};
pub use publisher::{Publisher, insist};
pub use snapshot::{Operation, Snapshot};
