//! The rule of what is published.

use crate::snapshot::{Operation, Snapshot};
use atomic_table::{Join, Split};
use crossbeam_utils::rule::{Outcome, Protocol};
use history::Row;
use left_right::reader::Reader;
use left_right::writer::Writer;
use schedule::Core;
use std::collections::LinkedList;
use std::mem::ManuallyDrop;
use std::sync::Wait;
use trust::User;

/// The name of a front: its history, and what its run was given. No value of it is made.
pub struct FrontName {
    /// The first of the three that name the history.
    pub number: u64,
    /// The second.
    pub log_name: u64,
    /// The third.
    pub cells_name: u64,
    /// The users of the run.
    pub users: LinkedList<User>,
    /// The limit of a charge.
    pub charge: u64,
}

/// What a snapshot shows. No value of it is made.
pub struct Shown {
    /// Its core.
    pub core: Core,
    /// The rows of the history that were published with it, whose events the core has taken.
    pub seen: LinkedList<Row>,
    /// What it is a snapshot of.
    pub name: FrontName,
}

/// What a reader and the writer know: a name, or nothing. No value of it is made.
pub struct KnownName {
    /// Whether it knows a name.
    pub knows: bool,
    /// The name, if it does.
    pub name: FrontName,
}

/// The rule: the rows that were published are a legal history, and who knows a name knows that of the
/// snapshot.
pub struct PublishedRule;

impl Protocol<Snapshot, KnownName> for PublishedRule {
    ghost use Rattle.publishing.specs.Tied.{Tied, stranger};

    ghost holds = { Tied };

    ghost first = { stranger };
}

/// A publish, or a look.
pub struct Looks;

impl Outcome<Snapshot, KnownName> for Looks {
    ghost use Rattle.publishing.specs.Tied.{Sees};

    ghost then = { Sees };
}

/// The writer tells a new reader the name.
pub struct Tells;

impl Split<KnownName> for Tells {
    ghost left = { λ v. v };

    ghost right = { λ v. v };
}

impl Join<KnownName> for Tells {
    ghost use Rattle.publishing.specs.Tied.{told, stranger};

    ghost both = { told };

    ghost spent = { stranger };
}

/// Who looks at what is published.
pub type SnapshotReader = Reader<Snapshot, KnownName, PublishedRule>;

/// Who publishes.
pub type SnapshotWriter = Writer<Snapshot, Operation, KnownName, PublishedRule>;

/// The writer, which may be let go. Where `take` does not end it, its memory is never freed.
pub struct End {
    /// The writer.
    pub writer: SnapshotWriter,
}

impl Drop for End {
    fn drop(self) {
        let Self { writer } = self;
        let _leaked = unsafe { ManuallyDrop::new_unchecked(writer) };
    }
}

impl End {
    /// Frees both copies once each reader has left.
    pub fn take<R: Wait>(self, rt: &R) {
        let Self { writer } = self;
        writer.take(rt);
    }
}
