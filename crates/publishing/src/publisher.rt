//! Who publishes.

ghost use Rattle.std.specs.Arc.{arc_value};
ghost use Rattle.std.specs.Prelude.{◌≡◌, ◌<◌, ◌++◌, ◌∷◌, [], drop, true, false, MatchBool};
ghost use Rattle.history.specs.Histories.{IsLegal};
ghost use Rattle.publishing.specs.FrontNames.{name_of, setup_in};
ghost use Rattle.publishing.specs.Tied.{IsQuiet};
ghost use Rattle.publishing.specs.Publishing.{Published, IsFollowing};

use crate::ends::{publish, settle};
use crate::law::{End, SnapshotWriter};
use crate::snapshot::Snapshot;
use core::mem::replace_with;
use history::{FrontId, HistoryLength, HistoryPrefix, Row};
use schedule::Core;
use std::alloc::Global;
use std::marker::Model;
use std::sync::{Arc, Wait};

/// No history is as long.
const MOST_ROWS: u64 = 1 << 61;

/// The writer of the snapshot, with the history as those see it who do not take the lock. Contracts see
/// the core and the rows that are published, and whether others can be: none can after some were refused.
pub struct Publisher<J: FrontId> {
    head: HistoryLength<J>,
    rows: HistoryPrefix,
    end: End,
    whole: bool,
}

impl<J: FrontId> Drop for Publisher<J> {
    fn drop(self) {
        let Publisher {
            head: _,
            rows: _,
            end: _,
            whole: _,
        } = self;
    }
}

impl<J: FrontId> Model for Publisher<J> {
    ghost use Rattle.std.specs.Prelude.{◌≡◌, drop, true};
    ghost use Rattle.publishing.specs.Publishing.{Published};
    ghost use Rattle.publishing.specs.FrontNames.{name_of};
    ghost use Rattle.publishing.specs.Tied.{IsQuiet};

    ghost Value = { Published };

    ghost use Rattle.std.specs.Coded.{codes};
    ghost use Rattle.model.specs.TreeCode.{tree_code};
    ghost use Rattle.indexmap.specs.Layout.{hash_map_code};

    ghost coded = { Prim.hlevel (codes, tree_code, hash_map_code) };

    ghost view = { λ s. record {
      core = s.end.writer.desk.shown.value.core;
      rows = s.rows.seen.log;
      whole = s.whole;
    } };

    ghost invariant = { λ s. (s.rows.seen.book ≡ J.book)
        × (s.end.writer.desk.shown.value.seen ≡ s.rows.seen.log)
        × (s.end.writer.desk.shown.value.name ≡ name_of J.book J.setup)
        × (s.whole ≡ true → IsQuiet s.end.writer.desk.shown.value
        (drop s.end.writer.behind s.end.writer.log.items)) };
}

/// Waits for ever where a fact does not hold that always does, though no proof shows it.
pub fn insist<R: Wait>(rt: &R, holds: bool)
    ensures { holds ≡ true }
{
    if holds {
        return;
    }
    for _ in rt.forever() {}
    unreachable!()
}

/// What is published next, and how to wait for readers.
#[derive(Drop)]
struct Publishing<'a, R> {
    rt: &'a R,
    snapshot: Snapshot,
}

/// Publishes what is next.
fn publish_next<R: Wait>(writer: SnapshotWriter, next: Publishing<R>) -> (SnapshotWriter, bool)
    requires quiet { IsQuiet writer.desk.shown.value (drop writer.behind writer.log.items) }
    requires name { next.snapshot.name ≡ writer.desk.shown.value.name }
    requires legal { IsLegal (setup_in next.snapshot.name) next.snapshot.seen }
    ensures { MatchBool result.1
        ((result.0.desk.shown.value ≡ next.entry.snapshot)
        × IsQuiet result.0.desk.shown.value (drop result.0.behind result.0.log.items))
        (result.0.desk.shown.value ≡ writer.desk.shown.value) }
{
    let Publishing { rt, snapshot } = next;
    publish(rt, writer, snapshot)
}

/// Has the copy that is not shown let go of its core.
fn settle_next<R: Wait>(writer: SnapshotWriter, rt: &R) -> (SnapshotWriter, bool)
    requires quiet { IsQuiet writer.desk.shown.value (drop writer.behind writer.log.items) }
    ensures shown { result.0.desk.shown.value ≡ writer.desk.shown.value }
    ensures quiet { IsQuiet result.0.desk.shown.value
        (drop result.0.behind result.0.log.items) }
{
    settle(rt, writer)
}

impl<J: FrontId> Publisher<J> {
    /// A publisher of a writer of no rows.
    pub fn new(head: HistoryLength<J>, rows: HistoryPrefix, writer: SnapshotWriter) -> Publisher<J>
        requires rows { (rows.seen.log ≡ []) × (rows.seen.book ≡ J.book) }
        requires writer { (writer.desk.shown.value.seen ≡ [])
            × (writer.desk.shown.value.name ≡ name_of J.book J.setup)
            × (drop writer.behind writer.log.items ≡ []) }
        ensures { result ≡ record { core = writer.desk.shown.value.core; rows = []; whole = true } }
    {
        Publisher {
            head,
            rows,
            end: End { writer },
            whole: true,
        }
    }

    /// Has the copy that is not shown let go of its core, once each reader has left it, and says whether it
    /// did: it did not where memory was refused, or nothing can be published any more. What readers see stays.
    pub fn settle<R: Wait>(&mut self, rt: &R) -> bool
        ensures whole { result ≡ true → self.old.whole ≡ true }
        ensures same { self.new ≡ self.old }
    {
        self.whole && replace_with(&mut self.end.writer, rt, settle_next::<R>)
    }

    /// Publishes the core that is to be shown, with rows whose events it has taken, and says whether it did.
    /// It did not where memory was refused; then nothing can be published any more.
    fn show<R: Wait>(
        &mut self,
        rt: &R,
        alloc: Global,
        core: &Arc<Core>,
        rows: HistoryPrefix,
    ) -> bool
        requires whole { self.old.whole ≡ true }
        requires book { rows.seen.book ≡ J.book }
        requires follows { IsFollowing J.setup (arc_value core.now) rows.seen.log }
        ensures { MatchBool result
            (self.new ≡ record { core = arc_value core.now; rows = rows.seen.log; whole = true })
            (self.new ≡ record { core = self.old.core; rows = self.old.rows; whole = false }) }
    {
        let Ok(core) = Arc::try_clone(core) else {
            self.whole = false;
            return false;
        };
        let snapshot = Snapshot::new(alloc, core, rows.clone());
        let next = Publishing { rt, snapshot };
        if !replace_with(&mut self.end.writer, next, publish_next::<R>) {
            self.whole = false;
            return false;
        }
        self.rows = rows;
        true
    }

    /// Publishes a row behind the others, with the core that has taken its event, and says whether it did. It
    /// did not where memory was refused; then nothing can be published any more.
    pub fn put<R: Wait>(&mut self, rt: &R, alloc: Global, core: &Arc<Core>, row: &Row) -> bool
        requires whole { self.old.whole ≡ true }
        requires follows { IsFollowing J.setup (arc_value core.now) (self.old.rows ++ row.now ∷ []) }
        ensures { MatchBool result
            (self.new ≡ record { core = arc_value core.now; rows = self.old.rows ++ row.now ∷ []; whole = true })
            (self.new ≡ record { core = self.old.core; rows = self.old.rows; whole = false }) }
    {
        insist(rt, self.rows.len() < MOST_ROWS);
        let mut after = self.rows.clone();
        insist(rt, after.add(&self.head, row));
        self.show(rt, alloc, core, after)
    }

    /// Publishes the core that is to be shown, with the rows that are published, whose events it has taken, and
    /// says whether it did. It did not where memory was refused; then nothing can be published any more.
    pub fn change<R: Wait>(&mut self, rt: &R, alloc: Global, core: &Arc<Core>) -> bool
        requires whole { self.old.whole ≡ true }
        requires follows { IsFollowing J.setup (arc_value core.now) self.old.rows }
        ensures { MatchBool result
            (self.new ≡ record { core = arc_value core.now; rows = self.old.rows; whole = true })
            (self.new ≡ record { core = self.old.core; rows = self.old.rows; whole = false }) }
    {
        let rows = self.rows.clone();
        self.show(rt, alloc, core, rows)
    }

    /// All rows that are published.
    pub fn seen(&self) -> HistoryPrefix
        ensures { (result.seen.log ≡ self.now.rows) × (result.seen.book ≡ J.book) }
    {
        self.rows.clone()
    }

    /// Frees the snapshot once each reader has left.
    pub fn take<R: Wait>(self, rt: &R) {
        let Publisher {
            head: _head,
            rows: _rows,
            end,
            whole: _,
        } = self;
        end.take(rt);
    }
}
