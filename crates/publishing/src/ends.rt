//! Publishing, and looking at what is published.

ghost use Rattle.std.specs.Prelude.{◌≡◌, [], drop, fold, true, false, IfSome, IfOk, MatchBool};
ghost use Rattle.left_right.specs.Sides.{view};
ghost use Rattle.schedule.specs.Queries.{event_for};
ghost use Rattle.history.specs.Histories.{IsLegal};
ghost use Rattle.events.specs.Terms.{event_of};
ghost use Rattle.publishing.specs.ReadResults.{IsFoundAfter, IsFoundNeeded, IsFoundOutlook};
ghost use Rattle.publishing.specs.FrontNames.{book_in, setup_in};
ghost use Rattle.crossbeam_utils.specs.Register.{TurnsAt};
ghost use Rattle.publishing.specs.declared.law.Shown.{Shown};
ghost use Rattle.publishing.specs.Tied.{knower, absorbed, IsQuiet, Tied, Sees};

use crate::law::{Looks, SnapshotReader, SnapshotWriter, Tells};
use crate::snapshot::{Operation, Snapshot};
use core::mem::replace_with;
use history::HistoryPrefix;
use model::Refusal;
use schedule::{Outlook, Preparation, PrepareInput, Query, ReadResult, User};
use std::alloc::AllocError;
use std::sync::Wait;

/// Enters the snapshot that is published, and looks for the answer to a query there.
fn enter_and_look(
    reader: SnapshotReader,
    query: Query,
) -> (SnapshotReader, Option<(ReadResult, HistoryPrefix)>)
    requires { (view reader.place).knows ≡ true }
    ensures view { view result.0.place ≡ view reader.place }
    ensures looked { IfSome result.1
        (λ t. IsFoundAfter (view reader.place).name (event_for query) t.0 t.1) }
{
    match reader.enter_as::<Looks>() {
        Ok(reading) => {
            let snapshot = reading.get();
            let found = snapshot.look(&query);
            let rows = snapshot.seen();
            (reading.leave(), Some((found, rows)))
        }
        Err(reader) => (reader, None),
    }
}

/// Looks for what is only read after the rows that are published, with these rows, which are a legal
/// history. It waits for nobody, and what it finds is served once the snapshot is left. Nothing is found
/// where the writer is gone.
pub fn look(reader: &mut SnapshotReader, query: Query) -> Option<(ReadResult, HistoryPrefix)>
    requires { (view reader.old.place).knows ≡ true }
    ensures view { view reader.new.place ≡ view reader.old.place }
    ensures looked { IfSome result
        (λ t. IsFoundAfter (view reader.old.place).name (event_for query) t.0 t.1) }
{
    replace_with(reader, query, enter_and_look)
}

/// Enters the snapshot that is published, and gives its rows.
fn enter_and_see(reader: SnapshotReader, _nothing: ()) -> (SnapshotReader, Option<HistoryPrefix>)
    requires { (view reader.place).knows ≡ true }
    ensures view { view result.0.place ≡ view reader.place }
    ensures book { IfSome result.1 (λ rows. rows.seen.book ≡ book_in (view reader.place).name) }
{
    match reader.enter_as::<Looks>() {
        Ok(reading) => {
            let rows = reading.get().seen();
            (reading.leave(), Some(rows))
        }
        Err(reader) => (reader, None),
    }
}

/// The rows that are published. It waits for nobody. There are none where the writer is gone.
pub fn published_rows(reader: &mut SnapshotReader) -> Option<HistoryPrefix>
    requires { (view reader.old.place).knows ≡ true }
    ensures view { view reader.new.place ≡ view reader.old.place }
    ensures book { IfSome result (λ rows. rows.seen.book ≡ book_in (view reader.old.place).name) }
{
    replace_with(reader, (), enter_and_see)
}

/// Enters the snapshot that is published, and finds what an event needs to be made there.
fn enter_and_need(
    reader: SnapshotReader,
    preparation: Preparation<'_>,
) -> (
    SnapshotReader,
    Option<(Result<PrepareInput, Refusal>, HistoryPrefix)>,
)
    requires { (view reader.place).knows ≡ true }
    ensures view { view result.0.place ≡ view reader.place }
    ensures needed { IfSome result.1 (λ t. IsFoundNeeded
        (view reader.place).name (event_of preparation.entry.event.now) t.0 t.1) }
{
    match reader.enter_as::<Looks>() {
        Ok(reading) => {
            let snapshot = reading.get();
            let needed = snapshot.need(preparation);
            let rows = snapshot.seen();
            (reading.leave(), Some((needed, rows)))
        }
        Err(reader) => (reader, None),
    }
}

/// What an event needs to be made after the rows that are published, with these rows. It waits for nobody,
/// and what is needed is made once the snapshot is left. There is no answer where the writer is gone.
pub fn need(
    reader: &mut SnapshotReader,
    preparation: Preparation<'_>,
) -> Option<(Result<PrepareInput, Refusal>, HistoryPrefix)>
    requires { (view reader.old.place).knows ≡ true }
    ensures view { view reader.new.place ≡ view reader.old.place }
    ensures needed { IfSome result (λ t. IsFoundNeeded
        (view reader.old.place).name (event_of preparation.entry.event.now) t.0 t.1) }
{
    replace_with(reader, preparation, enter_and_need)
}

/// Enters the snapshot that is published, and finds how a goal, of this user and this number, may go on there.
fn enter_and_find(
    reader: SnapshotReader,
    goal: (&User, u16),
) -> (
    SnapshotReader,
    Option<(Result<Outlook, Refusal>, HistoryPrefix)>,
)
    requires { (view reader.place).knows ≡ true }
    ensures view { view result.0.place ≡ view reader.place }
    ensures found { IfSome result.1 (λ t. IsFoundOutlook
        (view reader.place).name goal.entry.0.now goal.entry.1 t.0 t.1) }
{
    match reader.enter_as::<Looks>() {
        Ok(reading) => {
            let snapshot = reading.get();
            let found = snapshot.outlook(goal.0, goal.1);
            let rows = snapshot.seen();
            (reading.leave(), Some((found, rows)))
        }
        Err(reader) => (reader, None),
    }
}

/// How a user's goal of a number may go on after the rows that are published, with these rows, which are a legal
/// history. It waits for nobody. There is no answer where the writer is gone.
pub fn outlook(
    reader: &mut SnapshotReader,
    user: &User,
    number: u16,
) -> Option<(Result<Outlook, Refusal>, HistoryPrefix)>
    requires { (view reader.old.place).knows ≡ true }
    ensures view { view reader.new.place ≡ view reader.old.place }
    ensures found { IfSome result (λ t. IsFoundOutlook
        (view reader.old.place).name user.now number t.0 t.1) }
{
    replace_with(reader, (user, number), enter_and_find)
}

/// Publishes what is pending, and says whether it did. Else it stays pending.
fn publish_pending<R: Wait>(rt: &R, writer: SnapshotWriter) -> (SnapshotWriter, bool)
    requires { (next : Shown)
        → next ≡ fold absorbed writer.desk.shown.value (drop writer.behind writer.log.items)
        → TurnsAt Tied writer.desk.place.id (view writer.desk.place)
        writer.desk.shown.value next Sees }
    ensures { MatchBool result.1
        ((result.0.desk.shown.value
        ≡ fold absorbed writer.desk.shown.value (drop writer.behind writer.log.items))
        × (drop result.0.behind result.0.log.items ≡ []))
        ((result.0.desk.shown.value ≡ writer.desk.shown.value)
        × (drop result.0.behind result.0.log.items ≡ drop writer.behind writer.log.items)) }
{
    let (writer, published) = writer.publish_as::<Looks, R>(rt);
    match published {
        Ok(()) => (writer, true),
        Err(_) => (writer, false),
    }
}

/// Publishes a snapshot, and says whether it did. What was pending before shows nothing.
pub(crate) fn publish<R: Wait>(
    rt: &R,
    writer: SnapshotWriter,
    next: Snapshot,
) -> (SnapshotWriter, bool)
    requires quiet { IsQuiet writer.desk.shown.value (drop writer.behind writer.log.items) }
    requires name { next.name ≡ writer.desk.shown.value.name }
    requires legal { IsLegal (setup_in next.name) next.seen }
    ensures { MatchBool result.1
        ((result.0.desk.shown.value ≡ next) × (drop result.0.behind result.0.log.items ≡ []))
        (result.0.desk.shown.value ≡ writer.desk.shown.value) }
{
    let mut writer = writer;
    let Ok(()) = writer.append(Operation::Show(next)) else {
        return (writer, false);
    };
    publish_pending(rt, writer)
}

/// Has the copy that is not shown let go of the core that it had, once each reader has left it, and says
/// whether it did: it did not where memory was refused. What readers see stays. The next publish waits for
/// nobody who came after the last one.
pub(crate) fn settle<R: Wait>(rt: &R, writer: SnapshotWriter) -> (SnapshotWriter, bool)
    requires quiet { IsQuiet writer.desk.shown.value (drop writer.behind writer.log.items) }
    ensures shown { result.0.desk.shown.value ≡ writer.desk.shown.value }
    ensures quiet { IsQuiet result.0.desk.shown.value
        (drop result.0.behind result.0.log.items) }
{
    if writer.has_pending_operations() {
        return (writer, true);
    }
    let mut writer = writer;
    let Ok(()) = writer.append(Operation::Wait) else {
        return (writer, false);
    };
    let (writer, _turned) = publish_pending(rt, writer);
    (writer, true)
}

/// Publishes what is there already, so that the writer knows the name.
pub fn begin<R: Wait>(rt: &R, writer: SnapshotWriter) -> (SnapshotWriter, bool)
    requires ready { drop writer.behind writer.log.items ≡ [] }
    ensures shown { result.0.desk.shown.value ≡ writer.desk.shown.value }
    ensures ready { drop result.0.behind result.0.log.items ≡ [] }
    ensures knows { result.1 ≡ true
        → view result.0.desk.place ≡ knower writer.desk.shown.value.name }
{
    let (writer, published) = writer.publish_as::<Looks, R>(rt);
    (writer, published.is_ok())
}

/// A reader that knows what the writer knows.
///
/// # Errors
///
/// - `AllocError` only where memory was refused, or no place is left for a reader.
pub fn reader_of(writer: &mut SnapshotWriter) -> Result<SnapshotReader, AllocError>
    ensures view { IfOk result (λ r. view r.place ≡ view writer.old.desk.place) }
    ensures same { (view writer.new.desk.place ≡ view writer.old.desk.place)
        × (writer.new.desk.shown ≡ writer.old.desk.shown) × (writer.new.log ≡ writer.old.log)
        × (writer.new.behind ≡ writer.old.behind) }
{
    let mut reader = writer.factory().reader()?;
    reader.learn::<Tells>(writer.tell::<Tells>());
    Ok(reader)
}
