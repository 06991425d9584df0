//! The closure that a pass read last.

ghost use Rattle.std.specs.Prelude.{◌≡◌, ◌≢◌, ◌<◌, ◌≤◌, ℕ, true, false, min, IfSome};
ghost use Rattle.model.specs.declared.refusal.Refusal.TheVariants.{Stopped};
ghost use Rattle.events.specs.declared.reply.Reply.TheVariants.{Refused};
ghost use Rattle.events.specs.Terms.{reply_of};
ghost use Rattle.schedule.specs.Queries.{event_for};
ghost use Rattle.history.specs.Histories.{unrecorded, IsReadAfter};
ghost use Rattle.book.specs.KeptClosures.{size_of, size_of_entry, IsClosureWithin};

use history::{FrontId, HistoryPrefix};
use lines::with_text;
use records::Entry;
use schedule::{Query, Question, Reply};
use std::alloc::Global;
use std::marker::{Model, PhantomData};

/// A closure that was read, with what was asked, and the rows after which it was read.
pub(crate) struct LastClosure<J: FrontId> {
    query: Query,
    reply: Reply,
    rows: HistoryPrefix,
    of: PhantomData<J>,
}

impl<J: FrontId> Drop for LastClosure<J> {
    fn drop(self) {
        let LastClosure {
            query: _,
            reply: _,
            rows: _,
            of: _,
        } = self;
    }
}

/// What it has is the reply to what was asked after these rows, whoever asks.
impl<J: FrontId> Model for LastClosure<J> {
    ghost use Rattle.std.specs.Prelude.{◌≡◌, ◌≢◌, ℕ};
    ghost use Rattle.model.specs.declared.refusal.Refusal.TheVariants.{Stopped};
    ghost use Rattle.events.specs.declared.reply.Reply.TheVariants.{Refused};
    ghost use Rattle.schedule.specs.Queries.{event_for};
    ghost use Rattle.history.specs.Histories.{IsReadAfter};

    ghost Value = { Unit {0} };

    ghost view = { λ l. tt };

    ghost invariant = { λ l. (l.rows.seen.book ≡ J.book) × (l.reply ≢ Refused Stopped)
        × ((number : ℕ) → IsReadAfter J.setup number l.rows.seen.log (event_for l.query) l.reply) };
}

/// A copy of a query for a closure. There is none of another query, or where memory is refused.
pub(crate) fn closure_query(query: &Query) -> Option<Query>
    ensures { IfSome result (λ copy. event_for copy ≡ event_for query.now) }
{
    let Question::Closure(class) = &query.question else {
        return None;
    };
    Some(Query {
        actor: query.actor.clone().ok()?,
        question: Question::Closure(class.clone().ok()?),
    })
}

/// Whether two queries ask for one closure.
fn asks_the_same(query: &Query, other: &Query) -> bool
    ensures { result ≡ true → event_for query.now ≡ event_for other.now }
{
    match (&query.question, &other.question) {
        (Question::Closure(class), Question::Closure(other_class)) => {
            query.actor == other.actor && class == other_class
        }
        _ => false,
    }
}

/// A copy of a reply, which shares all that is large. There is none where memory is refused.
fn copy_of(reply: &Reply) -> Option<Reply>
    ensures { IfSome result (λ copy. copy ≡ reply.now) }
{
    reply.clone().ok()
}

/// How many bytes an entry of a closure counts for itself, and for each of its labels: their paths stand in the text.
const BYTES_OF_LABEL: u64 = 1_024;

/// How many bytes an entry counts: its archive, and 1,024 bytes for itself and for each label. At the greatest number it
/// stays there.
fn size_of(entry: &Entry) -> u64
    ensures { result ≡ min (size_of_entry entry.now) 18446744073709551615 }
{
    let labels = (entry.labels().len() as u64)
        .saturating_add(1)
        .saturating_mul(BYTES_OF_LABEL);
    (entry.tree().nar_len() as u64).saturating_add(labels)
}

/// Whether entries count so many bytes at most.
fn are_within(entries: &[Entry], most_bytes: u32) -> bool
    ensures within { result ≡ true → size_of entries.now ≤ most_bytes }
    ensures over { result ≡ false → most_bytes < size_of entries.now }
{
    let mut left = u64::from(most_bytes);
    for entry in entries {
        let size = size_of(entry);
        if left < size {
            return false;
        }
        left -= size;
    }
    true
}

/// Whether a reply is a closure that counts so many bytes at most.
fn is_closure_within(reply: &Reply, most_bytes: u32) -> bool
    ensures within { result ≡ true → IsClosureWithin most_bytes (reply_of reply.now) }
    ensures recorded { result ≡ true → unrecorded reply.now ≡ false }
{
    match reply {
        Reply::Closure(closure) => are_within(closure.entries(), most_bytes),
        _ => false,
    }
}

impl<J: FrontId> LastClosure<J> {
    /// A closure that was read after rows, to be kept, if the reply is one that counts so many bytes at most: its archives,
    /// which it keeps alive, and 1,024 bytes for each entry and label, for its text. There is none where memory is refused.
    pub(crate) fn new(
        query: Query,
        reply: &Reply,
        rows: &HistoryPrefix,
        most_bytes: u32,
    ) -> Option<LastClosure<J>>
        requires book { rows.now.seen.book ≡ J.book }
        requires going { reply.now ≢ Refused Stopped }
        requires read { unrecorded reply.now ≡ false → (number : ℕ)
            → IsReadAfter J.setup number rows.now.seen.log (event_for query) reply.now }
        ensures { IfSome result (λ _. IsClosureWithin most_bytes (reply_of reply.now)) }
    {
        if is_closure_within(reply, most_bytes) {
            Some(LastClosure {
                query,
                reply: copy_of(reply)?,
                rows: rows.clone(),
                of: PhantomData,
            })
        } else {
            None
        }
    }

    /// The closure, if a query asks for it, and it was read after these rows. It has its text then, so that it is printed
    /// from the second time on without being made again. There is none where memory is refused for that.
    pub(crate) fn read_again(
        &mut self,
        alloc: Global,
        query: &Query,
        rows: &HistoryPrefix,
    ) -> Option<Reply>
        requires book { rows.now.seen.book ≡ J.book }
        ensures read { IfSome result (λ reply. (number : ℕ)
            → IsReadAfter J.setup number rows.now.seen.log (event_for query.now) reply) }
        ensures going { IfSome result (λ reply. reply ≢ Refused Stopped) }
    {
        if self.rows.len() != rows.len() || !self.rows.begins(rows) {
            return None;
        }
        if !asks_the_same(&self.query, query) {
            return None;
        }
        let reply = with_text(alloc, copy_of(&self.reply)?).ok()?;
        self.reply = copy_of(&reply)?;
        Some(reply)
    }
}
