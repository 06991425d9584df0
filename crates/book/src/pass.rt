//! The callers of a front, with what they have seen.

ghost use Rattle.std.specs.Prelude.{◌≡◌, ◌≢◌, ◌<◌, ℕ, [], true, false, length, IfOk, IfErr, IfSome, Err, MatchBool};
ghost use mathlib.Core.List.{IsPrefix};
ghost use Rattle.left_right.specs.Sides.{view};
ghost use Rattle.model.specs.declared.refusal.Refusal.TheVariants.{Memory, Stopped};
ghost use Rattle.events.specs.declared.reply.Reply.TheVariants.{Refused};
ghost use Rattle.schedule.specs.Queries.{event_for};
ghost use Rattle.history.specs.Callers.{knowing, rows_of, seeing};
ghost use Rattle.history.specs.Histories.{row, unrecorded, IsLegal, IsReadAfter};
ghost use Rattle.events.specs.Terms.{event_of};
ghost use Rattle.publishing.specs.Following.{IsNeedAfter, IsPreparedAfter, IsOutlookAfter, IsNoOutlook};
ghost use Rattle.publishing.specs.FrontNames.{name_of};
ghost use Rattle.publishing.specs.Tied.{knower};
ghost use Rattle.book.specs.Applying.{IsApplied, HasCalled};
ghost use Rattle.book.specs.Asking.{HasAsked};

use crate::book::Book;
use crate::counts::Account;
use crate::last_closure::{LastClosure, closure_query};
use history::{FrontId, HistoryPrefix, is_unrecorded};
use laws::{isolation, kept_closures_are_good, timed_isolation};
use model::Refusal;
use publishing::{SnapshotReader, insist, look, need, outlook, published_rows};
use schedule::{
    Cache, Event, Outlook, Preparation, PrepareInput, Query, ReadResult, Ready, Reply, RunningJob,
    User,
};
use std::alloc::Global;
use std::marker::Model;
use std::sync::Wait;

/// One caller of a front, with what it has seen of the history.
pub struct Pass<J: FrontId> {
    account: Account<J>,
    /// How many rows it is sure of.
    sure: u64,
    seen: HistoryPrefix,
    reader: SnapshotReader,
    /// Records that were repaired for what it read and prepared.
    repaired: Cache,
    /// The closure that it read last, if it keeps it, which counts no more than `most_bytes` bytes.
    last: Option<LastClosure<J>>,
    most_bytes: u32,
    alloc: Global,
}

impl<J: FrontId> Drop for Pass<J> {
    fn drop(self) {
        let Pass {
            account: _,
            sure: _,
            seen: _,
            reader: _,
            repaired: _,
            last: _,
            most_bytes: _,
            alloc: _,
        } = self;
    }
}

/// Contracts see a pass as what it knows of its calls, the rows that it has seen, which begin with
/// those that it is sure of, and how many of its calls stopped the front.
impl<J: FrontId> Model for Pass<J> {
    ghost use Rattle.std.specs.Prelude.{◌≡◌, length};
    ghost use mathlib.Core.List.{IsPrefix};
    ghost use Rattle.history.specs.Callers.{PassKnowledge};
    ghost use Rattle.publishing.specs.FrontNames.{name_of};
    ghost use Rattle.publishing.specs.Tied.{knower};

    ghost Value = { PassKnowledge };

    ghost use Rattle.std.specs.Coded.{codes};
    ghost use Rattle.model.specs.TreeCode.{tree_code};

    ghost coded = { Prim.hlevel (codes, tree_code) };

    ghost view = { λ p. record {
      caller = p.account.caller;
      seen = p.seen.seen.log;
      stops = p.account.stops.amount;
    } };

    ghost invariant = { λ p. IsPrefix p.account.caller.sure p.seen.seen.log × (p.seen.seen.book ≡ J.book)
        × (p.reader.place.me.0.client ≡ knower (name_of J.book J.setup))
        × (p.sure ≡ length p.account.caller.sure) × (p.account.stops.parts ≡ 1) };
}

/// How many rows a pass is sure of after a reply: as many as before it, or where it has a row all.
fn sure_after(reply: &Reply, before: u64, all: u64) -> u64
    ensures { MatchBool (unrecorded reply.now) (result ≡ before) (result ≡ all) }
{
    if is_unrecorded(reply) { before } else { all }
}

/// Lets repaired records go where a reply tells that memory was refused, so that their memory is there for others.
fn let_go_after(repaired: &mut Cache, reply: &Reply) {
    if is_unrecorded(reply) {
        repaired.empty();
    }
}

impl<J: FrontId> Pass<J> {
    /// A pass that has made no call, and seen nothing.
    pub(crate) fn new(
        account: Account<J>,
        seen: HistoryPrefix,
        reader: SnapshotReader,
        repaired: Cache,
        most_bytes: u32,
        alloc: Global,
    ) -> Pass<J>
        requires caller { account.caller.sure ≡ [] }
        requires stops { (account.stops.parts ≡ 1) × (account.stops.amount ≡ 0) }
        requires seen { (seen.seen.log ≡ []) × (seen.seen.book ≡ J.book) }
        requires reader { view reader.place ≡ knower (name_of J.book J.setup) }
        ensures { result ≡ record { caller = account.caller; seen = []; stops = 0 } }
    {
        Pass {
            account,
            sure: 0,
            seen,
            reader,
            repaired,
            last: None,
            most_bytes,
            alloc,
        }
    }

    /// The number of the pass, from 0 on. It stands in the rows of its calls.
    pub fn number(&self) -> u64
        ensures { result ≡ self.now.caller.number }
    {
        self.account.caller.number()
    }

    /// Its calls that have a row are counted: they are those of its number among its sure rows.
    pub fn rows_are_counted(&self)
        ensures { rows_of self.now.caller.number self.now.caller.sure ≡ self.now.caller.calls }
    {
        self.account.caller.rows_are_counted()
    }

    /// What it has seen begins with the rows that it is sure of.
    pub fn sure_rows_are_seen(&self)
        ensures { IsPrefix self.now.caller.sure self.now.seen }
    {
        let _ = &self.seen;
    }

    /// Whether it has seen no rows but those that it is sure of.
    pub fn is_sure_of_all(&self) -> bool
        ensures { MatchBool result (self.now.seen ≡ self.now.caller.sure)
            (length self.now.caller.sure < length self.now.seen) }
    {
        self.seen.len() <= self.sure
    }

    /// Sees rows, if they begin with all that it had seen, and says whether it does.
    fn see(&mut self, rows: HistoryPrefix) -> bool
        requires { rows.seen.book ≡ J.book }
        ensures { MatchBool result (IsPrefix self.old.seen rows.seen.log
            × (self.new ≡ seeing self.old rows.seen.log)) (self.new ≡ self.old) }
    {
        if !self.seen.begins(&rows) {
            return false;
        }
        self.seen = rows;
        true
    }

    /// The closure that it read last, if a query asks for it again, and no row was published since.
    fn read_again(&mut self, query: &Query) -> Option<Reply>
        ensures read { IfSome result (λ reply.
            IsReadAfter J.setup self.old.caller.number self.old.seen (event_for query.now) reply) }
        ensures going { IfSome result (λ reply. reply ≢ Refused Stopped) }
        ensures same { self.new ≡ self.old }
    {
        let Pass {
            seen,
            reader,
            last,
            alloc,
            ..
        } = self;
        let last = last.as_mut()?;
        let rows = published_rows(reader)?;
        if rows.len() != seen.len() {
            return None;
        }
        last.read_again(*alloc, query, seen)
    }

    /// Answers a query as [`Pass::read`] does, and leaves the records that it repaired. Whoever asks gets this reply.
    fn read_once(&mut self, query: Query) -> Reply
        ensures read { unrecorded result ≡ false → (number : ℕ)
            → IsReadAfter J.setup number self.new.seen (event_for query) result }
        ensures seen { IsPrefix self.old.seen self.new.seen }
        ensures same { self.new ≡ seeing self.old self.new.seen }
        ensures going { result ≢ Refused Stopped }
    {
        isolation();
        timed_isolation();
        let Some((found, rows)) = look(&mut self.reader, query) else {
            return Reply::Refused(Refusal::Memory);
        };
        if self.see(rows) {
            found.serve(self.alloc, &mut self.repaired)
        } else {
            Reply::Refused(Refusal::Memory)
        }
    }

    /// Answers a query after rows that are published. They begin with all that the pass had seen, its own
    /// answered calls among them, and are what it has seen then; with the query as one row more they are
    /// a legal history. It takes no lock, and waits for nobody; and nobody waits for it while the records of
    /// a closure are repaired. Those that it repaired last are kept, for as long as the pass lives and memory is
    /// not refused to it. So is the closure that it read last, unless it is large, until the pass makes a call or meets
    /// another: as long as no row is published it is given again, with its text from the second time on. The reply is 90 `Memory` where memory was
    /// refused, and never 92 `Stopped`.
    pub fn read(&mut self, query: Query) -> Reply
        ensures read { unrecorded result ≡ false
            → IsReadAfter J.setup self.old.caller.number self.new.seen (event_for query) result }
        ensures seen { IsPrefix self.old.seen self.new.seen }
        ensures same { self.new ≡ seeing self.old self.new.seen }
        ensures going { result ≢ Refused Stopped }
    {
        if let Some(reply) = self.read_again(&query) {
            return reply;
        }
        let asked = closure_query(&query);
        let reply = self.read_once(query);
        let_go_after(&mut self.repaired, &reply);
        if let Some(asked) = asked {
            self.last = LastClosure::new(asked, &reply, &self.seen, self.most_bytes);
        } else if is_unrecorded(&reply) {
            self.last = None;
        }
        reply
    }

    /// What an event needs to be made after rows that are published, which the pass has seen then.
    fn need_published(&mut self, event: &Event) -> Result<PrepareInput, Refusal>
        ensures need { IfOk result (IsNeedAfter J.setup self.new.seen (event_of event.now)) }
        ensures seen { IsPrefix self.old.seen self.new.seen }
        ensures same { self.new ≡ seeing self.old self.new.seen }
        ensures memory { IfErr result (λ why. why ≡ Memory) }
    {
        let preparation = Preparation::new(self.alloc, event)?;
        let Some((needed, rows)) = need(&mut self.reader, preparation) else {
            return Err(Refusal::Memory);
        };
        if self.see(rows) {
            needed
        } else {
            Err(Refusal::Memory)
        }
    }

    /// How a user's goal of a number may go on, as he sees it after rows that are published. They are a legal history,
    /// begin with all that the pass had seen, and are what it has seen then. It takes no lock, waits for nobody, and
    /// makes no row.
    ///
    /// # Errors
    ///
    /// - `UnknownUser` where the user is none of the run, and `UnknownGoal` where he has no goal of that number.
    /// - `Memory` only where memory was refused.
    pub fn outlook(&mut self, user: &User, number: u16) -> Result<Outlook, Refusal>
        ensures told { result ≢ Err Memory
            → IsOutlookAfter J.setup self.new.seen user.now number result }
        ensures legal { result ≢ Err Memory → IsLegal J.setup self.new.seen }
        ensures seen { IsPrefix self.old.seen self.new.seen }
        ensures same { self.new ≡ seeing self.old self.new.seen }
        ensures errors { IfErr result IsNoOutlook }
    {
        let Some((found, rows)) = outlook(&mut self.reader, user, number) else {
            return Err(Refusal::Memory);
        };
        if self.see(rows) {
            found
        } else {
            Err(Refusal::Memory)
        }
    }

    /// Makes values as [`Pass::prepare`] does, and leaves the records that it repaired.
    fn prepare_once(&mut self, event: &Event) -> Result<Ready, Refusal>
        ensures prepared { IfOk result
            (IsPreparedAfter J.setup self.new.seen (event_of event.now)) }
        ensures seen { IsPrefix self.old.seen self.new.seen }
        ensures same { self.new ≡ seeing self.old self.new.seen }
        ensures memory { IfErr result (λ why. why ≡ Memory) }
    {
        if let Some(ready) = Ready::anywhere(self.alloc, event)? {
            return Ok(ready);
        }
        let needed = self.need_published(event)?;
        needed.make(self.alloc, event, &mut self.repaired)
    }

    /// Makes values that an event needs, so that [`Front::commit`](crate::Front::commit) need not make them
    /// under the lock: the path of a source, what is known of a derivation, what comes of a tree that is offered,
    /// what comes of the output of a job for the goal that leads it, and the records that are repaired for a closure
    /// that is taken or that a goal is built from. All but the first are made after rows that are published, which
    /// begin with all that the pass had seen, and are what it has seen then. It takes no lock, and waits for nobody;
    /// and nobody waits for it while a derivation is parsed, nor while they are made. Those records that it repaired
    /// last it keeps, as for [`Pass::read`]; where memory is refused, they are let go.
    ///
    /// # Errors
    ///
    /// - `Memory` only where memory was refused.
    pub fn prepare(&mut self, event: &Event) -> Result<Ready, Refusal>
        ensures prepared { IfOk result
            (IsPreparedAfter J.setup self.new.seen (event_of event.now)) }
        ensures seen { IsPrefix self.old.seen self.new.seen }
        ensures same { self.new ≡ seeing self.old self.new.seen }
        ensures memory { IfErr result (λ why. why ≡ Memory) }
    {
        let made = self.prepare_once(event);
        if made.is_err() {
            self.repaired.empty();
            self.last = None;
        }
        made
    }

    /// How many repaired records that it needed were at hand from what it read and prepared before; at the greatest
    /// number it stays there. No reply depends on it.
    pub fn hits(&self) -> u64 {
        self.repaired.hits()
    }

    /// Asks the book for the job that a user's goal of a number leads. Then it has seen all rows.
    pub(crate) fn request<R: Wait>(
        &mut self,
        rt: &R,
        book: &mut Book<J>,
        user: &User,
        number: u16,
    ) -> Result<RunningJob, Refusal>
        ensures { HasAsked J.setup J.parts self.old user.now number result self.new }
    {
        kept_closures_are_good();
        let Pass { account, seen, .. } = self;
        insist(rt, seen.begins(&book.seen()));
        let told = book.request(account, user, number);
        *seen = book.seen();
        told
    }

    /// It has seen all rows of the book then, among them those that it is sure of, and knows whether the
    /// book is stopped. The closure that it read last is let go.
    pub(crate) fn show(&mut self, book: &mut Book<J>)
        ensures begins { IsPrefix self.old.caller.sure book.old.rows }
        ensures knows { self.new.caller ≡ knowing book.old.stopped self.old.caller }
        ensures remains { self.old.caller.stopped ≡ true → book.old.stopped ≡ true }
        ensures seen { IsPrefix self.old.seen self.new.seen }
        ensures all { IsPrefix book.old.rows self.new.seen }
        ensures stops { self.new.stops ≡ self.old.stops }
        ensures same { book.new ≡ book.old }
    {
        let Pass {
            account,
            seen,
            last,
            ..
        } = self;
        *last = None;
        book.compare(&mut account.caller);
        let rows = book.seen();
        if seen.begins(&rows) {
            *seen = rows;
        }
    }

    /// What it is without what it has seen, which are the first of all rows, and its part of the count of
    /// stops.
    pub(crate) fn into_account<R: Wait>(self, rt: &R, rows: &HistoryPrefix) -> Account<J>
        requires { rows.now.seen.book ≡ J.book }
        ensures caller { result.caller ≡ self.caller }
        ensures stops { (result.stops.parts ≡ 1) × (result.stops.amount ≡ self.stops) }
        ensures seen { IsPrefix self.seen rows.now.seen.log }
    {
        let Pass {
            account,
            sure: _,
            seen,
            reader: _reader,
            repaired: _,
            last: _,
            most_bytes: _,
            alloc: _,
        } = self;
        insist(rt, seen.begins(rows));
        account
    }
}

impl<J: FrontId> Book<J> {
    /// Answers one event of a pass, with values that were made before. It may wait for readers of what was
    /// published before.
    ///
    /// The reply is the core's, and a row of the history has it, which is the last of the sure rows
    /// of the pass, and is published. There is no row at 90 `Memory`, where memory was refused, and at
    /// 92 `Stopped`, where the book was stopped before. At 90 nothing has changed, or the core had taken
    /// the event and the book is stopped now. At 92 the pass knows that it is. The pass has seen all rows then.
    /// Where memory is refused, the records that it repaired are let go.
    ///
    /// Whatever values were made before, they make no difference but that the core need not make them itself.
    pub fn apply<R: Wait>(
        &mut self,
        rt: &R,
        alloc: Global,
        pass: &mut Pass<J>,
        event: Event,
        ready: Ready,
    ) -> Reply
        ensures applied { IsApplied J.setup J.parts event result
            self.old pass.old.caller pass.old.stops self.new pass.new.caller pass.new.stops }
        ensures called { HasCalled J.setup J.parts pass.old event result pass.new }
        ensures remains { pass.old.caller.stopped ≡ true → result ≡ Refused Stopped }
    {
        let Pass {
            account,
            sure,
            seen,
            repaired,
            last,
            ..
        } = pass;
        *last = None;
        insist(rt, seen.begins(&self.seen()));
        let reply = self.answer(rt, alloc, account, event, ready);
        *seen = self.seen();
        *sure = sure_after(&reply, *sure, seen.len());
        let_go_after(repaired, &reply);
        reply
    }
}
