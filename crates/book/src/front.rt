//! What threads share.

ghost use Rattle.std.specs.Prelude.{◌≡◌, ◌*◌, ◌<◌, ◌≤◌, ◌⊎◌, [], true, false, drop, length, map, sum, All, IfOk, IfErr, Err};
ghost use Rattle.model.specs.Limits.{most_passes};
ghost use mathlib.Core.List.{IsPrefix};
ghost use Rattle.left_right.specs.Sides.{view};
ghost use Rattle.model.specs.declared.refusal.Refusal.TheVariants.{Memory, Stopped};
ghost use Rattle.events.specs.declared.reply.Reply.TheVariants.{Refused};
ghost use Rattle.history.specs.NewFronts.{AreTokensOf};
ghost use Rattle.history.specs.Callers.{knowing, stops_of, below, rows_of, new_pass};
ghost use Rattle.history.specs.Tokens.{nothing_recorded};
ghost use Rattle.history.specs.Histories.{IsLegal};
ghost use Rattle.publishing.specs.FrontNames.{name_of};
ghost use Rattle.publishing.specs.Tied.{knower};
ghost use Rattle.book.specs.Applying.{HasCalled};
ghost use Rattle.book.specs.Asking.{HasAsked};
ghost use Rattle.book.specs.Closing.{rows_in};
ghost use Rattle.book.specs.Keeping.{IsNew};

use crate::book::{Book, refuse};
use crate::closed_history::History;
use crate::counts::{Account, Counts, Tally};
use crate::pass::Pass;
use cores::Cores;
use history::{Caller, FrontId, FrontTokens, HistoryPrefix, StopCount};
use model::Refusal;
use publishing::{Publisher, Snapshot, SnapshotWriter, begin, reader_of};
use schedule::{Core, Event, Ready, Reply, RunningJob, User};
use std::alloc::Global;
use std::num::NonZeroUsize;
use std::sync::{Arc, Mutex, MutexGuard, Wait};

/// How many repaired records the passes of a front keep at most, all together: as many as a closure may
/// have entries.
const MOST_REPAIRED: usize = 1_024;

/// How many bytes they count at most: 40 MiB, so that it is 56 MiB with those of the two cores, 8 MiB each.
const MOST_REPAIRED_BYTES: u32 = 41_943_040;

/// A core with the history of its calls, under a lock, and what is published of it. Threads share it by
/// reference, and each calls it through a [`Pass`] of its own.
pub struct Front<J: FrontId> {
    book: Mutex<Book<J>>,
}

impl<J: FrontId> Drop for Front<J> {
    fn drop(self) {
        let Front { book: _ } = self;
    }
}

/// While it lasts, no call is answered. Reads are.
pub struct Hold<'a, J: FrontId> {
    _book: MutexGuard<'a, Book<J>>,
}

impl<J: FrontId> Drop for Hold<'_, J> {
    fn drop(self) {
        let Hold { _book: _ } = self;
    }
}

/// How many repaired records each of so many passes keeps at most.
fn most_repaired(n: u64) -> NonZeroUsize
    requires { 0 < n }
{
    NonZeroUsize::new(MOST_REPAIRED / n as usize).unwrap_or(NonZeroUsize::MIN)
}

/// How many bytes they count at most.
fn most_repaired_bytes(n: u64) -> u32
    requires { 0 < n }
    // All together they count 40 MiB at most.
    ensures { result * n ≤ 41943040 }
{
    (u64::from(MOST_REPAIRED_BYTES) / n) as u32
}

/// So many passes, each with a part of the count and a reader.
fn passes_of<J: FrontId>(
    alloc: Global,
    core: &Core,
    n: u64,
    tally: &mut Tally<J>,
    writer: &mut SnapshotWriter,
    none: &HistoryPrefix,
) -> Result<Vec<Pass<J>>, Refusal>
    requires some { 0 < n }
    requires calls { (tally.old.spare.calls.parts ≡ n) × (tally.old.spare.calls.amount ≡ 0) }
    requires stops { (tally.old.spare.stops.parts ≡ n) × (tally.old.spare.stops.amount ≡ 0) }
    requires log { tally.old.log ≡ nothing_recorded }
    requires none { (none.now.seen.log ≡ []) × (none.now.seen.book ≡ J.book) }
    requires knows { view writer.old.desk.place ≡ knower (name_of J.book J.setup) }
    ensures passes { IfOk result (λ passes. passes.items ≡ map new_pass (below n)) }
    ensures writer { (writer.new.desk.shown ≡ writer.old.desk.shown)
        × (writer.new.log ≡ writer.old.log) × (writer.new.behind ≡ writer.old.behind) }
    ensures calls { IfOk result (λ _.
        (tally.new.spare.calls.parts ≡ 0) × (tally.new.spare.calls.amount ≡ 0)) }
    ensures stops { IfOk result (λ _.
        (tally.new.spare.stops.parts ≡ 0) × (tally.new.spare.stops.amount ≡ 0)) }
    ensures log { (tally.new.log.rows ≡ []) × (tally.new.log.stopped ≡ false) }
    ensures memory { IfErr result (λ why. why ≡ Memory) }
{
    let most = most_repaired(n);
    let most_bytes = most_repaired_bytes(n);
    let mut passes = Vec::new(alloc);
    for number in 0..n {
        let calls = tally.spare.calls.split_off(1, 0);
        let stops = tally.spare.stops.split_off(1, 0);
        let reader = reader_of(writer)?;
        let caller = Caller::new(number, calls, tally.log.next_claim());
        let repaired = core.cache_for(alloc, most, most_bytes)?;
        let account = Account { caller, stops };
        passes.push(Pass::new(account, none.clone(), reader, repaired, most_bytes, alloc))?;
    }
    Ok(passes)
}

/// A writer of two snapshots of a core, which is new, with a place for each of so many readers.
fn writer_of<J: FrontId, R: Wait>(
    rt: &R,
    alloc: Global,
    cores: &Cores,
    none: &HistoryPrefix,
    readers: usize,
) -> Result<SnapshotWriter, Refusal>
    requires core { IsNew J.setup cores.now }
    requires none { (none.now.seen.log ≡ []) × (none.now.seen.book ≡ J.book) }
    requires readers { (0 < readers) × (readers ≤ most_passes) }
    ensures core { IfOk result (λ writer. writer.desk.shown.value.core ≡ cores.now) }
    ensures rows { IfOk result (λ writer. writer.desk.shown.value.seen ≡ []) }
    ensures name { IfOk result (λ writer.
        writer.desk.shown.value.name ≡ name_of J.book J.setup) }
    ensures ready { IfOk result (λ writer. drop writer.behind writer.log.items ≡ []) }
    ensures knows { IfOk result (λ writer.
        view writer.desk.place ≡ knower (name_of J.book J.setup)) }
    ensures memory { IfErr result (λ why. why ≡ Memory) }
{
    let first = Snapshot::new(alloc, Arc::try_clone(cores.owner())?, none.clone());
    let second = Snapshot::new(alloc, Arc::try_clone(cores.owner())?, none.clone());
    let writer = SnapshotWriter::new(alloc, first, second, readers)?;
    let (writer, knows) = begin(rt, writer);
    if knows {
        return Ok(writer);
    }
    writer.take(rt);
    Err(Refusal::Memory)
}

impl<J: FrontId> Book<J> {
    /// A book over a new core, and its passes, of the numbers 0 to n - 1. It makes another core, and publishes
    /// this one, so it may wait.
    ///
    /// The core is as [`Core::new`] gave it, and the book is named for its users and limits. There
    /// are 1 to 64 passes, and the tokens have as many parts.
    ///
    /// # Errors
    ///
    /// - `Memory` only where memory was refused.
    pub fn new<R: Wait>(
        rt: &R,
        alloc: Global,
        blank: FrontTokens,
        core: Core,
        n: u64,
    ) -> Result<(Book<J>, Vec<Pass<J>>), Refusal>
        requires core { IsNew J.setup core }
        requires blank { AreTokensOf J.name J.parts J.stops J.table J.book blank }
        requires parts { J.parts ≡ n }
        requires some { (0 < n) × (n ≤ most_passes) }
        ensures book { IfOk result (λ made. made.0 ≡ record { core = core; rows = []; stopped = false }) }
        ensures passes { IfOk result (λ made. made.1.items ≡ map new_pass (below n)) }
        ensures memory { IfErr result (λ why. why ≡ Memory) }
    {
        let FrontTokens {
            calls,
            stops,
            log,
            rows,
        } = blank;
        let (calls, all_calls) = calls.open::<J>();
        let (stops, all_stops) = stops.open::<StopCount<J>>();
        let spare = Counts {
            calls: all_calls,
            stops: all_stops,
        };
        let mut tally = Tally {
            spare,
            log: log.named::<J>(),
        };
        let (head, none) = rows.named::<J>();
        let cores = Cores::new(alloc, core)?;
        let mut writer = writer_of::<J, R>(rt, alloc, &cores, &none, n as usize)?;
        match passes_of(alloc, cores.shown(), n, &mut tally, &mut writer, &none) {
            Ok(passes) => {
                let publisher = Publisher::new(head, none, writer);
                let book = Book::of_parts(alloc, cores, calls, stops, tally, publisher);
                Ok((book, passes))
            }
            Err(why) => {
                writer.take(rt);
                Err(why)
            }
        }
    }
}

impl<J: FrontId> Front<J> {
    /// A front over a new core, and its passes, of the numbers 0 to n - 1: the book that [`Book::new`] gives,
    /// under a lock. It may wait.
    ///
    /// The core is as [`Core::new`] gave it, and the front is named for its users and limits. There
    /// are 1 to 64 passes, and the tokens have as many parts.
    ///
    /// # Errors
    ///
    /// - `Memory` only where memory was refused.
    pub fn new<R: Wait>(
        rt: &R,
        alloc: Global,
        blank: FrontTokens,
        core: Core,
        n: u64,
    ) -> Result<(Front<J>, Vec<Pass<J>>), Refusal>
        requires core { IsNew J.setup core }
        requires blank { AreTokensOf J.name J.parts J.stops J.table J.book blank }
        requires parts { J.parts ≡ n }
        requires some { (0 < n) × (n ≤ most_passes) }
        ensures passes { IfOk result (λ made. made.1.items ≡ map new_pass (below n)) }
        ensures memory { IfErr result (λ why. why ≡ Memory) }
    {
        let (book, passes) = Book::new(rt, alloc, blank, core, n)?;
        let book = Mutex::new(book);
        Ok((Front { book }, passes))
    }

    /// Answers one event of a pass. It makes what the event needs ([`Pass::prepare`]), then takes the lock
    /// ([`Front::commit`]), so it may wait.
    ///
    /// The reply is that of [`Book::apply`]. After a call that has a row the sure rows of the pass, which
    /// are then what it has seen, begin with all that it had seen, end with that row, and are legal; those
    /// of the only pass are the old ones and that row. There is no row at 90 `Memory`, which leaves what
    /// the pass knows of its calls, and at 92 `Stopped`, after which the pass knows that the front is
    /// stopped: each later call of it is answered 92, or 90 where memory is refused before the lock is
    /// taken. Only a call that is answered 90 stops the front. What the pass has seen is only lengthened.
    pub fn call<R: Wait>(&self, rt: &R, alloc: Global, pass: &mut Pass<J>, event: Event) -> Reply
        ensures called { HasCalled J.setup J.parts pass.old event result pass.new }
        ensures remains { pass.old.caller.stopped ≡ true
            → (result ≡ Refused Stopped) ⊎ (result ≡ Refused Memory) }
    {
        match pass.prepare(&event) {
            Ok(ready) => self.commit(rt, alloc, pass, event, ready),
            Err(why) => refuse(why, event),
        }
    }

    /// Answers one event of a pass under the lock, as [`Front::call`] does, with values that were made
    /// before. Whatever they are, they make no difference but that less is done under the lock. A pass that
    /// knows that the front is stopped is answered 92.
    pub fn commit<R: Wait>(
        &self,
        rt: &R,
        alloc: Global,
        pass: &mut Pass<J>,
        event: Event,
        ready: Ready,
    ) -> Reply
        ensures called { HasCalled J.setup J.parts pass.old event result pass.new }
        ensures remains { pass.old.caller.stopped ≡ true → result ≡ Refused Stopped }
    {
        self.book.lock(rt).apply(rt, alloc, pass, event, ready)
    }

    /// The job that a user's goal of a number leads, and what it is built from, for a pass. It takes
    /// the lock, so it may wait. It makes no row, and shares all that is large.
    ///
    /// What is told is so after rows that are a legal history, begin with all that the pass had seen, and
    /// are what it has seen then; where it is the only pass, after exactly its sure rows. The closure that
    /// the job is built from was found by an event among them that planned the goal: it serves no class by
    /// two paths, has an entry for each label of its entries, and keeps no hash part of a path that another
    /// one replaces. Nothing else changes of what the pass knows, but at `Stopped`.
    ///
    /// # Errors
    ///
    /// They are looked for in this order, and all but the last are told whether there is memory or
    /// not.
    ///
    /// - `Stopped` where the front is stopped. The pass knows it then: each later call of it is
    ///   answered so too.
    /// - `UnknownUser`, `UnknownGoal` and `WrongState` where the user is none of the run, has no goal
    ///   of that number, or the goal leads no job that is built now.
    /// - `Memory` only where memory was refused.
    pub fn request<R: Wait>(
        &self,
        rt: &R,
        pass: &mut Pass<J>,
        user: &User,
        number: u16,
    ) -> Result<RunningJob, Refusal>
        ensures { HasAsked J.setup J.parts pass.old user.now number result pass.new }
    {
        pass.request(rt, &mut *self.book.lock(rt), user, number)
    }

    /// Takes the lock and adds no row. Then the pass has seen all rows that were published, and knows whether the
    /// front is stopped, which is told. Nothing else of what it knows of its calls changes.
    pub fn show<R: Wait>(&self, rt: &R, pass: &mut Pass<J>) -> bool
        ensures told { result ≡ pass.new.caller.stopped }
        ensures caller { pass.new.caller ≡ knowing pass.new.caller.stopped pass.old.caller }
        ensures remains { pass.old.caller.stopped ≡ true → pass.new.caller.stopped ≡ true }
        ensures seen { IsPrefix pass.old.seen pass.new.seen }
        ensures stops { pass.new.stops ≡ pass.old.stops }
    {
        let mut book = self.book.lock(rt);
        pass.show(&mut *book);
        book.is_stopped()
    }

    /// Takes the lock until it is let go, and changes nothing.
    pub fn hold<R: Wait>(&self, rt: &R) -> Hold<'_, J> {
        Hold {
            _book: self.book.lock(rt),
        }
    }

    /// Gives back the trees that no desk holds and that no goal keeps which is planned or is being built,
    /// as [`Book::sweep`] does. It takes the lock, so it may wait. It is no event: there is no row of it,
    /// and no reply changes.
    ///
    /// # Errors
    ///
    /// - `Stopped` where the front is stopped.
    /// - `Memory` only where memory was refused. Not all may be given back then.
    pub fn sweep<R: Wait>(&self, rt: &R, alloc: Global) -> Result<(), Refusal>
        ensures { IfErr result (λ why. (why ≡ Memory) ⊎ (why ≡ Stopped)) }
    {
        self.book.lock(rt).sweep(rt, alloc)
    }

    /// How many values had to be made under the lock: paths of sources, admitted derivations, settled trees and
    /// repaired records, as [`Core::computed`] counts them. It takes the lock, so it may wait.
    pub fn computed<R: Wait>(&self, rt: &R) -> u64 {
        self.book.lock(rt).computed()
    }

    /// How many paths the core stores. It takes the lock, so it may wait.
    pub fn stored<R: Wait>(&self, rt: &R) -> u64 {
        self.book.lock(rt).core().stored()
    }

    /// The history. The passes are all that [`Front::new`] gave with the front, so it has a row for
    /// each of their calls that was answered otherwise than with 90 and 92, and no other. It begins
    /// with the sure rows of each pass and with what it has seen, and says that the front was stopped
    /// exactly if a call of one of them stopped it. It waits for readers of what was published.
    pub fn close<R: Wait>(self, rt: &R, passes: Vec<Pass<J>>) -> History
        requires { length passes.items ≡ J.parts }
        ensures legal { IsLegal J.setup (rows_in result) }
        ensures rows { length (rows_in result) ≡ sum (map (λ p. p.caller.calls) passes.items) }
        ensures sure { All (λ p. IsPrefix p.caller.sure (rows_in result)) passes.items }
        ensures seen { All (λ p. IsPrefix p.seen (rows_in result)) passes.items }
        ensures each { All (λ p. rows_of p.caller.number (rows_in result) ≡ p.caller.calls)
            passes.items }
        ensures stopped { All (λ p. p.caller.stopped ≡ true → result.stopped ≡ true) passes.items }
        ensures stops { sum (map (λ p. p.stops) passes.items) ≡ stops_of result.stopped }
    {
        let Front { book } = self;
        book.into_inner().end(rt, passes)
    }
}
