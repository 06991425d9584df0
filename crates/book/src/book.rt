//! What lies under the lock.

ghost use Rattle.std.specs.Prelude.{◌≡◌, ◌≢◌, ◌++◌, ◌<◌, ◌∷◌, ◌⊎◌, [], length, vec_len, map, sum, All, true, false};
ghost use Rattle.std.specs.Prelude.{OnOk, OnErr, IfOk, IfErr, Err};
ghost use Rattle.std.specs.Vec.{vec_capacity};
ghost use Rattle.std.specs.Arc.{arc_value};
ghost use mathlib.Core.List.{IsPrefix};
ghost use Rattle.model.specs.declared.refusal.Refusal.TheVariants.{Memory, Stopped};
ghost use Rattle.schedule.specs.Standing.{world_of, setup_of, stored_in};
ghost use Rattle.jobs.specs.Asking.{IsAnswerTo};
ghost use Rattle.schedule.specs.Asking.{job_asked_for};
ghost use Rattle.schedule.specs.Sweeping.{is_held};
ghost use Rattle.store.specs.Stored.{kept_at};
ghost use Rattle.events.specs.declared.reply.Reply.TheVariants.{Refused};
ghost use Rattle.history.specs.Callers.{told_stopped, knowing, stops_of, Matches};
ghost use Rattle.history.specs.Histories.{row, IsLegal};
ghost use Rattle.book.specs.Applying.{IsApplied};
ghost use Rattle.book.specs.Closing.{rows_in};
ghost use Rattle.book.specs.Keeping.{IsNew, StandsFor};

use crate::closed_history::History;
use crate::counts::{Account, Counts, Tally};
use crate::pass::Pass;
use crate::taking::take;
use closure_laws::closures_are_good;
use cores::{Asked, Cores, event_again};
use history::{Caller, FrontId, HistoryPrefix, Log, Row, StopCount};
use laws::{isolation, timed_isolation};
use model::Refusal;
use publishing::Publisher;
use schedule::{Core, Event, Ready, Reply, RunningJob, User};
use std::alloc::{AllocError, Global};
use std::marker::Model;
use std::sync::{Arc, Wait, ledger};

/// A core with the history of its calls. Whoever holds it may call [`Book::apply`] for any pass.
///
/// Wherever no two texts that the history's events hash have one folded digest, its replies are
/// those of private desks, and the core stands for the desks that the events reach. Each row is
/// published before it is told, with the core, until memory is refused for that. If that is so once the core
/// has taken an event, the book is stopped: the core is not used any more, and what was published before stays
/// to be read.
pub struct Book<J: FrontId> {
    cores: Cores,
    history: Vec<Arc<Row>>,
    calls: ledger::Book<J>,
    stops: ledger::Book<StopCount<J>>,
    spare: Counts<J>,
    log: Log<J>,
    publisher: Publisher<J>,
    stopped: bool,
}

impl<J: FrontId> Drop for Book<J> {
    fn drop(self) {
        let Book {
            cores: _,
            history: _,
            calls: _,
            stops: _,
            spare: _,
            log: _,
            publisher: _,
            stopped: _,
        } = self;
    }
}

impl<J: FrontId> Model for Book<J> {
    ghost use Rattle.std.specs.Prelude.{◌≡◌, true, false, length, map};
    ghost use Rattle.std.specs.Arc.{arc_value};
    ghost use Rattle.history.specs.Callers.{stops_of};
    ghost use Rattle.book.specs.Keeping.{Contents, Kept};

    ghost Value = { Contents };

    ghost use Rattle.std.specs.Coded.{codes};
    ghost use Rattle.model.specs.TreeCode.{tree_code};
    ghost use Rattle.indexmap.specs.Layout.{hash_map_code};

    ghost coded = { Prim.hlevel (codes, tree_code, hash_map_code) };

    ghost view = { λ b. record {
      core = b.cores;
      rows = map arc_value b.history.items;
      stopped = b.stopped;
    } };

    ghost invariant = { λ b. let rows = map arc_value b.history.items in
        Kept J.setup b.cores b.stopped rows
        × (length rows ≡ b.calls.total)
        × (b.spare.calls.parts ≡ 0) × (b.spare.calls.amount ≡ 0)
        × (b.log.rows ≡ rows) × (b.log.stopped ≡ b.stopped)
        × (b.publisher.rows ≡ rows)
        × (b.stopped ≡ false → b.publisher.whole ≡ true → b.publisher.core ≡ b.cores)
        × (b.stops.total ≡ stops_of b.stopped)
        × (b.spare.stops.parts ≡ 0) × (b.spare.stops.amount ≡ 0) };
}

/// Makes room for one more row, and the row of an event with no reply yet. The one error is memory.
fn draft(
    alloc: Global,
    history: &mut Vec<Arc<Row>>,
    pass: u64,
    event: &Event,
) -> Result<Arc<Row>, AllocError>
    ensures row { IfOk result (λ draft. arc_value draft ≡ row pass event.now (Refused Memory)) }
    ensures rows { history.new.items ≡ history.old.items }
    ensures room { OnOk result (vec_len history.new < vec_capacity history.new) }
{
    history.reserve(1)?;
    let event = event_again(event)?;
    let reply = Reply::Refused(Refusal::Memory);
    Ok(Arc::new(alloc, Row { pass, event, reply })?)
}

/// Puts a row behind the others.
fn push(history: &mut Vec<Arc<Row>>, row: Arc<Row>)
    requires { vec_len history.old < vec_capacity history.old }
    ensures { history.new.items ≡ history.old.items ++ row ∷ [] }
{
    history.push_reserved(row);
}

/// A refusal of an event that is let go.
pub(crate) fn refuse(why: Refusal, _event: Event) -> Reply
    ensures { result ≡ Refused why }
{
    Reply::Refused(why)
}

impl<J: FrontId> Book<J> {
    /// A book of a new core, with an empty history.
    pub(crate) fn of_parts(
        alloc: Global,
        cores: Cores,
        calls: ledger::Book<J>,
        stops: ledger::Book<StopCount<J>>,
        tally: Tally<J>,
        publisher: Publisher<J>,
    ) -> Book<J>
        requires core { IsNew J.setup cores }
        requires calls { (calls.total ≡ 0)
            × (tally.spare.calls.parts ≡ 0) × (tally.spare.calls.amount ≡ 0) }
        requires stops { (stops.total ≡ 0)
            × (tally.spare.stops.parts ≡ 0) × (tally.spare.stops.amount ≡ 0) }
        requires log { (tally.log.rows ≡ []) × (tally.log.stopped ≡ false) }
        requires publisher { (publisher.rows ≡ []) × (publisher.core ≡ cores) }
        ensures { result ≡ record { core = cores; rows = []; stopped = false } }
    {
        let Tally { spare, log } = tally;
        Book {
            cores,
            history: Vec::new(alloc),
            calls,
            stops,
            spare,
            log,
            publisher,
            stopped: false,
        }
    }

    /// Answers one event of a caller, with values that were made before, as [`Book::apply`] does that of a
    /// pass.
    pub(crate) fn answer<R: Wait>(
        &mut self,
        rt: &R,
        alloc: Global,
        account: &mut Account<J>,
        event: Event,
        ready: Ready,
    ) -> Reply
        requires part { account.old.stops.parts ≡ 1 }
        ensures applied { IsApplied J.setup J.parts event result self.old account.old.caller
            account.old.stops.amount self.new account.new.caller account.new.stops.amount }
        ensures part { account.new.stops.parts ≡ 1 }
    {
        let Account {
            caller: pass,
            stops: part,
        } = account;
        isolation();
        timed_isolation();
        closures_are_good();
        let Book {
            cores,
            history,
            calls,
            stops,
            log,
            publisher,
            stopped,
            ..
        } = self;
        pass.compare(log);
        pass.audit(calls);
        stops.audit(part);
        if *stopped {
            return refuse(Refusal::Stopped, event);
        }
        let Ok(draft) = draft(alloc, history, pass.number(), &event) else {
            cores.empty_cache();
            return refuse(Refusal::Memory, event);
        };
        let asked = Asked {
            event,
            draft,
            ready,
        };
        let answered = match take(rt, alloc, cores, publisher, asked) {
            Ok(answered) => answered,
            Err(why) => return Reply::Refused(why),
        };
        let Some((reply, row)) = answered else {
            *stopped = true;
            log.stop();
            stops.add(part, 1);
            return Reply::Refused(Refusal::Memory);
        };
        pass.add_row(calls, log, &*row);
        push(history, row);
        reply
    }

    /// The job that a user's goal of a number leads, and what it is built from, for a pass. There is
    /// no row of it, and the book stays as it is.
    ///
    /// # Errors
    ///
    /// - `Stopped` exactly where the book is stopped. The pass knows it then.
    /// - Else those of [`Core::request`].
    pub(crate) fn request(
        &mut self,
        account: &mut Account<J>,
        user: &User,
        number: u16,
    ) -> Result<RunningJob, Refusal>
        requires part { account.old.stops.parts ≡ 1 }
        ensures value { self.old.stopped ≡ false
            → IsAnswerTo (job_asked_for self.old.core user.now number) result }
        ensures stopped { self.old.stopped ≡ true → result ≡ Err Stopped }
        ensures only_then { result ≡ Err Stopped → self.old.stopped ≡ true }
        ensures matches { Matches self.old.rows self.old.stopped account.old.caller }
        // The only pass knows all rows.
        ensures alone { J.parts ≡ 1 → account.old.caller.sure ≡ self.old.rows }
        ensures told { result ≡ Err Stopped
            → account.new.caller ≡ told_stopped account.old.caller }
        ensures going { result ≢ Err Stopped → account.new.caller ≡ account.old.caller }
        // The only pass knows whether the book is stopped: a call of its own stopped it.
        ensures stops_alone { J.parts ≡ 1 → account.old.stops.amount ≡ stops_of self.old.stopped }
        ensures part { (account.new.stops.parts ≡ 1)
            × (account.new.stops.amount ≡ account.old.stops.amount) }
        ensures stays { self.new ≡ self.old }
        ensures legal { IsLegal J.setup self.old.rows }
        ensures given { setup_of self.old.core ≡ J.setup }
        ensures reached { self.old.stopped ≡ false
            → StandsFor J.setup self.old.core self.old.rows }
    {
        isolation();
        timed_isolation();
        closures_are_good();
        let Account {
            caller: pass,
            stops: part,
        } = account;
        let Book {
            cores,
            calls,
            stops,
            log,
            stopped,
            ..
        } = self;
        pass.compare(log);
        pass.audit(calls);
        stops.audit(part);
        if *stopped {
            return Err(Refusal::Stopped);
        }
        cores.shown().request(user, number)
    }

    /// Has the core keep the paths that a desk holds, or that a goal keeps which is planned or is being
    /// built, and no others, as [`Core::sweep`] does, and publishes it. There is no row of it, and no reply
    /// changes. It may wait for readers of what was published before. The core that was shown before, which
    /// shares all trees, is swept by the next call that needs it.
    ///
    /// # Errors
    ///
    /// - `Stopped` exactly where the book is stopped. Nothing has changed then.
    /// - `Memory` only where memory was refused. The core may not be swept then.
    pub fn sweep<R: Wait>(&mut self, rt: &R, alloc: Global) -> Result<(), Refusal>
        ensures swept { OnOk result (stored_in self.new.core
            ≡ kept_at (is_held self.old.core) (stored_in self.old.core)) }
        ensures kept { OnErr result ((stored_in self.new.core ≡ stored_in self.old.core)
            ⊎ (stored_in self.new.core
            ≡ kept_at (is_held self.old.core) (stored_in self.old.core))) }
        ensures world { world_of self.new.core ≡ world_of self.old.core }
        ensures rows { self.new.rows ≡ self.old.rows }
        ensures stays { self.new.stopped ≡ self.old.stopped }
        ensures stopped { self.old.stopped ≡ true → (result ≡ Err Stopped) × (self.new ≡ self.old) }
        ensures refused { IfErr result (λ e. (e ≡ Memory)
            ⊎ ((e ≡ Stopped) × (self.old.stopped ≡ true))) }
    {
        isolation();
        timed_isolation();
        closures_are_good();
        if self.stopped {
            return Err(Refusal::Stopped);
        }
        let Book {
            cores,
            publisher,
            ..
        } = self;
        if !publisher.settle(rt) {
            return Err(Refusal::Memory);
        }
        cores.sweep(alloc)?;
        if !publisher.change(rt, alloc, cores.owner()) {
            return Err(Refusal::Memory);
        }
        Ok(())
    }

    /// The rows, the oldest first.
    pub fn rows(&self) -> &[Arc<Row>]
        ensures rows { map arc_value result.now ≡ self.now.rows }
        ensures legal { IsLegal J.setup self.now.rows }
    {
        isolation();
        timed_isolation();
        closures_are_good();
        self.history.as_slice()
    }

    /// The core. Unless the book is stopped, it stands for the desks that the history's events reach.
    pub fn core(&self) -> &Core
        ensures core { result.now ≡ self.now.core }
        ensures given { setup_of self.now.core ≡ J.setup }
        ensures reached { self.now.stopped ≡ false
            → StandsFor J.setup self.now.core self.now.rows }
    {
        self.cores.shown()
    }

    /// How many values the steps had to make, as [`Core::computed`] counts them.
    pub(crate) fn computed(&self) -> u64 {
        self.cores.computed()
    }

    /// Whether memory was refused once the core had taken an event. Then [`Book::apply`] answers 92.
    pub fn is_stopped(&self) -> bool
        ensures { result ≡ self.now.stopped }
    {
        self.stopped
    }

    /// All rows, as a pass may have seen them.
    pub(crate) fn seen(&self) -> HistoryPrefix
        ensures { (result.seen.log ≡ self.now.rows) × (result.seen.book ≡ J.book) }
    {
        self.publisher.seen()
    }

    /// Compares what a pass knows, and tells it whether the book is stopped.
    pub(crate) fn compare(&mut self, pass: &mut Caller<J>)
        ensures matches { Matches self.old.rows self.old.stopped pass.old }
        ensures knows { pass.new ≡ knowing self.old.stopped pass.old }
        ensures same { self.new ≡ self.old }
    {
        pass.compare(&mut self.log);
    }

    /// The history. The passes are all that there are. It waits for readers of what was published.
    pub(crate) fn end<R: Wait>(self, rt: &R, passes: Vec<Pass<J>>) -> History
        requires { length passes.items ≡ J.parts }
        ensures rows { rows_in result ≡ self.rows }
        ensures legal { IsLegal J.setup (rows_in result) }
        ensures count { length (rows_in result) ≡ sum (map (λ p. p.caller.calls) passes.items) }
        ensures stopped { result.stopped ≡ self.stopped }
        ensures stops { sum (map (λ p. p.stops) passes.items) ≡ stops_of result.stopped }
        ensures matches { All (λ p. Matches (rows_in result) result.stopped p.caller) passes.items }
        ensures seen { All (λ p. IsPrefix p.seen (rows_in result)) passes.items }
    {
        isolation();
        timed_isolation();
        closures_are_good();
        let Book {
            cores,
            history,
            mut calls,
            mut stops,
            spare,
            mut log,
            publisher,
            stopped,
        } = self;
        let rows = publisher.seen();
        let mut all = merged(rt, spare, passes, &mut log, &rows);
        calls.audit(&mut all.calls);
        stops.audit(&mut all.stops);
        publisher.take(rt);
        History {
            rows: history,
            stopped,
            cores: Some(cores),
        }
    }
}

/// The parts of all passes, and those of a share that has none. What each pass knows is compared
/// with what is recorded, and what it has seen with all rows.
fn merged<J: FrontId, R: Wait>(
    rt: &R,
    mut all: Counts<J>,
    mut passes: Vec<Pass<J>>,
    log: &mut Log<J>,
    rows: &HistoryPrefix,
) -> Counts<J>
    requires all { (all.calls.parts ≡ 0) × (all.calls.amount ≡ 0) }
    requires stops { (all.stops.parts ≡ 0) × (all.stops.amount ≡ 0) }
    requires rows { rows.now.seen.book ≡ J.book }
    ensures parts { result.calls.parts ≡ length passes.items }
    ensures amount { result.calls.amount ≡ sum (map (λ p. p.caller.calls) passes.items) }
    ensures stop_parts { result.stops.parts ≡ length passes.items }
    ensures stops { result.stops.amount ≡ sum (map (λ p. p.stops) passes.items) }
    ensures matches { All (λ p. Matches log.old.rows log.old.stopped p.caller) passes.items }
    ensures seen { All (λ p. IsPrefix p.seen rows.now.seen.log) passes.items }
{
    while let Some(pass) = passes.pop() {
        let Account { mut caller, stops } = pass.into_account(rt, rows);
        caller.compare(log);
        all.calls.merge(caller.into_calls());
        all.stops.merge(stops);
    }
    all
}
