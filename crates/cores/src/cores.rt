//! The two cores, which are shown in turn.

ghost use Rattle.std.specs.Prelude.{◌≡◌, [], true, false, IfOk, IfErr, IfSome, IfNone, MatchBool, OnOk, OnErr, List, ℕ};
ghost use Rattle.std.specs.Arc.{arc_value};
ghost use Rattle.model.specs.declared.refusal.Refusal.TheVariants.{Memory};
ghost use Rattle.model.specs.Worlds.{nothing};
ghost use Rattle.model.specs.Events.{is_query};
ghost use Rattle.model.specs.Replies.{is_refused};
ghost use Rattle.events.specs.Terms.{reply_of, request_of};
ghost use Rattle.events.specs.declared.reply.Reply.TheVariants.{Refused};
ghost use Rattle.schedule.specs.Standing.{world_of, setup_of, stored_in, HasHashed, IsUnchanged};
ghost use Rattle.schedule.specs.Sweeping.{is_held};
ghost use Rattle.store.specs.Stored.{kept_at};
ghost use Rattle.history.specs.Histories.{row, event_in, unrecorded};
ghost use Rattle.cores.specs.Turns.{HasTaken, IsSwept, CatchesUp, Steps, TookEvent, changes_nothing};
ghost use Rattle.cores.specs.declared.lag.Lag.TheVariants.{Nothing, Row as LackedRow};

use crate::lag::Lag;
use events::Request;
use history::Row;
use laws::queries_change_nothing;
use model::Refusal;
use schedule::{Core, Event, Ready, Reply};
use std::alloc::{AllocError, Global};
use std::marker::Model;
use std::mem::swap;
use std::sync::Arc;

/// Two cores of one run. What is published has the one that is shown; the other one takes the next event, once
/// it has taken what it lacks and nothing that is published has it, and then it is the one that is shown.
/// Contracts see the one that is shown.
pub struct Cores {
    shown: Arc<Core>,
    other: Arc<Core>,
    lag: Lag,
    /// What was made for the event that the other one lacks.
    ready: Ready,
}

impl Drop for Cores {
    fn drop(self) {
        let Cores {
            shown: _,
            other: _,
            lag: _,
            ready: _,
        } = self;
    }
}

impl Model for Cores {
    ghost use Rattle.std.specs.Arc.{arc_value};
    ghost use Rattle.schedule.specs.declared.state.Core.{Core};
    ghost use Rattle.cores.specs.Turns.{Behind};

    ghost Value = { Core };

    ghost use Rattle.std.specs.Coded.{codes};
    ghost use Rattle.model.specs.TreeCode.{tree_code};
    ghost use Rattle.indexmap.specs.Layout.{hash_map_code};

    ghost coded = { Prim.hlevel (codes, tree_code, hash_map_code) };

    ghost view = { λ c. arc_value c.shown };

    ghost invariant = { λ c. Behind c.lag (arc_value c.other) (arc_value c.shown) };
}

/// An event that one of the cores is to take.
#[derive(Drop)]
pub struct Asked {
    pub event: Event,
    /// The row that it is to have, with no reply yet.
    pub draft: Arc<Row>,
    /// What was made for it before.
    pub ready: Ready,
}

/// A copy of an event.
pub fn event_again(event: &Event) -> Result<Event, AllocError>
    ensures { IfOk result (λ copy. copy ≡ event.now) }
{
    event.clone()
}

/// Why a reply has no row, if it has none.
fn want_in(reply: &Reply) -> Option<Refusal>
    ensures want { IfSome result (λ why. (reply.now ≡ Refused why) × (unrecorded reply.now ≡ true)) }
    ensures none { IfNone result (unrecorded reply.now ≡ false) }
{
    match reply {
        Reply::Refused(why) => match why {
            Refusal::Memory | Refusal::Stopped => Some(*why),
            _ => None,
        },
        _ => None,
    }
}

/// Whether a reply is a refusal.
fn is_refused(reply: &Reply) -> bool
    ensures { result ≡ is_refused (reply_of reply.now) }
{
    matches!(reply, Reply::Refused(_))
}

/// Writes the reply into a row that nobody else has, and gives it to be shared.
fn complete(draft: &mut Arc<Row>, reply: Reply) -> Option<Arc<Row>>
    ensures row { IfSome result (λ shared. (arc_value shared ≡ arc_value draft.new)
        × (arc_value draft.new ≡ row (arc_value draft.old).pass (arc_value draft.old).event reply)) }
{
    let row = Arc::get_mut(draft)?;
    row.reply = reply;
    Arc::try_clone(draft).ok()
}

/// Whether an event changes nothing that there is, whatever its reply.
fn is_query(event: &Event) -> bool
    ensures { result ≡ is_query (request_of event.now.request) }
{
    matches!(
        event.request,
        Request::Fetch(_) | Request::Closure(_) | Request::Status(_)
    )
}

/// What a core lacks of one that took the event of a row: nothing where that was refused, or changes nothing.
fn lag_after(row: Arc<Row>) -> Lag
    ensures { MatchBool (changes_nothing (arc_value row)) (result ≡ Nothing) (result ≡ LackedRow row) }
{
    if is_refused(&row.reply) || is_query(&row.event) {
        Lag::Nothing
    } else {
        Lag::Row(row)
    }
}

/// Lets a core take the event of a row that was not refused. The error is want of memory, at which it is as it
/// was.
fn take_row(alloc: Global, core: &mut Core, row: &Row, ready: &mut Ready) -> Result<(), AllocError>
    ensures taken { OnOk result (HasTaken core.old (event_in row.now) core.new) }
    ensures same { OnErr result (IsUnchanged core.old core.new) }
{
    let event = event_again(&row.event)?;
    let reply = core.step_ready_with_copy(alloc, event, ready).into_reply();
    if is_refused(&reply) {
        return Err(AllocError);
    }
    Ok(())
}

/// Sweeps a core. The error is want of memory, at which it is as it was.
fn sweep(alloc: Global, core: &mut Core) -> Result<(), AllocError>
    ensures swept { OnOk result (IsSwept core.old core.new) }
    ensures same { OnErr result (IsUnchanged core.old core.new) }
    ensures hashed { (texts : List (List ℕ)) → HasHashed texts core.old → HasHashed texts core.new }
{
    match core.sweep(alloc) {
        Ok(()) => Ok(()),
        Err(_) => Err(AllocError),
    }
}

/// Lets a core take what it lacks of another one. The error is want of memory, at which it is as it was.
fn catch_up(alloc: Global, core: &mut Core, lag: &Lag, ready: &mut Ready) -> Result<(), AllocError>
    ensures caught { OnOk result (CatchesUp lag.now core.old core.new) }
    ensures same { OnErr result (IsUnchanged core.old core.new) }
{
    match lag {
        Lag::Nothing => Ok(()),
        Lag::Row(row) => take_row(alloc, core, &**row, ready),
        Lag::Sweep => sweep(alloc, core),
        Lag::Unknown => Err(AllocError),
    }
}

/// Lets a core that nobody else has take what it lacks of another one, and lets what was made for that go, so
/// that it shares nothing with the core any more. The error is want of memory, or that it has another owner, at
/// which it is as it was.
fn bring_up(
    alloc: Global,
    other: &mut Arc<Core>,
    lag: &mut Lag,
    ready: &mut Ready,
) -> Result<(), AllocError>
    ensures caught { OnOk result (CatchesUp lag.old (arc_value other.old) (arc_value other.new)) }
    ensures nothing { OnOk result (lag.new ≡ Nothing) }
    ensures same { OnErr result (IsUnchanged (arc_value other.old) (arc_value other.new)) }
    ensures kept { OnErr result (lag.new ≡ lag.old) }
{
    let Some(core) = Arc::get_mut(other) else {
        return Err(AllocError);
    };
    catch_up(alloc, core, &*lag, ready)?;
    *lag = Lag::Nothing;
    *ready = Ready::none(alloc);
    Ok(())
}

/// Lets the repaired records of a core go that nobody else has.
fn empty_cache_of(core: &mut Arc<Core>)
    ensures { IsUnchanged (arc_value core.old) (arc_value core.new) }
{
    let Some(core) = Arc::get_mut(core) else {
        return;
    };
    core.empty_cache();
}

impl Cores {
    /// A new core, which is shown, and another one of the same run. The one error is memory.
    pub fn new(alloc: Global, core: Core) -> Result<Cores, Refusal>
        requires { (world_of core ≡ nothing) × (stored_in core ≡ []) }
        ensures core { IfOk result (λ cores. cores ≡ core) }
        ensures memory { IfErr result (λ why. why ≡ Memory) }
    {
        let other = Arc::new(alloc, core.another(alloc)?)?;
        let shown = Arc::new(alloc, core)?;
        Ok(Cores {
            shown,
            other,
            lag: Lag::Nothing,
            ready: Ready::none(alloc),
        })
    }

    /// The core that is shown.
    pub fn shown(&self) -> &Core
        ensures { result.now ≡ self.now }
    {
        &*self.shown
    }

    /// The core that is shown, to be shared.
    pub fn owner(&self) -> &Arc<Core>
        ensures { arc_value result.now ≡ self.now }
    {
        &self.shown
    }

    /// How many values the steps of both had to make, as [`Core::computed`] counts them.
    pub fn computed(&self) -> u64 {
        self.shown.computed().saturating_add(self.other.computed())
    }

    /// Lets the repaired records go that the steps of the core which is not shown used last.
    pub fn empty_cache(&mut self)
        ensures { self.new ≡ self.old }
    {
        empty_cache_of(&mut self.other);
    }

    /// Lets the other core take an event, once it has taken what it lacks, and shows it. The reply is given with
    /// the row, to be shared. There is none where the core has taken the event, and memory is refused for sharing
    /// the row; then no event can be taken any more.
    ///
    /// # Errors
    ///
    /// Nothing has changed then.
    ///
    /// - `Memory` where memory was refused, or somebody has the other core still.
    #[tactic(auto, using(crate::proofs::ReplyLemmas::wants_memory))]
    pub fn take(
        &mut self,
        alloc: Global,
        asked: Asked,
    ) -> Result<Option<(Reply, Arc<Row>)>, Refusal>
        requires { (arc_value asked.draft).event ≡ asked.event }
        ensures row { IfOk result (λ found. IfSome found (λ p.
            arc_value p.1 ≡ row (arc_value asked.draft).pass asked.event p.0)) }
        ensures some { IfOk result (λ found. IfSome found (λ p. unrecorded p.0 ≡ false)) }
        ensures step { IfOk result (λ found. IfSome found (λ p.
            Steps self.old asked.event p.0 self.new)) }
        ensures lost { IfOk result (λ found. IfNone found (TookEvent self.old asked.event self.new)) }
        ensures given { setup_of self.new ≡ setup_of self.old }
        ensures refused { IfErr result (λ why. self.new ≡ self.old) }
        ensures memory { IfErr result (λ why. why ≡ Memory) }
    {
        let Cores {
            shown,
            other,
            lag,
            ready: made,
        } = self;
        let Asked {
            event,
            mut draft,
            mut ready,
        } = asked;
        queries_change_nothing();
        bring_up(alloc, other, lag, made)?;
        let Some(core) = Arc::get_mut(other) else {
            return Err(Refusal::Memory);
        };
        let (reply, copy) = core
            .step_ready_with_copy(alloc, event, &mut ready)
            .into_both();
        if let Some(why) = want_in(&reply) {
            return Err(why);
        }
        swap(shown, other);
        *made = ready;
        let Some(row) = complete(&mut draft, copy) else {
            *lag = Lag::Unknown;
            return Ok(None);
        };
        *lag = lag_after(row);
        Ok(Some((reply, draft)))
    }

    /// Sweeps the other core, once it has taken what it lacks, and shows it.
    ///
    /// # Errors
    ///
    /// Nothing has changed then.
    ///
    /// - `AllocError` where memory was refused, or what is published has the other core still.
    pub fn sweep(&mut self, alloc: Global) -> Result<(), AllocError>
        ensures swept { OnOk result (stored_in self.new ≡ kept_at (is_held self.old) (stored_in self.old)) }
        ensures world { world_of self.new ≡ world_of self.old }
        ensures setup { setup_of self.new ≡ setup_of self.old }
        ensures hashed { (texts : List (List ℕ)) → HasHashed texts self.old → HasHashed texts self.new }
        ensures kept { OnErr result (self.new ≡ self.old) }
    {
        let Cores {
            shown,
            other,
            lag,
            ready,
        } = self;
        bring_up(alloc, other, lag, ready)?;
        let Some(core) = Arc::get_mut(other) else {
            return Err(AllocError);
        };
        sweep(alloc, core)?;
        swap(shown, other);
        *lag = Lag::Sweep;
        Ok(())
    }
}
