//! An event that is taken, and published.

ghost use Rattle.std.specs.Prelude.{◌≡◌, ◌++◌, ◌∷◌, [], true, false, IfOk, IfErr, IfSome, IfNone};
ghost use Rattle.std.specs.Arc.{arc_value};
ghost use Rattle.model.specs.declared.refusal.Refusal.TheVariants.{Memory};
ghost use Rattle.schedule.specs.Standing.{setup_of};
ghost use Rattle.history.specs.Histories.{row, unrecorded};
ghost use Rattle.cores.specs.Turns.{Steps, TookEvent};
ghost use Rattle.book.specs.Keeping.{Kept};

use closure_laws::closures_are_good;
use cores::{Asked, Cores};
use history::{FrontId, Row};
use laws::{isolation, timed_isolation};
use model::Refusal;
use publishing::Publisher;
use schedule::Reply;
use std::alloc::Global;
use std::sync::{Arc, Wait};

/// Lets the core that is not shown take an event, shows it, and publishes it with the row. The reply is given
/// with the row, to be shared. There is none where the core has taken the event, and memory is refused for
/// sharing the row or publishing it; then no event can be taken any more.
///
/// # Errors
///
/// Nothing has changed then.
///
/// - `Memory` where memory was refused, or what is published has the other core still.
pub(crate) fn take<J: FrontId, R: Wait>(
    rt: &R,
    alloc: Global,
    cores: &mut Cores,
    publisher: &mut Publisher<J>,
    asked: Asked,
) -> Result<Option<(Reply, Arc<Row>)>, Refusal>
    requires draft { (arc_value asked.draft).event ≡ asked.event }
    requires kept { Kept J.setup cores.old false publisher.old.rows }
    ensures row { IfOk result (λ found. IfSome found (λ p.
        arc_value p.1 ≡ row (arc_value asked.draft).pass asked.event p.0)) }
    ensures some { IfOk result (λ found. IfSome found (λ p. unrecorded p.0 ≡ false)) }
    ensures step { IfOk result (λ found. IfSome found (λ p.
        Steps cores.old asked.event p.0 cores.new)) }
    ensures shown { IfOk result (λ found. IfSome found (λ p. publisher.new
        ≡ record { core = cores.new; rows = publisher.old.rows ++ arc_value p.1 ∷ []; whole = true })) }
    ensures lost { IfOk result (λ found. IfNone found (TookEvent cores.old asked.event cores.new)) }
    ensures not_shown { IfOk result (λ found. IfNone found (publisher.new.rows ≡ publisher.old.rows)) }
    ensures given { setup_of cores.new ≡ setup_of cores.old }
    ensures refused { IfErr result (λ why. cores.new ≡ cores.old) }
    ensures kept { IfErr result (λ why. publisher.new ≡ publisher.old) }
    ensures memory { IfErr result (λ why. why ≡ Memory) }
{
    isolation();
    timed_isolation();
    closures_are_good();
    if !publisher.settle(rt) {
        return Err(Refusal::Memory);
    }
    let Some((reply, row)) = cores.take(alloc, asked)? else {
        return Ok(None);
    };
    if !publisher.put(rt, alloc, cores.owner(), &*row) {
        return Ok(None);
    }
    Ok(Some((reply, row)))
}
