//! Taking a closure.

ghost use Rattle.std.specs.Prelude.{◌≡◌, ◌⊎◌, Some, None, MatchResult};
ghost use Rattle.model.specs.Events.{Take as TakeRequest};
ghost use Rattle.model.specs.Closures.{path_for};
ghost use Rattle.model.specs.declared.refusal.Refusal.TheVariants.{Memory, NotRealised};
ghost use Rattle.repair.specs.Counting.{made_in};
ghost use Rattle.handlers.specs.Serving.{HasRepairedFor};
ghost use Rattle.handlers.specs.States.{HasPlace, Handles, observation_at};

use crate::copying::copy_all;
use crate::given::entries_for;
use crate::state::State;
use closure_laws::served_are_made;
use events::{CopiedReply, Reply};
use model::Refusal;
use repair::Cache;
use std::alloc::Global;
use storepath::StorePath;

/// The path by which a class is served among entries.
fn path_for(class: &StorePath, entries: &[records::Entry]) -> Result<StorePath, Refusal>
    ensures { let answer = path_for class.now entries.now in MatchResult result
        (λ path. answer ≡ Some path)
        (λ e. (e ≡ Memory) ⊎ ((e ≡ NotRealised) × (answer ≡ None))) }
{
    for entry in entries {
        if let Some(own) = entry.class() {
            if *own.path() == *class {
                return Ok(entry.path().clone()?);
            }
        }
    }
    Err(Refusal::NotRealised)
}

/// Copies all that the closure of a class has for the user at a place to his desk, or nothing. The
/// reply is the path of what serves the class.
///
/// # Errors
///
/// - `NotRealised` exactly where no desk that he sees has a record of the class.
/// - `ClosureTooLarge` exactly where there would be more than 1,024 entries.
/// - `RewriteRefused` exactly where a record cannot be repaired, with the reason of the first such class
///   by rank and then by the path of the class.
/// - `Clash` only where another tree is stored at the path of an entry.
/// - `Quota` exactly where no other tree is at these paths and a limit of the desk would be passed.
/// - `Memory` only where memory was refused; it may stand in the place of each answer.
///
/// Where all that is repaired for the closure was repaired before, nothing is.
pub fn take(
    alloc: Global,
    state: &mut State,
    place: usize,
    cache: &mut Cache,
    class: &StorePath,
) -> Result<CopiedReply, Refusal>
    requires { HasPlace state.old place }
    ensures handled { Handles state.old place (TakeRequest class.now) result state.new }
    ensures at_hand { HasRepairedFor (observation_at state.old place) class.now (made_in cache.old.made)
        → cache.new ≡ cache.old }
{
    served_are_made();
    let entries = entries_for(alloc, state, place, cache, class)?;
    let path = path_for(class, &entries)?;
    let reply = CopiedReply::new(Reply::Path(path))?;
    let State {
        desks,
        table,
        limits,
        ..
    } = state;
    copy_all(alloc, table, &mut desks[place], *limits, &entries)?;
    Ok(reply)
}
