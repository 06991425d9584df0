//! What a user sees: the desks of all whom he reaches by trust.

ghost use Rattle.std.specs.Prelude.{◌≡◌, ◌≤◌, length, map, IfOk};
ghost use Rattle.trust.specs.Trusting.{holds, trusts};
ghost use Rattle.handlers.specs.States.{HasPlace};
ghost use Rattle.handlers.specs.Viewing.{places_of, desk_at, desks_of, IsView};
ghost use Rattle.model.specs.Limits.{most_users};

use crate::state::State;
use realise::Desk;
use std::alloc::{AllocError, Global};
use trust::{UserSet, has_place};

/// The desks of the users of a set, in order.
fn desks_at<'a>(alloc: Global, set: UserSet, desks: &'a [Desk]) -> Result<Vec<&'a Desk>, AllocError>
    requires { length desks.now ≤ most_users }
    ensures { IfOk result (λ found. desks_of found.items
        ≡ map (desk_at desks.now) (places_of (holds set) (length desks.now))) }
{
    let mut found = Vec::with_capacity(alloc, desks.len())?;
    for place in 0..desks.len() {
        if has_place(set, place) {
            found.push(&desks[place])?;
        }
    }
    Ok(found)
}

/// The desks of all whom the user at a place reaches, in the order of the users. The one error is
/// memory.
pub fn desks_in_view<'a>(
    alloc: Global,
    state: &'a State,
    place: usize,
) -> Result<Vec<&'a Desk>, AllocError>
    requires { HasPlace state.now place }
    ensures { IfOk result (λ view.
        IsView (trusts state.now.trust) place state.now.desks.items (desks_of view.items)) }
{
    desks_at(alloc, state.trust.closure(place), state.desks.as_slice())
}
