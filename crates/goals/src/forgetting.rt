//! Forgetting what was built.

ghost use Rattle.std.specs.Prelude.{◌≡◌, ◌||◌};
ghost use Rattle.std.specs.List.{list_any};
ghost use Rattle.model.specs.ForgetRequests.{builds_with};
ghost use Rattle.model.specs.Events.{Forget as ForgetRequest};
ghost use Rattle.trust.specs.Trusting.{holds};
ghost use Rattle.trust.specs.Naming.{names};
ghost use Rattle.realise.specs.Holdings.{is_needed};
ghost use Rattle.jobs.specs.Owned.{goals_at};
ghost use Rattle.handlers.specs.Viewing.{desk_at};
ghost use Rattle.handlers.specs.States.{HasPlace, Handles};

use events::CopiedReply;
use handlers::State;
use model::Refusal;
use storepath::StorePath;
use trust::UserSet;

/// Whether the outputs of a class at a path are needed on the desk of the user at a place, who reaches the
/// users of a set: another output there has a label of one, or a goal of his is built from
/// one, in a job whose leader he reaches.
fn is_in_use(
    state: &State,
    reached: UserSet,
    place: usize,
    class: &StorePath,
    path: &StorePath,
) -> bool
    requires { HasPlace state.now place }
    ensures { result ≡ (is_needed class.now path.now (desk_at state.now.desks.items place)
        || list_any (builds_with (names state.now.users (holds reached)) class.now path.now)
        (goals_at place state.now.jobs)) }
{
    state.desks[place].needs(class, path)
        || state
            .jobs
            .build_with(place, &state.users, reached, class, path)
}

/// Takes the outputs of a class at a path from the desk of the user at a place. His goals that are stored
/// as built from one of them, in jobs whose leaders he does not reach, wait. It takes no memory.
///
/// # Errors
///
/// - `NotHeld` exactly where he has no output of that class at that path.
/// - `InUse` exactly where he has one, and another output on his desk has a label of it, or it is among
///   what a goal of his is built from, in a job whose leader he reaches.
pub fn forget(
    state: &mut State,
    place: usize,
    class: &StorePath,
    path: &StorePath,
) -> Result<CopiedReply, Refusal>
    requires { HasPlace state.old place }
    ensures { Handles state.old place (ForgetRequest class.now path.now) result state.new }
{
    if !state.desks[place].has_record_at(class, path) {
        return Err(Refusal::NotHeld);
    }
    let reached = state.trust.closure(place);
    if is_in_use(state, reached, place, class, path) {
        return Err(Refusal::InUse);
    }
    state.jobs.let_go(place, class, path);
    state.desks[place].forget(class, path);
    Ok(CopiedReply::done())
}
