//! Goals that are woken.

ghost use Rattle.std.specs.Prelude.{◌≡◌, ◌<◌, length};
ghost use Rattle.trust.specs.Trusting.{holds};
ghost use Rattle.model.specs.Limits.{most_users};
ghost use Rattle.board.specs.Stages.{goal_at};
ghost use Rattle.board.specs.Waking.{AreWoken, woken_among, released, woken_by, woken_by_trust};

use crate::table::Table;
use trust::has_place;

/// Wakes those of some places that wait for a topic.
pub(crate) fn wake_all(table: &mut Table, places: &[usize], topic: usize)
    ensures sessions { table.new.waiting ≡ table.old.waiting }
    ensures woken { AreWoken (woken_among topic places.now) table.old.goals table.new.goals }
{
    for place in places {
        if *place < table.len() && table.goal(*place).stage.waits_on(topic) {
            table.wake(*place);
        }
    }
}

/// Wakes those that wait, and whose user reaches that at a place.
pub(crate) fn wake_reaching(table: &mut Table, user: usize)
    requires { user < most_users }
    ensures sessions { table.new.waiting ≡ table.old.waiting }
    ensures woken { AreWoken (λ place. woken_by_trust user) table.old.goals table.new.goals }
{
    for place in 0..table.len() {
        let goal = table.goal(place);
        if goal.stage.is_waiting() && has_place(goal.reached, user) {
            table.wake(place);
        }
    }
}

/// Goals of a session that are looked at, or can be built, are to be looked at again.
pub(crate) fn release_all(table: &mut Table, seat: usize)
    ensures sessions { table.new.waiting ≡ table.old.waiting }
    ensures released { AreWoken (λ place. released seat) table.old.goals table.new.goals }
{
    for place in 0..table.len() {
        if table.goal(place).is_begun_of(seat) {
            table.wake(place);
        }
    }
}
