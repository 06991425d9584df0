//! Sessions whose events are prepared, each for its own step, or are not.

use crate::sessions::Store;
use model::Refusal;
use schedule::{Core, Event, Ready, Reply};
use session::GoalId;
use std::alloc::Global;
use std::hash::RandomState;
use trial_lines::{Answer, core_for, tell_lines};

/// A store that prepares each event for its step.
#[derive(Drop)]
struct Prepared {
    core: Core,
}

/// No line of the service waits.
impl session::Answer for Prepared {
    ghost answers = { λ old event reply new. Unit {0} };

    ghost waited = { λ old goals reply new. Unit {0} };

    fn call(&mut self, alloc: Global, event: Event) -> Reply {
        match self.core.prepare(alloc, &event) {
            Ok(ready) => self.core.step_ready(alloc, event, ready),
            Err(why) => Reply::Refused(why),
        }
    }

    fn wait(&mut self, _alloc: Global, _goals: &[GoalId]) -> Reply {
        Reply::Ok
    }
}

/// A core, and another one that takes each event after it, with the values that the first one made.
#[derive(Drop)]
struct Followers {
    core: Core,
    behind: Core,
}

impl Followers {
    /// Lets both take an event. The reply is that of the second.
    fn step(&mut self, alloc: Global, event: Event) -> Result<Reply, Refusal> {
        let mut ready = Ready::none(alloc);
        let copy = event.clone()?;
        let _same = self.core.step_ready_with_copy(alloc, copy, &mut ready);
        Ok(self.behind.step_ready(alloc, event, ready))
    }
}

/// No line of the service waits.
impl session::Answer for Followers {
    ghost answers = { λ old event reply new. Unit {0} };

    ghost waited = { λ old goals reply new. Unit {0} };

    fn call(&mut self, alloc: Global, event: Event) -> Reply {
        match self.step(alloc, event) {
            Ok(reply) => reply,
            Err(why) => Reply::Refused(why),
        }
    }

    fn wait(&mut self, _alloc: Global, _goals: &[GoalId]) -> Reply {
        Reply::Ok
    }
}

/// `INPUT`: answers the lines of the input, to the users whom it names, by a store. Prints what each line
/// gets, how many values the steps made, and how many repaired records were at hand.
pub(crate) fn made_alone(
    alloc: Global,
    hashing: RandomState,
    input: &str,
    out: &mut Answer,
) -> Result<(), Refusal> {
    let mut store = Store {
        core: core_for(alloc, hashing, input)?,
    };
    tell_lines(alloc, &mut store, input, out)?;
    out.add(&store.core.computed());
    out.add_text(" made, ");
    out.add(&store.core.hits());
    out.add_text(" at hand");
    Ok(())
}

/// `INPUT`: answers the lines of the input, to the users whom it names, and prepares each event for its
/// step. Prints what each line gets, and how many values the steps had to make themselves.
pub(crate) fn prepare_each(
    alloc: Global,
    hashing: RandomState,
    input: &str,
    out: &mut Answer,
) -> Result<(), Refusal> {
    let mut store = Prepared {
        core: core_for(alloc, hashing, input)?,
    };
    tell_lines(alloc, &mut store, input, out)?;
    out.add(&store.core.computed());
    out.add_text(" made in steps");
    Ok(())
}

/// `INPUT`: answers the lines of the input, to the users whom it names, by a store, and once more by another
/// one of the same users. Prints what each line gets of both.
pub(crate) fn another(
    alloc: Global,
    hashing: RandomState,
    input: &str,
    out: &mut Answer,
) -> Result<(), Refusal> {
    let mut store = Prepared {
        core: core_for(alloc, hashing, input)?,
    };
    tell_lines(alloc, &mut store, input, out)?;
    let mut other = Prepared {
        core: store.core.another(alloc)?,
    };
    tell_lines(alloc, &mut other, input, out)
}

/// `INPUT`: answers the lines of the input, to the users whom it names, by a store and by another one behind
/// it, which gets the values that the first one made. Prints what each line gets of the second, and how many
/// values its steps had to make themselves.
pub(crate) fn followed(
    alloc: Global,
    hashing: RandomState,
    input: &str,
    out: &mut Answer,
) -> Result<(), Refusal> {
    let core = core_for(alloc, hashing, input)?;
    let behind = core.another(alloc)?;
    let mut store = Followers { core, behind };
    tell_lines(alloc, &mut store, input, out)?;
    out.add(&store.behind.computed());
    out.add_text(" made in steps");
    Ok(())
}
