//! A front of two passes.

ghost use Rattle.std.specs.Prelude.{◌≡◌};
ghost use Rattle.history.specs.NewFronts.{AreTokensOf};
ghost use Rattle.book.specs.Keeping.{IsNew};

use book::{Front, FrontId, Pass};
use model::Refusal;
use schedule::{Event, Query, Reply};
use session::GoalId;
use std::alloc::Global;
use std::hash::RandomState;
use std::marker::Brand;
use std::sync::Wait;
use trial_lines::{Answer, NewFront, tell_lines};

/// A front, and its two passes: alice has one, and all others have the other.
#[derive(Drop)]
struct Apart<'a, J: FrontId, R> {
    rt: &'a R,
    front: Front<J>,
    alice: Pass<J>,
    others: Pass<J>,
}

/// Reads what is asked through a pass, and calls the front for the other events.
fn answer<J: FrontId, R: Wait>(
    rt: &R,
    alloc: Global,
    front: &Front<J>,
    pass: &mut Pass<J>,
    event: Event,
) -> Reply {
    match Query::of(event) {
        Ok(query) => pass.read(query),
        Err(event) => front.call(rt, alloc, pass, event),
    }
}

/// No line of the service waits.
impl<J: FrontId, R: Wait> session::Answer for Apart<'_, J, R> {
    ghost answers = { λ old event reply new. Unit {0} };

    ghost waited = { λ old goals reply new. Unit {0} };

    fn call(&mut self, alloc: Global, event: Event) -> Reply {
        if event.actor.bytes() == b"alice".as_slice() {
            answer(self.rt, alloc, &self.front, &mut self.alice, event)
        } else {
            answer(self.rt, alloc, &self.front, &mut self.others, event)
        }
    }

    fn wait(&mut self, _alloc: Global, _goals: &[GoalId]) -> Reply {
        Reply::Ok
    }
}

/// Answers the lines by a new front.
fn answer_by_front<J: FrontId, R: Wait>(
    rt: &R,
    alloc: Global,
    new: NewFront,
    lines: &String,
    out: &mut Answer,
) -> Result<(), Refusal>
    requires blank { AreTokensOf J.name J.parts J.stops J.table J.book new.blank }
    requires parts { J.parts ≡ 2 }
    requires core { IsNew J.setup new.core }
{
    let NewFront { blank, core } = new;
    let (front, mut passes) = Front::<J>::new(rt, alloc, blank, core, 2)?;
    let others = passes.pop().unwrap();
    let alice = passes.pop().unwrap();
    let mut store = Apart {
        rt,
        front,
        alice,
        others,
    };
    tell_lines(alloc, &mut store, lines.as_str(), out)
}

/// `INPUT`: answers the lines of the input, to the users whom it names, those of alice by a pass of her own. Prints
/// what each line gets.
pub(crate) fn passes<R: Wait>(
    rt: &R,
    alloc: Global,
    hashing: RandomState,
    input: &str,
    out: &mut Answer,
) -> Result<(), Refusal> {
    let new = NewFront::of(alloc, hashing, input, 2)?;
    let lines = String::from_str(alloc, input)?;
    answer_by_front::<Brand, _>(rt, alloc, new, &lines, out)
}
