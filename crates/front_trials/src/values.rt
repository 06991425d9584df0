//! Sessions of which is told how many values were made, where, and how many were at hand.

ghost use Rattle.std.specs.Prelude.{◌≡◌};
ghost use Rattle.history.specs.NewFronts.{AreTokensOf};
ghost use Rattle.book.specs.Keeping.{IsNew};

use crate::committing::Committing;
use book::{Front, FrontId};
use model::Refusal;
use std::alloc::Global;
use std::hash::RandomState;
use std::marker::Brand;
use std::sync::Wait;
use trial_lines::{Answer, NewFront, tell_lines};

/// Answers the lines by a new front, and adds how many values were made, and were at hand.
fn answer_by_front<J: FrontId, R: Wait>(
    rt: &R,
    alloc: Global,
    new: NewFront,
    prepares: bool,
    lines: &String,
    out: &mut Answer,
) -> Result<(), Refusal>
    requires blank { AreTokensOf J.name J.parts J.stops J.table J.book new.blank }
    requires parts { J.parts ≡ 1 }
    requires core { IsNew J.setup new.core }
{
    let NewFront { blank, core } = new;
    let (front, mut passes) = Front::<J>::new(rt, alloc, blank, core, 1)?;
    let pass = passes.pop().unwrap();
    let mut store = Committing {
        rt,
        front,
        pass,
        prepares,
    };
    tell_lines(alloc, &mut store, lines.as_str(), out)?;
    out.add(&store.front.computed(rt));
    out.add_text(" made under the lock, ");
    out.add(&store.pass.hits());
    out.add_text(" at hand");
    Ok(())
}

/// Answers the lines of the input, to the users whom it names, by a front.
fn by_front<R: Wait>(
    rt: &R,
    alloc: Global,
    hashing: RandomState,
    prepares: bool,
    input: &str,
    out: &mut Answer,
) -> Result<(), Refusal> {
    let new = NewFront::of(alloc, hashing, input, 1)?;
    let lines = String::from_str(alloc, input)?;
    answer_by_front::<Brand, _>(rt, alloc, new, prepares, &lines, out)
}

/// `INPUT`: answers the lines of the input, to the users whom it names, by a front, which commits each event
/// with nothing made before. Prints what each line gets, how many values were made under the lock and in
/// what is published, and how many repaired records were at hand that a line asks for.
pub(crate) fn committed<R: Wait>(
    rt: &R,
    alloc: Global,
    hashing: RandomState,
    input: &str,
    out: &mut Answer,
) -> Result<(), Refusal> {
    by_front(rt, alloc, hashing, false, input, out)
}

/// `INPUT`: the same, where each event is prepared and then committed.
pub(crate) fn prepared<R: Wait>(
    rt: &R,
    alloc: Global,
    hashing: RandomState,
    input: &str,
    out: &mut Answer,
) -> Result<(), Refusal> {
    by_front(rt, alloc, hashing, true, input, out)
}
