//! A front that is swept after each line of a session.

ghost use Rattle.std.specs.Prelude.{◌≡◌};
ghost use Rattle.history.specs.NewFronts.{AreTokensOf};
ghost use Rattle.book.specs.Keeping.{IsNew};

use crate::committing::Committing;
use book::{Front, FrontId};
use model::Refusal;
use session::{Mode, Session};
use std::alloc::Global;
use std::hash::RandomState;
use std::marker::Brand;
use std::sync::Wait;
use trial_lines::{Answer, NewFront};

/// Adds how many paths are stored, before a sweep and after it.
fn sweep_once<J: FrontId, R: Wait>(
    alloc: Global,
    store: &mut Committing<'_, J, R>,
    out: &mut Answer,
) -> Result<(), Refusal> {
    out.add_text("stored ");
    out.add(&store.front.stored(store.rt));
    store.front.sweep(store.rt, alloc)?;
    out.add_text(", ");
    out.add(&store.front.stored(store.rt));
    out.add_text(";");
    Ok(())
}

/// Adds what each line of an input gets, and what is stored then.
fn tell_lines<J: FrontId, R: Wait>(
    alloc: Global,
    store: &mut Committing<'_, J, R>,
    lines: &str,
    out: &mut Answer,
) -> Result<(), Refusal> {
    let mut session = Session::new(alloc, Mode::Service);
    for line in lines.split(';') {
        out.add_bytes(&session.line(alloc, line.as_bytes(), store)?.into_bytes()?);
        sweep_once(alloc, store, out)?;
    }
    Ok(())
}

/// Answers the lines by a new front.
fn answer_by_front<J: FrontId, R: Wait>(
    rt: &R,
    alloc: Global,
    new: NewFront,
    lines: &String,
    out: &mut Answer,
) -> Result<(), Refusal>
    requires blank { AreTokensOf J.name J.parts J.stops J.table J.book new.blank }
    requires parts { J.parts ≡ 1 }
    requires core { IsNew J.setup new.core }
{
    let NewFront { blank, core } = new;
    let (front, mut passes) = Front::<J>::new(rt, alloc, blank, core, 1)?;
    let pass = passes.pop().unwrap();
    let mut store = Committing {
        rt,
        front,
        pass,
        prepares: true,
    };
    tell_lines(alloc, &mut store, lines.as_str(), out)
}

/// `INPUT`: answers the lines of the input, to the users whom it names, and sweeps the front after each.
/// Prints what each line gets, and how many paths are stored before the sweep and after it.
pub(crate) fn sweeps<R: Wait>(
    rt: &R,
    alloc: Global,
    hashing: RandomState,
    input: &str,
    out: &mut Answer,
) -> Result<(), Refusal> {
    let new = NewFront::of(alloc, hashing, input, 1)?;
    let lines = String::from_str(alloc, input)?;
    answer_by_front::<Brand, _>(rt, alloc, new, &lines, out)
}
