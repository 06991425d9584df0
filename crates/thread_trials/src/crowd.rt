//! Ten threads that read a front and call it at once.

ghost use Rattle.std.specs.Prelude.{◌≡◌};
ghost use Rattle.history.specs.NewFronts.{AreTokensOf};
ghost use Rattle.book.specs.Keeping.{IsNew};

use crate::reads::{Scripts, answered_at_once};
use crate::turns::closed;
use book::{Front, FrontId, Row};
use model::Refusal;
use std::alloc::Global;
use std::hash::RandomState;
use std::marker::Brand;
use std::sync::Wait;
use std::thread::Threads;
use trial_lines::{Answer, NewFront};

/// How many threads share a front: one writes, one trusts and distrusts, and eight read.
const MEMBERS: usize = 10;

/// How many answers threads got.
fn count_answers(traces: &[Vec<Row>]) -> usize {
    let mut count = 0usize;
    for trace in traces {
        count = count.saturating_add(trace.len());
    }
    count
}

/// How many answers the threads of a front got, and how many rows there are.
fn crowded<J: FrontId + Send + Sync, R: Threads + Wait + Sync>(
    rt: &R,
    alloc: Global,
    new: NewFront,
    argument: &String,
) -> Result<(usize, usize), Refusal>
    requires blank { AreTokensOf J.name J.parts J.stops J.table J.book new.blank }
    requires parts { J.parts ≡ 10 }
    requires core { IsNew J.setup new.core }
{
    let NewFront { blank, core } = new;
    let (front, passes) = Front::<J>::new(rt, alloc, blank, core, 10)?;
    let scripts = Scripts::new(argument.as_str());
    let (passes, traces) = answered_at_once(rt, alloc, &front, passes, scripts)?;
    let history = closed(rt, front, passes, MEMBERS)?;
    Ok((count_answers(&traces), history.rows.len()))
}

/// `FIRST|SECOND|OTHERS`: ten threads answer lines at once through one front, to the users whom the first of
/// them names. Prints how many answers they get, and how many rows there are: none is answered 90. That the
/// history allows each answer is proved.
pub(crate) fn crowd<R: Threads + Wait + Sync>(
    rt: &R,
    alloc: Global,
    hashing: RandomState,
    argument: &str,
    out: &mut Answer,
) -> Result<(), Refusal> {
    let new = NewFront::of(alloc, hashing, Scripts::new(argument).first, 10)?;
    let lines = String::from_str(alloc, argument)?;
    let (answers, rows) = crowded::<Brand, _>(rt, alloc, new, &lines)?;
    out.add(&answers);
    out.add_text(" answers, ");
    out.add(&rows);
    out.add_text(" rows");
    Ok(())
}
