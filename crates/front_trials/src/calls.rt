//! Lines, and the calls that they name.
//!
//! - `# TEXT` is printed as it is.
//! - `CALL ARGUMENT` runs a call.

use crate::{passes, sweeps, values};
use model::Refusal;
use std::alloc::Global;
use std::hash::RandomState;
use std::sync::Wait;
use trial_lines::{Answer, cut};

/// Adds what a line gives. The one error is a line that is not understood.
pub(crate) fn answer_line<R: Wait>(
    rt: &R,
    alloc: Global,
    hashing: RandomState,
    line: &str,
    out: &mut Answer,
) -> Result<(), Refusal> {
    let (call, argument) = cut(line);
    match call {
        "#" => {
            out.add_text(line);
            Ok(())
        }
        "sweeps" => sweeps::sweeps(rt, alloc, hashing, argument, out),
        "passes" => passes::passes(rt, alloc, hashing, argument, out),
        "made_unprepared" => values::committed(rt, alloc, hashing, argument, out),
        "made_prepared" => values::prepared(rt, alloc, hashing, argument, out),
        _ => Err(Refusal::BadLine),
    }
}
