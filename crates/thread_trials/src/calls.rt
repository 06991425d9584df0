//! Lines, and the calls that they name.
//!
//! - `# TEXT` is printed as it is.
//! - `CALL ARGUMENT` runs a call.

use crate::{crowd, held};
use model::Refusal;
use std::alloc::Global;
use std::hash::RandomState;
use std::sync::Wait;
use std::thread::Threads;
use trial_lines::{Answer, cut};

/// Adds what a line gives. The one error is a line that is not understood.
pub(crate) fn answer_line<R: Threads + Wait + Sync>(
    rt: &R,
    alloc: Global,
    hashing: RandomState,
    line: &str,
    out: &mut Answer,
) -> Result<(), Refusal> {
    let (call, argument) = cut(line);
    match call {
        "#" => {
            out.add_text(line);
            Ok(())
        }
        "held" => held::held(rt, alloc, hashing, argument, out),
        "prepared_while_held" => held::prepared_while_held(rt, alloc, hashing, argument, out),
        "crowd" => crowd::crowd(rt, alloc, hashing, argument, out),
        _ => Err(Refusal::BadLine),
    }
}
