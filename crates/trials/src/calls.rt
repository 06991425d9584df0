//! Lines, and the calls that they name.
//!
//! - `# TEXT` is printed as it is.
//! - `CALL ARGUMENT` runs a call.

use crate::{faults, prepared, repairs, sessions, stores};
use model::Refusal;
use session::Mode;
use std::alloc::Global;
use std::hash::RandomState;
use trial_lines::{Answer, cut};

/// Adds what a line gives. The one error is a line that is not understood.
pub(crate) fn answer_line(
    alloc: Global,
    hashing: RandomState,
    line: &str,
    out: &mut Answer,
) -> Result<(), Refusal> {
    let (call, argument) = cut(line);
    match call {
        "#" => {
            out.add_text(line);
            Ok(())
        }
        "talk" => sessions::talk(alloc, hashing, argument, out),
        "lines" => sessions::lines(alloc, hashing, Mode::Service, argument, out),
        "run_lines" => sessions::lines(alloc, hashing, Mode::Run, argument, out),
        "ahead" => sessions::ahead(alloc, hashing, argument, out),
        "faults" => faults::faults(alloc, hashing, argument, out),
        "users" => stores::users(alloc, hashing, argument, out),
        "run" => stores::run(alloc, hashing, out),
        "derivation" => stores::reply_to_text(alloc, hashing, argument, out),
        "repairs" => repairs::repairs(alloc, hashing, argument, out),
        "made_alone" => prepared::made_alone(alloc, hashing, argument, out),
        "prepared" => prepared::prepare_each(alloc, hashing, argument, out),
        "another" => prepared::another(alloc, hashing, argument, out),
        "followed" => prepared::followed(alloc, hashing, argument, out),
        _ => Err(Refusal::BadLine),
    }
}
