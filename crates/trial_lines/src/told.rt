//! What the lines of a session get.

use crate::answer::Answer;
use model::Refusal;
use session::{Mode, Session};
use std::alloc::Global;

/// Adds what each line of an input gets.
pub fn tell_lines<A: session::Answer>(
    alloc: Global,
    store: &mut A,
    lines: &str,
    out: &mut Answer,
) -> Result<(), Refusal> {
    let mut session = Session::new(alloc, Mode::Service);
    for line in lines.split(';') {
        out.add_bytes(&session.line(alloc, line.as_bytes(), store)?.into_bytes()?);
    }
    Ok(())
}
