//! Runs fronts without threads on the lines of standard input, and prints what each line gives.
//!
//! A line is a call, a blank and its argument; [`calls`] says what else a line may be. In the texts of
//! inputs and outputs `;` stands for a newline. What the lines should give comes from outside:
//! `tests/trials` computes it.
#![tactic(auto)]

mod calls;
mod committing;
mod passes;
mod sweeps;
mod values;

use crate::calls::answer_line;
use std::hash::RandomState;
use trial_lines::{Answer, print_answer};

fn main(rt: HostRuntime) -> anyhow::Result<()> {
    let alloc = rt.alloc();
    let hashing = RandomState::new(&rt)?;
    for line in rt.lines(alloc) {
        let line = line?;
        let mut answer = Answer::new(alloc);
        let given = answer_line(&rt, alloc, hashing, line.as_str(), &mut answer);
        print_answer(&rt, line.as_str(), given, &answer)?;
    }
    Ok(())
}
