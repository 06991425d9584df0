//! Runs the crates below the store on the lines of standard input, and prints what each line gives.
//!
//! A line is a call, a blank and its argument; [`lines`] says what else a line may be. What the
//! lines should give comes from outside: `tests/vectors` computes it.
#![tactic(auto)]

mod answer;
mod derivations;
mod desk;
mod hash_parts;
mod lines;
mod paths;
mod refusals;
mod trees;

use crate::answer::Answer;
use crate::lines::answer_line;
use anyhow::bail;
use classes::Known;
use std::alloc::Global;

fn main(rt: HostRuntime) -> anyhow::Result<()> {
    let mut known = Known::new(rt.alloc());
    print_answers(&rt, rt.alloc(), &mut known)
}

/// Prints what the lines of standard input give.
fn print_answers<R: Input + Print>(rt: &R, alloc: Global, known: &mut Known) -> anyhow::Result<()> {
    for line in rt.lines(alloc) {
        print_answer(rt, alloc, known, line?.as_str())?;
    }
    Ok(())
}

/// Prints what a line gives.
fn print_answer(
    rt: &impl Print,
    alloc: Global,
    known: &mut Known,
    line: &str,
) -> anyhow::Result<()> {
    let mut answer = Answer::new(alloc);
    if let Err(refusal) = answer_line(alloc, known, line, &mut answer) {
        bail!("{line}: {refusal}");
    }
    println!(rt; "{}", answer.text())?;
    Ok(())
}
