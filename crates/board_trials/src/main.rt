//! Runs a board without threads on the lines of standard input, and prints what each session is to do.
//!
//! A line is a call of the board and its arguments, with blanks between: [`calls`] has them; `new` begins with
//! another board. What `next` should give
//! comes from outside: `tests/trials/board.py` computes it.
#![tactic(auto)]

mod calls;

use crate::calls::answer;
use board::NamedBoard;
use std::hash::RandomState;

fn main(rt: HostRuntime) -> anyhow::Result<()> {
    let alloc = rt.alloc();
    let hashing = RandomState::new(&rt)?;
    let mut board = NamedBoard::new(alloc, hashing, 8, 3)?;
    for line in rt.lines(alloc) {
        let line = line?;
        if line.as_str() == "new" {
            board = NamedBoard::new(alloc, hashing, 8, 3)?;
            continue;
        }
        answer(&rt, alloc, &mut board, line.as_str())?;
    }
    Ok(())
}
