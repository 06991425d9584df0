//! The lines of a trial.

use anyhow::{Result, bail};
use board::{GoalName, NamedBoard, Outlook, Task, Wanted};
use std::alloc::Global;
use std::str::SplitWhitespace;
use storepath::{StorePath, read_path};

/// A number, which is the next word.
fn number(words: &mut SplitWhitespace) -> Result<usize> {
    match words.next() {
        Some(word) => Ok(word.parse::<usize>()?),
        None => bail!("a number is missing"),
    }
}

/// A path, which is the next word.
fn path(alloc: Global, words: &mut SplitWhitespace) -> Result<StorePath> {
    match words.next() {
        Some(word) => match read_path(alloc, word.as_bytes()) {
            Ok(path) => Ok(path),
            Err(_) => bail!("no path"),
        },
        None => bail!("a path is missing"),
    }
}

/// A user's place and a number, which are the next words.
fn name(words: &mut SplitWhitespace) -> Result<GoalName> {
    let user = number(words)?;
    let number = number(words)? as u64;
    Ok(GoalName { user, number })
}

/// How a goal may go on, which the next words say.
fn outlook(alloc: Global, words: &mut SplitWhitespace) -> Result<Outlook> {
    match words.next() {
        Some("over") => Ok(Outlook::Over),
        Some("ready") => Ok(Outlook::Ready),
        Some("lacks") => Ok(Outlook::Lacks(path(alloc, words)?)),
        Some("built") => Ok(Outlook::Built(name(words)?)),
        _ => bail!("no outlook"),
    }
}

/// Prints what a session is to do.
fn print_task<R: Print>(rt: &R, task: Task) -> Result<()> {
    match task {
        Task::Look(goal) => {
            let GoalName { user, number } = goal;
            println!(rt; "look {user} {number}")?;
        }
        Task::Build(goal) => {
            let GoalName { user, number } = goal;
            println!(rt; "build {user} {number}")?;
        }
        Task::Over => println!(rt; "over")?,
        Task::Wait => println!(rt; "wait")?,
    }
    Ok(())
}

/// Makes the call of a line.
pub(crate) fn answer<R: Print>(
    rt: &R,
    alloc: Global,
    board: &mut NamedBoard,
    line: &str,
) -> Result<()> {
    let mut words = line.split_whitespace();
    match words.next() {
        Some("workers") => board.set_workers(number(&mut words)?, number(&mut words)? as u64),
        Some("want") => {
            let seat = number(&mut words)?;
            let name = name(&mut words)?;
            let class = path(alloc, &mut words)?;
            let reached = number(&mut words)? as u64;
            let wanted = Wanted {
                name,
                class,
                reached,
            };
            board.want(seat, &wanted)?;
        }
        Some("open") => board.open(number(&mut words)?),
        Some("close") => board.close(number(&mut words)?),
        Some("next") => {
            let seat = number(&mut words)?;
            let may = board.may_step(seat);
            println!(rt; "{may}")?;
            print_task(rt, board.next(seat)?)?;
        }
        Some("file") => {
            let name = name(&mut words)?;
            let reached = number(&mut words)? as u64;
            let outlook = outlook(alloc, &mut words)?;
            board.file(name, reached, &outlook)?;
        }
        Some("ended") => board.ended(name(&mut words)?),
        Some("came") => board.came(&path(alloc, &mut words)?),
        Some("jobended") => board.job_ended(name(&mut words)?),
        Some("trust") => board.trust_changed(number(&mut words)?),
        _ => bail!("no call"),
    }
    Ok(())
}
