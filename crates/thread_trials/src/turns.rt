//! Threads that share a front, one for each of its passes, and what they do at once.

ghost use Rattle.std.specs.Prelude.{◌≡◌};

use book::{Front, FrontId, History, Pass};
use model::Refusal;
use std::alloc::Global;
use std::marker::Model;
use std::sync::Wait;
use std::sync::atomic::{AtomicBool, Ordering};
use std::thread::{self, Threads};

/// How often a thread looks whether another one has set a flag, before it gives up.
const TURNS: u32 = 100_000_000;

/// Whether another thread sets a flag before this one gives up.
pub(crate) fn is_set_in_time(flag: &AtomicBool) -> bool {
    for _ in 0..TURNS {
        if flag.load(Ordering::SeqCst) {
            return true;
        }
        thread::yield_now();
    }
    false
}

/// What a thread does with its pass.
pub(crate) trait Task: Sized {
    /// Does it.
    fn run<J: FrontId, R: Wait>(member: &mut Member<'_, J, R, Self>) -> Result<(), Refusal>;
}

/// One thread: its pass of a front, what it does, and how that ended.
#[derive(Drop)]
pub(crate) struct Member<'a, J: FrontId, R, T> {
    pub(crate) rt: &'a R,
    pub(crate) alloc: Global,
    pub(crate) front: &'a Front<J>,
    pub(crate) pass: Pass<J>,
    pub(crate) task: T,
    pub(crate) ended: Result<(), Refusal>,
}

/// Contracts see it as its pass.
impl<'a, J: FrontId, R, T> Model for Member<'a, J, R, T> {
    ghost use Rattle.std.specs.Coded.{codes};
    ghost use Rattle.model.specs.TreeCode.{tree_code};
    ghost use Rattle.history.specs.Callers.{PassKnowledge};

    ghost Value = { PassKnowledge };

    ghost coded = { Prim.hlevel (codes, tree_code) };

    ghost view = { λ m. m.pass };
}

/// What a thread of its own does.
trait Turn {
    /// Does it.
    fn take(&mut self);
}

/// It does its task.
impl<J: FrontId, R: Wait, T: Task> Turn for Member<'_, J, R, T> {
    fn take(&mut self) {
        self.ended = T::run(self);
    }
}

/// What a thread has done.
fn taken<S: Turn>(turn: S) -> S {
    let mut turn = turn;
    turn.take();
    turn
}

/// Lets threads do it at once.
fn each_at_once<S: Turn + Send + Drop, R: Threads + Wait + Sync>(
    rt: &R,
    turns: Vec<S>,
) -> Result<Vec<S>, Refusal> {
    let take = |turn: S| taken(turn);
    Ok(thread::map_vec(rt, turns, &take)?)
}

/// Lets threads do their tasks at once.
fn at_once<'a, J: FrontId + Send + Sync, R: Threads + Wait + Sync, T: Task + Send + Drop>(
    rt: &R,
    members: Vec<Member<'a, J, R, T>>,
) -> Result<Vec<Member<'a, J, R, T>>, Refusal> {
    each_at_once(rt, members)
}

/// A thread for each pass, with a task.
fn members_of<'a, J: FrontId, R, T: Drop>(
    rt: &'a R,
    alloc: Global,
    front: &'a Front<J>,
    passes: Vec<Pass<J>>,
    tasks: Vec<T>,
) -> Result<Vec<Member<'a, J, R, T>>, Refusal> {
    let mut members = Vec::new(alloc);
    for (pass, task) in passes.into_iter().zip(tasks) {
        members.push(Member {
            rt,
            alloc,
            front,
            pass,
            task,
            ended: Ok(()),
        })?;
    }
    Ok(members)
}

/// The passes of threads that have ended well, and their tasks.
fn parted<J: FrontId, R, T: Drop>(
    alloc: Global,
    members: Vec<Member<'_, J, R, T>>,
) -> Result<(Vec<Pass<J>>, Vec<T>), Refusal> {
    let mut passes = Vec::new(alloc);
    let mut tasks = Vec::new(alloc);
    for member in members {
        let Member {
            pass,
            task,
            ended,
            ..
        } = member;
        ended?;
        passes.push(pass)?;
        tasks.push(task)?;
    }
    Ok((passes, tasks))
}

/// Lets a thread for each pass do its task, and gives the passes and the tasks back.
pub(crate) fn all_at_once<
    J: FrontId + Send + Sync,
    R: Threads + Wait + Sync,
    T: Task + Send + Drop,
>(
    rt: &R,
    alloc: Global,
    front: &Front<J>,
    passes: Vec<Pass<J>>,
    tasks: Vec<T>,
) -> Result<(Vec<Pass<J>>, Vec<T>), Refusal> {
    let members = members_of(rt, alloc, front, passes, tasks)?;
    let members = at_once(rt, members)?;
    parted(alloc, members)
}

/// The history of a front, if as many passes come back as there are.
pub(crate) fn closed<J: FrontId, R: Wait>(
    rt: &R,
    front: Front<J>,
    passes: Vec<Pass<J>>,
    count: usize,
) -> Result<History, Refusal>
    requires { J.parts ≡ count }
{
    if passes.len() != count {
        return Err(Refusal::Quota);
    }
    Ok(front.close(rt, passes))
}
