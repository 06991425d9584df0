//! Lines that threads answer through a front, of which those that ask are read.

use crate::turns::{Member, Task, all_at_once};
use book::{Front, FrontId, Pass, Row};
use model::Refusal;
use schedule::{Event, Query, Reply};
use session::{GoalId, Mode, Session};
use std::alloc::{AllocError, Global};
use std::sync::Wait;
use std::thread::Threads;

/// Lines that a thread answers, and what each event of them was answered.
#[derive(Drop)]
pub(crate) struct Lines<'a> {
    text: &'a str,
    trace: Vec<Row>,
}

impl<'a> Lines<'a> {
    /// The lines of a text.
    pub(crate) fn new(alloc: Global, text: &'a str) -> Lines<'a> {
        Lines {
            text,
            trace: Vec::new(alloc),
        }
    }
}

/// Reads what is a question, and commits each other event. What came is kept.
fn answered<J: FrontId, R: Wait>(
    member: &mut Member<'_, J, R, Lines<'_>>,
    alloc: Global,
    event: Event,
) -> Result<Reply, Refusal> {
    let asked = event.clone()?;
    let reply = match Query::of(event) {
        Ok(query) => member.pass.read(query),
        Err(event) => commit(member, alloc, event),
    };
    keep(member, asked, &reply)?;
    Ok(reply)
}

/// Commits an event with values that were made for it by what is published.
fn commit<J: FrontId, R: Wait>(
    member: &mut Member<'_, J, R, Lines<'_>>,
    alloc: Global,
    event: Event,
) -> Reply {
    match member.pass.prepare(&event) {
        Ok(ready) => {
            let pass = &mut member.pass;
            member.front.commit(member.rt, alloc, pass, event, ready)
        }
        Err(why) => Reply::Refused(why),
    }
}

/// Keeps what was asked and answered.
fn keep<J: FrontId, R: Wait>(
    member: &mut Member<'_, J, R, Lines<'_>>,
    event: Event,
    reply: &Reply,
) -> Result<(), AllocError> {
    let row = Row {
        pass: member.pass.number(),
        event,
        reply: reply.clone()?,
    };
    member.task.trace.push(row)?;
    Ok(())
}

/// No line of the service waits.
impl<J: FrontId, R: Wait> session::Answer for Member<'_, J, R, Lines<'_>> {
    ghost answers = { λ old event reply new. Unit {0} };

    ghost waited = { λ old goals reply new. Unit {0} };

    fn call(&mut self, alloc: Global, event: Event) -> Reply {
        match answered(self, alloc, event) {
            Ok(reply) => reply,
            Err(why) => Reply::Refused(why),
        }
    }

    fn wait(&mut self, _alloc: Global, _goals: &[GoalId]) -> Reply {
        Reply::Ok
    }
}

/// It answers its lines.
impl Task for Lines<'_> {
    fn run<J: FrontId, R: Wait>(member: &mut Member<'_, J, R, Self>) -> Result<(), Refusal> {
        let alloc = member.alloc;
        let text = member.task.text;
        let mut session = Session::new(alloc, Mode::Service);
        for line in text.split(';') {
            let _text = session.line(alloc, line.as_bytes(), member)?;
        }
        Ok(())
    }
}

/// What the threads answer, by the numbers of their passes: the first of two texts, the second, and behind
/// them the rest.
#[derive(Clone, Copy)]
pub(crate) struct Scripts<'a> {
    pub(crate) first: &'a str,
    second: &'a str,
    others: &'a str,
}

impl<'a> Scripts<'a> {
    /// Those of `FIRST|SECOND|OTHERS`.
    pub(crate) fn new(argument: &'a str) -> Scripts<'a> {
        let (first, rest) = argument.split_once('|').unwrap_or((argument, ""));
        let (second, others) = rest.split_once('|').unwrap_or((rest, ""));
        Scripts {
            first,
            second,
            others,
        }
    }

    /// The lines of the pass of a number.
    fn lines(self, number: usize) -> &'a str {
        match number {
            0 => self.first,
            1 => self.second,
            _ => self.others,
        }
    }

    /// The lines of each of so many passes.
    fn tasks(self, alloc: Global, count: usize) -> Result<Vec<Lines<'a>>, AllocError> {
        let mut tasks = Vec::new(alloc);
        for number in 0..count {
            tasks.push(Lines::new(alloc, self.lines(number)))?;
        }
        Ok(tasks)
    }
}

/// What the events of some lines were answered.
fn traces_of(alloc: Global, tasks: Vec<Lines<'_>>) -> Result<Vec<Vec<Row>>, AllocError> {
    let mut traces = Vec::new(alloc);
    for task in tasks {
        let Lines { trace, .. } = task;
        traces.push(trace)?;
    }
    Ok(traces)
}

/// Lets a thread for each pass answer its lines.
fn at_once<'a, J: FrontId + Send + Sync, R: Threads + Wait + Sync>(
    rt: &R,
    alloc: Global,
    front: &Front<J>,
    passes: Vec<Pass<J>>,
    tasks: Vec<Lines<'a>>,
) -> Result<(Vec<Pass<J>>, Vec<Lines<'a>>), Refusal> {
    all_at_once(rt, alloc, front, passes, tasks)
}

/// Lets a thread for each pass answer its lines, and gives the passes, and what each was answered.
pub(crate) fn answered_at_once<J: FrontId + Send + Sync, R: Threads + Wait + Sync>(
    rt: &R,
    alloc: Global,
    front: &Front<J>,
    passes: Vec<Pass<J>>,
    scripts: Scripts<'_>,
) -> Result<(Vec<Pass<J>>, Vec<Vec<Row>>), Refusal> {
    let tasks = scripts.tasks(alloc, passes.len())?;
    let (passes, tasks) = at_once(rt, alloc, front, passes, tasks)?;
    Ok((passes, traces_of(alloc, tasks)?))
}
