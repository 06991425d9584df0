//! Two threads that share a front whose lock is held: they read it, or one prepares events meanwhile.

ghost use Rattle.std.specs.Prelude.{◌≡◌};
ghost use Rattle.history.specs.NewFronts.{AreTokensOf};
ghost use Rattle.book.specs.Keeping.{IsNew};

use crate::fronts::Called;
use crate::reads::{Scripts, answered_at_once};
use crate::traces::text_of;
use crate::turns::{Member, Task, all_at_once, closed, is_set_in_time};
use book::{Front, FrontId, History, Pass, Row};
use model::Refusal;
use schedule::{Query, Ready};
use session::{Mode, Session, answer_text};
use std::alloc::{AllocError, Global};
use std::hash::RandomState;
use std::marker::Brand;
use std::sync::atomic::{AtomicBool, Ordering};
use std::sync::{Arc, Wait};
use std::thread::Threads;
use trial_lines::{Answer, NewFront, adding, fetching, new_core, number, tell};

/// How often a path is read that has to be there.
const TIMES: u32 = 100;
/// The text of a line that fetches a tree, where the user has it.
const TREE: &[u8] = b"1 alice tree f:\n";
/// The text of that line, where he has it not.
const NOT_HELD: &[u8] = b"1 alice refused 53 NotHeld\n";

/// What two threads read of a path while the lock is held.
fn read_while_held<J: FrontId + Send + Sync, R: Threads + Wait + Sync>(
    rt: &R,
    alloc: Global,
    front: &Front<J>,
    passes: Vec<Pass<J>>,
    argument: &str,
) -> Result<(Vec<Pass<J>>, Vec<Vec<Row>>), Refusal> {
    let _hold = front.hold(rt);
    answered_at_once(rt, alloc, front, passes, Scripts::new(argument))
}

/// Adds what was read by the pass that has added the path, and by the other one.
fn tell_held(alloc: Global, traces: &[Vec<Row>], out: &mut Answer) -> Result<(), Refusal> {
    for trace in traces {
        for row in trace {
            tell_read(out, row.pass, &text_of(alloc, row)?);
        }
    }
    Ok(())
}

/// Adds the text that the first pass has read, and of the other whether it is one of the two that may be.
fn tell_read(out: &mut Answer, pass: u64, text: &[u8]) {
    if pass == 0 {
        out.add_bytes(text);
    } else {
        let is_allowed = text == TREE || text == NOT_HELD;
        out.add_text(if is_allowed { "allowed;" } else { "another;" });
    }
}

/// How often a pass reads the tree at the path, of so many times.
fn count_trees<J: FrontId>(alloc: Global, pass: &mut Pass<J>) -> Result<u32, Refusal> {
    let mut trees = 0u32;
    for _ in 0..TIMES {
        let Ok(query) = Query::of(fetching(alloc, b"alice")?) else {
            return Err(Refusal::BadLine);
        };
        let reply = pass.read(query);
        if answer_text(alloc, 1, b"alice", &reply)?.as_slice() == TREE {
            trees = trees.saturating_add(1);
        }
    }
    Ok(trees)
}

/// Shows the second pass what was published, and adds how often it reads the tree then, and which of the two is
/// sure of all that it has seen.
fn tell_shown<J: FrontId, R: Wait>(
    rt: &R,
    alloc: Global,
    front: &Front<J>,
    passes: &mut Vec<Pass<J>>,
    out: &mut Answer,
) -> Result<(), Refusal> {
    let (Some(mut second), Some(mut first)) = (passes.pop(), passes.pop()) else {
        return Err(Refusal::Quota);
    };
    front.show(rt, &mut second);
    out.add(&count_trees(alloc, &mut second)?);
    out.add_text(" trees;");
    for pass in [&first, &second] {
        out.add_text(if pass.is_sure_of_all() {
            "sure;"
        } else {
            "not sure;"
        });
    }
    passes.push(first)?;
    passes.push(second)?;
    Ok(())
}

/// Two passes, of which the first adds a path: what both read while the lock is held and afterwards.
fn read_by_two<J: FrontId + Send + Sync, R: Threads + Wait + Sync>(
    rt: &R,
    alloc: Global,
    new: NewFront,
    argument: &String,
    out: &mut Answer,
) -> Result<(), Refusal>
    requires blank { AreTokensOf J.name J.parts J.stops J.table J.book new.blank }
    requires parts { J.parts ≡ 2 }
    requires core { IsNew J.setup new.core }
{
    let NewFront { blank, core } = new;
    let (front, mut passes) = Front::<J>::new(rt, alloc, blank, core, 2)?;
    let added = front.call(rt, alloc, &mut passes[0], adding(alloc, b"alice")?);
    tell(alloc, &added, out)?;
    out.add_text(";");
    let (mut passes, traces) = read_while_held(rt, alloc, &front, passes, argument.as_str())?;
    tell_held(alloc, &traces, out)?;
    tell_shown(rt, alloc, &front, &mut passes, out)?;
    let history = closed(rt, front, passes, 2)?;
    out.add(&history.rows.len());
    out.add_text(" row");
    Ok(())
}

/// `FIRST|SECOND`: alice adds a file by the first of two passes. While the lock is held two threads answer
/// these lines, which read it, one by each pass. Prints what the first reads, whether the second reads the
/// tree or is refused, how often it reads the tree once it has met the first, which of them is sure of all
/// that it has seen, and how many rows there are.
pub(crate) fn held<R: Threads + Wait + Sync>(
    rt: &R,
    alloc: Global,
    hashing: RandomState,
    argument: &str,
    out: &mut Answer,
) -> Result<(), Refusal> {
    let new = NewFront::new(alloc, new_core(alloc, hashing)?, 2)?;
    let lines = String::from_str(alloc, argument)?;
    read_by_two::<Brand, _>(rt, alloc, new, &lines, out)
}

/// Calls a front with the events of lines.
fn call_lines<J: FrontId, R: Wait>(
    alloc: Global,
    called: &mut Called<'_, J, R>,
    lines: &str,
) -> Result<(), Refusal> {
    let mut session = Session::new(alloc, Mode::Service);
    for line in lines.split(';') {
        let _text = session.line(alloc, line.as_bytes(), called)?;
    }
    Ok(())
}

/// The rows of a new front that is called with the events of lines.
fn rows_of<J: FrontId, R: Wait>(
    rt: &R,
    alloc: Global,
    new: NewFront,
    lines: &String,
) -> Result<Vec<Arc<Row>>, Refusal>
    requires blank { AreTokensOf J.name J.parts J.stops J.table J.book new.blank }
    requires parts { J.parts ≡ 1 }
    requires core { IsNew J.setup new.core }
{
    let NewFront { blank, core } = new;
    let (front, mut passes) = Front::<J>::new(rt, alloc, blank, core, 1)?;
    let pass = passes.pop().unwrap();
    let mut called = Called { rt, front, pass };
    call_lines(alloc, &mut called, lines.as_str())?;
    let Called { front, pass, .. } = called;
    passes.push(pass)?;
    let History { rows, .. } = closed(rt, front, passes, 1)?;
    Ok(rows)
}

/// Whether the lock is held, and whether events were prepared meanwhile.
#[derive(Drop)]
struct Stage {
    is_held: AtomicBool,
    is_prepared: AtomicBool,
}

/// What one of two threads does: the first holds the lock until the second has prepared the events of some
/// rows, and the second commits them then. Kept are the texts of the replies.
#[derive(Drop)]
struct Preparing<'a> {
    stage: &'a Stage,
    rows: Vec<Arc<Row>>,
    texts: Vec<Vec<u8>>,
}

impl<'a> Preparing<'a> {
    /// What a thread does that commits the events of these rows, or none.
    fn new(alloc: Global, stage: &'a Stage, rows: Vec<Arc<Row>>) -> Preparing<'a> {
        Preparing {
            stage,
            rows,
            texts: Vec::new(alloc),
        }
    }
}

/// What the two threads do.
fn tasks_of<'a>(
    alloc: Global,
    stage: &'a Stage,
    rows: Vec<Arc<Row>>,
) -> Result<Vec<Preparing<'a>>, AllocError> {
    let mut tasks = Vec::new(alloc);
    tasks.push(Preparing::new(alloc, stage, Vec::new(alloc)))?;
    tasks.push(Preparing::new(alloc, stage, rows))?;
    Ok(tasks)
}

/// Holds the lock until the other thread has prepared its events.
fn hold<J: FrontId, R: Wait>(member: &mut Member<'_, J, R, Preparing<'_>>) -> Result<(), Refusal> {
    let stage = member.task.stage;
    let _hold = member.front.hold(member.rt);
    stage.is_held.store(true, Ordering::SeqCst);
    if is_set_in_time(&stage.is_prepared) {
        Ok(())
    } else {
        Err(Refusal::WrongState)
    }
}

/// Prepares the events of rows.
fn prepare_each<J: FrontId>(
    alloc: Global,
    pass: &mut Pass<J>,
    rows: &[Arc<Row>],
) -> Result<Vec<Ready>, Refusal> {
    let mut made = Vec::new(alloc);
    for row in rows {
        made.push(pass.prepare(&row.event)?)?;
    }
    Ok(made)
}

/// Commits the events of rows with the values that were made for them, and gives the texts of the replies.
fn commit_each<J: FrontId, R: Wait>(
    rt: &R,
    alloc: Global,
    front: &Front<J>,
    pass: &mut Pass<J>,
    rows: &[Arc<Row>],
    made: Vec<Ready>,
) -> Result<Vec<Vec<u8>>, Refusal> {
    let mut texts = Vec::new(alloc);
    for (row, ready) in rows.iter().zip(made) {
        let reply = front.commit(rt, alloc, pass, row.event.clone()?, ready);
        texts.push(answer_text(alloc, 1, row.event.actor.bytes(), &reply)?)?;
    }
    Ok(texts)
}

/// Prepares its events while the other thread holds the lock, and commits them.
fn prepare<J: FrontId, R: Wait>(
    member: &mut Member<'_, J, R, Preparing<'_>>,
) -> Result<(), Refusal> {
    let (rt, alloc, front) = (member.rt, member.alloc, member.front);
    let stage = member.task.stage;
    if !is_set_in_time(&stage.is_held) {
        return Err(Refusal::WrongState);
    }
    let made = prepare_each(alloc, &mut member.pass, &member.task.rows);
    stage.is_prepared.store(true, Ordering::SeqCst);
    let rows = &member.task.rows;
    member.task.texts = commit_each(rt, alloc, front, &mut member.pass, rows, made?)?;
    Ok(())
}

/// The first of two threads holds the lock, and the second prepares.
impl Task for Preparing<'_> {
    fn run<J: FrontId, R: Wait>(member: &mut Member<'_, J, R, Self>) -> Result<(), Refusal> {
        if member.pass.number() == 0 {
            hold(member)
        } else {
            prepare(member)
        }
    }
}

/// Lets two threads do these.
fn at_once<'a, J: FrontId + Send + Sync, R: Threads + Wait + Sync>(
    rt: &R,
    alloc: Global,
    front: &Front<J>,
    passes: Vec<Pass<J>>,
    tasks: Vec<Preparing<'a>>,
) -> Result<(Vec<Pass<J>>, Vec<Preparing<'a>>), Refusal> {
    all_at_once(rt, alloc, front, passes, tasks)
}

/// Adds how many events were prepared, the text of each reply, and whether it is that of its row.
fn tell_prepared(alloc: Global, task: &Preparing<'_>, out: &mut Answer) -> Result<(), Refusal> {
    out.add(&task.texts.len());
    out.add_text(" prepared while held;");
    for (row, text) in task.rows.iter().zip(&task.texts) {
        let is_equal = *text == text_of(alloc, row)?;
        out.add_bytes(text);
        out.add_text(if is_equal { "equal;" } else { "another;" });
    }
    Ok(())
}

/// Calls a front with the events of rows.
fn call_each<J: FrontId, R: Wait>(
    rt: &R,
    alloc: Global,
    front: &Front<J>,
    pass: &mut Pass<J>,
    rows: &[Arc<Row>],
) -> Result<(), Refusal> {
    for row in rows {
        let _reply = front.call(rt, alloc, pass, row.event.clone()?);
    }
    Ok(())
}

/// Calls a new front with the events of rows, of which the last so many are prepared while the lock is held.
fn prepare_last<J: FrontId + Send + Sync, R: Threads + Wait + Sync>(
    rt: &R,
    alloc: Global,
    new: NewFront,
    rows: Vec<Arc<Row>>,
    last: usize,
    out: &mut Answer,
) -> Result<(), Refusal>
    requires blank { AreTokensOf J.name J.parts J.stops J.table J.book new.blank }
    requires parts { J.parts ≡ 2 }
    requires core { IsNew J.setup new.core }
{
    let NewFront { blank, core } = new;
    let (front, mut passes) = Front::<J>::new(rt, alloc, blank, core, 2)?;
    let mut first = rows;
    let rows = first.split_off(first.len().saturating_sub(last))?;
    call_each(rt, alloc, &front, &mut passes[1], &first)?;
    let stage = Stage {
        is_held: AtomicBool::new(false),
        is_prepared: AtomicBool::new(false),
    };
    let tasks = tasks_of(alloc, &stage, rows)?;
    let (_passes, tasks) = at_once(rt, alloc, &front, passes, tasks)?;
    match tasks.get(1) {
        Some(task) => tell_prepared(alloc, task, out),
        None => Err(Refusal::Quota),
    }
}

/// `COUNT INPUT`: calls a front with the events of the lines, for the users whom they name, and another one
/// with all but the last COUNT of these events. Those are prepared by one thread while another one holds the
/// lock, and then committed. Prints how many were prepared, what each was replied then, and whether that is
/// what the first front replied.
pub(crate) fn prepared_while_held<R: Threads + Wait + Sync>(
    rt: &R,
    alloc: Global,
    hashing: RandomState,
    argument: &str,
    out: &mut Answer,
) -> Result<(), Refusal> {
    let (count, input) = number(argument)?;
    let new = NewFront::of(alloc, hashing, input, 1)?;
    let another = NewFront::new(alloc, new.core.another(alloc)?, 2)?;
    let lines = String::from_str(alloc, input)?;
    let rows = rows_of::<Brand, _>(rt, alloc, new, &lines)?;
    prepare_last::<Brand, _>(rt, alloc, another, rows, count, out)
}
