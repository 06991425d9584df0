//! Whether workers went on with goals that their files had asked for.

ghost use Rattle.std.specs.Prelude.{◌≡◌, map, IfOk, OnOk};
ghost use Rattle.std.specs.Arc.{arc_value};
ghost use Rattle.indexmap.specs.IndexMap.{get};
ghost use Rattle.model.specs.Goals.{same_job};
ghost use Rattle.events.specs.Terms.{request_of, reply_of};
ghost use Rattle.teams.specs.Asked.{number_given, number_worked_on, session_of, with_row, is_asked, are_asked};

use events::{GoalId, Reply, Request};
use history::Row;
use indexmap::IndexMap;
use std::alloc::{AllocError, Global};
use std::sync::Arc;

/// For each goal that was given so far, named as the job that it would lead, the pass of the session that it
/// was given to.
type Given = IndexMap<GoalId, u64>;

/// The number of the goal that a reply gives to who asked for one to be built, if it does.
fn number_given(request: &Request, reply: &Reply) -> Option<u16>
    ensures { result ≡ number_given (request_of request.now) (reply_of reply.now) }
{
    match (request, reply) {
        (Request::Build(_), Reply::Goal(number)) => Some(*number),
        _ => None,
    }
}

/// The number of the goal that a request plans, starts or ends, if it does.
fn number_worked_on(request: &Request) -> Option<u16>
    ensures { result ≡ number_worked_on (request_of request.now) }
{
    match request {
        Request::Plan(number)
        | Request::Start(number)
        | Request::Finish(number, _)
        | Request::Fail(number, _) => Some(*number),
        _ => None,
    }
}

/// The pass of the session for which the worker with a pass builds: of those of the sessions, in the order of
/// their files, the first that is below it.
fn session_of(sessions: &[u64], pass: u64) -> Option<u64>
    ensures { result ≡ session_of sessions.now pass }
{
    for session in sessions {
        if *session < pass {
            return Some(*session);
        }
    }
    None
}

/// Notes the goal that the row of a session gives, if it gives one.
fn note(given: &mut Given, row: &Row) -> Result<(), AllocError>
    ensures { OnOk result (get same_job given.new ≡ with_row row.now (get same_job given.old)) }
{
    if let Some(number) = number_given(&row.event.request, &row.reply) {
        let goal = GoalId::new(row.event.actor.clone()?, number);
        let _before = given.insert(goal, row.pass)?;
    }
    Ok(())
}

/// Whether the row of a worker goes on with a goal that was given before to the session of its file.
fn is_asked(sessions: &[u64], given: &Given, row: &Row) -> Result<bool, AllocError>
    ensures { IfOk result (λ told. told ≡ is_asked sessions.now (get same_job given.now) row.now) }
{
    let Some(number) = number_worked_on(&row.event.request) else {
        return Ok(false);
    };
    let goal = GoalId::new(row.event.actor.clone()?, number);
    match (given.get(&goal), session_of(sessions, row.pass)) {
        (Some(pass), Some(session)) => Ok(*pass == session),
        _ => Ok(false),
    }
}

/// Whether each row that is of no session goes on with a goal that a line of its file was given before. The
/// sessions are named by their passes, in the order of their files. It takes time that grows with the rows.
///
/// # Errors
///
/// Only where memory was refused.
pub fn are_asked(alloc: Global, sessions: &[u64], rows: &[Arc<Row>]) -> Result<bool, AllocError>
    ensures { IfOk result (λ told. told ≡ are_asked sessions.now (map arc_value rows.now)) }
{
    let mut given: Given = IndexMap::new(alloc);
    for shared in rows {
        let row = &**shared;
        if sessions.contains(&row.pass) {
            note(&mut given, row)?;
        } else if !is_asked(sessions, &given, row)? {
            return Ok(false);
        }
    }
    Ok(true)
}
