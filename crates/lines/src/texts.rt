//! The text of replies.

ghost use Rattle.std.specs.Prelude.{◌≡◌, ◌++◌, ◌∷◌, [], OnOk, IfOk, IfErr, IfSome, codes};
ghost use Rattle.model.specs.declared.refusal.Refusal.TheVariants.{Memory};
ghost use Rattle.model.specs.Replies as replies;
ghost use Rattle.model.specs.Talk.{job_text, status_text, reply_text, answer_text};
ghost use Rattle.events.specs.Statuses.{status_of};
ghost use Rattle.events.specs.Terms.{reply_of};

use crate::entries::add_entries;
use crate::pieces::{add, add_number};
use crate::printed::Printed;
use events::{Job, Reply, Status};
use model::{Refusal, SharedBytes};
use nar::Tree;
use records::Entry;
use std::alloc::{AllocError, Global};
use storepath::StorePath;
use tree_text::add_tree_text;

/// Room for a short answer behind its number.
const SHORT_ANSWER: usize = 96;

/// Adds that a goal is built, and its job, by its leader and the number of his goal.
fn add_job(alloc: Global, text: &mut Vec<u8>, job: &Job) -> Result<(), AllocError>
    ensures { OnOk result
        (text.new.items ≡ text.old.items ++ codes "building " ++ job_text job.now) }
{
    add(text, b"building ", job.leader().bytes())?;
    add_number(alloc, text, b" ", usize::from(job.number()))
}

/// Adds how far a goal is.
fn add_status(alloc: Global, text: &mut Vec<u8>, status: &Status) -> Result<(), AllocError>
    ensures { OnOk result (text.new.items ≡ text.old.items ++ status_text (status_of status.now)) }
{
    match status {
        Status::Waiting => text.extend_from_slice(b"waiting"),
        Status::Planned => text.extend_from_slice(b"planned"),
        Status::Building(job) => add_job(alloc, text, job),
        Status::Done(path) => add(text, b"done ", path.bytes()),
        Status::Failed(why) => add_number(alloc, text, b"failed ", usize::from(why.number())),
    }
}

/// Adds the paths of a derivation and of its class.
fn add_derivation(text: &mut Vec<u8>, path: &StorePath, class: &StorePath) -> Result<(), AllocError>
    ensures { OnOk result
        (text.new.items ≡ text.old.items ++ reply_text (replies.Derivation path.now class.now)) }
{
    add(text, b"drv ", path.bytes())?;
    add(text, b" class ", class.bytes())
}

/// Adds a tree. Then there is room for a newline behind it.
fn add_tree(text: &mut Vec<u8>, tree: &Tree) -> Result<(), AllocError>
    ensures { OnOk result
        (text.new.items ≡ text.old.items ++ reply_text (replies.Tree tree.now)) }
{
    text.extend_from_slice(b"tree ")?;
    add_tree_text(text, tree)
}

/// Adds how many entries a closure has, and the entries.
fn add_closure(alloc: Global, text: &mut Vec<u8>, entries: &[Entry]) -> Result<(), AllocError>
    ensures { OnOk result
        (text.new.items ≡ text.old.items ++ reply_text (replies.Closure entries.now)) }
{
    add_number(alloc, text, b"closure ", entries.len())?;
    add_entries(alloc, text, entries)
}

/// Adds why nothing was done.
fn add_refusal(alloc: Global, text: &mut Vec<u8>, why: Refusal) -> Result<(), AllocError>
    ensures { OnOk result
        (text.new.items ≡ text.old.items ++ reply_text (replies.Refused why)) }
{
    let words = why.to_string(alloc)?;
    add(text, b"refused ", words.as_bytes())
}

/// Adds the text of a reply.
fn add_reply(alloc: Global, text: &mut Vec<u8>, reply: &Reply) -> Result<(), AllocError>
    ensures { OnOk result (text.new.items ≡ text.old.items ++ reply_text (reply_of reply.now)) }
{
    match reply {
        Reply::Ok => text.extend_from_slice(b"ok"),
        Reply::Path(path) => add(text, b"path ", path.bytes()),
        Reply::Derivation { path, class } => add_derivation(text, path, class),
        Reply::Tree(tree) => add_tree(text, tree),
        Reply::Closure(closure) => add_closure(alloc, text, closure.entries()),
        Reply::Goal(number) => add_number(alloc, text, b"goal ", usize::from(*number)),
        Reply::Status(status) => add_status(alloc, text, status),
        Reply::Refused(why) => add_refusal(alloc, text, *why),
    }
}

/// Adds what stands behind the number of a line: the actor and the reply.
fn add_answer(
    alloc: Global,
    text: &mut Vec<u8>,
    actor: &[u8],
    reply: &Reply,
) -> Result<(), AllocError>
    ensures { OnOk result (text.new.items ≡ text.old.items ++ 32 ∷ actor.now ++ 32 ∷
        reply_text (reply_of reply.now) ++ 10 ∷ []) }
{
    add(text, b" ", actor)?;
    text.extend_from_slice(b" ")?;
    add_reply(alloc, text, reply)?;
    text.extend_from_slice(b"\n")
}

/// What is printed for a line: its number, the actor and the reply.
///
/// # Errors
///
/// - `Memory` only where memory was refused.
pub fn answer_text(
    alloc: Global,
    number: usize,
    actor: &[u8],
    reply: &Reply,
) -> Result<Vec<u8>, Refusal>
    ensures text { IfOk result (λ text.
        text.items ≡ answer_text number actor.now (reply_of reply.now)) }
    ensures memory { IfErr result (λ why. why ≡ Memory) }
{
    let mut text = number.to_string(alloc)?.into_bytes();
    text.reserve(SHORT_ANSWER)?;
    add_answer(alloc, &mut text, actor, reply)?;
    Ok(text)
}

/// The text that is printed for a closure. The one error is memory.
fn closure_text(alloc: Global, entries: &[Entry]) -> Result<SharedBytes, AllocError>
    ensures { IfOk result (λ text. text ≡ reply_text (replies.Closure entries.now)) }
{
    let mut text = Vec::new(alloc);
    add_closure(alloc, &mut text, entries)?;
    SharedBytes::from_vec(text)
}

/// The same reply; a closure has its text then, so that [`printed_answer`] need not make it again.
///
/// # Errors
///
/// - `Memory` only where memory was refused.
pub fn with_text(alloc: Global, reply: Reply) -> Result<Reply, Refusal>
    ensures same { IfOk result (λ same. same ≡ reply) }
    ensures memory { IfErr result (λ why. why ≡ Memory) }
{
    let Reply::Closure(closure) = &reply else {
        return Ok(reply);
    };
    if closure.text().is_some() {
        return Ok(reply);
    }
    let text = closure_text(alloc, closure.entries())?;
    Ok(Reply::Closure(closure.clone()?.with_text(text)))
}

/// The text of a closure, if it was made. The one error is memory.
fn text_in(reply: &Reply) -> Result<Option<SharedBytes>, AllocError>
    ensures { IfOk result (λ found. IfSome found (λ text. text ≡ reply_text (reply_of reply.now))) }
{
    let Reply::Closure(closure) = reply else {
        return Ok(None);
    };
    match closure.text() {
        Some(text) => Ok(Some(text.clone()?)),
        None => Ok(None),
    }
}

/// What is printed for a line, as [`answer_text`] gives it. The text of a closure that was made before is not copied.
///
/// # Errors
///
/// - `Memory` only where memory was refused.
pub fn printed_answer(
    alloc: Global,
    number: usize,
    actor: &[u8],
    reply: &Reply,
) -> Result<Printed, Refusal>
    ensures text { IfOk result (λ printed. printed ≡ answer_text number actor.now (reply_of reply.now)) }
    ensures memory { IfErr result (λ why. why ≡ Memory) }
{
    let Some(made) = text_in(reply)? else {
        return Ok(Printed::of_text(answer_text(alloc, number, actor, reply)?));
    };
    let mut text = number.to_string(alloc)?.into_bytes();
    add(&mut text, b" ", actor)?;
    text.extend_from_slice(b" ")?;
    Ok(Printed::with_rest(text, made))
}
