//! Handing an event, or goals to wait for, to whom a session asks.

ghost use Rattle.std.specs.Prelude.{◌≡◌, ◌⊎◌, true, codes, IfOk, IfErr, OnErr};
ghost use Rattle.model.specs.declared.refusal.Refusal.TheVariants.{Memory};
ghost use Rattle.model.specs.Replies.{ends_wait};
ghost use Rattle.model.specs.Talk.{answer_text, goal_by};
ghost use Rattle.model.specs.Replies as replies;
ghost use Rattle.events.specs.Terms.{event_of, reply_of};
ghost use Rattle.session.specs.Answered.{IsAnswered};

use crate::answer::Answer;
use events::{Event, GoalId, Reply};
use lines::{LineResult, Printed, printed_answer, told_in};
use model::Refusal;
use std::alloc::Global;
use trust::User;

/// What is made of the reply to an event.
#[derive(Drop)]
pub struct Answered {
    /// What it tells.
    pub told: LineResult,
    /// The goal that it gives the actor, if it does, named as the job that it would lead.
    pub goal: Option<GoalId>,
    /// What is printed for it.
    pub text: Printed,
}

/// The goal that a reply gives the actor.
fn goal_by(actor: User, reply: &Reply) -> Option<GoalId>
    ensures { result ≡ goal_by actor (reply_of reply.now) }
{
    match reply {
        Reply::Goal(number) => Some(GoalId::new(actor, *number)),
        _ => None,
    }
}

/// What is made of the reply to an actor's event.
fn take_reply(alloc: Global, number: usize, actor: User, reply: Reply) -> Result<Answered, Refusal>
    ensures ok { IfOk result (IsAnswered number actor (reply_of reply)) }
    ensures memory { IfErr result (λ why. why ≡ Memory) }
{
    let text = printed_answer(alloc, number, actor.bytes(), &reply)?;
    let goal = goal_by(actor, &reply);
    let told = told_in(reply);
    Ok(Answered { told, goal, text })
}

/// Hands an event to whom a session asks. Gives what is made of its reply, with the text that is printed
/// for it as the line of that number.
///
/// # Errors
///
/// - `Memory` only where memory was refused. After it the event may have been answered.
pub fn ask<A: Answer>(
    alloc: Global,
    number: usize,
    event: Event,
    answer: &mut A,
) -> Result<Answered, Refusal>
    ensures ok { IfOk result (λ r. (reply : replies.Reply) × IsAnswered number event.actor reply r
        × A.answers answer.old (event_of event) reply answer.new) }
    ensures memory { IfErr result (λ why. why ≡ Memory) }
    ensures err { OnErr result ((answer.new ≡ answer.old)
        ⊎ ((reply : replies.Reply) × A.answers answer.old (event_of event) reply answer.new)) }
{
    let actor = event.actor.clone()?;
    let reply = answer.call(alloc, event);
    take_reply(alloc, number, actor, reply)
}

/// Hands goals to whom a session asks, who waits for them. Gives what is printed for the reply as the line
/// of that number.
///
/// # Errors
///
/// - `Memory` only where memory was refused for the text. The wait has ended then.
pub fn wait<A: Answer>(
    alloc: Global,
    number: usize,
    goals: &[GoalId],
    answer: &mut A,
) -> Result<Printed, Refusal>
    ensures ok { IfOk result (λ text. (reply : replies.Reply) × (ends_wait reply ≡ true)
        × (text ≡ answer_text number (codes "-") reply)
        × A.waited answer.old goals.now reply answer.new) }
    ensures memory { IfErr result (λ why. why ≡ Memory) }
    ensures waited { (reply : replies.Reply) × (ends_wait reply ≡ true)
        × A.waited answer.old goals.now reply answer.new }
{
    let reply = answer.wait(alloc, goals);
    printed_answer(alloc, number, b"-", &reply)
}
