//! Looking for what is only read.

ghost use Rattle.std.specs.Prelude.{◌≡◌, Result};
ghost use Rattle.model.specs.declared.refusal.Refusal.{Refusal as RefusalValue};
ghost use Rattle.handlers.specs.Handling.{IsHandled};
ghost use Rattle.handlers.specs.States.{HasPlace, Handles};
ghost use Rattle.events.specs.Terms.{request_of, event_of, reply_of};
ghost use Rattle.events.specs.declared.reply.Reply.{Reply as ReplyValue};
ghost use Rattle.handlers.specs.Serving.{MayServe};
ghost use Rattle.model.specs.Outlooks.{outlook_for};
ghost use Rattle.jobs.specs.Outlooks.{TellsOutlook};
ghost use Rattle.schedule.specs.Standing.{parts_of, setup_of, world_of};
ghost use Rattle.schedule.specs.Queries.{request_in, event_for};
ghost use Rattle.schedule.specs.ReadResults.{MayGive, IsServedFrom};
ghost use Rattle.schedule.specs.Stepping.{IsCoreStep};

use crate::query::{Query, Question};
use crate::read_result::ReadResult;
use crate::state::Core;
use events::{CopiedReply, Reply};
use goals::{outlook, status};
use handlers::{State, fetch, plan_for};
use jobs::Outlook;
use laws::never_fails;
use model::Refusal;
use records::Plan;
use rewrite::one_tree_at_a_path;
use std::alloc::Global;
use trust::User;

/// What is found where a reply is made.
fn told(reply: Result<CopiedReply, Refusal>) -> Result<ReadResult, Refusal>
    ensures { (given : Result ReplyValue RefusalValue) → MayGive result given → given ≡ reply }
{
    Ok(ReadResult::Told(reply?.into_reply()))
}

/// What is found where a closure is planned.
fn planned(plan: Result<Plan, Refusal>) -> Result<ReadResult, Refusal>
    ensures { (given : Result ReplyValue RefusalValue) → MayGive result given → MayServe plan given }
{
    Ok(ReadResult::Planned(plan?))
}

/// What is found for what the user at a place asks.
fn find_at(
    alloc: Global,
    state: &State,
    place: usize,
    question: &Question,
) -> Result<ReadResult, Refusal>
    requires { HasPlace state.now place }
    ensures { (given : Result ReplyValue RefusalValue) → MayGive result given
        → Handles state.now place (request_of (request_in question.now)) given state.now }
{
    match question {
        Question::Status(number) => told(status(state, place, *number)),
        Question::Closure(class) => planned(plan_for(alloc, state, place, class)),
        Question::Fetch(path) => told(fetch(&state.table, &state.desks[place], path)),
    }
}

impl Core {
    /// Looks for the answer to a query in the parts of the core.
    fn find(&self, alloc: Global, query: &Query) -> Result<ReadResult, Refusal>
        ensures { (given : Result ReplyValue RefusalValue) → MayGive result given
            → IsHandled (parts_of self.now) (event_of (event_for query.now)) given (parts_of self.now) }
    {
        let Some(place) = self.state.users.place_of(&query.actor) else {
            return Err(Refusal::UnknownUser);
        };
        find_at(alloc, &self.state, place, &query.question)
    }

    /// Looks for the answer to a query. Whatever reply [`ReadResult::serve`] gives of what is found, it is one
    /// that [`Core::step`] may give to the event that the query is. The core stays as it is.
    pub fn look(&self, alloc: Global, query: &Query) -> ReadResult
        ensures { (reply : ReplyValue) → IsServedFrom result reply
            → IsCoreStep self.now (event_of (event_for query.now)) (reply_of reply) self.now }
    {
        one_tree_at_a_path();
        never_fails();
        query.question.sound();
        match self.find(alloc, query) {
            Ok(read_result) => read_result,
            Err(refusal) => ReadResult::Told(Reply::Refused(refusal)),
        }
    }

    /// How a user's goal of a number may go on, as he sees it. The core stays as it is.
    ///
    /// # Errors
    ///
    /// All but the last are told whether there is memory or not.
    ///
    /// - `UnknownUser` exactly where the user is none of the run.
    /// - `UnknownGoal` exactly where he is, and has no goal of that number.
    /// - `Memory` only where memory was refused.
    pub fn outlook(&self, alloc: Global, user: &User, number: u16) -> Result<Outlook, Refusal>
        ensures { TellsOutlook (setup_of self.now).users
            (outlook_for (setup_of self.now) (world_of self.now) user.now number) result }
    {
        let Some(place) = self.state.users.place_of(user) else {
            return Err(Refusal::UnknownUser);
        };
        outlook(alloc, &self.state, place, number)
    }
}
