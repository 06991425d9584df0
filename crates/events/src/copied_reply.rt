//! Replies with their copies.

ghost use Rattle.std.specs.Prelude.{◌≡◌, IfOk, IfErr, false};
ghost use Rattle.model.specs.Replies as replies;
ghost use Rattle.events.specs.Statuses.{status_of};
ghost use Rattle.events.specs.Terms.{reply_of, shares_nothing};
ghost use Rattle.events.specs.declared.reply.Reply.TheVariants.{Ok as OkReply, Goal as GoalReply, Status as StatusReply, Refused};
ghost use Rattle.events.specs.declared.status.Status.TheVariants.{Planned, Failed};

use crate::reply::Reply;
use crate::status::Status;
use model::Refusal;
use std::alloc::AllocError;
use std::marker::Model;

/// A reply with an equal copy, which shares all that is large: the one is told, the other is kept.
///
/// An event that changes something has its copied reply made before the change, so that the reply can
/// be told and kept whatever memory there is afterwards. Contracts see it as the reply.
pub struct CopiedReply {
    reply: Reply,
    copy: Reply,
}

impl Drop for CopiedReply {
    fn drop(self) {
        let CopiedReply { reply: _, copy: _ } = self;
    }
}

impl Model for CopiedReply {
    ghost use Rattle.std.specs.Prelude.{◌≡◌};
    ghost use Rattle.events.specs.declared.reply.Reply.{Reply};

    ghost Value = { Reply };

    ghost use Rattle.std.specs.Coded.{codes};
    ghost use Rattle.model.specs.TreeCode.{tree_code};

    ghost coded = { Prim.hlevel (codes, tree_code) };

    ghost view = { λ c. c.reply };

    ghost invariant = { λ c. c.copy ≡ c.reply };
}

/// A copy of how far a goal is.
fn copy_of_status(status: &Status) -> Result<Status, AllocError>
    ensures copy { IfOk result (λ copy. copy ≡ status.now) }
    ensures shares { IfErr result (λ _. shares_nothing (replies.Status (status_of status.now)) ≡ false) }
{
    match status {
        Status::Waiting => Ok(Status::Waiting),
        Status::Planned => Ok(Status::Planned),
        Status::Failed(why) => Ok(Status::Failed(*why)),
        Status::Building(_) | Status::Done(_) => status.clone(),
    }
}

/// A copy of a reply.
fn copy_of(reply: &Reply) -> Result<Reply, AllocError>
    ensures copy { IfOk result (λ copy. copy ≡ reply.now) }
    ensures shares { IfErr result (λ _. shares_nothing (reply_of reply.now) ≡ false) }
{
    match reply {
        Reply::Ok => Ok(Reply::Ok),
        Reply::Goal(number) => Ok(Reply::Goal(*number)),
        Reply::Status(status) => Ok(Reply::Status(copy_of_status(status)?)),
        Reply::Refused(why) => Ok(Reply::Refused(*why)),
        Reply::Path(_) | Reply::Derivation { .. } | Reply::Tree(_) | Reply::Closure(_) => {
            reply.clone()
        }
    }
}

impl CopiedReply {
    /// A reply with its copy. The one error is memory, and only where the reply has a name, a path or a
    /// tree.
    pub fn new(reply: Reply) -> Result<CopiedReply, AllocError>
        ensures reply { IfOk result (λ copied. copied ≡ reply) }
        ensures shares { IfErr result (λ _. shares_nothing (reply_of reply) ≡ false) }
    {
        let copy = copy_of(&reply)?;
        Ok(CopiedReply { reply, copy })
    }

    /// That it is done.
    pub fn done() -> CopiedReply
        ensures { result ≡ OkReply }
    {
        CopiedReply {
            reply: Reply::Ok,
            copy: Reply::Ok,
        }
    }

    /// The number of a new goal.
    pub fn goal_number(number: u16) -> CopiedReply
        ensures { result ≡ GoalReply number }
    {
        CopiedReply {
            reply: Reply::Goal(number),
            copy: Reply::Goal(number),
        }
    }

    /// That a goal can start.
    pub fn planned() -> CopiedReply
        ensures { result ≡ StatusReply Planned }
    {
        CopiedReply {
            reply: Reply::Status(Status::Planned),
            copy: Reply::Status(Status::Planned),
        }
    }

    /// That a goal came to nothing, and why.
    pub fn failed(why: Refusal) -> CopiedReply
        ensures { result ≡ StatusReply (Failed why) }
    {
        CopiedReply {
            reply: Reply::Status(Status::Failed(why)),
            copy: Reply::Status(Status::Failed(why)),
        }
    }

    /// Why nothing was done.
    pub fn refused(why: Refusal) -> CopiedReply
        ensures { result ≡ Refused why }
    {
        CopiedReply {
            reply: Reply::Refused(why),
            copy: Reply::Refused(why),
        }
    }

    /// The reply alone.
    pub fn into_reply(self) -> Reply
        ensures { result ≡ self }
    {
        let CopiedReply { reply, copy: _ } = self;
        reply
    }

    /// The reply, and its copy.
    pub fn into_both(self) -> (Reply, Reply)
        ensures reply { result.0 ≡ self }
        ensures copy { result.1 ≡ self }
    {
        let CopiedReply { reply, copy } = self;
        (reply, copy)
    }
}
