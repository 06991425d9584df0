//! What the reply to a line tells.

ghost use Rattle.std.specs.Prelude.{◌≡◌};
ghost use Rattle.model.specs.Lines.{nothing_told};
ghost use Rattle.model.specs.Talk.{told_in};
ghost use Rattle.events.specs.Terms.{reply_of};

use events::Reply;
use std::marker::Model;
use storepath::StorePath;

/// What the reply to a line tells that later lines may use: a path, and the path of a class.
#[derive(Drop)]
pub struct LineResult {
    pub(crate) path: Option<StorePath>,
    pub(crate) class: Option<StorePath>,
}

impl Model for LineResult {
    ghost use Rattle.model.specs.Lines.{LineResult as LineResultValue};

    ghost Value = { LineResultValue };

    ghost view = { λ told. record { path = told.path; class = told.class } };
}

impl LineResult {
    /// What a line tells that has no reply, or one with no path.
    pub fn nothing() -> LineResult
        ensures { result ≡ nothing_told }
    {
        LineResult {
            path: None,
            class: None,
        }
    }
}

/// What a reply tells.
pub fn told_in(reply: Reply) -> LineResult
    ensures { result ≡ told_in (reply_of reply) }
{
    let (path, class) = reply.into_paths();
    LineResult { path, class }
}
