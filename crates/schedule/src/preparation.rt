//! Events that are to be prepared.

ghost use Rattle.std.specs.Prelude.{◌≡◌, IfOk, IfErr};
ghost use Rattle.model.specs.declared.refusal.Refusal.TheVariants.{Memory};
ghost use Rattle.events.specs.Terms.{event_of};
ghost use Rattle.schedule.specs.Parsing.{IsParsed, IsParsed-prop};

use aterm::Derivation;
use events::{Event, Request};
use handlers::derivation_in;
use model::Refusal;
use std::alloc::Global;

/// An event that is to be prepared, with the derivation that it adds, if it adds one.
#[derive(Drop)]
pub struct Preparation<'a> {
    pub(crate) event: &'a Event,
    pub(crate) derivation: Option<Derivation>,
    ghost parsed: { IsParsed (event_of event.now).request derivation } by { IsParsed-prop (event_of event.now).request derivation },
}

impl<'a> Preparation<'a> {
    /// That of an event. It takes as long as the text of a derivation is long, and needs no core. The one error
    /// is memory.
    pub fn new(alloc: Global, event: &'a Event) -> Result<Preparation<'a>, Refusal>
        ensures event { IfOk result (λ preparation. preparation.event.now ≡ event.now) }
        ensures memory { IfErr result (λ why. why ≡ Memory) }
    {
        let derivation = match &event.request {
            Request::AddDerivation(text) => derivation_in(alloc, text)?,
            _ => None,
        };
        Ok(Preparation { event, derivation })
    }
}
