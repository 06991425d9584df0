//! What a new front begins with.

ghost use Rattle.std.specs.Prelude.{◌≡◌, [], IfOk};
ghost use Rattle.model.specs.Worlds.{nothing};
ghost use Rattle.schedule.specs.Standing.{world_of, stored_in};

use crate::stores::core_for;
use history::FrontTokens;
use model::Refusal;
use schedule::Core;
use std::alloc::Global;
use std::hash::RandomState;

/// The tokens of a front, and its core.
#[derive(Drop)]
pub struct NewFront {
    /// Its tokens.
    pub blank: FrontTokens,
    /// Its core.
    pub core: Core,
}

impl NewFront {
    /// That of a core, for so many passes.
    pub fn new(alloc: Global, core: Core, passes: u64) -> Result<NewFront, Refusal>
        ensures { IfOk result (λ new. (new.core ≡ core) × (new.blank.calls.parts ≡ passes)) }
    {
        let blank = FrontTokens::new(alloc, passes)?;
        Ok(NewFront { blank, core })
    }

    /// For so many passes, to the users whom an input names.
    pub fn of(
        alloc: Global,
        hashing: RandomState,
        input: &str,
        passes: u64,
    ) -> Result<NewFront, Refusal>
        ensures { IfOk result (λ new. (world_of new.core ≡ nothing) × (stored_in new.core ≡ [])
            × (new.blank.calls.parts ≡ passes)) }
    {
        let core = core_for(alloc, hashing, input)?;
        NewFront::new(alloc, core, passes)
    }
}
