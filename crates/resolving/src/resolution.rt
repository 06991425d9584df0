//! What a derivation was resolved to, with what that was made of.

ghost use Rattle.std.specs.Prelude.{◌≡◌, IfSome, IfNone, Ok};
ghost use Rattle.std.specs.Coded.{codes};
ghost use Rattle.std.proofs.Props.{props};
ghost use Rattle.model.specs.Resolutions.{resolved_text, scratch_path};

use crate::same::same_derivation;
use crate::served::Served;
use aterm::Derivation;
use classes::Admitted;
use records::Resolved;

/// What a derivation was resolved to, whose inputs' classes were served by these paths.
#[derive(Drop)]
pub(crate) struct Resolution {
    /// What is known of the derivation.
    pub(crate) admitted: Admitted,
    /// The classes, each with its path.
    pub(crate) served: Vec<Served>,
    /// What it is built from.
    pub(crate) resolved: Resolved,
    ghost text: { resolved_text served.items admitted.derivation ≡ Ok resolved.text } by { Prim.hlevel (props, codes) },
    ghost scratch: { resolved.scratch ≡ scratch_path resolved.text admitted.derivation } by { Prim.hlevel (props, codes) },
}

impl Resolution {
    /// What it was resolved to, if it is that of this derivation, whose inputs' classes these paths serve.
    pub(crate) fn resolved_for(
        &self,
        derivation: &Derivation,
        served: &[Served],
    ) -> Option<&Resolved>
        ensures text { IfSome result (λ r. resolved_text served.now derivation.now ≡ Ok r.now.text) }
        ensures scratch { IfSome result (λ r. r.now.scratch ≡ scratch_path r.now.text derivation.now) }
        ensures some { IfSome result (λ _. (self.now.served.items ≡ served.now)
            × (self.now.admitted.derivation ≡ derivation.now)) }
        ensures none { IfNone result ((self.now.served.items ≡ served.now)
            × (self.now.admitted.derivation ≡ derivation.now) → ⊥) }
    {
        if self.served.as_slice() == served
            && same_derivation(self.admitted.derivation(), derivation)
        {
            Some(&self.resolved)
        } else {
            None
        }
    }
}
