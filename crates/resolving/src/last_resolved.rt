//! What was resolved last.

ghost use Rattle.std.specs.Prelude.{◌≡◌, ◌⊎◌, IfOk, IfSome, IfNone, MatchResult, Ok, Err, None};
ghost use Rattle.model.specs.Results.{then_do};
ghost use Rattle.model.specs.Resolutions.{resolved_text, resolved_to, scratch_path};
ghost use Rattle.model.specs.declared.refusal.Refusal.TheVariants.{Memory};
ghost use Rattle.resolving.specs.Kept.{IsAtHand};

use crate::resolution::Resolution;
use crate::served::Served;
use crate::strings::resolved_parts;
use aterm::{Derivation, print_parts};
use classes::Admitted;
use hashmod::sha256;
use model::Refusal;
use records::{Entry, Resolved};
use std::alloc::Global;
use storepath::{Kind, Name, StorePath, make_path};

// The text of a derivation whose inputs' classes are served by these paths.
fn resolved_text(
    alloc: Global,
    derivation: &Derivation,
    served: &[Served],
) -> Result<Vec<u8>, Refusal>
    ensures { let answer = resolved_text served.now derivation.now in MatchResult result
        (λ text. answer ≡ Ok text.items)
        (λ e. (e ≡ Memory) ⊎ (answer ≡ Err e)) }
{
    let parts = resolved_parts(alloc, derivation, served)?;
    print_parts(alloc, &parts)
}

// The path under which a resolved text is built. The one error is memory.
fn scratch_path(alloc: Global, text: &[u8], derivation: &Derivation) -> Result<StorePath, Refusal>
    ensures { MatchResult result
        (λ path. path ≡ scratch_path text.now derivation.now)
        (λ e. e ≡ Memory) }
{
    let name = Name::new(alloc, derivation.name())?;
    make_path(alloc, &Kind::Scratch, &sha256(text), &name)
}

/// What has the text of another, is built under the same path, and from these entries. It shares the text. The one
/// error is memory.
fn resolved_like(alloc: Global, other: &Resolved, entries: Vec<Entry>) -> Result<Resolved, Refusal>
    ensures { MatchResult result
        (λ made. made ≡ record { closure = entries.items; text = other.now.text; scratch = other.now.scratch })
        (λ e. e ≡ Memory) }
{
    let text = other.text().to_vec(alloc)?;
    let scratch = other.scratch().clone()?;
    Ok(Resolved::new(entries, text, scratch)?.sharing(other))
}

/// What was resolved last, with what it was made of, so that the text of one goal is put and hashed once for both
/// cores. It is used only where all that it was made of is at hand again.
#[derive(Drop)]
pub struct LastResolved {
    last: Option<Resolution>,
}

impl LastResolved {
    /// Nothing was resolved. It takes no memory.
    pub fn none() -> LastResolved
        ensures { result.last ≡ None }
    {
        LastResolved { last: None }
    }

    /// What a derivation was resolved to, whose inputs' classes these paths serve, if that is kept.
    fn found(&self, derivation: &Derivation, served: &[Served]) -> Option<&Resolved>
        ensures text { IfSome result (λ r. resolved_text served.now derivation.now ≡ Ok r.now.text) }
        ensures scratch { IfSome result (λ r. r.now.scratch ≡ scratch_path r.now.text derivation.now) }
        ensures some { IfSome result (λ _. IsAtHand self.now.last derivation.now served.now) }
        ensures none { IfNone result (IsAtHand self.now.last derivation.now served.now → ⊥) }
    {
        self.last.as_ref()?.resolved_for(derivation, served)
    }

    /// What a derivation is built from, whose inputs' classes these paths serve, in a closure of these entries. Its text
    /// is put and hashed, unless it was resolved last with the same paths.
    ///
    /// # Errors
    ///
    /// - `RewriteRefused` with `Overlap` exactly where the hash parts of two of the classes share bytes in one
    ///   string.
    /// - `Memory` only where memory was refused; it may stand in the place of each answer.
    pub(crate) fn resolve(
        &mut self,
        alloc: Global,
        admitted: &Admitted,
        served: Vec<Served>,
        entries: Vec<Entry>,
    ) -> Result<Resolved, Refusal>
        ensures resolved { let derivation = admitted.now.derivation in
            let answer = then_do (resolved_text served.items derivation) (resolved_to entries.items derivation) in
            MatchResult result
            (λ resolved. answer ≡ Ok resolved)
            (λ e. (e ≡ Memory) ⊎ (answer ≡ Err e)) }
        ensures kept { IfOk result (λ _. IsAtHand self.new.last admitted.now.derivation served.items) }
        ensures at_hand { IsAtHand self.old.last admitted.now.derivation served.items → self.new ≡ self.old }
    {
        let derivation = admitted.derivation();
        if let Some(other) = self.found(derivation, &served) {
            return resolved_like(alloc, other, entries);
        }
        let text = resolved_text(alloc, derivation, &served)?;
        let scratch = scratch_path(alloc, &text, derivation)?;
        let resolved = Resolved::new(entries, text, scratch)?;
        self.last = Some(Resolution {
            admitted: admitted.clone()?,
            served,
            resolved: resolved.clone()?,
        });
        Ok(resolved)
    }
}
