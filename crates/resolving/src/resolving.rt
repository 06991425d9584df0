//! Resolving: a derivation's inputs are replaced by the paths that serve their classes.

ghost use Rattle.std.specs.Prelude.{◌≡◌, ◌≢◌, ◌⊎◌, IfOk, MatchResult, Ok, Err};
ghost use Rattle.model.specs.Results.{then_do};
ghost use Rattle.model.specs.Closures.{served_plan};
ghost use Rattle.model.specs.Resolutions.{resolved_text, resolved_over, scratch_path};
ghost use Rattle.model.specs.declared.refusal.Refusal.TheVariants.{Memory};
ghost use Rattle.records.specs.Sound.{IsSoundPlan};
ghost use Rattle.repair.specs.Counting.{made_in, IsForStep};
ghost use Rattle.repair.specs.Prepared.{HasRepaired};

use crate::last_resolved::LastResolved;
use crate::served::served_among;
use classes::Admitted;
use model::Refusal;
use records::{Plan, Resolved};
use repair::{Cache, served_closure_with};
use std::alloc::Global;
use storepath::StorePath;

/// What a derivation is built from, where its inputs have these classes, and the plan is that of the
/// classes and of its sources.
///
/// In the builder, the arguments and the values of variables other than `name` the hash part of each
/// class becomes that of the path that serves it, all at once. The inputs go, and those paths come
/// among the sources.
///
/// # Errors
///
/// Those of [`repair::served_closure`], and else:
///
/// - `NotRealised` exactly where one of the classes is not planned.
/// - `RewriteRefused` with `Overlap` exactly where all are, and the hash parts of two of them share
///   bytes in one string.
/// - `Memory` only where memory was refused; it may stand in the place of each answer.
///
/// A cache for one step has what came of each record that is repaired then. Where it had all that before,
/// none is repaired. A text that was resolved last of the same is used again.
pub fn resolve(
    alloc: Global,
    plan: &Plan,
    admitted: &Admitted,
    classes: &[StorePath],
    cache: &mut Cache,
    last: &mut LastResolved,
) -> Result<Resolved, Refusal>
    ensures resolved { let entries = served_plan plan.now in
        let answer = then_do entries (resolved_over classes.now admitted.now.derivation) in
        MatchResult result
        (λ resolved. answer ≡ Ok resolved)
        (λ e. (e ≡ Memory) ⊎ (answer ≡ Err e)) }
    ensures sound { IfOk result (λ _. IsSoundPlan plan.now) }
    ensures made { IsForStep cache.old → result ≢ Err Memory
        → HasRepaired plan.now (made_in cache.new.made) }
    ensures at_hand { HasRepaired plan.now (made_in cache.old.made) → cache.new ≡ cache.old }
{
    let entries = served_closure_with(alloc, plan, cache)?;
    let served = served_among(alloc, &entries, classes)?;
    last.resolve(alloc, admitted, served, entries)
}
