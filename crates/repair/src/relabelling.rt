//! Records whose labels are replaced.

ghost use Rattle.std.specs.Prelude.{◌≡◌, ◌≢◌, ◌≤◌, ◌⊎◌, List, IfOk, MatchResult, is_some, Ok, Err};
ghost use Rattle.classes.specs.Admitting.{one_more};
ghost use Rattle.model.specs.Limits.{greatest_rank};
ghost use Rattle.model.specs.Settling.{name_in};
ghost use Rattle.model.specs.References.{paths_of_labels};
ghost use Rattle.model.specs.Repairs.{Replacement as ReplacementValue, relabelled, repaired};
ghost use Rattle.model.specs.declared.refusal.Refusal.TheVariants.{Memory};
ghost use Rattle.repair.specs.Relabelling.{IsRewritten, IsNotRewritten, IsResettled, IsNotResettled, settled_as};
ghost use Rattle.records.specs.Recorded.{AreInPathOrder};
ghost use Rattle.repair.specs.Served.{served_from, IsRelabelledBy};
ghost use Rattle.repair.specs.AtHand.{IsMade, KeepsOthers};
ghost use Rattle.repair.specs.Counting.{bound_of, made_in, IsAtHand, IsBounded, IsForStep, IsToRepair};
ghost use Rattle.records.specs.Sound.{IsSoundRecord};

use crate::cache::Cache;
use crate::images::images_of;
use crate::replacements::{
    Replacement, is_any_replaced, is_any_replaced_by, new_labels, replacements_of,
};
use indexmap::IndexMap;
use model::{Refusal, RewriteFault};
use nar::{Nar, encode};
use path_sets::PathSet;
use records::{Label, Realisation, Record};
use rewrite::{Candidates, Named, settle, substitute};
use scan::occurrences;
use std::alloc::{AllocError, Global};
use storepath::{Name, StorePath};

// The paths of labels. The one error is memory.
fn paths_of(alloc: Global, labels: &[Label]) -> Result<Vec<StorePath>, AllocError>
    ensures { IfOk result (λ paths. paths.items ≡ paths_of_labels labels.now) }
{
    let mut paths = Vec::new(alloc);
    for label in labels {
        paths.push(label.path().clone()?)?;
    }
    Ok(paths)
}

// The name of a path. The one error is memory.
fn name_in(alloc: Global, path: &StorePath) -> Result<Name, Refusal>
    ensures { MatchResult result (λ name. name ≡ name_in path.now) (λ e. e ≡ Memory) }
{
    Name::new(alloc, path.name())
}

// The tree of a record with the hash parts of its labels put anew.
fn rewritten(
    alloc: Global,
    chosen: &Realisation,
    replacements: &[Replacement],
) -> Result<Nar, Refusal>
    ensures { MatchResult result
        (IsRewritten chosen.now replacements.now)
        (IsNotRewritten chosen.now replacements.now) }
{
    let images = images_of(alloc, chosen.path(), replacements)?;
    let keys = images.keys(alloc)?;
    let archive = encode(alloc, chosen.tree())?;
    let places = occurrences(alloc, &archive, &keys)?;
    substitute(alloc, &archive, &places, &images)
}

// Such a tree with the path of its content, where these are its new labels.
fn resettled(
    alloc: Global,
    chosen: &Realisation,
    labels: &[Label],
    archive: &Nar,
) -> Result<Named, Refusal>
    ensures { MatchResult result
        (IsResettled chosen.now labels.now archive.now)
        (IsNotResettled chosen.now labels.now archive.now) }
{
    let own = chosen.path().hash_part();
    let paths = paths_of(alloc, labels)?;
    let name = name_in(alloc, chosen.path())?;
    let none = PathSet::new();
    let candidates = Candidates {
        listed: &paths,
        found: &none,
    };
    settle(alloc, archive, &own, &candidates, &name)
}

// A record of the same class with these labels, at the path of a settled tree. The one error is
// memory.
fn settled_as(
    alloc: Global,
    chosen: &Realisation,
    labels: Vec<Label>,
    named: &Named,
) -> Result<Realisation, Refusal>
    requires { AreInPathOrder labels.items }
    ensures { MatchResult result
        (λ made. made ≡ settled_as chosen.now labels.items named.now)
        (λ e. e ≡ Memory) }
{
    let tree = named.tree(alloc)?;
    let record = Record::new(chosen.class().clone()?, named.path().clone()?, labels)?;
    Ok(Realisation::new(record, tree))
}

// The record with its labels replaced, at the path of its new tree.
pub(crate) fn repaired(
    alloc: Global,
    chosen: &Realisation,
    replacements: &[Replacement],
) -> Result<Realisation, Refusal>
    ensures { let answer = repaired chosen.now replacements.now in MatchResult result
        (λ made. answer ≡ Ok made)
        (λ e. (e ≡ Memory) ⊎ (answer ≡ Err e)) }
{
    let archive = rewritten(alloc, chosen, replacements)?;
    let labels = new_labels(alloc, replacements)?;
    let named = resettled(alloc, chosen, &labels, &archive)?;
    settled_as(alloc, chosen, labels, &named)
}

/// A record as it is where no path is replaced, and else with its labels replaced, at the path of its
/// new tree.
///
/// # Errors
///
/// - `RewriteRefused` exactly where a path is replaced, and it is one of these: its own path is to
///   stand in the place of another; hash parts cannot be put anew; or the new tree cannot be given
///   its path.
/// - `Memory` only where memory was refused; it may stand in the place of each answer.
pub(crate) fn relabelled(
    alloc: Global,
    chosen: &Realisation,
    replacements: &[Replacement],
    cache: &mut Cache,
) -> Result<Realisation, Refusal>
    ensures answer { let answer = relabelled chosen.now replacements.now in MatchResult result
        (λ made. answer ≡ Ok made)
        (λ e. (e ≡ Memory) ⊎ (answer ≡ Err e)) }
    ensures at_hand { IsToRepair chosen.now replacements.now
        → IsAtHand cache.old chosen.now replacements.now
        → result ≢ Err Memory → cache.new.computed ≡ cache.old.computed }
    ensures computed { IsToRepair chosen.now replacements.now
        → (IsAtHand cache.old chosen.now replacements.now → ⊥)
        → result ≢ Err Memory → cache.new.computed ≡ one_more cache.old.computed }
    ensures made { IsToRepair chosen.now replacements.now → IsForStep cache.old
        → result ≢ Err Memory
        → IsMade (made_in cache.new.made) chosen.now replacements.now }
    ensures same { (IsToRepair chosen.now replacements.now
        → IsMade (made_in cache.old.made) chosen.now replacements.now)
        → cache.new ≡ cache.old }
    ensures others { KeepsOthers chosen.now.class.path (made_in cache.old.made) (made_in
        cache.new.made) }
    ensures step { is_some cache.new.made ≡ is_some cache.old.made }
    ensures idle { (IsToRepair chosen.now replacements.now → ⊥) → cache.new ≡ cache.old }
    ensures bounded { IsBounded cache.new.kept }
    ensures bound { bound_of cache.new.kept ≡ bound_of cache.old.kept }
{
    if !is_any_replaced(replacements) {
        return Ok(chosen.clone()?);
    }
    if is_any_replaced_by(chosen.path(), replacements) {
        return Err(Refusal::RewriteRefused(RewriteFault::Accidental));
    }
    cache.repaired(alloc, chosen, replacements)
}

/// A chosen record, relabelled by what serves the classes of its labels, of those that are served so
/// far.
///
/// # Errors
///
/// - `NotRealised` exactly where the class of a label is not served, or is not of a lower rank.
/// - `RewriteRefused` exactly where labels are replaced and the record cannot be repaired, with the reason.
/// - `Memory` only where memory was refused; it may stand in the place of each answer.
///
/// What came of the record before, with the same labels replaced alike, is used where it is at hand, and
/// nothing is made then. Else it is made once. A cache for one step has it then, and what it has for other
/// classes stays. What the cache keeps of those used last counts at most what it may.
pub fn serve(
    alloc: Global,
    chosen: &Realisation,
    served: &IndexMap<StorePath, Realisation>,
    cache: &mut Cache,
) -> Result<Realisation, Refusal>
    ensures served { let answer = served_from served.now.entries chosen.now in
        MatchResult result
        (λ made. answer ≡ Ok made)
        (λ e. (e ≡ Memory) ⊎ (answer ≡ Err e)) }
    ensures sound { IfOk result (λ _. IsSoundRecord chosen.now) }
    ensures low { chosen.now.class.rank ≤ greatest_rank }
    ensures at_hand { (replacements : List ReplacementValue)
        → IsRelabelledBy served.now.entries chosen.now replacements
        → IsToRepair chosen.now replacements → IsAtHand cache.old chosen.now replacements
        → result ≢ Err Memory
        → cache.new.computed ≡ cache.old.computed }
    ensures computed { (replacements : List ReplacementValue)
        → IsRelabelledBy served.now.entries chosen.now replacements
        → IsToRepair chosen.now replacements → (IsAtHand cache.old chosen.now replacements → ⊥)
        → result ≢ Err Memory → cache.new.computed ≡ one_more cache.old.computed }
    ensures made { (replacements : List ReplacementValue)
        → IsRelabelledBy served.now.entries chosen.now replacements
        → IsToRepair chosen.now replacements → IsForStep cache.old → result ≢ Err Memory
        → IsMade (made_in cache.new.made) chosen.now replacements }
    ensures same { ((replacements : List ReplacementValue)
        → IsRelabelledBy served.now.entries chosen.now replacements
        → IsToRepair chosen.now replacements
        → IsMade (made_in cache.old.made) chosen.now replacements)
        → cache.new ≡ cache.old }
    ensures others { KeepsOthers chosen.now.class.path (made_in cache.old.made) (made_in
        cache.new.made) }
    ensures step { is_some cache.new.made ≡ is_some cache.old.made }
    ensures idle { (replacements : List ReplacementValue)
        → IsRelabelledBy served.now.entries chosen.now replacements
        → (IsToRepair chosen.now replacements → ⊥) → cache.new ≡ cache.old }
    ensures bounded { IsBounded cache.new.kept }
    ensures bound { bound_of cache.new.kept ≡ bound_of cache.old.kept }
{
    chosen.tree().sound();
    chosen.path().sound();
    let replacements = replacements_of(alloc, chosen.labels(), served, chosen.class().rank())?;
    relabelled(alloc, chosen, &replacements, cache)
}
