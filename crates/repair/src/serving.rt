//! Serving the classes of a plan, those of lower ranks first.

ghost use Rattle.std.specs.Prelude.{◌≡◌, ◌≢◌, ◌⊎◌, ◌++◌, ◌∷◌, [], List, None, IfOk, MatchResult, Ok, Err, bytes_eq};
ghost use Rattle.std.specs.Map.{lookup};
ghost use Rattle.model.specs.Repairs.{serve_all};
ghost use Rattle.model.specs.Closures.{served_plan};
ghost use Rattle.model.specs.declared.refusal.Refusal.TheVariants.{Memory};
ghost use Rattle.records.specs.Plans.{IsInOrder};
ghost use Rattle.repair.specs.Serving.{AreServed};
ghost use Rattle.repair.specs.Counting.{made_in, IsForStep};
ghost use Rattle.repair.specs.Prepared.{HasRepaired};
ghost use Rattle.records.specs.Sound.{IsSoundPlan};

use crate::cache::Cache;
use crate::entries::entries_with;
use crate::relabelling::serve;
use indexmap::IndexMap;
use model::Refusal;
use records::{Entry, Plan, Realisation};
use std::alloc::Global;
use storepath::StorePath;

// Puts what serves a class, where nothing is there for it yet.
fn put_served(
    served: &mut IndexMap<StorePath, Realisation>,
    class: StorePath,
    realisation: Realisation,
) -> Result<(), Refusal>
    ensures { MatchResult result
        (λ _. lookup (bytes_eq class) served.old.entries ≡ None
        → served.new.entries ≡ served.old.entries ++ (class, realisation) ∷ [])
        (λ e. e ≡ Memory) }
{
    let _none = served.insert(class, realisation)?;
    Ok(())
}

// What serves each class of a plan. A class is served after those of lower ranks.
fn serve_all(
    alloc: Global,
    plan: &Plan,
    cache: &mut Cache,
) -> Result<IndexMap<StorePath, Realisation>, Refusal>
    ensures served { MatchResult result
        (λ served. AreServed plan.now plan.now.records served.entries)
        (λ e. (e ≡ Memory) ⊎ (serve_all plan.now.records ≡ Err e)) }
    ensures in_order { IsInOrder plan.now }
    ensures sound { IfOk result (λ _. IsSoundPlan plan.now) }
    ensures made { IsForStep cache.old → result ≢ Err Memory
        → HasRepaired plan.now (made_in cache.new.made) }
    ensures at_hand { HasRepaired plan.now (made_in cache.old.made) → cache.new ≡ cache.old }
{
    let mut served = IndexMap::new(alloc);
    let records = plan.records();
    for chosen in records {
        let realisation = serve(alloc, chosen, &served, cache)?;
        let class = chosen.class().path().clone()?;
        put_served(&mut served, class, realisation)?;
    }
    Ok(served)
}

/// The closure that was planned: by path, then by class path, with a class before a source. Each
/// class is served once: by the chosen record or, where the classes that its labels name are served
/// by other paths, by that record with its hash parts put anew.
///
/// # Errors
///
/// Of the first class that cannot be served, by rank and then by class path.
///
/// - `NotRealised` exactly where a label of its record names a class that is not planned, or one of
///   a rank that is not lower.
/// - `RewriteRefused` exactly where none does, and its record cannot be put anew: `InName` where a
///   hash part stands in a name, `Overlap` where two share bytes, and `Accidental` where one would
///   stand where none was put, or its own path is to stand in the place of another.
/// - `Memory` only where memory was refused; it may stand in the place of each answer.
///
/// A cache for one step has what came of each record that is repaired then. Where it had all that before,
/// none is repaired.
pub fn served_closure_with(
    alloc: Global,
    plan: &Plan,
    cache: &mut Cache,
) -> Result<Vec<Entry>, Refusal>
    ensures served { MatchResult result
        (λ entries. served_plan plan.now ≡ Ok entries.items)
        (λ e. (e ≡ Memory) ⊎ (served_plan plan.now ≡ Err e)) }
    ensures sound { IfOk result (λ _. IsSoundPlan plan.now) }
    ensures made { IsForStep cache.old → result ≢ Err Memory
        → HasRepaired plan.now (made_in cache.new.made) }
    ensures at_hand { HasRepaired plan.now (made_in cache.old.made) → cache.new ≡ cache.old }
{
    let served = serve_all(alloc, plan, cache)?;
    entries_with(alloc, &served, plan.sources())
}

/// The same, where no record was repaired before.
pub fn served_closure(alloc: Global, plan: &Plan) -> Result<Vec<Entry>, Refusal>
    ensures served { MatchResult result
        (λ entries. served_plan plan.now ≡ Ok entries.items)
        (λ e. (e ≡ Memory) ⊎ (served_plan plan.now ≡ Err e)) }
    ensures sound { IfOk result (λ _. IsSoundPlan plan.now) }
{
    served_closure_with(alloc, plan, &mut Cache::none())
}
