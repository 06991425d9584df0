//! Lists of store paths.

ghost use Rattle.std.specs.Prelude.{◌≡◌, MatchResult, bytes_eq, ℕ, List};
ghost use Rattle.std.specs.List.{list_any};
ghost use Rattle.model.specs.Classes.{is_one_of};
ghost use Rattle.model.specs.declared.refusal.Refusal.TheVariants.{Memory};

use indexmap::IndexSet;
use model::Refusal;
use std::alloc::Global;
use storepath::StorePath;

/// The paths, to be looked up among them.
///
/// # Errors
///
/// - `Memory` only where memory was refused.
pub fn set_of(alloc: Global, paths: &[StorePath]) -> Result<IndexSet<StorePath>, Refusal>
    ensures { MatchResult result
        (λ set. (path : List ℕ) → list_any (bytes_eq path) set.keys ≡ is_one_of paths.now path)
        (λ e. e ≡ Memory) }
{
    let copies = paths.to_vec(alloc)?;
    Ok(IndexSet::from_iter(alloc, copies)?)
}
