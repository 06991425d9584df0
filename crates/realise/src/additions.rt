//! Records that several desks get together, on all of them or on none.

ghost use Rattle.std.specs.Prelude.{◌≡◌, All, length, map, MatchResult};
ghost use Rattle.std.specs.List.{zip};
ghost use Rattle.realise.specs.Additions.{MayAdd, with_addition};
ghost use Rattle.model.specs.declared.refusal.Refusal.TheVariants.{Memory};

use crate::desk::Desk;
use model::Refusal;
use records::Record;
use std::alloc::Global;
use storepath::StorePath;

/// Records that a desk gets, and the path of each with the length of its archive in bytes.
#[derive(Drop)]
pub struct Addition {
    pub records: Vec<Record>,
    pub archives: Vec<(StorePath, u64)>,
}

/// Puts an addition on each desk, on all of them or on none. What the labels of its records name is on
/// the desk or among them.
///
/// A desk is changed only as far as it can be changed back until all that come before it have got
/// theirs. So it takes time by what is added, and not by what the desks have.
///
/// # Errors
///
/// - `Memory` only where memory was refused. Then nothing has changed.
pub fn add_to_each(
    alloc: Global,
    desks: &mut [Desk],
    mut additions: Vec<Addition>,
) -> Result<(), Refusal>
    requires each { length additions.items ≡ length desks.old }
    requires may { All (λ p. MayAdd p.0 p.1) (zip additions.items desks.old) }
    ensures { MatchResult result
        (λ _. desks.new ≡ map (λ p. with_addition p.0 p.1) (zip additions.items desks.old))
        (λ e. (e ≡ Memory) × (desks.new ≡ desks.old)) }
{
    let Some((desk, others)) = desks.split_last_mut() else {
        return Ok(());
    };
    let Addition { records, archives } = additions.pop().unwrap();
    if records.is_empty() && archives.is_empty() {
        return add_to_each(alloc, others, additions);
    }
    let count = desk.records.len();
    desk.holding.reserve(archives.len())?;
    desk.records.push_all(alloc, records)?;
    if let Err(why) = add_to_each(alloc, others, additions) {
        desk.records.truncate(count);
        return Err(why);
    }
    desk.holding.put_all_reserved(archives);
    Ok(())
}
