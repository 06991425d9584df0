//! How often paths are counted.

ghost use Rattle.std.specs.Prelude.{◌≡◌, [], ◌∷◌, box_value, MatchResult};
ghost use Rattle.desk_records.specs.Counted.{count_at, HasOneMore, HasOneLess, HasSameCounts};
ghost use Rattle.model.specs.declared.refusal.Refusal.TheVariants.{Memory};

use indexmap::IndexMap;
use model::Refusal;
use std::alloc::Global;
use std::hash::RandomState;
use std::marker::Model;
use storepath::StorePath;

/// What is counted. Most often that is one path, which needs no memory of its own.
#[derive(Drop)]
enum Kept {
    Empty,
    One(StorePath, usize),
    Several(Box<IndexMap<StorePath, usize, RandomState>>),
}

/// For each path, how often it is counted; one that is not counted takes no room.
///
/// The hasher has keys that nobody outside knows, since records may come from others.
pub struct Counts {
    kept: Kept,
}

impl Drop for Counts {
    fn drop(self) {
        let Counts { kept: _ } = self;
    }
}

impl Model for Counts {
    ghost use Rattle.std.specs.Prelude.{ℕ, List};
    ghost use Rattle.desk_records.specs.Tallied.{counts_in};

    ghost Value = { List (List ℕ × ℕ) };

    ghost view = { λ c. counts_in c.kept };
}

/// How often a path is counted in a table.
fn count_in(table: &IndexMap<StorePath, usize, RandomState>, path: &StorePath) -> usize
    ensures { result ≡ count_at path.now table.now.entries }
{
    match table.get(path) {
        Some(count) => *count,
        None => 0,
    }
}

/// Counts a path in a table once more. The one error is memory, and changes no count.
fn add_to(
    table: &mut IndexMap<StorePath, usize, RandomState>,
    path: StorePath,
) -> Result<(), Refusal>
    ensures { MatchResult result
        (λ _. HasOneMore path table.old.entries table.new.entries)
        (λ e. (e ≡ Memory) × HasSameCounts table.old.entries table.new.entries) }
{
    let Some(more) = count_in(table, &path).checked_add(1) else {
        return Err(Refusal::Memory);
    };
    let _before = table.insert(path, more)?;
    Ok(())
}

/// Counts a path in a table once less, if it is counted. It takes no memory.
fn take_from(table: &mut IndexMap<StorePath, usize, RandomState>, path: &StorePath)
    ensures { HasOneLess path.now table.old.entries table.new.entries }
{
    if let Some(count) = table.get_mut(path) {
        if *count > 1 {
            *count -= 1;
            return;
        }
    }
    let _last = table.swap_remove(path);
}

/// A table in which a path is counted so often, and one once more. The one error is memory.
fn table_of(
    alloc: Global,
    hashing: RandomState,
    own: &StorePath,
    times: usize,
    path: StorePath,
) -> Result<Box<IndexMap<StorePath, usize, RandomState>>, Refusal>
    ensures { MatchResult result
        (λ table. HasOneMore path ((own.now, times) ∷ []) (box_value table).entries)
        (λ e. e ≡ Memory) }
{
    let mut table = IndexMap::with_hasher(alloc, hashing);
    let _none = table.insert(own.clone()?, times)?;
    add_to(&mut table, path)?;
    Ok(Box::new(alloc, table)?)
}

impl Counts {
    /// Nothing is counted.
    pub(crate) fn new() -> Counts
        ensures { result ≡ [] }
    {
        Counts { kept: Kept::Empty }
    }

    /// How often a path is counted.
    pub(crate) fn count(&self, path: &StorePath) -> usize
        ensures { result ≡ count_at path.now self.now }
    {
        match &self.kept {
            Kept::One(own, times) if own == path => *times,
            Kept::Several(table) => count_in(table, path),
            _ => 0,
        }
    }

    /// Counts a path once more. `hashing` has the keys of the hasher. The one error is memory, and changes no
    /// count: one that is at its most counts as that, since what it counts takes more than there is.
    pub(crate) fn add(
        &mut self,
        alloc: Global,
        hashing: RandomState,
        path: StorePath,
    ) -> Result<(), Refusal>
        ensures { MatchResult result
            (λ _. HasOneMore path self.old self.new)
            (λ e. (e ≡ Memory) × HasSameCounts self.old self.new) }
    {
        match &mut self.kept {
            Kept::Empty => self.kept = Kept::One(path, 1),
            Kept::One(own, times) if *own == path => {
                let Some(more) = times.checked_add(1) else {
                    return Err(Refusal::Memory);
                };
                *times = more;
            }
            Kept::One(own, times) => {
                let table = table_of(alloc, hashing, own, *times, path)?;
                self.kept = Kept::Several(table);
            }
            Kept::Several(table) => return add_to(table, path),
        }
        Ok(())
    }

    /// Counts a path once less, if it is counted. It takes no memory.
    pub(crate) fn take(&mut self, path: &StorePath)
        ensures { HasOneLess path.now self.old self.new }
    {
        match &mut self.kept {
            Kept::One(own, times) if *own == *path => {
                if *times > 1 {
                    *times -= 1;
                } else {
                    self.kept = Kept::Empty;
                }
            }
            Kept::Several(table) => take_from(table, path),
            _ => {}
        }
    }
}
