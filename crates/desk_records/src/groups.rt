//! Groups of records, by what they have in common: their class, or their path.

ghost use Rattle.std.specs.Prelude.{◌≡◌, true, ◌∷◌, [], MatchResult};
ghost use Rattle.desk_records.specs.RecordLists.{is_recorded_at};
ghost use Rattle.desk_records.specs.Numbers.{IsAbove, number_of, without_numbers};
ghost use Rattle.desk_records.specs.Indexed.{group_at, IsGrouped, IsUngrouped, HasSameGroups};
ghost use Rattle.model.specs.declared.refusal.Refusal.TheVariants.{Memory};

use crate::group::Group;
use crate::records_of::RecordsOf;
use indexmap::IndexMap;
use model::Refusal;
use records::Record;
use std::alloc::Global;
use std::hash::RandomState;
use storepath::StorePath;

/// The records of a group: none, where there is none.
pub(crate) fn records_in<'a>(
    groups: &'a IndexMap<StorePath, Group, RandomState>,
    key: &StorePath,
) -> RecordsOf<'a>
    ensures { result ≡ without_numbers (group_at key.now groups.now.entries) }
{
    match groups.get(key) {
        Some(group) => group.records(),
        None => RecordsOf::none(),
    }
}

/// The number of the first record of a class at a path in a group, if there is one. All of the group are
/// looked at.
pub(crate) fn number_in(
    groups: &IndexMap<StorePath, Group, RandomState>,
    key: &StorePath,
    class: &StorePath,
    path: &StorePath,
) -> Option<u32>
    ensures { result
        ≡ number_of (is_recorded_at class.now path.now) (group_at key.now groups.now.entries) }
{
    groups.get(key)?.number_of(class, path)
}

/// A group of one record. The one error is memory.
fn group_of(alloc: Global, number: u32, one: Record) -> Result<Group, Refusal>
    ensures { MatchResult result
        (λ group. group ≡ (number, one) ∷ [])
        (λ e. e ≡ Memory) }
{
    let mut group = Group::new();
    group.push(alloc, number, one)?;
    Ok(group)
}

/// Puts a record with a number above all into a group. The one error is memory, and changes no
/// group.
pub(crate) fn put_in_group(
    alloc: Global,
    groups: &mut IndexMap<StorePath, Group, RandomState>,
    key: StorePath,
    number: u32,
    one: Record,
) -> Result<(), Refusal>
    requires above { IsAbove number (group_at key groups.old.entries) }
    ensures { MatchResult result
        (λ _. IsGrouped key (number, one) groups.old.entries groups.new.entries)
        (λ e. (e ≡ Memory) × HasSameGroups groups.old.entries groups.new.entries) }
{
    if let Some(group) = groups.get_mut(&key) {
        group.push(alloc, number, one)?;
        return Ok(());
    }
    let group = group_of(alloc, number, one)?;
    let _none = groups.insert(key, group)?;
    Ok(())
}

/// Takes the record of a number out of a group. The answer is whether it was the last one.
fn take_last_from(
    groups: &mut IndexMap<StorePath, Group, RandomState>,
    key: &StorePath,
    number: u32,
) -> bool
    ensures taken { IsUngrouped key.now number groups.old.entries groups.new.entries }
    ensures last { result ≡ true → group_at key.now groups.new.entries ≡ [] }
{
    let Some(group) = groups.get_mut(key) else {
        return false;
    };
    group.remove(number);
    group.is_empty()
}

/// Takes the record of a number out of a group, and the group with its last record. It takes no memory.
pub(crate) fn take_from_group(
    groups: &mut IndexMap<StorePath, Group, RandomState>,
    key: &StorePath,
    number: u32,
)
    ensures { IsUngrouped key.now number groups.old.entries groups.new.entries }
{
    if take_last_from(groups, key, number) {
        let _empty = groups.swap_remove(key);
    }
}
