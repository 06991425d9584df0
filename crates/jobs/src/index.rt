//! Ascending lists of numbers, by keys.

ghost use Rattle.std.specs.Prelude.{◌≡◌, ◌<◌, ◌≤◌, ◌∷◌, [], length, MatchResult, OnOk, IfErr};
ghost use Rattle.model.specs.declared.refusal.Refusal.TheVariants.{Memory};
ghost use Rattle.jobs.specs.Rising.{with_number, without_number};
ghost use Rattle.jobs.specs.Numbers.{numbers_at, room_at, ChangesAt, Exchanges, HasSameNumbers, KeepsRoom};

use crate::ascending::Ascending;
use indexmap::IndexMap;
use model::Refusal;
use std::alloc::Global;
use std::hash::{Hash, RandomState};

/// The numbers at a key. They are found at once, without a hash where there are none at any.
pub(crate) fn numbers_at<'a, K: Eq + Hash>(
    index: &'a IndexMap<K, Ascending, RandomState>,
    key: &K,
) -> &'a [u16]
    ensures { result.now ≡ numbers_at (K.eq key.now) index.now.entries }
{
    if index.is_empty() {
        return &[];
    }
    match index.get(key) {
        Some(list) => list.as_slice(),
        None => &[],
    }
}

/// Puts a number in its place at a key. The one error is memory, and changes no list.
pub(crate) fn insert_at<K: Eq + Hash + Drop>(
    alloc: Global,
    index: &mut IndexMap<K, Ascending, RandomState>,
    key: K,
    number: u16,
) -> Result<(), Refusal>
    ensures { MatchResult result
        (λ _. ChangesAt K.eq key (with_number number) index.old.entries index.new.entries)
        (λ e. (e ≡ Memory) × HasSameNumbers K.eq index.old.entries index.new.entries) }
{
    if let Some(list) = index.get_mut(&key) {
        list.insert(number)?;
        return Ok(());
    }
    let list = Ascending::of_one(alloc, number)?;
    let _none = index.insert(key, list)?;
    Ok(())
}

/// Makes room at a key for so many numbers in all. The one error is memory. No list changes.
pub(crate) fn reserve_at<K: Eq + Hash + Drop>(
    alloc: Global,
    index: &mut IndexMap<K, Ascending, RandomState>,
    key: K,
    count: usize,
) -> Result<(), Refusal>
    ensures numbers { HasSameNumbers K.eq index.old.entries index.new.entries }
    ensures room { OnOk result (count ≤ room_at (K.eq key) index.new.entries) }
    ensures kept { KeepsRoom K.eq index.old.entries index.new.entries }
    ensures memory { IfErr result (λ e. e ≡ Memory) }
{
    if let Some(list) = index.get_mut(&key) {
        return list.reserve(count);
    }
    let _none = index.insert(key, Ascending::with_capacity(alloc, count)?)?;
    Ok(())
}

/// Puts a number for which there is room in its place at a key. It takes no memory.
pub(crate) fn insert_reserved_at<K: Eq + Hash>(
    index: &mut IndexMap<K, Ascending, RandomState>,
    key: &K,
    number: u16,
)
    requires { length (numbers_at (K.eq key.now) index.old.entries)
        < room_at (K.eq key.now) index.old.entries }
    ensures numbers { ChangesAt K.eq key.now (with_number number)
        index.old.entries index.new.entries }
    ensures kept { KeepsRoom K.eq index.old.entries index.new.entries }
{
    if let Some(list) = index.get_mut(key) {
        list.insert_reserved(number);
    }
}

/// Takes a number out at a key. It takes no memory, and the room of the list stays.
pub(crate) fn remove_at<K: Eq + Hash>(
    index: &mut IndexMap<K, Ascending, RandomState>,
    key: &K,
    number: u16,
)
    ensures numbers { ChangesAt K.eq key.now (without_number number)
        index.old.entries index.new.entries }
    ensures kept { KeepsRoom K.eq index.old.entries index.new.entries }
{
    if let Some(list) = index.get_mut(key) {
        list.remove(number);
    }
}

/// Puts a number in its place at a key, once another one is taken out there. It takes no memory.
pub(crate) fn exchange_at<K: Eq + Hash>(
    index: &mut IndexMap<K, Ascending, RandomState>,
    key: &K,
    out: u16,
    number: u16,
)
    requires { length (without_number out (numbers_at (K.eq key.now) index.old.entries))
        < room_at (K.eq key.now) index.old.entries }
    ensures numbers { Exchanges K.eq key.now out number index.old.entries index.new.entries }
    ensures kept { KeepsRoom K.eq index.old.entries index.new.entries }
{
    remove_at(index, key, out);
    insert_reserved_at(index, key, number);
}
