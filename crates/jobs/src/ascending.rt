//! Ascending lists of numbers.

ghost use Rattle.std.specs.Prelude.{◌≡◌, ◌<◌, ◌≤◌, ◌==◌, true, [], ◌∷◌, nat_lt, nat_le, position, vec_len, vec_capacity, MatchResult, IfOk, OnOk, IfErr};
ghost use Rattle.std.specs.List.{position_or_len};
ghost use Rattle.model.specs.declared.refusal.Refusal.TheVariants.{Memory};
ghost use Rattle.jobs.specs.Rising.{with_number, without_number, rises};

use model::Refusal;
use std::alloc::Global;

/// An ascending list of numbers.
pub(crate) struct Ascending {
    numbers: Vec<u16>,
    ghost rising: { rises 0 numbers.items ≡ true },
}

impl Drop for Ascending {
    fn drop(self) {
        let Ascending { numbers: _ } = self;
    }
}

// The place of the first number above this one, or the end.
fn place_above(list: &[u16], number: u16) -> usize
    requires { rises 0 list.now ≡ true }
    ensures { result ≡ position_or_len (λ n. nat_lt number n) list.now }
{
    list.partition_point(|other| *other <= number)
}

// The place of the first number that is not below this one, or the end.
fn place_from(list: &[u16], number: u16) -> usize
    requires { rises 0 list.now ≡ true }
    ensures { result ≡ position_or_len (λ n. nat_le number n) list.now }
{
    list.partition_point(|other| *other < number)
}

// The place of a number.
fn place_of(list: &[u16], number: u16) -> Option<usize>
    requires { rises 0 list.now ≡ true }
    ensures { result ≡ position (λ n. n == number) list.now }
{
    let place = place_from(list, number);
    if place < list.len() && list[place] == number {
        Some(place)
    } else {
        None
    }
}

impl Ascending {
    /// No numbers.
    pub(crate) fn new(alloc: Global) -> Ascending
        ensures { result.numbers.items ≡ [] }
    {
        Ascending {
            numbers: Vec::new(alloc),
        }
    }

    /// No numbers, with room for so many. The one error is memory.
    pub(crate) fn with_capacity(alloc: Global, count: usize) -> Result<Ascending, Refusal>
        ensures items { IfOk result (λ list. list.numbers.items ≡ []) }
        ensures room { IfOk result (λ list. count ≤ vec_capacity list.numbers) }
        ensures memory { IfErr result (λ e. e ≡ Memory) }
    {
        let numbers = Vec::with_capacity(alloc, count)?;
        Ok(Ascending { numbers })
    }

    /// One number. The one error is memory.
    pub(crate) fn of_one(alloc: Global, number: u16) -> Result<Ascending, Refusal>
        ensures { MatchResult result (λ list. list.numbers.items ≡ number ∷ []) (λ e. e ≡ Memory) }
    {
        let mut numbers = Vec::new(alloc);
        numbers.push(number)?;
        Ok(Ascending { numbers })
    }

    /// The numbers.
    pub(crate) fn as_slice(&self) -> &[u16]
        ensures { result.now ≡ self.now.numbers.items }
    {
        self.numbers.as_slice()
    }

    /// Puts a number in its place. The one error is memory, and changes nothing.
    pub(crate) fn insert(&mut self, number: u16) -> Result<(), Refusal>
        ensures { MatchResult result
            (λ _. self.new.numbers.items ≡ with_number number self.old.numbers.items)
            (λ e. (e ≡ Memory) × (self.new.numbers.items ≡ self.old.numbers.items)) }
    {
        let place = place_above(self.numbers.as_slice(), number);
        self.numbers.insert(place, number)?;
        Ok(())
    }

    /// Makes room for so many numbers in all. The one error is memory. No number changes.
    pub(crate) fn reserve(&mut self, count: usize) -> Result<(), Refusal>
        ensures items { self.new.numbers.items ≡ self.old.numbers.items }
        ensures room { OnOk result (count ≤ vec_capacity self.new.numbers) }
        ensures kept { vec_capacity self.old.numbers ≤ vec_capacity self.new.numbers }
        ensures memory { IfErr result (λ e. e ≡ Memory) }
    {
        self.numbers
            .reserve(count.saturating_sub(self.numbers.len()))?;
        Ok(())
    }

    /// Makes room for one number more. The one error is memory. No number changes.
    pub(crate) fn reserve_one(&mut self) -> Result<(), Refusal>
        ensures items { self.new.numbers.items ≡ self.old.numbers.items }
        ensures room { OnOk result (vec_len self.new.numbers < vec_capacity self.new.numbers) }
        ensures memory { IfErr result (λ e. e ≡ Memory) }
    {
        self.numbers.reserve(1)?;
        Ok(())
    }

    /// Puts a number for which there is room in its place. It takes no memory.
    pub(crate) fn insert_reserved(&mut self, number: u16)
        requires { vec_len self.old.numbers < vec_capacity self.old.numbers }
        ensures items { self.new.numbers.items ≡ with_number number self.old.numbers.items }
        ensures kept { vec_capacity self.old.numbers ≤ vec_capacity self.new.numbers }
    {
        let place = place_above(self.numbers.as_slice(), number);
        self.numbers.insert(place, number).unwrap();
    }

    /// Takes a number out, where it is there. Its room stays.
    pub(crate) fn remove(&mut self, number: u16)
        ensures items { self.new.numbers.items ≡ without_number number self.old.numbers.items }
        ensures kept { vec_capacity self.old.numbers ≤ vec_capacity self.new.numbers }
    {
        if let Some(place) = place_of(self.numbers.as_slice(), number) {
            let _number = self.numbers.remove(place);
        }
    }
}
