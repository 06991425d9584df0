//! The records of a group, one after another.

ghost use Rattle.std.specs.Prelude.{◌≡◌, [], ◌∷◌, length};
ghost use Rattle.std.specs.Iterator.{at_most};
ghost use Rattle.std.specs.Map.Iter.{TakesFirst, deref};
ghost use Rattle.desk_records.specs.Numbers.{without_numbers};

use records::Record;
use std::collections::BTreeMap;
use std::collections::btree_map::Values;
use std::marker::Model;

/// What is left of a group.
#[derive(Drop)]
enum Left<'a> {
    AtMostOne(Option<&'a Record>),
    Several(Values<'a, u32, Record>),
}

/// The records of a class, the oldest first, as [`Desk::records_of`](crate::Desk::records_of) gives them.
#[derive(Drop)]
pub struct RecordsOf<'a> {
    left: Left<'a>,
}

impl<'a> Model for RecordsOf<'a> {
    ghost use Rattle.std.specs.Prelude.{List};
    ghost use Rattle.records.specs.Recorded.{Recorded};
    ghost use Rattle.desk_records.specs.Grouped.{records_left};

    ghost Value = { List Recorded };

    ghost view = { λ r. records_left r.left };
}

impl<'a> RecordsOf<'a> {
    /// No records.
    pub(crate) fn none() -> RecordsOf<'a>
        ensures { result ≡ [] }
    {
        RecordsOf {
            left: Left::AtMostOne(None),
        }
    }

    /// One record.
    pub(crate) fn one(own: &'a Record) -> RecordsOf<'a>
        ensures { result ≡ own.now ∷ [] }
    {
        RecordsOf {
            left: Left::AtMostOne(Some(own)),
        }
    }

    /// Those of a map, by ascending numbers.
    pub(crate) fn several(numbered: &'a BTreeMap<u32, Record>) -> RecordsOf<'a>
        ensures { result ≡ without_numbers numbered.now.entries }
    {
        RecordsOf {
            left: Left::Several(numbered.values()),
        }
    }
}

impl<'a> Iterator for RecordsOf<'a> {
    type Item = &'a Record;

    ghost next_gives = { TakesFirst deref };

    ghost remaining = { λ s. at_most (length s) };

    fn next(&mut self) -> Option<&'a Record> {
        match &mut self.left {
            Left::AtMostOne(one) => one.take(),
            Left::Several(values) => values.next(),
        }
    }

    fn size_hint(&self) -> (usize, Option<usize>) {
        let len = self.len();
        (len, Some(len))
    }
}

impl<'a> ExactSizeIterator for RecordsOf<'a> {
    fn len(&self) -> usize {
        match &self.left {
            Left::AtMostOne(None) => 0,
            Left::AtMostOne(Some(_)) => 1,
            Left::Several(values) => values.len(),
        }
    }
}
