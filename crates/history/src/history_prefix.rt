//! Prefixes of the history that were seen, by whoever saw them.

ghost use Rattle.std.specs.Prelude.{◌≡◌, ◌+◌, ◌<◌, ◌^◌, ◌++◌, ◌∷◌, [], length, true, MatchBool};
ghost use mathlib.Core.List.{IsPrefix};
ghost use Rattle.history.specs.HistoryPrefixes.{head_of, IsLonger};

use crate::front_id::FrontId;
use crate::row::Row;
use logbook::{Gain, Offer, Plain, Play, Rule, Seen, Start, Word};
use std::marker::PhantomData;

/// The rule of the history: one word is its length.
pub struct Lengths;

impl Rule<Row, u64> for Lengths {
    ghost use Rattle.std.specs.Prelude.{[]};
    ghost use base.Fml.{ftrue};
    ghost use Rattle.history.specs.HistoryPrefixes.{IsCounted};

    ghost holds = { λ cells log. IsCounted cells log };

    ghost first = { [] };

    ghost hinted = { λ n log. Unit {0} };

    ghost shows = { λ log. [] };

    ghost keeps = { λ names log. ftrue };

    ghost moves = { λ ask before after answer. Unit {0} };
}

/// Nothing is traded.
pub struct Nothing;

impl Gain<Row, u64> for Nothing {
    ghost use base.Fml.{ftrue};

    ghost after = { λ names about answer. ftrue };
}

/// The step that adds a row.
pub struct Add;

impl Play<Row, u64> for Add {
    ghost use Rattle.history.specs.HistoryPrefixes.{Adds};

    ghost then = { Adds };
}

/// What the step asks for: the row.
impl Plain<Row, Row, u64> for Add {
    ghost use Rattle.std.specs.Prelude.{None};

    ghost ask = { λ row. row };

    ghost state = { λ row. None };
}

/// The history of a new front, which has no name yet.
pub struct EmptyHistory {
    head: Word<Row, u64, Lengths>,
    pub seen: Seen<Row, u64, Lengths>,
    ghost none: { seen.log ≡ [] },
    ghost head_is: { head ≡ head_of seen.book },
}

impl Drop for EmptyHistory {
    fn drop(self) {
        let EmptyHistory { head: _, seen: _ } = self;
    }
}

impl EmptyHistory {
    /// That of no rows.
    pub(crate) fn new() -> EmptyHistory {
        let (seen, mut first, _second) = Seen::open(Start::alone(), 0, 0);
        EmptyHistory {
            head: Word::tracked(0, &mut first),
            seen,
        }
    }

    /// Its length under a name, and the beginning that has no rows.
    pub fn named<J: FrontId>(self) -> (HistoryLength<J>, HistoryPrefix)
        requires { self.seen.book ≡ J.book }
        ensures { (result.1.seen.log ≡ []) × (result.1.seen.book ≡ J.book) }
    {
        let EmptyHistory { head, seen } = self;
        let head = HistoryLength {
            head,
            of: PhantomData,
        };
        (head, HistoryPrefix { rows: 0, seen })
    }
}

/// The length of the history.
pub struct HistoryLength<J: FrontId> {
    head: Word<Row, u64, Lengths>,
    of: PhantomData<J>,
    ghost head_is: { head ≡ head_of J.book },
}

impl<J: FrontId> Drop for HistoryLength<J> {
    fn drop(self) {
        let HistoryLength { head: _, of: _ } = self;
    }
}

/// A beginning of the history that was seen. Of its rows it keeps the number alone.
pub struct HistoryPrefix {
    rows: u64,
    pub seen: Seen<Row, u64, Lengths>,
    ghost counted: { rows ≡ length seen.log },
}

impl Drop for HistoryPrefix {
    fn drop(self) {
        let HistoryPrefix { rows: _, seen: _ } = self;
    }
}

impl HistoryPrefix {
    /// How many rows it has.
    pub fn len(&self) -> u64
        ensures { result ≡ length self.now.seen.log }
    {
        self.rows
    }

    /// A copy.
    pub fn clone(&self) -> HistoryPrefix
        ensures { result.seen ≡ self.now.seen }
    {
        HistoryPrefix {
            rows: self.rows,
            seen: self.seen.again(),
        }
    }

    /// Whether the other one begins with it. Of two beginnings of one history the shorter begins the
    /// longer.
    pub fn begins(&self, other: &HistoryPrefix) -> bool
        requires { other.now.seen.book ≡ self.now.seen.book }
        ensures { MatchBool result (IsPrefix self.now.seen.log other.now.seen.log) (IsLonger other.now.seen.log self.now.seen.log) }
    {
        let mut both = self.seen.again();
        both.learn(&other.seen);
        self.rows <= other.rows
    }

    /// Adds a row to all that was seen, and says whether it did. It did not where the history is longer.
    pub fn add<J: FrontId>(&mut self, head: &HistoryLength<J>, row: &Row) -> bool
        requires book { self.old.seen.book ≡ J.book }
        requires room { length self.old.seen.log < 2 ^ 62 }
        ensures book { self.new.seen.book ≡ J.book }
        ensures added { result ≡ true → self.new.seen.log ≡ self.old.seen.log ++ row.now ∷ [] }
    {
        let mut offer: Offer<Row, u64, Lengths, Nothing> = self
            .seen
            .plain::<Nothing, Row, Add>(row);
        let mut pen = self.seen.no_pen();
        let rows = self.rows;
        let found = head
            .head
            .compare_exchange::<Add, Nothing>(rows, rows + 1, &mut self.seen, &mut offer, &mut pen);
        self.rows = if found == rows { rows + 1 } else { found };
        found == rows
    }
}
