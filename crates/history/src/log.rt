//! What callers know of a book outside its lock.
//!
//! The knowledge lies in tokens, which have no bytes. One of them, the [`Log`], knows all that the
//! book has recorded, and it lies under the lock with the book. Each caller has a [`Claim`], which is
//! compared with the log at each call, and at the end. No comparison reads anything when it runs.

ghost use Rattle.std.specs.Prelude.{◌≡◌, ◌++◌, ◌∷◌, [], IfOk};
ghost use Rattle.history.specs.Tokens.{nothing_recorded, keeper, with_rows, with_pass, stopped_book, first_claim, claim_of, told, Agrees};

use crate::front_id::FrontId;
use crate::history_prefix::EmptyHistory;
use crate::row::Row;
use atomic_table::{Join, Play, Seat, Split, Table, TableRule};
use std::alloc::{AllocError, Global};
use std::collections::LinkedList;
use std::marker::{Brand, Model, PhantomData};
use std::sync::ledger;

/// What a book has recorded. It is part of what a token knows, and no value of it is made.
pub struct Recorded {
    /// All rows.
    pub rows: LinkedList<Row>,
    /// The number of the next caller.
    pub next: u64,
    /// Whether the book is stopped.
    pub stopped: bool,
}

/// What a caller knows of a book. It is part of what a token knows, and no value of it is made.
pub struct Claimed {
    /// The number of the caller.
    pub number: u64,
    /// The rows right after its last call that has one.
    pub rows: LinkedList<Row>,
    /// Whether it was told that the book is stopped.
    pub stopped: bool,
}

/// What a token knows. No value of it is made.
pub struct TokenKnowledge {
    /// Whether it knows what is recorded.
    pub keeps: bool,
    /// All that is recorded, if it does.
    pub recorded: Recorded,
    /// Whether it knows what a caller knows.
    pub claims: bool,
    /// All that the caller knows, if it does.
    pub claimed: Claimed,
}

/// The rule of the tokens: there is one book, with which each claim agrees, and one claim of each
/// number.
pub struct TokenRule;

impl TableRule<(), TokenKnowledge, ()> for TokenRule {
    ghost use Rattle.history.specs.Tokens.{keeper, nothing_recorded, HaveOneBook};

    ghost holds = { λ _ s. HaveOneBook s.views };

    ghost first = { λ _. keeper nothing_recorded };
}

/// Rows that exist in proofs alone. Each call picks them.
pub trait Rows {
    ghost use Rattle.std.specs.Prelude.{List};
    ghost use Rattle.history.specs.declared.row.Row.{Row};

    ghost rows: { List Row };
}

impl Rows for Brand {
    ghost use Rattle.std.specs.Prelude.{[]};

    ghost rows = { [] };
}

/// The step by which the log, with a claim beside it, records these rows.
pub struct Grow<K: Rows> {
    of: PhantomData<K>,
}

impl<K: Rows> Play<(), TokenKnowledge> for Grow<K> {
    ghost use Rattle.history.specs.Tokens.{Grows};

    ghost then = { Grows K.rows };
}

/// The step by which the log compares the claim beside it.
pub struct Compare;

impl Play<(), TokenKnowledge> for Compare {
    ghost use Rattle.history.specs.Tokens.{Compares};

    ghost then = { Compares };
}

/// The step by which the log records that the book is stopped.
pub struct Stop;

impl Play<(), TokenKnowledge> for Stop {
    ghost use Rattle.history.specs.Tokens.{Stops};

    ghost then = { Stops };
}

/// A new token takes the claim out of another one.
pub struct TakeClaim;

impl Split<TokenKnowledge> for TakeClaim {
    ghost use Rattle.history.specs.Tokens.{holder, without_claim};

    ghost left = { without_claim };

    ghost right = { λ v. holder v.claimed };
}

/// The log makes the claim of the next caller.
pub struct NextClaim;

impl Split<TokenKnowledge> for NextClaim {
    ghost use Rattle.history.specs.Tokens.{keeper, holder, with_pass, first_claim};

    ghost left = { λ v. keeper (with_pass v.recorded) };

    ghost right = { λ v. holder (first_claim v.recorded) };
}

/// The log takes a claim beside it.
pub struct AddClaim;

impl Join<TokenKnowledge> for AddClaim {
    ghost use Rattle.history.specs.Tokens.{both, holder, nothing_claimed, without_claim};

    ghost both = { λ v w. both v.recorded w.claimed };

    ghost spent = { without_claim (holder nothing_claimed) };
}

/// The tokens of a new front, which has no name yet.
pub struct LogTable {
    /// The table of the tokens.
    pub table: Table<(), TokenKnowledge, (), TokenRule, Global>,
    seat: Seat<(), TokenKnowledge>,
    ghost word: { table.shared.table_id.words ≡ 1 },
    ghost here: { seat.table_id ≡ table.shared.table_id },
    ghost empty: { seat.me ≡ (keeper nothing_recorded, []) },
}

impl Drop for LogTable {
    fn drop(self) {
        let LogTable { table: _, seat: _ } = self;
    }
}

impl LogTable {
    /// Those of a book that has recorded nothing.
    pub(crate) fn new(alloc: Global) -> Result<LogTable, AllocError> {
        let (table, seat) = Table::of_words(alloc, &[0], &())?;
        Ok(LogTable { table, seat })
    }

    /// The log, under a name.
    pub fn named<J: FrontId>(self) -> Log<J>
        requires { self.table.shared.table_id ≡ J.table }
        ensures { result ≡ nothing_recorded }
    {
        let LogTable { table, seat } = self;
        Log {
            table,
            seat,
            of: PhantomData,
        }
    }
}

/// What a new front needs, under no name yet: its ledgers, and its tokens.
#[derive(Drop)]
pub struct FrontTokens {
    /// The ledger that counts its calls.
    pub calls: ledger::Blank,
    /// The ledger that counts its stops.
    pub stops: ledger::Blank,
    /// Its tokens.
    pub log: LogTable,
    /// Its history as those see it who do not take the lock.
    pub rows: EmptyHistory,
    ghost same_parts: { stops.parts ≡ calls.parts },
}

impl FrontTokens {
    /// The tokens of a front for so many callers, of which a front takes 1 to 64.
    ///
    /// # Errors
    ///
    /// - `AllocError` only where memory was refused.
    pub fn new(alloc: Global, passes: u64) -> Result<FrontTokens, AllocError>
        ensures { IfOk result (λ blank. blank.calls.parts ≡ passes) }
    {
        let log = LogTable::new(alloc)?;
        Ok(FrontTokens {
            calls: ledger::Blank::new(passes),
            stops: ledger::Blank::new(passes),
            log,
            rows: EmptyHistory::new(),
        })
    }
}

/// The one token that knows all that is recorded. Contracts see it as that.
pub struct Log<J: FrontId> {
    table: Table<(), TokenKnowledge, (), TokenRule, Global>,
    seat: Seat<(), TokenKnowledge>,
    of: PhantomData<J>,
}

impl<J: FrontId> Drop for Log<J> {
    fn drop(self) {
        let Log {
            table: _,
            seat: _,
            of: _,
        } = self;
    }
}

impl<J: FrontId> Model for Log<J> {
    ghost use Rattle.std.specs.Prelude.{◌≡◌, []};
    ghost use Rattle.history.specs.declared.log.Recorded.{Recorded};
    ghost use Rattle.history.specs.Tokens.{keeper};

    ghost Value = { Recorded };

    ghost use Rattle.std.specs.Coded.{codes};
    ghost use Rattle.model.specs.TreeCode.{tree_code};

    ghost coded = { Prim.hlevel (codes, tree_code) };

    ghost view = { λ l. l.seat.me.0.recorded };

    ghost invariant = { λ l. (l.table.shared.table_id ≡ J.table)
        × (l.table.shared.table_id.words ≡ 1) × (l.seat.table_id ≡ J.table)
        × (l.seat.me ≡ (keeper l.seat.me.0.recorded, [])) };
}

/// The one token of a caller. Contracts see it as what the caller knows.
pub struct Claim<J: FrontId> {
    seat: Seat<(), TokenKnowledge>,
    of: PhantomData<J>,
}

impl<J: FrontId> Drop for Claim<J> {
    fn drop(self) {
        let Claim { seat: _, of: _ } = self;
    }
}

impl<J: FrontId> Model for Claim<J> {
    ghost use Rattle.std.specs.Prelude.{◌≡◌, []};
    ghost use Rattle.history.specs.declared.log.Claimed.{Claimed};
    ghost use Rattle.history.specs.Tokens.{holder};

    ghost Value = { Claimed };

    ghost use Rattle.std.specs.Coded.{codes};
    ghost use Rattle.model.specs.TreeCode.{tree_code};

    ghost coded = { Prim.hlevel (codes, tree_code) };

    ghost view = { λ c. c.seat.me.0.claimed };

    ghost invariant = { λ c. (c.seat.table_id ≡ J.table)
        × (c.seat.me ≡ (holder c.seat.me.0.claimed, [])) };
}

impl<J: FrontId> Log<J> {
    /// The claim of the next caller.
    pub fn next_claim(&mut self) -> Claim<J>
        ensures claim { result ≡ first_claim self.old }
        ensures log { self.new ≡ with_pass self.old }
    {
        let Log { table, seat, .. } = self;
        let shared = &table.shared;
        let seat = shared.split_seat::<NextClaim>(seat);
        Claim {
            seat,
            of: PhantomData,
        }
    }

    /// Compares a claim with what is recorded, and tells it whether the book is stopped.
    pub fn compare(&mut self, claim: &mut Claim<J>)
        ensures agrees { Agrees self.old claim.old }
        ensures told { claim.new ≡ told self.old.stopped claim.old }
        ensures same { self.new ≡ self.old }
    {
        let Log { table, seat, .. } = self;
        let shared = &table.shared;
        let taken = shared.split_seat::<TakeClaim>(&mut claim.seat);
        shared.join_seat::<AddClaim>(seat, taken);
        shared.load::<Compare>(seat, 0);
        claim.seat = shared.split_seat::<TakeClaim>(seat);
    }

    /// Records a row more, whose rows are picked.
    fn grow_to<K: Rows>(&mut self, claim: &mut Claim<J>, row: &Row)
        requires mine { row.now.pass ≡ claim.old.number }
        requires rows { K.rows ≡ self.old.rows ++ row.now ∷ [] }
        ensures log { self.new ≡ with_rows self.old (self.old.rows ++ row.now ∷ []) }
        ensures claim { claim.new ≡ claim_of claim.old (self.old.rows ++ row.now ∷ []) }
    {
        let _row = row;
        let Log { table, seat, .. } = self;
        let shared = &table.shared;
        let taken = shared.split_seat::<TakeClaim>(&mut claim.seat);
        shared.join_seat::<AddClaim>(seat, taken);
        shared.load::<Grow<K>>(seat, 0);
        claim.seat = shared.split_seat::<TakeClaim>(seat);
    }

    /// Records a row more, of a call of the caller that has this claim. The claim has all rows then.
    pub fn grow(&mut self, claim: &mut Claim<J>, row: &Row)
        requires { row.now.pass ≡ claim.old.number }
        ensures log { self.new ≡ with_rows self.old (self.old.rows ++ row.now ∷ []) }
        ensures claim { claim.new ≡ claim_of claim.old (self.old.rows ++ row.now ∷ []) }
    {
        self.grow_to::<Brand>(claim, row);
    }

    /// Records that the book is stopped.
    pub fn stop(&mut self)
        ensures { self.new ≡ stopped_book self.old }
    {
        let Log { table, seat, .. } = self;
        let shared = &table.shared;
        shared.load::<Stop>(seat, 0);
    }
}
