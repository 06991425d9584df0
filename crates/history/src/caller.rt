//! The callers of a front.

ghost use Rattle.std.specs.Prelude.{◌≡◌, ◌+◌, ◌++◌, ◌∷◌, [], true, false, length};
ghost use Rattle.history.specs.Callers.{newcomer, answered, told_stopped, knowing, rows_of, Matches};
ghost use Rattle.history.specs.Tokens.{with_rows};

use crate::front_id::FrontId;
use crate::log::{Claim, Log};
use crate::row::Row;
use std::marker::Model;
use std::sync::ledger;
use std::sync::ledger::Share;

/// One caller of a front. It has a number of its own, its part of the count of all calls, and a
/// claim of what it knows of the history.
pub struct Caller<J: FrontId> {
    number: u64,
    calls: Share<J>,
    claim: Claim<J>,
}

impl<J: FrontId> Drop for Caller<J> {
    fn drop(self) {
        let Caller {
            number: _,
            calls: _,
            claim: _,
        } = self;
    }
}

/// Contracts see a caller as its number, how many of its calls have a row, its sure rows, which are
/// the history right after the last of these, and whether it was told that the front is stopped.
impl<J: FrontId> Model for Caller<J> {
    ghost use Rattle.std.specs.Prelude.{◌≡◌, length};
    ghost use Rattle.history.specs.Callers.{Caller as CallerValue, rows_of};

    ghost Value = { CallerValue };

    ghost use Rattle.std.specs.Coded.{codes};
    ghost use Rattle.model.specs.TreeCode.{tree_code};

    ghost coded = { Prim.hlevel (codes, tree_code) };

    ghost view = { λ p. record {
      number = p.number;
      calls = p.calls.amount;
      sure = p.claim.rows;
      stopped = p.claim.stopped;
    } };

    ghost invariant = { λ p. (p.calls.parts ≡ 1) × (p.claim.number ≡ p.number)
        × (rows_of p.number p.claim.rows ≡ p.calls.amount)
        × (J.parts ≡ 1 → length p.claim.rows ≡ p.calls.amount) };
}

impl<J: FrontId> Caller<J> {
    /// A caller that has made no call.
    pub fn new(number: u64, calls: Share<J>, claim: Claim<J>) -> Caller<J>
        requires calls { (calls.parts ≡ 1) × (calls.amount ≡ 0) }
        requires claim { (claim.number ≡ number) × (claim.rows ≡ []) × (claim.stopped ≡ false) }
        ensures { result ≡ newcomer number }
    {
        Caller {
            number,
            calls,
            claim,
        }
    }

    /// The number of the caller, from 0 on. It stands in the rows of its calls.
    pub fn number(&self) -> u64
        ensures { result ≡ self.now.number }
    {
        self.number
    }

    /// Its calls that have a row are counted: they are those of its number among its sure rows.
    pub fn rows_are_counted(&self)
        ensures { rows_of self.now.number self.now.sure ≡ self.now.calls }
    {
        let _ = &self.calls;
    }

    /// Compares what it knows with what is recorded, and tells it whether the book is stopped.
    pub fn compare(&mut self, log: &mut Log<J>)
        ensures matches { Matches log.old.rows log.old.stopped self.old }
        ensures knows { self.new ≡ knowing log.old.stopped self.old }
        ensures stopped { log.old.stopped ≡ true → self.new ≡ told_stopped self.old }
        ensures going { log.old.stopped ≡ false → self.new ≡ self.old }
        ensures calls { self.new.calls ≡ self.old.calls }
        ensures sure { self.new.sure ≡ self.old.sure }
        ensures same { log.new ≡ log.old }
    {
        log.compare(&mut self.claim);
    }

    /// Where it is the only caller, all calls are its own.
    pub fn audit(&mut self, calls: &mut ledger::Book<J>)
        ensures alone { J.parts ≡ 1
            → (length self.old.sure ≡ calls.old.total) × (self.old.calls ≡ calls.old.total) }
        ensures same { (self.new ≡ self.old) × (calls.new.total ≡ calls.old.total) }
    {
        calls.audit(&mut self.calls);
    }

    /// Records the row of one more call of the caller, and counts it.
    pub fn add_row(&mut self, calls: &mut ledger::Book<J>, log: &mut Log<J>, row: &Row)
        requires mine { row.now.pass ≡ self.old.number }
        requires matches { Matches log.old.rows log.old.stopped self.old }
        requires alone { J.parts ≡ 1 → length log.old.rows ≡ self.old.calls }
        ensures pass { self.new ≡ answered self.old (log.old.rows ++ row.now ∷ []) }
        ensures log { log.new ≡ with_rows log.old (log.old.rows ++ row.now ∷ []) }
        ensures calls { calls.new.total ≡ calls.old.total + 1 }
    {
        calls.add(&mut self.calls, 1);
        log.grow(&mut self.claim, row);
    }

    /// Its part of the count.
    pub fn into_calls(self) -> Share<J>
        ensures { (result.parts ≡ 1) × (result.amount ≡ self.calls) }
    {
        let Caller {
            number: _,
            calls,
            claim: _claim,
        } = self;
        calls
    }
}
