//! Whether the wait of a session is over.

ghost use Rattle.std.specs.Prelude.{◌≡◌, ◌<◌, [], length, IfOk, IfSome, IfNone};
ghost use Rattle.board.specs.Stages.{goal_at, is_under_way, HangsOn, IsOver};
ghost use Rattle.board.specs.Rows.{is_in};
ghost use Rattle.board.specs.Chains.{BeginsWith, IsFollowed, IsBegun, IsWitness, IsOwnUnderWay, IsNextUnderWay, AreFrom, AreOf};

use crate::chain::Chain;
use crate::goals::Goals;
use crate::stage::Stage;
use std::alloc::AllocError;

impl Goals {
    /// Puts the goals of a session into a chain, up to one that is under way, which it gives.
    fn begin(&self, seat: usize, chain: &mut Chain) -> Result<Option<usize>, AllocError>
        requires seat { seat < length self.now.waiting }
        requires size { chain.old.size ≡ length self.now.goals }
        requires empty { chain.old.places ≡ [] }
        ensures size { chain.new.size ≡ chain.old.size }
        ensures found { IfOk result (λ found. IfSome found (λ place. IsOwnUnderWay self.now seat place)) }
        ensures all { IfOk result (λ found. IfNone found (IsBegun self.now.goals self.now.waiting chain.new.places seat)) }
        ensures of { AreOf self.now.goals seat chain.new.places }
    {
        for place in self.table.own(seat) {
            if *place >= self.table.len() || self.table.goal(*place).seat != seat {
                continue;
            }
            if self.table.is_under_way(*place) {
                return Ok(Some(*place));
            }
            chain.add(*place)?;
        }
        Ok(None)
    }

    /// Puts the goals on which that at a place hangs into a chain, up to one that is under way, which it gives.
    fn follow(&self, place: usize, chain: &mut Chain) -> Result<Option<usize>, AllocError>
        requires place { place < length self.now.goals }
        requires size { chain.old.size ≡ length self.now.goals }
        ensures size { chain.new.size ≡ chain.old.size }
        ensures found { IfOk result (λ found. IfSome found (λ next. IsNextUnderWay self.now place next)) }
        ensures all { IfOk result (λ found. IfNone found (IsFollowed self.now.goals self.now.waiting chain.new.places place)) }
        ensures from { AreFrom self.now.goals place chain.old.places chain.new.places }
        ensures kept { BeginsWith chain.new.places chain.old.places }
    {
        let goal = self.table.goal(place);
        let Stage::Waits(topic) = goal.stage else {
            return Ok(None);
        };
        let Some(topic) = self.topics.get(topic) else {
            return Ok(None);
        };
        for next in topic.givers.places() {
            if *next >= self.table.len() || !goal.hangs_on(&self.table.goal(*next)) {
                continue;
            }
            if self.table.is_under_way(*next) {
                return Ok(Some(*next));
            }
            chain.add(*next)?;
        }
        Ok(None)
    }

    /// A goal under way to which a chain of hanging-on leads from a goal of a session. There is none where no chain
    /// leads to such a goal.
    ///
    /// # Errors
    ///
    /// - `AllocError` only where memory was refused.
    pub fn find_witness(&self, seat: usize) -> Result<Option<usize>, AllocError>
        requires { seat < length self.now.waiting }
        ensures found { IfOk result (λ found. IfSome found (IsWitness self.now.goals self.now.waiting seat)) }
        ensures over { IfOk result (λ found. IfNone found (IsOver self.now.goals self.now.waiting seat)) }
    {
        let mut chain = Chain::new(self.alloc, self.table.len())?;
        if let Some(own) = self.begin(seat, &mut chain)? {
            return Ok(Some(own));
        }
        let mut passed = 0;
        while passed < chain.len() {
            let place = chain.place(passed);
            if let Some(next) = self.follow(place, &mut chain)? {
                return Ok(Some(next));
            }
            passed += 1;
        }
        Ok(None)
    }
}
