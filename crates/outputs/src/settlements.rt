//! Trees that were settled, each once.

ghost use Rattle.std.specs.Prelude.{◌≡◌, [], All, IfOk, IfErr, IfSome, IfNone};
ghost use Rattle.model.specs.Archives.{IsTree};
ghost use Rattle.model.specs.Derivations.{name_of};
ghost use Rattle.model.specs.Occurrences.{IsHashPart};
ghost use Rattle.model.specs.Paths.{IsPath};
ghost use Rattle.model.specs.References.{paths_of_labels};
ghost use Rattle.model.specs.Settling.{hash_part_in, settled};
ghost use Rattle.model.specs.Results.{unless_rewrite_refused};
ghost use Rattle.model.specs.declared.refusal.Refusal.TheVariants.{Memory};
ghost use Rattle.outputs.specs.Outputs.{input_settled};
ghost use Rattle.outputs.specs.Kept.{HasOutput, HasSettled};
ghost use Rattle.classes.specs.Admitting.{one_more};

use crate::candidates::Candidates;
use crate::input::Input;
use crate::output::SettledTree;
use crate::settlement::{Settlement, copy_of};
use aterm::Derivation;
use model::Refusal;
use nar::Tree;
use std::alloc::Global;
use storepath::StorePath;

/// What came of a tree that was settled by an input, if it is among these.
fn found<'a>(
    settled: &'a [Settlement],
    input: &Input,
    tree: &Tree,
) -> Option<&'a Result<SettledTree, Refusal>>
    ensures outcome { IfSome result (λ o.
        o.now ≡ unless_rewrite_refused (input_settled input.now tree.now)) }
    ensures has { IfSome result (λ _. HasSettled settled.now input.now tree.now) }
    ensures none { IfNone result (HasSettled settled.now input.now tree.now → ⊥) }
{
    for one in settled {
        if let Some(outcome) = one.outcome_for(input, tree) {
            return Some(outcome);
        }
    }
    None
}

/// Trees that were settled before, and how many had to be settled since. Each of these is kept too.
pub struct Settlements {
    settled: Vec<Settlement>,
    computed: u64,
}

impl Drop for Settlements {
    fn drop(self) {
        let Settlements {
            settled: _,
            computed: _,
        } = self;
    }
}

impl Settlements {
    /// None. It takes no memory.
    pub fn none(alloc: Global) -> Settlements
        ensures { (result.settled.items ≡ []) × (result.computed ≡ 0) }
    {
        Settlements {
            settled: Vec::new(alloc),
            computed: 0,
        }
    }

    /// How many trees had to be settled; at the greatest number it stays there.
    pub fn computed(&self) -> u64
        ensures { result ≡ self.now.computed }
    {
        self.computed
    }

    /// What comes of a tree that is settled by an input: what came of it before, or else what comes of
    /// it now, which is kept. That is the tree with its path, or `RewriteRefused` where it cannot be
    /// settled, with its reason. The one error beside it is memory.
    pub fn settle(
        &mut self,
        alloc: Global,
        input: Input,
        tree: &Tree,
    ) -> Result<Result<SettledTree, Refusal>, Refusal>
        ensures tree { IsTree tree.now }
        ensures outcome { IfOk result (λ o. o ≡ unless_rewrite_refused (input_settled input tree.now)) }
        ensures kept { IfOk result (λ _. HasSettled self.new.settled.items input tree.now) }
        ensures at_hand { HasSettled self.old.settled.items input tree.now → self.new ≡ self.old }
        ensures computed { (HasSettled self.old.settled.items input tree.now → ⊥)
            → IfOk result (λ _. self.new.computed ≡ one_more self.old.computed) }
        ensures memory { IfErr result (λ why. why ≡ Memory) }
    {
        tree.sound();
        if let Some(outcome) = found(self.settled.as_slice(), &input, tree) {
            return Ok(copy_of(outcome)?);
        }
        let made = Settlement::new(alloc, input, tree)?;
        let outcome = copy_of(made.outcome())?;
        self.settled.push(made)?;
        self.computed = self.computed.saturating_add(1);
        Ok(outcome)
    }

    /// What comes of the output of a derivation that was built under a path and may refer to these, as
    /// [`Settlements::settle`] gives it. The one error beside it is memory.
    pub fn settle_output(
        &mut self,
        alloc: Global,
        own: &StorePath,
        candidates: &Candidates,
        derivation: &Derivation,
        tree: &Tree,
    ) -> Result<Result<SettledTree, Refusal>, Refusal>
        ensures tree { IfOk result (λ _. IsTree tree.now) }
        ensures own { IfOk result (λ _. IsHashPart (hash_part_in own.now)) }
        ensures paths { IfOk result (λ _. All IsPath (paths_of_labels candidates.now)) }
        ensures outcome { IfOk result (λ o. o ≡ unless_rewrite_refused
            (settled tree.now (hash_part_in own.now) (paths_of_labels candidates.now) (name_of derivation.now))) }
        ensures kept { IfOk result (λ _.
            HasOutput self.new.settled.items own.now candidates.now derivation.now tree.now) }
        ensures memory { IfErr result (λ why. why ≡ Memory) }
    {
        let input = Input::new(alloc, own, candidates, derivation)?;
        self.settle(alloc, input, tree)
    }
}
