//! A tree that was settled, with what it was settled by.

ghost use Rattle.std.specs.Prelude.{◌≡◌, IfOk, IfErr, IfSome, IfNone};
ghost use Rattle.model.specs.Results.{unless_rewrite_refused};
ghost use Rattle.model.specs.declared.refusal.Refusal.TheVariants.{Memory};
ghost use Rattle.outputs.specs.Outputs.{input_settled, IsSameInput};
ghost use Rattle.std.specs.Coded.{codes};
ghost use Rattle.std.proofs.Props.{props};
ghost use Rattle.model.specs.TreeCode.{tree_code};
ghost use Rattle.model.specs.SettledTrees.{settled_code};

use crate::input::Input;
use crate::output::SettledTree;
use model::Refusal;
use nar::{Tree, encode};
use std::alloc::{AllocError, Global};

/// A tree, what it was settled by, and what came of it.
#[derive(Drop)]
pub(crate) struct Settlement {
    input: Input,
    tree: Tree,
    outcome: Result<SettledTree, Refusal>,
    ghost is: { outcome ≡ unless_rewrite_refused (input_settled input tree) } by { Prim.hlevel (props, codes, tree_code, settled_code) },
}

/// A copy of what came of a tree. It shares what is large.
pub(crate) fn copy_of(
    outcome: &Result<SettledTree, Refusal>,
) -> Result<Result<SettledTree, Refusal>, AllocError>
    ensures { IfOk result (λ copy. copy ≡ outcome.now) }
{
    match outcome {
        Ok(output) => Ok(Ok(output.clone()?)),
        Err(why) => Ok(Err(*why)),
    }
}

impl Settlement {
    /// What comes of a tree that is settled by an input. The one error is memory.
    pub(crate) fn new(alloc: Global, input: Input, tree: &Tree) -> Result<Settlement, Refusal>
        ensures input { IfOk result (λ made. made.input ≡ input) }
        ensures tree { IfOk result (λ made. made.tree ≡ tree.now) }
        ensures memory { IfErr result (λ why. why ≡ Memory) }
    {
        let archive = encode(alloc, tree)?;
        let tree = tree.clone()?;
        let outcome = match input.settle(alloc, &archive) {
            Ok(named) => Ok(SettledTree::new(alloc, named)?),
            Err(Refusal::Memory) => return Err(Refusal::Memory),
            Err(why) => Err(why),
        };
        Ok(Settlement {
            input,
            tree,
            outcome,
        })
    }

    /// What came of it.
    pub(crate) fn outcome(&self) -> &Result<SettledTree, Refusal>
        ensures { result.now ≡ self.now.outcome }
    {
        &self.outcome
    }

    /// What came of it, if it is that of this tree by this input.
    pub(crate) fn outcome_for(
        &self,
        input: &Input,
        tree: &Tree,
    ) -> Option<&Result<SettledTree, Refusal>>
        ensures outcome { IfSome result (λ o.
            o.now ≡ unless_rewrite_refused (input_settled input.now tree.now)) }
        ensures input { IfSome result (λ _. IsSameInput self.now.input input.now) }
        ensures tree { IfSome result (λ _. self.now.tree ≡ tree.now) }
        ensures other { IfNone result
            (IsSameInput self.now.input input.now → self.now.tree ≡ tree.now → ⊥) }
    {
        if self.input.same(input) && self.tree.same(tree) {
            Some(&self.outcome)
        } else {
            None
        }
    }
}
