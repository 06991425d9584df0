//! Trees with their paths, to be kept by many.

ghost use Rattle.std.specs.Prelude.{◌≡◌, IfOk, IfErr};
ghost use Rattle.model.specs.declared.refusal.Refusal.TheVariants.{Memory};

use model::Refusal;
use nar::Tree;
use rewrite::Named;
use std::alloc::{AllocError, Global};
use std::marker::Model;
use std::sync::Arc;

/// A settled tree with its path and its references. A copy shares them.
pub struct SettledTree {
    named: Arc<Named>,
    tree: Tree,
}

impl Drop for SettledTree {
    fn drop(self) {
        let SettledTree { named: _, tree: _ } = self;
    }
}

impl Model for SettledTree {
    ghost use Rattle.std.specs.Prelude.{◌≡◌};
    ghost use Rattle.std.specs.Arc.{arc_value};
    ghost use Rattle.model.specs.Settling.{Settled};
    ghost use Rattle.model.specs.SettledTrees.{settled_code};

    ghost Value = { Settled };

    ghost coded = { settled_code };

    ghost view = { λ o. arc_value o.named };

    ghost invariant = { λ o. o.tree ≡ (arc_value o.named).tree };
}

impl SettledTree {
    /// A settled tree. It is decoded here, once for all who keep it. The one error is memory.
    pub fn new(alloc: Global, named: Named) -> Result<SettledTree, Refusal>
        ensures output { IfOk result (λ o. o ≡ named) }
        ensures memory { IfErr result (λ why. why ≡ Memory) }
    {
        let tree = named.tree(alloc)?;
        let named = Arc::new(alloc, named)?;
        Ok(SettledTree { named, tree })
    }

    /// The settled tree as its archive, with its path and its references.
    pub fn named(&self) -> &Named
        ensures { result.now ≡ self.now }
    {
        &self.named
    }

    /// The settled tree.
    pub fn tree(&self) -> &Tree
        ensures { result.now ≡ self.now.tree }
    {
        &self.tree
    }
}

/// The copy is equal, and shares all that it has. The one error is memory.
impl Clone for SettledTree {
    ghost use Rattle.std.specs.Prelude.{◌≡◌};

    ghost is_clone = { λ original copy. copy ≡ original };

    fn clone(&self) -> Result<SettledTree, AllocError> {
        let named = self.named.clone()?;
        let tree = self.tree.clone()?;
        Ok(SettledTree { named, tree })
    }
}
