//! The paths of sources, each made once.

ghost use Rattle.std.specs.Prelude.{◌≡◌, [], IfOk, IfErr, IfSome, IfNone};
ghost use Rattle.model.specs.Archives.{IsTree};
ghost use Rattle.model.specs.Paths.{source_path};
ghost use Rattle.model.specs.declared.refusal.Refusal.TheVariants.{Memory};
ghost use Rattle.outputs.specs.Kept.{HasPlaced};
ghost use Rattle.classes.specs.Admitting.{one_more};

use crate::placed::Placed;
use model::Refusal;
use nar::Tree;
use std::alloc::Global;
use storepath::{Name, StorePath};

/// The path of a tree under a name, if it is among these.
fn found<'a>(placed: &'a [Placed], name: &Name, tree: &Tree) -> Option<&'a StorePath>
    ensures path { IfSome result (λ p. p.now ≡ source_path tree.now name.now) }
    ensures has { IfSome result (λ _. HasPlaced placed.now name.now tree.now) }
    ensures none { IfNone result (HasPlaced placed.now name.now tree.now → ⊥) }
{
    for one in placed {
        if let Some(path) = one.path_for(name, tree) {
            return Some(path);
        }
    }
    None
}

/// Sources whose paths were made before, and how many had to be made since. Each of these is kept
/// too.
pub struct Sources {
    placed: Vec<Placed>,
    computed: u64,
}

impl Drop for Sources {
    fn drop(self) {
        let Sources {
            placed: _,
            computed: _,
        } = self;
    }
}

impl Sources {
    /// None. It takes no memory.
    pub fn none(alloc: Global) -> Sources
        ensures { (result.placed.items ≡ []) × (result.computed ≡ 0) }
    {
        Sources {
            placed: Vec::new(alloc),
            computed: 0,
        }
    }

    /// How many paths had to be made; at the greatest number it stays there.
    pub fn computed(&self) -> u64
        ensures { result ≡ self.now.computed }
    {
        self.computed
    }

    /// The path of a source: one that was made before of the same tree under the same name, or else a
    /// new one, which is kept. The one error is memory.
    pub fn path_of(&mut self, alloc: Global, name: &Name, tree: &Tree) -> Result<StorePath, Refusal>
        ensures value { IfOk result (λ p. p ≡ source_path tree.now name.now) }
        ensures tree { IfOk result (λ _. IsTree tree.now) }
        ensures kept { IfOk result (λ _. HasPlaced self.new.placed.items name.now tree.now) }
        ensures at_hand { HasPlaced self.old.placed.items name.now tree.now → self.new ≡ self.old }
        ensures computed { (HasPlaced self.old.placed.items name.now tree.now → ⊥)
            → IfOk result (λ _. self.new.computed ≡ one_more self.old.computed) }
        ensures memory { IfErr result (λ e. e ≡ Memory) }
    {
        tree.sound();
        if let Some(path) = found(self.placed.as_slice(), name, tree) {
            return Ok(path.clone()?);
        }
        let made = Placed::new(alloc, name, tree)?;
        let path = made.path().clone()?;
        self.placed.push(made)?;
        self.computed = self.computed.saturating_add(1);
        Ok(path)
    }
}
