//! A source with its path.

ghost use Rattle.std.specs.Prelude.{◌≡◌, IfOk, IfErr, IfSome, IfNone};
ghost use Rattle.model.specs.Archives.{IsTree};
ghost use Rattle.model.specs.Paths.{source_path};
ghost use Rattle.model.specs.declared.refusal.Refusal.TheVariants.{Memory};

use model::Refusal;
use nar::{Tree, nar_digest};
use std::alloc::Global;
use storepath::{Kind, Name, StorePath, make_path};

/// The path of a source. Its tree is hashed as it is, and its archive is never made.
fn path_of_source(alloc: Global, name: &Name, tree: &Tree) -> Result<StorePath, Refusal>
    ensures value { IfOk result (λ p. p ≡ source_path tree.now name.now) }
    ensures tree { IfOk result (λ _. IsTree tree.now) }
    ensures memory { IfErr result (λ e. e ≡ Memory) }
{
    make_path(alloc, &Kind::Source, &nar_digest(tree), name)
}

/// A tree and a name, with the path that they have as a source.
#[derive(Drop)]
pub(crate) struct Placed {
    tree: Tree,
    name: Name,
    path: StorePath,
    ghost is: { path ≡ source_path tree name },
}

impl Placed {
    /// The path of a source, with what it is of. The one error is memory.
    pub(crate) fn new(alloc: Global, name: &Name, tree: &Tree) -> Result<Placed, Refusal>
        ensures tree { IfOk result (λ made. made.tree ≡ tree.now) }
        ensures name { IfOk result (λ made. made.name ≡ name.now) }
        ensures memory { IfErr result (λ e. e ≡ Memory) }
    {
        let path = path_of_source(alloc, name, tree)?;
        let tree = tree.clone()?;
        let name = name.clone()?;
        Ok(Placed { tree, name, path })
    }

    /// The path.
    pub(crate) fn path(&self) -> &StorePath
        ensures { result.now ≡ self.now.path }
    {
        &self.path
    }

    /// The path, if it is that of this tree under this name.
    pub(crate) fn path_for(&self, name: &Name, tree: &Tree) -> Option<&StorePath>
        ensures path { IfSome result (λ p. p.now ≡ source_path tree.now name.now) }
        ensures name { IfSome result (λ _. self.now.name ≡ name.now) }
        ensures tree { IfSome result (λ _. self.now.tree ≡ tree.now) }
        ensures other { IfNone result (self.now.name ≡ name.now → self.now.tree ≡ tree.now → ⊥) }
    {
        if self.name.bytes() == name.bytes() && self.tree.same(tree) {
            Some(&self.path)
        } else {
            None
        }
    }
}
