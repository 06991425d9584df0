//! A record that was repaired, with what it was repaired by.

ghost use Rattle.std.specs.Prelude.{◌≡◌, true, min, IfOk, IfErr, IfSome, IfNone, option_copied};
ghost use Rattle.model.specs.Repairs.{repaired};
ghost use Rattle.model.specs.declared.refusal.Refusal.TheVariants.{Memory};
ghost use Rattle.repair.specs.Repaired.{repaired_of, made_len};
ghost use Rattle.std.specs.Coded.{codes};
ghost use Rattle.std.proofs.Props.{props};
ghost use Rattle.model.specs.TreeCode.{tree_code};
ghost use Rattle.records.specs.Codes.{record_code};

use crate::relabelling::repaired;
use crate::replacements::Replacement;
use model::Refusal;
use nar::Tree;
use records::Realisation;
use std::alloc::{AllocError, Global};
use storepath::{Class, StorePath};

/// Whether two classes are one, of one rank.
fn same_class(one: &Class, other: &Class) -> bool
    ensures same { result ≡ true → one.now ≡ other.now }
    ensures told { one.now ≡ other.now → result ≡ true }
{
    one.rank() == other.rank() && one.path().bytes() == other.path().bytes()
}

/// Whether both have no class, or one.
fn same_class_of(one: Option<&Class>, other: Option<&Class>) -> bool
    ensures same { result ≡ true → option_copied one.entry ≡ option_copied other.entry }
    ensures told { option_copied one.entry ≡ option_copied other.entry → result ≡ true }
{
    match (one, other) {
        (None, None) => true,
        (Some(one), Some(other)) => same_class(one, other),
        _ => false,
    }
}

/// Whether two labels are replaced alike.
fn same_replacement(one: &Replacement, other: &Replacement) -> bool
    ensures same { result ≡ true → one.now ≡ other.now }
    ensures told { one.now ≡ other.now → result ≡ true }
{
    one.path().bytes() == other.path().bytes()
        && one.label().path().bytes() == other.label().path().bytes()
        && same_class_of(one.label().class(), other.label().class())
}

/// Whether labels are replaced alike.
fn same_replacements(one: &[Replacement], other: &[Replacement]) -> bool
    ensures same { result ≡ true → one.now ≡ other.now }
    ensures told { one.now ≡ other.now → result ≡ true }
{
    if one.len() != other.len() {
        return false;
    }
    for i in 0..one.len() {
        if !same_replacement(&one[i], &other[i]) {
            return false;
        }
    }
    true
}

/// What a record of a class, at a path, with a tree, was repaired to, whose labels were replaced so.
#[derive(Drop)]
pub(crate) struct Repair {
    class: Class,
    path: StorePath,
    tree: Tree,
    replacements: Vec<Replacement>,
    outcome: Result<Realisation, Refusal>,
    ghost is: { outcome ≡ repaired_of class path tree replacements.items } by { Prim.hlevel (props, codes, tree_code, record_code) },
}

/// How many bytes a repaired record counts for itself, and for each of its labels: their paths, and its key.
const BYTES_OF_LABEL: u64 = 1_024;

/// A copy of what came of a record. It shares what is large.
pub(crate) fn copy_of(
    outcome: &Result<Realisation, Refusal>,
) -> Result<Result<Realisation, Refusal>, AllocError>
    ensures { IfOk result (λ copy. copy ≡ outcome.now) }
{
    match outcome {
        Ok(made) => Ok(Ok(made.clone()?)),
        Err(why) => Ok(Err(*why)),
    }
}

/// The length of the archive of what came of a record, in bytes: none where it was refused.
fn made_len(outcome: &Result<Realisation, Refusal>) -> usize
    ensures { result ≡ made_len outcome.now }
{
    match outcome {
        Ok(made) => made.tree().nar_len(),
        Err(_) => 0,
    }
}

/// What comes of a record whose labels are replaced. The one error is memory.
pub(crate) fn tried(
    alloc: Global,
    chosen: &Realisation,
    replacements: &[Replacement],
) -> Result<Result<Realisation, Refusal>, Refusal>
    ensures outcome { IfOk result (λ outcome. outcome ≡ repaired chosen.now replacements.now) }
    ensures memory { IfErr result (λ why. why ≡ Memory) }
{
    match repaired(alloc, chosen, replacements) {
        Ok(made) => Ok(Ok(made)),
        Err(Refusal::Memory) => Err(Refusal::Memory),
        Err(why) => Ok(Err(why)),
    }
}

impl Repair {
    ghost use Rattle.repair.specs.Keeping.{size_of};
    ghost use Rattle.repair.specs.AtHand.{IsOf};

    /// What came of a record whose labels are replaced so, with that record. The one error is memory.
    pub(crate) fn new(
        alloc: Global,
        chosen: &Realisation,
        replacements: &[Replacement],
        outcome: &Result<Realisation, Refusal>,
    ) -> Result<Repair, AllocError>
        requires { outcome.now ≡ repaired chosen.now replacements.now }
        ensures { IfOk result (IsOf chosen.now replacements.now) }
    {
        let class = chosen.class().clone()?;
        let path = chosen.path().clone()?;
        let tree = chosen.tree().clone()?;
        let replacements = replacements.to_vec(alloc)?;
        let outcome = copy_of(outcome)?;
        Ok(Repair {
            class,
            path,
            tree,
            replacements,
            outcome,
        })
    }

    /// How many bytes it counts: the archives of the tree that it was made of and of the one that came of it,
    /// and 1,024 bytes for itself and for each label. At the greatest number it stays there.
    pub(crate) fn size(&self) -> u64
        ensures { result ≡ min (size_of self.now) 18446744073709551615 }
    {
        let labels = (self.replacements.len() as u64)
            .saturating_add(1)
            .saturating_mul(BYTES_OF_LABEL);
        (self.tree.nar_len() as u64)
            .saturating_add(made_len(&self.outcome) as u64)
            .saturating_add(labels)
    }

    /// Whether it is that of this record, whose labels are replaced so. Its own labels make no difference.
    fn is_of(&self, chosen: &Realisation, replacements: &[Replacement]) -> bool
        ensures path { result ≡ true → self.now.path ≡ chosen.now.path }
        ensures replacements { result ≡ true → self.now.replacements.items ≡ replacements.now }
        ensures class { result ≡ true → self.now.class ≡ chosen.now.class }
        ensures tree { result ≡ true → self.now.tree ≡ chosen.now.tree }
        ensures told { IsOf chosen.now replacements.now self.now → result ≡ true }
    {
        self.path.bytes() == chosen.path().bytes()
            && same_replacements(&self.replacements, replacements)
            && same_class(&self.class, chosen.class())
            && self.tree.same(chosen.tree())
    }

    /// What came of it, if it is that of this record, whose labels are replaced so.
    pub(crate) fn outcome_for(
        &self,
        chosen: &Realisation,
        replacements: &[Replacement],
    ) -> Option<&Result<Realisation, Refusal>>
        ensures outcome { IfSome result (λ o. o.now ≡ repaired chosen.now replacements.now) }
        ensures some { IfSome result (λ _. IsOf chosen.now replacements.now self.now) }
        ensures none { IfNone result (IsOf chosen.now replacements.now self.now → ⊥) }
    {
        if self.is_of(chosen, replacements) {
            Some(&self.outcome)
        } else {
            None
        }
    }
}
