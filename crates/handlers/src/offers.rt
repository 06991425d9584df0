//! Offering an output.

ghost use Rattle.std.specs.Prelude.{◌≡◌, List, IfOk, IfErr, Ok, All};
ghost use Rattle.model.specs.Archives.{Tree as TreeValue, IsTree};
ghost use Rattle.model.specs.Paths.{IsPath};
ghost use Rattle.model.specs.Occurrences.{IsHashPart};
ghost use Rattle.model.specs.Settling.{hash_part_in};
ghost use Rattle.model.specs.References.{paths_of_labels};
ghost use Rattle.model.specs.Events.{Offer as OfferRequest};
ghost use Rattle.model.specs.OfferRequests.{output_settled};
ghost use Rattle.model.specs.Results.{unless_rewrite_refused};
ghost use Rattle.model.specs.declared.refusal.Refusal.TheVariants.{Memory};
ghost use Rattle.handlers.specs.States.{HasPlace, Handles};
ghost use Rattle.outputs.specs.Outputs.{IsRecordOf};
ghost use Rattle.outputs.specs.declared.settlement.Settlement.{Settlement};
ghost use Rattle.outputs.specs.Kept.{HasNeeded};
ghost use Rattle.handlers.specs.Offering.{IsOutput, IsNotSettled, IsNoOutput, HasOffered};

use crate::entries::add_entry;
use crate::state::State;
use classes::Admitted;
use events::CopiedReply;
use model::Refusal;
use nar::Tree;
use outputs::{Candidates, Input, SettledTree, Settlements, record_of};
use realise::Desk;
use records::{DeskEntry, Record};
use std::alloc::Global;
use storepath::StorePath;

/// What comes of an output of a derivation that may refer to these. The one error beside it is memory.
fn settled_output(
    alloc: Global,
    settlements: &mut Settlements,
    admitted: &Admitted,
    candidates: &Candidates,
    tree: &Tree,
) -> Result<Result<SettledTree, Refusal>, Refusal>
    ensures tree { IfOk result (λ _. IsTree tree.now) }
    ensures paths { IfOk result (λ _. All IsPath (paths_of_labels candidates.now)) }
    ensures own { IfOk result (λ _. IsHashPart (hash_part_in admitted.now.class.path)) }
    ensures outcome { IfOk result (λ o.
        o ≡ unless_rewrite_refused (output_settled candidates.now admitted.now tree.now)) }
    ensures memory { IfErr result (λ why. why ≡ Memory) }
{
    let own = admitted.class().path();
    settlements.settle_output(alloc, own, candidates, admitted.derivation(), tree)
}

/// An output of a derivation that may refer to these, with its path.
fn output_of(
    alloc: Global,
    settlements: &mut Settlements,
    admitted: &Admitted,
    candidates: &Candidates,
    tree: &Tree,
) -> Result<SettledTree, Refusal>
    ensures tree { IfOk result (λ _. IsTree tree.now) }
    ensures paths { IfOk result (λ _. All IsPath (paths_of_labels candidates.now)) }
    ensures own { IfOk result (λ _. IsHashPart (hash_part_in admitted.now.class.path)) }
    ensures settled { IfOk result (λ o. output_settled candidates.now admitted.now tree.now ≡ Ok o) }
    ensures refused { IfErr result (IsNotSettled candidates.now admitted.now tree.now) }
{
    settled_output(alloc, settlements, admitted, candidates, tree)?
}

/// The record of an output that has its path, and its tree. The one error is memory.
fn recorded(
    alloc: Global,
    admitted: &Admitted,
    candidates: &Candidates,
    output: &SettledTree,
) -> Result<(Record, Tree), Refusal>
    ensures record { IfOk result (λ o. IsRecordOf candidates.now admitted.now output.now o.0) }
    ensures tree { IfOk result (λ o. o.1 ≡ output.now.tree) }
    ensures memory { IfErr result (λ why. why ≡ Memory) }
{
    let record = record_of(alloc, admitted, candidates, output.named())?;
    Ok((record, output.tree().clone()?))
}

/// The record of an output, and its tree.
fn output_for(
    alloc: Global,
    settlements: &mut Settlements,
    desk: &Desk,
    admitted: &Admitted,
    tree: &Tree,
) -> Result<(Record, Tree), Refusal>
    ensures output { IfOk result (λ o. IsOutput desk.now admitted.now tree.now o.0 o.1) }
    ensures refused { IfErr result (IsNoOutput desk.now admitted.now tree.now) }
{
    let candidates = Candidates::of_desk(alloc, desk, admitted.derivation())?;
    let output = output_of(alloc, settlements, admitted, &candidates, tree)?;
    recorded(alloc, admitted, &candidates, &output)
}

/// Adds an output of the derivation in the file at a path to the desk of the user at a place: its tree with the path of its
/// content, and a record for the class of the derivation. The reply is that path; a record that is
/// there already changes nothing.
///
/// # Errors
///
/// - `UnknownDerivation` exactly where the desk has no such derivation, whether there is memory or not.
/// - `RewriteRefused` exactly where the tree cannot be settled, with its reason.
/// - `Clash` only where another tree is stored at the new path.
/// - `Quota` exactly where the record is new on the desk, no other tree is at its path, and a limit
///   would be passed.
/// - `Memory` only where memory was refused; it may stand in the place of each answer but the first.
pub fn offer(
    alloc: Global,
    state: &mut State,
    place: usize,
    settlements: &mut Settlements,
    path: &StorePath,
    tree: &Tree,
) -> Result<CopiedReply, Refusal>
    requires { HasPlace state.old place }
    ensures { Handles state.old place (OfferRequest path.now tree.now) result state.new }
{
    let desk = &state.desks[place];
    let Some(admitted) = desk.derivation(path) else {
        return Err(Refusal::UnknownDerivation);
    };
    let (record, settled) = output_for(alloc, settlements, desk, admitted, tree)?;
    let output = DeskEntry::Record(record);
    let State {
        desks,
        table,
        limits,
        ..
    } = state;
    add_entry(alloc, table, &mut desks[place], *limits, output, settled)
}

/// What [`offer`] settles an output by, whatever its tree is, so that it can be settled before it is offered.
/// Nothing is settled where the desk has no such derivation.
///
/// # Errors
///
/// - `Memory` only where memory was refused.
pub fn input_for_offer(
    alloc: Global,
    desk: &Desk,
    path: &StorePath,
) -> Result<Option<Input>, Refusal>
    ensures needed { IfOk result (λ input. (tree : TreeValue) (settled : List Settlement)
        → HasNeeded settled input tree → HasOffered desk.now path.now tree settled) }
    ensures memory { IfErr result (λ why. why ≡ Memory) }
{
    let Some(admitted) = desk.derivation(path) else {
        return Ok(None);
    };
    let candidates = Candidates::of_desk(alloc, desk, admitted.derivation())?;
    let own = admitted.class().path();
    let input = Input::new(alloc, own, &candidates, admitted.derivation())?;
    Ok(Some(input))
}
