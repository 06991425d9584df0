//! Adding a source, and fetching a tree.

ghost use Rattle.std.specs.Prelude.{◌≡◌, ◌≤◌, IfOk, IfErr, None, if◌then◌else◌};
ghost use Rattle.std.specs.Option.{option_copied};
ghost use Rattle.model.specs.Classes.{is_one_of};
ghost use Rattle.model.specs.Worlds.{tree_at};
ghost use Rattle.model.specs.Events.{AddSource as AddSourceRequest, Fetch as FetchRequest};
ghost use Rattle.model.specs.Replies as replies;
ghost use Rattle.model.specs.declared.refusal.Refusal.TheVariants.{Memory};
ghost use Rattle.realise.specs.Holdings.{paths_of};
ghost use Rattle.events.specs.Terms.{reply_of};
ghost use Rattle.handlers.specs.Handling.{IsHandledByDesk};
ghost use Rattle.handlers.specs.States.{HasPlace, Handles};

use crate::entries::add_entry;
use crate::state::State;
use events::{CopiedReply, Reply};
use model::Refusal;
use nar::Tree;
use outputs::Sources;
use realise::Desk;
use records::DeskEntry;
use std::alloc::Global;
use store::Table;
use storepath::{Name, StorePath};

/// Adds a tree to the desk of the user at a place as a source of a name. The reply is its path; one that is there already
/// changes nothing.
///
/// # Errors
///
/// - `Clash` only where another tree is stored at its path.
/// - `Quota` exactly where it is new on the desk, no other tree is at its path, and a limit would be
///   passed.
/// - `Memory` only where memory was refused; it may stand in the place of each answer.
pub fn add_source(
    alloc: Global,
    state: &mut State,
    place: usize,
    sources: &mut Sources,
    name: &Name,
    tree: Tree,
) -> Result<CopiedReply, Refusal>
    requires { HasPlace state.old place }
    ensures { Handles state.old place (AddSourceRequest name.now tree) result state.new }
{
    let path = sources.path_of(alloc, name, &tree)?;
    let source = DeskEntry::Source(path);
    let State {
        desks,
        table,
        limits,
        ..
    } = state;
    add_entry(alloc, table, &mut desks[place], *limits, source, tree)
}

/// The tree at a path, if the desk holds the path. Whoever else holds it makes no difference.
fn held<'a>(table: &'a Table, desk: &Desk, path: &StorePath) -> Option<&'a Tree>
    ensures { let path = path.now in option_copied result
        ≡ (if is_one_of (paths_of desk.now) path then tree_at path table.now.sources else None) }
{
    if desk.holds(path) {
        table.get(path)
    } else {
        None
    }
}

/// A reply with a tree.
fn reply_with(tree: &Tree) -> Result<CopiedReply, Refusal>
    ensures content { IfOk result (λ r. reply_of r ≡ replies.Tree tree.now) }
    ensures memory { IfErr result (λ e. e ≡ Memory) }
{
    Ok(CopiedReply::new(Reply::Tree(tree.clone()?))?)
}

/// The tree at a path that a desk holds.
///
/// # Errors
///
/// - `NotHeld` exactly where the desk does not hold the path, whether there is memory or not.
/// - `Memory` only where it does, and memory was refused.
pub fn fetch(table: &Table, desk: &Desk, path: &StorePath) -> Result<CopiedReply, Refusal>
    ensures { IsHandledByDesk table.now.sources desk.now (FetchRequest path.now) result desk.now }
{
    match held(table, desk, path) {
        Some(tree) => reply_with(tree),
        None => Err(Refusal::NotHeld),
    }
}
