//! Adding an entry with its tree.

ghost use Rattle.std.specs.Prelude.{◌≡◌, ◌⊎◌, false, ◌+◌, ◌^◌, ◌<◌, ◌≤◌, length, OnErr, OnOk, IfOk, IfErr, Err, Some, None, if◌then◌else◌};
ghost use Rattle.model.specs.Archives.{nar};
ghost use Rattle.model.specs.Worlds.{tree_at};
ghost use Rattle.model.specs.Replies.{is_refused};
ghost use Rattle.model.specs.declared.refusal.Refusal.TheVariants.{Clash, Memory};
ghost use Rattle.store.specs.Stored.{IsTaken, IsAdded};
ghost use Rattle.records.specs.DeskEntries.{entry_path};
ghost use Rattle.realise.specs.Holdings.{is_on, holds_entry, charged_more, is_roomy, IsClosedWithEntry};
ghost use Rattle.handlers.specs.Sound.{IsSound};
ghost use Rattle.handlers.specs.Supported.{GainsOnly};
ghost use Rattle.events.specs.Terms.{reply_of};
ghost use Rattle.handlers.specs.Handling.{IsKept, AddsEntry};
ghost use Rattle.handlers.specs.Adding.{IsFree};

use events::{CopiedReply, Reply};
use model::Refusal;
use nar::Tree;
use realise::{Desk, Limits};
use records::DeskEntry;
use std::alloc::Global;
use store::Table;
use storepath::StorePath;

/// Puts a tree at its path, for which there is room, unless it is stored there already.
fn put_new(table: &mut Table, is_stored: bool, path: StorePath, tree: Tree)
    requires room { 0 < table.old.room }
    requires stored { tree_at path table.old.sources ≡ (if is_stored then Some tree else None) }
    ensures stored { IsAdded path tree table.old.sources table.new.sources }
    ensures there { tree_at path table.new.sources ≡ Some tree }
{
    if !is_stored {
        table.put_reserved(path, tree);
    }
}

/// Whether a desk stays within its limits with one entry more, for which so many bytes are charged.
fn has_room(desk: &Desk, limits: Limits, entry: &DeskEntry, more: u64) -> bool
    requires { desk.now.charge ≤ limits.charge }
    ensures { result ≡ is_roomy entry.now more limits.charge desk.now }
{
    desk.has_place_for(entry) && more <= limits.charge - desk.charge()
}

/// Puts an entry on a desk that has room for it, and its tree at its path, unless it is stored there
/// already. All that needs memory comes before what is stored is looked at, and before the first change.
///
/// # Errors
///
/// Nothing has changed then.
///
/// - `Clash` only where another tree is stored at the path.
/// - `Memory` only where memory was refused.
fn put_entry(
    alloc: Global,
    table: &mut Table,
    desk: &mut Desk,
    path: StorePath,
    entry: DeskEntry,
    tree: Tree,
) -> Result<(), Refusal>
    requires absent { is_on entry desk.old ≡ false }
    requires fits { desk.old.charge
        + charged_more (entry_path entry) (length (nar tree)) desk.old < 2 ^ 64 }
    requires closed { IsClosedWithEntry desk.old entry }
    ensures free { OnOk result (IsFree path tree table.old.sources) }
    ensures desk { OnOk result (desk.new ≡ holds_entry entry (length (nar tree)) desk.old) }
    ensures table { OnOk result (IsAdded path tree table.old.sources table.new.sources) }
    ensures there { OnOk result (tree_at path table.new.sources ≡ Some tree) }
    ensures kept { OnErr result (IsKept table.old.sources table.new.sources desk.old desk.new) }
    ensures refused { IfErr result (λ e. (e ≡ Memory)
        ⊎ ((e ≡ Clash) × IsTaken table.old.sources path tree)) }
{
    table.reserve(1)?;
    let archive = tree.nar_len() as u64;
    let is_stored = desk.add_if(alloc, entry, archive, || table.has(&path, &tree))?;
    put_new(table, is_stored, path, tree);
    Ok(())
}

/// Adds an entry with its tree to a desk, unless it is there, and the tree to the table where its
/// path is new there. What its labels name is on the desk. Where it is refused, nothing has changed.
pub(crate) fn add_entry(
    alloc: Global,
    table: &mut Table,
    desk: &mut Desk,
    limits: Limits,
    entry: DeskEntry,
    tree: Tree,
) -> Result<CopiedReply, Refusal>
    requires sound { IsSound table.old.sources limits.charge desk.old }
    requires closed { IsClosedWithEntry desk.old entry }
    ensures adds { AddsEntry limits.charge table.old.sources desk.old
        entry tree result table.new.sources desk.new }
    ensures answered { IfOk result (λ r. is_refused (reply_of r) ≡ false) }
    ensures stored { let path = entry_path entry in
        OnOk result (IsAdded path tree table.old.sources table.new.sources) }
    ensures sound { OnOk result (IsSound table.new.sources limits.charge desk.new) }
    ensures gains { GainsOnly desk.old desk.new }
    ensures kept { OnErr result (IsKept table.old.sources table.new.sources desk.old desk.new) }
    ensures taken { result ≡ Err Clash → IsTaken table.old.sources (entry_path entry) tree }
{
    let path = entry.path().clone()?;
    let reply = CopiedReply::new(Reply::Path(path.clone()?))?;
    if desk.has(&entry) {
        return Ok(reply);
    }
    let more = desk.charged_for(&path, tree.nar_len() as u64);
    if !has_room(desk, limits, &entry, more) {
        let _is_stored = table.has(&path, &tree)?;
        return Err(Refusal::Quota);
    }
    put_entry(alloc, table, desk, path, entry, tree)?;
    Ok(reply)
}
