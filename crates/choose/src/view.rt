//! What a user sees: the desks of all whom he reaches.

ghost use Rattle.std.specs.Prelude.{◌≡◌, All, Some, IfOk, MatchResult};
ghost use Rattle.std.specs.List.{list_any};
ghost use Rattle.model.specs.declared.refusal.Refusal.TheVariants.{Memory};
ghost use Rattle.model.specs.Worlds.{tree_at};
ghost use Rattle.realise.specs.Holdings.{IsClosed};
ghost use Rattle.model.specs.Outlooks.{is_realised};
ghost use Rattle.choose.specs.Visible.{seen, desks_of, IsStored, AreStored, is_source_on, source_in, is_realised_on};

use model::Refusal;
use nar::Tree;
use realise::Desk;
use records::Source;
use std::alloc::AllocError;
use std::marker::Model;
use store::Table;
use storepath::StorePath;

/// The desks that a user sees, in the order of the users, with the table that has their trees. What
/// the labels of a desk's records name is on the desk.
pub struct View<'a> {
    pub(crate) table: &'a Table,
    pub(crate) desks: Vec<&'a Desk>,
}

impl Drop for View<'_> {
    fn drop(self) {
        let View { table: _, desks: _ } = self;
    }
}

impl<'a> Model for View<'a> {
    ghost use Rattle.choose.specs.Codes.{visible_code};
    ghost use Rattle.choose.specs.Visible.{Visible, seen, desks_of, IsComplete};

    ghost Value = { Visible };

    ghost coded = { visible_code };

    ghost view = { λ v. seen v.table.now.sources (desks_of v.desks.items) };

    ghost invariant = { λ v. IsComplete v.table.now.sources (desks_of v.desks.items) };
}

impl<'a> View<'a> {
    /// What is seen on desks that have what their labels name, and whose paths are all in a table.
    pub fn new(table: &'a Table, desks: Vec<&'a Desk>) -> View<'a>
        requires stored { AreStored table.now.sources (desks_of desks.items) }
        requires closed { All IsClosed (desks_of desks.items) }
        ensures { result ≡ seen table.now.sources (desks_of desks.entry.items) }
    {
        View { table, desks }
    }

    /// Whether a record of a class is on one of the desks.
    pub(crate) fn is_realised(&self, class: &StorePath) -> bool
        ensures { result ≡ is_realised self.now.records class.now }
    {
        is_realised(&self.desks, class)
    }

    /// The source at a path, if it is on one of the desks. The one error is memory.
    pub(crate) fn source(&self, path: &StorePath) -> Result<Option<Source>, Refusal>
        ensures { MatchResult result
            (λ s. s ≡ source_in self.now path.now)
            (λ e. e ≡ Memory) }
    {
        if !is_source(&self.desks, path) {
            return Ok(None);
        }
        let tree = tree_in(self.table, path)?;
        Ok(Some(Source::new(path.clone()?, tree)))
    }
}

/// The tree at a path that a table has.
pub(crate) fn tree_in(table: &Table, path: &StorePath) -> Result<Tree, AllocError>
    requires { IsStored table.now.sources path.now }
    ensures { IfOk result (λ tree. Some tree ≡ tree_at path.now table.now.sources) }
{
    match table.get(path) {
        Some(tree) => tree.clone(),
        None => unreachable!(),
    }
}

// Whether a path is that of a source on one of the desks.
fn is_source(desks: &[&Desk], path: &StorePath) -> bool
    ensures { result ≡ list_any (is_source_on path.now) (desks_of desks.now) }
{
    for desk in desks {
        if desk.known().has_source(path) {
            return true;
        }
    }
    false
}

// Whether a record of a class is on one of the desks.
fn is_realised(desks: &[&Desk], class: &StorePath) -> bool
    ensures { result ≡ list_any (is_realised_on class.now) (desks_of desks.now) }
{
    for desk in desks {
        if desk.records_of(class).len() > 0 {
            return true;
        }
    }
    false
}
