//! The entries of closures.

ghost use Rattle.std.specs.Prelude.{◌≡◌, option_copied, IfOk, IfSome, MatchResult};
ghost use Rattle.model.specs.declared.refusal.Refusal.TheVariants.{Memory};
ghost use Rattle.model.specs.Worlds.{OfSource, OfRecord, path_of_entry};
ghost use Rattle.model.specs.Closures.{class_of_entry, labels_of_entry, tree_of_entry};
ghost use Rattle.model.specs.Replies as replies;
ghost use Rattle.model.specs.Talk.{reply_text};
ghost use Rattle.records.specs.DeskEntries.{entry_with};
ghost use Rattle.records.specs.ClosureEntries.{is_entry_of};

use crate::label::Label;
use crate::realisation::{Realisation, Source};
use model::{Refusal, SharedBytes};
use nar::Tree;
use std::alloc::AllocError;
use std::marker::Model;
use std::sync::ArcSlice;
use storepath::{Class, StorePath};

/// What stands in an entry.
enum Item {
    Record(Realisation),
    Source(Source),
}

impl Drop for Item {
    fn drop(self) {
        match self {
            Item::Record(_) => {}
            Item::Source(_) => {}
        }
    }
}

/// What a closure has at a path: a record, or a source, with its tree.
pub struct Entry {
    item: Item,
}

impl Drop for Entry {
    fn drop(self) {
        let Entry { item: _ } = self;
    }
}

impl Model for Entry {
    ghost use Rattle.records.specs.Codes.{entry_code};
    ghost use Rattle.model.specs.Worlds.{Entry as EntryValue};

    ghost Value = { EntryValue };

    ghost coded = { entry_code };

    ghost use Rattle.records.specs.ClosureEntries.{entry_of};

    ghost view = { λ e. entry_of e.item };
}

impl Entry {
    /// The entry of a record.
    pub fn of_record(realisation: Realisation) -> Entry
        ensures { result ≡ OfRecord realisation }
    {
        Entry {
            item: Item::Record(realisation),
        }
    }

    /// The entry of a source.
    pub fn of_source(source: Source) -> Entry
        ensures { result ≡ OfSource source }
    {
        Entry {
            item: Item::Source(source),
        }
    }

    /// The path.
    pub fn path(&self) -> &StorePath
        ensures { result.now ≡ path_of_entry self.now }
    {
        match &self.item {
            Item::Record(record) => record.path(),
            Item::Source(source) => source.path(),
        }
    }

    /// The class of a record; a source has none.
    pub fn class(&self) -> Option<&Class>
        ensures { option_copied result ≡ class_of_entry self.now }
    {
        match &self.item {
            Item::Record(record) => Some(record.class()),
            Item::Source(_) => None,
        }
    }

    /// A label for each other path that the tree refers to, in the order of paths; a source refers
    /// to none.
    pub fn labels(&self) -> &[Label]
        ensures { result.now ≡ labels_of_entry self.now }
    {
        match &self.item {
            Item::Record(record) => record.labels(),
            Item::Source(_) => &[],
        }
    }

    /// Whether it is that of a record: of one for the same class at the same path, with the same labels.
    pub fn is_of(&self, realisation: &Realisation) -> bool
        ensures { result ≡ is_entry_of realisation.now self.now }
    {
        match &self.item {
            Item::Record(own) => own.record().same(realisation.record()),
            Item::Source(_) => false,
        }
    }

    /// The entry without its tree, as it is put on a desk. The copy shares the labels. The one error
    /// is memory.
    pub fn without_tree(&self) -> Result<crate::desk_entry::DeskEntry, AllocError>
        ensures { IfOk result (λ entry. entry_with (tree_of_entry self.now) entry ≡ self.now) }
    {
        match &self.item {
            Item::Record(record) => Ok(crate::desk_entry::DeskEntry::Record(
                record.record().clone()?,
            )),
            Item::Source(source) => Ok(crate::desk_entry::DeskEntry::Source(
                source.path().clone()?,
            )),
        }
    }

    /// The tree.
    pub fn tree(&self) -> &Tree
        ensures { result.now ≡ tree_of_entry self.now }
    {
        match &self.item {
            Item::Record(record) => record.tree(),
            Item::Source(source) => source.tree(),
        }
    }
}

/// The copy is equal, and shares the tree and the labels. It fails only where memory is refused.
impl Clone for Entry {
    ghost use Rattle.std.specs.Prelude.{◌≡◌};

    ghost is_clone = { λ original copy. copy ≡ original };

    fn clone(&self) -> Result<Entry, AllocError> {
        match &self.item {
            Item::Record(record) => Ok(Entry::of_record(record.clone()?)),
            Item::Source(source) => Ok(Entry::of_source(source.clone()?)),
        }
    }
}

/// The entries of a closure, and the text that is printed for them, where it was made. A copy shares both.
pub struct Closure {
    entries: ArcSlice<Entry>,
    text: Option<SharedBytes>,
}

impl Drop for Closure {
    fn drop(self) {
        let Closure {
            entries: _,
            text: _,
        } = self;
    }
}

impl Model for Closure {
    ghost use Rattle.std.specs.Arc.{arc_slice_items};
    ghost use Rattle.std.specs.Coded.{coded_list};
    ghost use Rattle.std.specs.Prelude.{◌≡◌, List, IfSome};
    ghost use Rattle.model.specs.Talk.{reply_text};
    ghost use Rattle.model.specs.Replies as replies;
    ghost use Rattle.records.specs.Codes.{entry_code};
    ghost use Rattle.model.specs.Worlds.{Entry as EntryValue};

    ghost Value = { List EntryValue };

    ghost coded = { coded_list entry_code };

    ghost view = { λ c. arc_slice_items c.entries };

    ghost invariant = { λ c. IfSome c.text (λ text. text ≡ reply_text (replies.Closure (arc_slice_items c.entries))) };
}

impl Closure {
    /// A closure of these entries, whose text is not made.
    ///
    /// # Errors
    ///
    /// - `Memory` only where memory was refused.
    pub fn new(entries: Vec<Entry>) -> Result<Closure, Refusal>
        ensures { MatchResult result (λ made. made ≡ entries.items) (λ e. e ≡ Memory) }
    {
        let entries = ArcSlice::from_vec(entries)?;
        Ok(Closure {
            entries,
            text: None,
        })
    }

    /// The same closure with the text that is printed for it, so that it need not be made again.
    pub fn with_text(self, text: SharedBytes) -> Closure
        requires { text ≡ reply_text (replies.Closure self) }
        ensures { result ≡ self }
    {
        let Closure { entries, text: _ } = self;
        Closure {
            entries,
            text: Some(text),
        }
    }

    /// The text that is printed for it, if it was made.
    pub fn text(&self) -> Option<&SharedBytes>
        ensures { IfSome result (λ text. text.now ≡ reply_text (replies.Closure self.now)) }
    {
        self.text.as_ref()
    }

    /// The entries, by path, then by the path of the class, with a class before a source.
    pub fn entries(&self) -> &[Entry]
        ensures { result.now ≡ self.now }
    {
        self.entries.as_slice()
    }
}

/// The copy is equal, and shares the entries and the text. It fails only where memory is refused.
impl Clone for Closure {
    ghost use Rattle.std.specs.Prelude.{◌≡◌};

    ghost is_clone = { λ original copy. copy ≡ original };

    fn clone(&self) -> Result<Closure, AllocError> {
        let text = match &self.text {
            Some(text) => Some(text.clone()?),
            None => None,
        };
        Ok(Closure {
            entries: self.entries.clone()?,
            text,
        })
    }
}
