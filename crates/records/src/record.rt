//! Records: what was built for a class.

ghost use Rattle.std.specs.Prelude.{◌≡◌, MatchResult};
ghost use Rattle.std.specs.List.{list_any};
ghost use Rattle.std.specs.Arc.{arc_slice_items};
ghost use Rattle.records.specs.Recorded.{AreInPathOrder, same_recorded};
ghost use Rattle.model.specs.declared.refusal.Refusal.TheVariants.{Memory};

use crate::label::Label;
use model::Refusal;
use std::alloc::{AllocError, Global};
use std::marker::Model;
use std::sync::{Arc, ArcSlice};
use storepath::{Class, StorePath};

/// What a record says.
struct Parts {
    class: Class,
    path: StorePath,
    labels: ArcSlice<Label>,
}

impl Drop for Parts {
    fn drop(self) {
        let Parts {
            class: _,
            path: _,
            labels: _,
        } = self;
    }
}

impl Model for Parts {
    ghost use Rattle.std.specs.Arc.{arc_slice_items};
    ghost use Rattle.records.specs.Recorded.{Recorded, AreInPathOrder};

    ghost Value = { Recorded };

    ghost view = { λ r. record { class = r.class; path = r.path; labels = arc_slice_items r.labels } };

    ghost invariant = { λ r. AreInPathOrder (arc_slice_items r.labels) };
}

/// What was built for a class: its path, whose tree the path table has, and a label for each other
/// path that the tree refers to, in the order of paths. A copy shares all that, and has the size of
/// a pointer.
pub struct Record {
    parts: Arc<Parts>,
}

impl Drop for Record {
    fn drop(self) {
        let Record { parts: _ } = self;
    }
}

impl Model for Record {
    ghost use Rattle.std.specs.Arc.{arc_value};
    ghost use Rattle.records.specs.Recorded.{Recorded};

    ghost Value = { Recorded };

    ghost view = { λ r. arc_value r.parts };
}

/// A record of its parts. The one error is memory.
fn record_of(
    alloc: Global,
    class: Class,
    path: StorePath,
    labels: ArcSlice<Label>,
) -> Result<Record, Refusal>
    requires in_order { AreInPathOrder (arc_slice_items labels) }
    ensures { MatchResult result
        (λ made. made ≡ record { class = class; path = path; labels = arc_slice_items labels })
        (λ e. e ≡ Memory) }
{
    let parts = Parts {
        class,
        path,
        labels,
    };
    let parts = Arc::new(alloc, parts)?;
    Ok(Record { parts })
}

impl Record {
    /// A record of its parts. The labels are in the order of paths, one for each.
    ///
    /// # Errors
    ///
    /// - `Memory` only where memory was refused.
    pub fn new(class: Class, path: StorePath, labels: Vec<Label>) -> Result<Record, Refusal>
        requires in_order { AreInPathOrder labels.items }
        ensures { MatchResult result
            (λ made. made ≡ record { class = class; path = path; labels = labels.items })
            (λ e. e ≡ Memory) }
    {
        let alloc = *labels.allocator();
        let labels = ArcSlice::from_vec(labels)?;
        record_of(alloc, class, path, labels)
    }

    /// The class that it was built for.
    pub fn class(&self) -> &Class
        ensures { result.now ≡ self.now.class }
    {
        &self.parts.class
    }

    /// Where its tree is.
    pub fn path(&self) -> &StorePath
        ensures { result.now ≡ self.now.path }
    {
        &self.parts.path
    }

    /// A label for each other path that its tree refers to, in the order of paths.
    pub fn labels(&self) -> &[Label]
        ensures labels { result.now ≡ self.now.labels }
        ensures in_order { AreInPathOrder self.now.labels }
    {
        self.parts.labels.as_slice()
    }

    /// The same output for another class. It shares the labels.
    ///
    /// # Errors
    ///
    /// - `Memory` only where memory was refused.
    pub fn for_class(&self, alloc: Global, class: Class) -> Result<Record, Refusal>
        ensures { MatchResult result
            (λ made. made ≡ record self.now { class = class })
            (λ e. e ≡ Memory) }
    {
        let path = self.parts.path.clone()?;
        let labels = self.parts.labels.clone()?;
        record_of(alloc, class, path, labels)
    }

    /// Whether two records are for one class at one path, with the same labels.
    pub fn same(&self, other: &Record) -> bool
        ensures { result ≡ same_recorded self.now other.now }
    {
        self.class().path() == other.class().path()
            && self.path() == other.path()
            && self.labels() == other.labels()
    }

    /// Whether the record is among others: one of them is for the same class at the same path, with the
    /// same labels. Each of them is looked at.
    pub fn is_among(&self, others: &[Record]) -> bool
        ensures { result ≡ list_any (λ r. same_recorded r self.now) others.now }
    {
        for other in others {
            if other.same(self) {
                return true;
            }
        }
        false
    }
}

/// The copy is equal, and shares all that the record says. It fails only where memory is refused.
impl Clone for Record {
    ghost use Rattle.std.specs.Prelude.{◌≡◌};

    ghost is_clone = { λ original copy. copy ≡ original };

    fn clone(&self) -> Result<Record, AllocError> {
        let parts = self.parts.clone()?;
        Ok(Record { parts })
    }
}
