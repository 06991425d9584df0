//! What derivations are built from.

ghost use Rattle.std.specs.Prelude.{◌≡◌, IfOk, IfErr, MatchResult};
ghost use Rattle.std.specs.Arc.{arc_slice_items};
ghost use Rattle.model.specs.Endings.{label_of_entry, labels_from};
ghost use Rattle.model.specs.declared.refusal.Refusal.TheVariants.{Memory};
ghost use Rattle.records.specs.Recorded.{AreInPathOrder};

use crate::entries::{Closure, Entry};
use crate::label::Label;
use crate::order::labels_in_order;
use model::Refusal;
use std::alloc::{AllocError, Global};
use std::marker::Model;
use std::sync::ArcSlice;
use storepath::StorePath;

/// What a derivation is built from: the closure of its inputs and its sources, the text that is
/// built, and the path under which it is built. A copy shares all of it.
pub struct Resolved {
    closure: Closure,
    text: ArcSlice<u8>,
    scratch: StorePath,
}

impl Drop for Resolved {
    fn drop(self) {
        let Resolved {
            closure: _,
            text: _,
            scratch: _,
        } = self;
    }
}

impl Model for Resolved {
    ghost use Rattle.std.specs.Arc.{arc_slice_items};
    ghost use Rattle.model.specs.Worlds.{Resolved as ResolvedValue};
    ghost use Rattle.records.specs.Codes.{resolved_code};

    ghost Value = { ResolvedValue };

    ghost coded = { resolved_code };

    ghost view = { λ r. record { closure = r.closure; text = arc_slice_items r.text; scratch = r.scratch } };
}

impl Resolved {
    /// What is built from these entries, under this path.
    ///
    /// # Errors
    ///
    /// - `Memory` only where memory was refused.
    pub fn new(entries: Vec<Entry>, text: Vec<u8>, scratch: StorePath) -> Result<Resolved, Refusal>
        ensures { MatchResult result
            (λ made. made ≡ record { closure = entries.items; text = text.items; scratch = scratch })
            (λ e. e ≡ Memory) }
    {
        let closure = Closure::new(entries)?;
        let text = ArcSlice::from_vec(text)?;
        Ok(Resolved {
            closure,
            text,
            scratch,
        })
    }

    /// The closure of the inputs' classes and the sources: by path, then by the path of the class,
    /// with a class before a source.
    pub fn closure(&self) -> &[Entry]
        ensures { result.now ≡ self.now.closure }
    {
        self.closure.entries()
    }

    /// The text that is built.
    pub fn text(&self) -> &[u8]
        ensures { result.now ≡ self.now.text }
    {
        self.text.as_slice()
    }

    /// The path under which it is built.
    pub fn scratch(&self) -> &StorePath
        ensures { result.now ≡ self.now.scratch }
    {
        &self.scratch
    }

    /// The same, which shares its text with another one that has an equal text. It takes no memory.
    pub fn sharing(self, other: &Resolved) -> Resolved
        ensures { result ≡ self }
    {
        if self.text() != other.text() {
            return self;
        }
        match other.text.clone() {
            Ok(text) => self.with_text(text),
            Err(_) => self,
        }
    }

    // The same with an equal text in place of its own.
    fn with_text(self, text: ArcSlice<u8>) -> Resolved
        requires { arc_slice_items text ≡ self.text }
        ensures { result ≡ self }
    {
        let Resolved {
            closure,
            text: _,
            scratch,
        } = self;
        Resolved {
            closure,
            text,
            scratch,
        }
    }

    /// What an output that is built from it may refer to: the paths of its closure, in their order, for
    /// each one label.
    ///
    /// # Errors
    ///
    /// - `Memory` only where memory was refused.
    pub fn labels(&self, alloc: Global) -> Result<Vec<Label>, Refusal>
        ensures labels { IfOk result (λ labels. labels.items ≡ labels_from self.now) }
        ensures in_order { IfOk result (λ labels. AreInPathOrder labels.items) }
        ensures memory { IfErr result (λ why. why ≡ Memory) }
    {
        let mut labels = Vec::new(alloc);
        for entry in self.closure() {
            labels.push(label_of(entry)?)?;
        }
        labels_in_order(alloc, labels)
    }
}

/// The label of an entry's path.
fn label_of(entry: &Entry) -> Result<Label, AllocError>
    ensures { IfOk result (λ label. label ≡ label_of_entry entry.now) }
{
    let path = entry.path().clone()?;
    let class = match entry.class() {
        Some(class) => Some(class.clone()?),
        None => None,
    };
    Ok(Label::new(path, class))
}

/// The copy is equal, and shares the closure and the texts. It fails only where memory is refused.
impl Clone for Resolved {
    ghost use Rattle.std.specs.Prelude.{◌≡◌};

    ghost is_clone = { λ original copy. copy ≡ original };

    fn clone(&self) -> Result<Resolved, AllocError> {
        let closure = self.closure.clone()?;
        let text = self.text.clone()?;
        let scratch = self.scratch.clone()?;
        Ok(Resolved {
            closure,
            text,
            scratch,
        })
    }
}
