//! Labels: what the paths that a tree refers to are there for.

ghost use Rattle.std.specs.Prelude.{◌≡◌, option_copied};
ghost use Rattle.model.specs.Worlds.{same_class};

use std::alloc::AllocError;
use std::marker::Model;
use storepath::{Class, StorePath};

/// A path that a tree refers to, with the class that it is an output of; a source has none.
pub struct Label {
    path: StorePath,
    class: Option<Class>,
}

impl Drop for Label {
    fn drop(self) {
        let Label { path: _, class: _ } = self;
    }
}

impl Model for Label {
    ghost use Rattle.model.specs.Worlds.{Label as LabelValue};

    ghost Value = { LabelValue };

    ghost view = { λ label. record { path = label.path; class = label.class } };
}

impl Label {
    /// The label of an output of a class, or, with none, of a source.
    pub fn new(path: StorePath, class: Option<Class>) -> Label
        ensures { result ≡ record { path = path; class = class } }
    {
        Label { path, class }
    }

    /// The path and the class.
    pub(crate) fn into_parts(self) -> (StorePath, Option<Class>)
        ensures { result ≡ (self.path, self.class) }
    {
        let Label { path, class } = self;
        (path, class)
    }

    /// The path.
    pub fn path(&self) -> &StorePath
        ensures { result.now ≡ self.now.path }
    {
        &self.path
    }

    /// The class that the path is an output of; none for a source.
    pub fn class(&self) -> Option<&Class>
        ensures { option_copied result ≡ self.now.class }
    {
        self.class.as_ref()
    }
}

/// Labels are equal where they have one path and are of one class, or both of a source.
impl PartialEq for Label {
    ghost use Rattle.model.specs.Worlds.{same_label};
    ghost use Rattle.records.specs.LabelLaws.{same_label_laws};

    ghost eq = { same_label };

    ghost laws = { same_label_laws };

    fn eq(&self, other: &Label) -> bool {
        self.path == other.path && is_same_class(self.class(), other.class())
    }
}

/// The copy is equal. It fails only where memory is refused.
impl Clone for Label {
    ghost use Rattle.std.specs.Prelude.{◌≡◌};

    ghost is_clone = { λ label copy. copy ≡ label };

    fn clone(&self) -> Result<Label, AllocError> {
        let path = self.path.clone()?;
        let class = match &self.class {
            Some(class) => Some(class.clone()?),
            None => None,
        };
        Ok(Label { path, class })
    }
}

// Whether both are one class, or there is none.
fn is_same_class(one: Option<&Class>, other: Option<&Class>) -> bool
    ensures { result ≡ same_class (option_copied one.entry) (option_copied other.entry) }
{
    match (one, other) {
        (None, None) => true,
        (Some(one), Some(other)) => one.path() == other.path(),
        _ => false,
    }
}
