//! What is known of a derivation.

ghost use Rattle.std.specs.Prelude.{◌≡◌, IfOk};

use aterm::Derivation;
use std::alloc::{AllocError, Global};
use std::marker::Model;
use std::sync::Arc;
use storepath::{Class, StorePath};

/// What is known of a derivation, each once.
struct Parts {
    derivation: Derivation,
    path: StorePath,
    class: Class,
    masked: [u8; 32],
}

impl Drop for Parts {
    fn drop(self) {
        let Parts {
            derivation: _,
            path: _,
            class: _,
            masked: _,
        } = self;
    }
}

impl Model for Parts {
    ghost use Rattle.model.specs.Classes.{Admission};

    ghost Value = { Admission };

    ghost view = { λ a. record { derivation = a.derivation; path = a.path; class = a.class; masked = a.masked } };
}

/// What is known of a derivation that was admitted. A copy shares it, and has the size of a pointer.
pub struct Admitted {
    parts: Arc<Parts>,
}

impl Drop for Admitted {
    fn drop(self) {
        let Admitted { parts: _ } = self;
    }
}

impl Model for Admitted {
    ghost use Rattle.std.specs.Arc.{arc_value};
    ghost use Rattle.model.specs.Classes.{Admission};

    ghost Value = { Admission };

    ghost view = { λ a. arc_value a.parts };
}

impl Admitted {
    /// What is known of a derivation: itself, the path of its file, the class of its output, and the
    /// SHA-256 digest (FIPS 180-4) of its masked text. The one error is memory.
    pub(crate) fn new(
        alloc: Global,
        derivation: Derivation,
        path: StorePath,
        class: Class,
        masked: [u8; 32],
    ) -> Result<Admitted, AllocError>
        ensures { IfOk result (λ made. made ≡ record {
          derivation = derivation;
          path = path;
          class = class;
          masked = masked;
        }) }
    {
        let parts = Parts {
            derivation,
            path,
            class,
            masked,
        };
        let parts = Arc::new(alloc, parts)?;
        Ok(Admitted { parts })
    }

    /// The derivation.
    pub fn derivation(&self) -> &Derivation
        ensures { result.now ≡ self.now.derivation }
    {
        &self.parts.derivation
    }

    /// The path of the derivation's file.
    pub fn path(&self) -> &StorePath
        ensures { result.now ≡ self.now.path }
    {
        &self.parts.path
    }

    /// The class of the derivation's output.
    pub fn class(&self) -> &Class
        ensures { result.now ≡ self.now.class }
    {
        &self.parts.class
    }

    /// The SHA-256 digest (FIPS 180-4) of the derivation's masked text.
    pub fn masked(&self) -> &[u8; 32]
        ensures { result.now ≡ self.now.masked }
    {
        &self.parts.masked
    }
}

/// The copy is equal, and shares all. It fails only where memory is refused.
impl Clone for Admitted {
    ghost use Rattle.std.specs.Prelude.{◌≡◌};

    ghost is_clone = { λ admitted copy. copy ≡ admitted };

    fn clone(&self) -> Result<Admitted, AllocError> {
        let parts = self.parts.clone()?;
        Ok(Admitted { parts })
    }
}
