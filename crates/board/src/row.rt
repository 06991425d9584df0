//! Rows of places.

ghost use Rattle.std.specs.Prelude.{◌≡◌, ◌++◌, ◌∷◌, [], OnOk, OnErr, MatchOption};

use std::alloc::{AllocError, Global};
use std::marker::Model;

/// Places of goals.
pub struct Row {
    places: Vec<usize>,
}

impl Drop for Row {
    fn drop(self) {
        let Row { places: _ } = self;
    }
}

impl Model for Row {
    ghost use Rattle.std.specs.Prelude.{List, ℕ};

    ghost Value = { List ℕ };

    ghost view = { λ r. r.places.items };
}

impl Row {
    /// No places.
    pub fn new(alloc: Global) -> Row
        ensures { result ≡ [] }
    {
        Row {
            places: Vec::new(alloc),
        }
    }

    /// One place more.
    ///
    /// # Errors
    ///
    /// - `AllocError` only where memory was refused. Nothing has changed then.
    pub fn put(&mut self, place: usize) -> Result<(), AllocError>
        ensures put { OnOk result (self.new ≡ self.old ++ place ∷ []) }
        ensures left { OnErr result (self.new ≡ self.old) }
    {
        self.places.push(place)?;
        Ok(())
    }

    /// The places.
    pub fn places(&self) -> &[usize]
        ensures { result.now ≡ self.now }
    {
        self.places.as_slice()
    }

    /// Takes the last place out, if there is one.
    pub fn take(&mut self) -> Option<usize>
        ensures { MatchOption result ((self.old ≡ []) × (self.new ≡ self.old)) (λ place. self.old ≡ self.new ++ place ∷ []) }
    {
        self.places.pop()
    }
}
