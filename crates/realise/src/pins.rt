//! The paths that a user wants for classes.

ghost use Rattle.std.specs.Prelude.{◌≡◌, [], length, is_some, option_copied, MatchResult};
ghost use Rattle.model.specs.Worlds.{pin_of, pinned, unpinned};
ghost use Rattle.model.specs.declared.refusal.Refusal.TheVariants.{Memory};

use indexmap::IndexMap;
use model::Refusal;
use std::alloc::Global;
use std::marker::Model;
use storepath::StorePath;

/// For each class that a user has pinned, by its path, the path that he wants for it: the oldest
/// class first.
///
/// Looking a class up takes the same time however many pins there are. The hashers have a fixed
/// seed: nobody else puts classes there.
pub struct Pins {
    paths: IndexMap<StorePath, StorePath>,
}

impl Drop for Pins {
    fn drop(self) {
        let Pins { paths: _ } = self;
    }
}

impl Model for Pins {
    ghost use Rattle.std.specs.Prelude.{List};
    ghost use Rattle.model.specs.Worlds.{Pin};
    ghost use Rattle.realise.specs.Pinned.{pins_at};

    ghost Value = { List Pin };

    ghost view = { λ p. pins_at p.paths.entries };
}

impl Pins {
    /// Nothing is pinned. It takes no memory.
    pub fn new(alloc: Global) -> Pins
        ensures { result ≡ [] }
    {
        Pins {
            paths: IndexMap::new(alloc),
        }
    }

    /// How many classes are pinned.
    pub fn len(&self) -> usize
        ensures { result ≡ length self.now }
    {
        self.paths.len()
    }

    /// The path that is pinned for a class, if there is one.
    pub fn get(&self, class: &StorePath) -> Option<&StorePath>
        ensures { option_copied result ≡ pin_of self.now class.now }
    {
        self.paths.get(class)
    }

    /// Whether a class is pinned.
    pub fn contains(&self, class: &StorePath) -> bool
        ensures { result ≡ is_some (pin_of self.now class.now) }
    {
        self.get(class).is_some()
    }

    /// Pins a path for a class, in the place of the older one, or as the last.
    ///
    /// # Errors
    ///
    /// - `Memory` only where memory was refused. Then nothing has changed.
    pub fn put(&mut self, class: StorePath, path: StorePath) -> Result<(), Refusal>
        ensures { MatchResult result
            (λ _. self.new ≡ pinned class path self.old)
            (λ e. (e ≡ Memory) × (self.new ≡ self.old)) }
    {
        let _older = self.paths.insert(class, path)?;
        Ok(())
    }

    /// Takes the pin of a class back, if there is one. It takes no memory, and time by the number
    /// of pins.
    pub fn remove(&mut self, class: &StorePath)
        ensures { self.new ≡ unpinned class.now self.old }
    {
        let _path = self.paths.shift_remove(class);
    }
}
