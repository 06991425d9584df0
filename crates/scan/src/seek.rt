//! Who tells which windows of 32 bytes are sought.

ghost use Rattle.std.specs.Prelude.{◌≡◌, ◌+◌, ◌^◌, ◌<◌, ℕ};
ghost use Rattle.model.specs.Occurrences.{Keys as KeysOf, AreKeys};

use crate::keys::Keys;
use path_sets::PathSet;

/// What tells whether 32 bytes are a hash part that is sought, and counts how often it was asked.
pub trait Seek {
    /// Which hash parts are sought.
    ghost keys: { Self → KeysOf };

    /// How often it was asked.
    ghost looked: { Self → ℕ };

    /// Whether a window is one of them.
    fn has(&mut self, window: &[u8; 32]) -> bool
        requires { looked self.old + 1 < 2 ^ 64 }
        ensures value { result ≡ keys self.old window.now }
        ensures kept { keys self.new ≡ keys self.old }
        ensures counted { looked self.new ≡ looked self.old + 1 };

    /// How often it was asked.
    fn looks(&self) -> u64
        ensures { result ≡ looked self.now };

    /// Only hash parts are sought.
    fn sound(&self)
        ensures { AreKeys (keys self.now) };
}

/// A set of hash parts, and how often it was asked for one.
#[derive(Drop)]
pub struct Sought<'a> {
    pub keys: &'a Keys,
    pub asked: u64,
}

impl Seek for Sought<'_> {
    ghost use Rattle.model.specs.Occurrences.{among};

    ghost keys = { λ s. among s.keys.now };

    ghost looked = { λ s. s.asked };

    fn has(&mut self, window: &[u8; 32]) -> bool {
        self.asked += 1;
        self.keys.find(window).is_some()
    }

    fn looks(&self) -> u64 {
        self.asked
    }

    fn sound(&self) {
        self.keys.sound();
    }
}

/// A set of hash parts with those of a set of paths, and how often it was asked for one.
#[derive(Drop)]
pub struct SoughtBeside<'a> {
    pub keys: &'a Keys,
    pub paths: &'a PathSet,
    pub asked: u64,
}

impl Seek for SoughtBeside<'_> {
    ghost use Rattle.std.specs.Prelude.{◌++◌};
    ghost use Rattle.model.specs.Occurrences.{among};
    ghost use Rattle.path_sets.specs.PathSets.{parts_of};

    ghost keys = { λ s. among (s.keys.now ++ parts_of s.paths.now) };

    ghost looked = { λ s. s.asked };

    fn has(&mut self, window: &[u8; 32]) -> bool {
        self.asked += 1;
        self.keys.find(window).is_some() || self.paths.has_part(window)
    }

    fn looks(&self) -> u64 {
        self.asked
    }

    fn sound(&self) {
        self.keys.sound();
        self.paths.sound();
    }
}
