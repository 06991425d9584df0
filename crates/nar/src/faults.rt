//! Readers and writers that count their failures.

ghost use Rattle.std.specs.Prelude.{◌≡◌, ℕ, MatchBool};
ghost use Rattle.nar.specs.Writing.{HasFailed};

/// What counts how often it failed. A count that has reached its greatest number stays there.
pub trait Faults {
    /// The count.
    ghost failed: { Self → ℕ };

    /// How often it has failed.
    fn failures(&self) -> u64
        ensures { result ≡ failed self.now };
}

impl Faults for &[u8] {
    ghost failed = { λ _. 0 };

    fn failures(&self) -> u64 {
        0
    }
}

impl Faults for Vec<u8> {
    ghost failed = { λ _. 0 };

    fn failures(&self) -> u64 {
        0
    }
}

impl<T: Faults> Faults for &mut T {
    ghost failed = { λ s. T.failed s.now };

    fn failures(&self) -> u64 {
        (**self).failures()
    }
}

/// Whether a count of failures says that there was one since it was `before`.
pub fn has_failed(before: u64, now: u64) -> bool
    ensures { MatchBool result (HasFailed before now) (¬ HasFailed before now) }
{
    now > before || now == u64::MAX
}
