//! What a run's desks are limited to, beside the limits that do not change.

use model::LARGEST_CHARGE;

/// What a run's desks are limited to, beside the fixed limits.
#[derive(Clone, Copy, Debug)]
pub struct Limits {
    /// The most that one user may be charged, in bytes of archives; at most [`LARGEST_CHARGE`].
    pub charge: u64,
}

/// Where none is given, the largest is meant.
impl Default for Limits {
    ghost use Rattle.std.specs.Prelude.{◌≡◌};
    ghost use Rattle.model.specs.Limits.{most_charge};

    ghost is_default = { λ limits. limits.charge ≡ most_charge };

    fn default() -> Limits {
        Limits {
            charge: LARGEST_CHARGE,
        }
    }
}
