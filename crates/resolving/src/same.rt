//! Whether two derivations are one.

ghost use Rattle.std.specs.Prelude.{◌≡◌};
ghost use Rattle.std.specs.Bool.{Decides};

use aterm::Derivation;

/// Whether two derivations are one.
pub(crate) fn same_derivation(one: &Derivation, other: &Derivation) -> bool
    ensures { Decides result (one.now ≡ other.now) }
{
    let one = one.parts();
    let other = other.parts();
    (one.inputs == other.inputs)
        & (one.sources == other.sources)
        & (one.platform == other.platform)
        & (one.builder == other.builder)
        & (one.arguments == other.arguments)
        & (one.environment == other.environment)
}
