//! The classes of a derivation's inputs.

ghost use Rattle.std.specs.Prelude.{◌≡◌, MatchResult};
ghost use Rattle.model.specs.Resolutions.{input_classes};
ghost use Rattle.model.specs.declared.refusal.Refusal.TheVariants.{Memory};

use crate::known::Known;
use aterm::Derivation;
use model::Refusal;
use std::alloc::Global;
use storepath::StorePath;

/// The paths of the classes of a derivation's inputs, in the order of the inputs. An input that is
/// not known is passed over.
///
/// # Errors
///
/// - `Memory` only where memory was refused.
pub fn input_classes(
    alloc: Global,
    known: &Known,
    derivation: &Derivation,
) -> Result<Vec<StorePath>, Refusal>
    ensures { MatchResult result
        (λ classes. classes.items ≡ input_classes known.now derivation.now)
        (λ e. e ≡ Memory) }
{
    let parts = derivation.parts();
    let mut classes = Vec::new(alloc);
    for path in &parts.inputs {
        if let Some(admitted) = known.derivation(path) {
            classes.push(admitted.class().path().clone()?)?;
        }
    }
    Ok(classes)
}
