//! Reading the file of inputs.

ghost use Rattle.std.specs.Prelude.{◌≡◌, ◌⊎◌, List, flat_map, MatchResult};
ghost use Rattle.model.specs.Inputs.{Input};
ghost use Rattle.model.specs.declared.refusal.Refusal.TheVariants.{BadNar, Memory};
ghost use Rattle.nb.specs.Outcomes.{path_line, AreInputs, AreNone};

use model::Refusal;
use nar::read_str;
use std::alloc::Global;

/// The paths of the inputs that a file tells, each with a newline behind it.
///
/// # Errors
///
/// - `BadNar` exactly where it is no file of inputs.
/// - `Memory` only where memory was refused.
pub(crate) fn paths_in(alloc: Global, bytes: &[u8]) -> Result<Vec<u8>, Refusal>
    ensures { MatchResult result
        (λ paths. (inputs : List Input) × AreInputs bytes.now inputs
        × (paths.items ≡ flat_map path_line inputs))
        (λ why. (why ≡ Memory) ⊎ ((why ≡ BadNar) × AreNone bytes.now)) }
{
    let mut paths = Vec::new(alloc);
    let mut rest = bytes;
    while !rest.is_empty() {
        let (path, behind) = read_str(rest)?;
        let (_archive, after) = read_str(behind)?;
        paths.extend_from_slice(path)?;
        paths.push(b'\n')?;
        rest = after;
    }
    Ok(paths)
}
