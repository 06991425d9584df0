//! The path of a derivation's file.

ghost use Rattle.std.specs.Prelude.{◌≡◌, ◌++◌, MatchResult, filter, not, codes};
ghost use Rattle.classes.specs.Inputs.{is_absent};
ghost use Rattle.model.specs.Derivations.{derivation_text, name_of};
ghost use Rattle.model.specs.Classes.{is_one_of, sorted, derivation_path};
ghost use Rattle.model.specs.declared.refusal.Refusal.TheVariants.{Memory};

use aterm::Derivation;
use hashmod::sha256;
use indexmap::IndexSet;
use model::Refusal;
use path_sets::set_of;
use std::alloc::Global;
use storepath::{Kind, Name, StorePath, make_path};

// Adds the sources that are not in a set.
fn add_absent(
    paths: &mut Vec<StorePath>,
    set: &IndexSet<StorePath>,
    sources: &[StorePath],
) -> Result<(), Refusal>
    ensures { MatchResult result
        (λ _. paths.new.items ≡ paths.old.items ++ filter (is_absent set.now.keys) sources.now)
        (λ e. e ≡ Memory) }
{
    for path in sources {
        if !set.contains(path) {
            paths.push(path.clone()?)?;
        }
    }
    Ok(())
}

// Adds the sources that are no inputs.
fn add_others(
    alloc: Global,
    paths: &mut Vec<StorePath>,
    inputs: &[StorePath],
    sources: &[StorePath],
) -> Result<(), Refusal>
    ensures { MatchResult result
        (λ _. paths.new.items
        ≡ paths.old.items ++ filter (λ path. not (is_one_of inputs.now path)) sources.now)
        (λ e. e ≡ Memory) }
{
    let among_inputs = set_of(alloc, inputs)?;
    add_absent(paths, &among_inputs, sources)
}

// The inputs, and the sources that are no inputs, in the order of bytes.
fn references(
    alloc: Global,
    inputs: &[StorePath],
    sources: &[StorePath],
) -> Result<Vec<StorePath>, Refusal>
    ensures { MatchResult result
        (λ paths. paths.items
        ≡ sorted (inputs.now ++ filter (λ path. not (is_one_of inputs.now path)) sources.now))
        (λ e. e ≡ Memory) }
{
    let mut paths = inputs.to_vec(alloc)?;
    add_others(alloc, &mut paths, inputs, sources)?;
    paths.sort()?;
    Ok(paths)
}

// The name of a derivation's file.
fn file_name(alloc: Global, derivation: &Derivation) -> Result<Name, Refusal>
    ensures { MatchResult result
        (λ name. name ≡ name_of derivation.now ++ codes ".drv")
        (λ e. e ≡ Memory) }
{
    let mut name = Vec::from_slice(alloc, derivation.name())?;
    name.extend_from_slice(b".drv")?;
    Ok(Name::new(alloc, &name)?)
}

/// The path of the file of a derivation that has this text: of the kind `text`, over the digest of the
/// text, with the paths that the derivation refers to and a name that ends in `.drv` (Nix Reference Manual,
/// "Complete Store Path Calculation").
///
/// # Errors
///
/// - `Memory` only where memory was refused.
pub fn path_of_text(
    alloc: Global,
    derivation: &Derivation,
    text: &[u8],
) -> Result<StorePath, Refusal>
    requires text { text.now ≡ derivation_text derivation.now }
    ensures { MatchResult result
        (λ path. path ≡ derivation_path derivation.now)
        (λ e. e ≡ Memory) }
{
    let digest = sha256(text);
    let name = file_name(alloc, derivation)?;
    let parts = derivation.parts();
    let references = references(alloc, &parts.inputs, &parts.sources)?;
    make_path(alloc, &Kind::DerivationFile(&references), &digest, &name)
}
