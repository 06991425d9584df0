//! Paths as a set, in the order of their bytes.

ghost use Rattle.std.specs.Prelude.{◌≡◌, IfOk};
ghost use Rattle.model.specs.Archives.{bytes_before};
ghost use Rattle.model.specs.Orders.{set_of};

use crate::path::StorePath;
use std::alloc::{AllocError, Global};
use std::collections::BTreeSet;

/// The paths as a set.
fn set_of(alloc: Global, mut paths: Vec<StorePath>) -> Result<BTreeSet<StorePath>, AllocError>
    ensures { IfOk result (λ set. set.keys ≡ set_of bytes_before paths.items) }
{
    let mut set = BTreeSet::new(alloc);
    while let Some(path) = paths.pop() {
        let _is_new = set.insert(path)?;
    }
    Ok(set)
}

/// The paths of a set, in its order.
fn paths_of(alloc: Global, set: BTreeSet<StorePath>) -> Result<Vec<StorePath>, AllocError>
    ensures { IfOk result (λ paths. paths.items ≡ set.keys) }
{
    let mut paths = Vec::new(alloc);
    for path in set {
        paths.push(path)?;
    }
    Ok(paths)
}

/// The paths in the order of their bytes, each once.
///
/// # Errors
///
/// Only where memory was refused.
pub fn paths_in_order(alloc: Global, paths: Vec<StorePath>) -> Result<Vec<StorePath>, AllocError>
    ensures { IfOk result (λ ordered. ordered.items ≡ set_of bytes_before paths.items) }
{
    paths_of(alloc, set_of(alloc, paths)?)
}
