//! Classes, with the paths that serve them.

ghost use Rattle.std.specs.Prelude.{◌≡◌, ◌⊎◌, ◌++◌, ℕ, List, map, bytes_eq, IfOk, MatchResult, Ok, Err};
ghost use Rattle.std.specs.Map.{lookup};
ghost use Rattle.model.specs.Closures.{path_for};
ghost use Rattle.model.specs.Resolutions.{served_among, images_for};
ghost use Rattle.model.specs.declared.refusal.Refusal.TheVariants.{Memory};
ghost use Rattle.model.specs.Results.{each};
ghost use Rattle.rewrite.specs.Tables.{with_first};
ghost use Rattle.resolving.specs.Resolving.{served_with, path_in};

use indexmap::IndexMap;
use model::Refusal;
use records::Entry;
use rewrite::Images;
use std::alloc::{AllocError, Global};
use std::marker::Model;
use storepath::StorePath;

/// A class, with the path that serves it.
#[derive(PartialEq, Eq)]
pub(crate) struct Served {
    class: StorePath,
    path: StorePath,
}

impl Drop for Served {
    fn drop(self) {
        let Served { class: _, path: _ } = self;
    }
}

impl Model for Served {
    ghost use Rattle.model.specs.Resolutions.{Served as ServedValue};

    ghost Value = { ServedValue };

    ghost view = { λ s. record { class = s.class; path = s.path } };

    ghost inverse = { λ s. record { class = s.class; path = s.path } };
}

impl Served {
    /// The class.
    fn class(&self) -> &StorePath
        ensures { result.now ≡ self.now.class }
    {
        &self.class
    }

    /// The path that serves it.
    pub(crate) fn path(&self) -> &StorePath
        ensures { result.now ≡ self.now.path }
    {
        &self.path
    }
}

// Puts the path of a class, unless one is there.
fn put_first(
    paths: &mut IndexMap<StorePath, StorePath>,
    class: &StorePath,
    path: &StorePath,
) -> Result<(), Refusal>
    ensures { MatchResult result
        (λ _. paths.new.entries ≡ with_first paths.old.entries class.now path.now)
        (λ e. e ≡ Memory) }
{
    if !paths.contains_key(class) {
        let _none = paths.insert(class.clone()?, path.clone()?)?;
    }
    Ok(())
}

// By the paths of classes, the paths that serve them.
fn paths_by_class(
    alloc: Global,
    entries: &[Entry],
) -> Result<IndexMap<StorePath, StorePath>, Refusal>
    ensures { MatchResult result
        (λ paths. (class : List ℕ)
        → lookup (bytes_eq class) paths.entries ≡ path_for class entries.now)
        (λ e. e ≡ Memory) }
{
    let mut paths = IndexMap::new(alloc);
    for entry in entries {
        if let Some(class) = entry.class() {
            put_first(&mut paths, class.path(), entry.path())?;
        }
    }
    Ok(paths)
}

/// A class with the path that serves it, by the paths at classes. `NotRealised` says exactly that
/// there is none; else the one error is memory.
fn served_by(paths: &IndexMap<StorePath, StorePath>, class: &StorePath) -> Result<Served, Refusal>
    ensures { let answer = served_with (path_in paths.now.entries) class.now in MatchResult result
        (λ served. answer ≡ Ok served)
        (λ e. (e ≡ Memory) ⊎ (answer ≡ Err e)) }
{
    let Some(path) = paths.get(class) else {
        return Err(Refusal::NotRealised);
    };
    let path = path.clone()?;
    let class = class.clone()?;
    Ok(Served { class, path })
}

/// Each of the classes with the path that serves it, by the paths at classes. `NotRealised` says
/// exactly that one has none; else the one error is memory.
fn all_served_by(
    alloc: Global,
    paths: &IndexMap<StorePath, StorePath>,
    classes: &[StorePath],
) -> Result<Vec<Served>, Refusal>
    ensures { let answer = each (served_with (path_in paths.now.entries)) classes.now in
        MatchResult result
        (λ served. answer ≡ Ok served.items)
        (λ e. (e ≡ Memory) ⊎ (answer ≡ Err e)) }
{
    let mut served = Vec::new(alloc);
    for class in classes {
        served.push(served_by(paths, class)?)?;
    }
    Ok(served)
}

/// Each of the classes with the path that serves it.
///
/// # Errors
///
/// - `NotRealised` exactly where no entry is for one of the classes.
/// - `Memory` only where memory was refused; it may stand in the place of each answer.
pub(crate) fn served_among(
    alloc: Global,
    entries: &[Entry],
    classes: &[StorePath],
) -> Result<Vec<Served>, Refusal>
    ensures { let answer = served_among entries.now classes.now in MatchResult result
        (λ served. answer ≡ Ok served.items)
        (λ e. (e ≡ Memory) ⊎ (answer ≡ Err e)) }
{
    let paths = paths_by_class(alloc, entries)?;
    all_served_by(alloc, &paths, classes)
}

/// The hash part of each class, with that of the path that serves it. It fails only where memory is
/// refused.
pub(crate) fn images_for(alloc: Global, served: &[Served]) -> Result<Images, AllocError>
    ensures { IfOk result (λ images. images ≡ images_for served.now) }
{
    let mut images = Images::new(alloc);
    for one in served {
        images.add(one.class().hash_part(), one.path().hash_part())?;
    }
    Ok(images)
}
