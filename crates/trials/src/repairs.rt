//! Records that are repaired, with what a cache keeps of them.

use indexmap::IndexMap;
use model::Refusal;
use nar::Tree;
use records::{Label, Realisation, Record};
use repair::{Cache, serve};
use std::alloc::Global;
use std::hash::RandomState;
use std::num::NonZeroUsize;
use storepath::{Class, StorePath, read_path};
use trial_lines::{Answer, number};

/// The number of the path that records name, and of that by which what they name is served.
const OLD: usize = 1_000_000_001;

const NEW: usize = 1_000_000_002;

/// The path of a number and a name.
fn path_of(alloc: Global, number: usize, name: &str) -> Result<StorePath, Refusal> {
    let text = format!(in alloc; "/nix/store/{number:032}-{name}")?;
    read_path(alloc, text.as_bytes())
}

/// The class of the library that is served by another path than records name.
fn library(alloc: Global) -> Result<Class, Refusal> {
    Ok(Class::new(path_of(alloc, 1_000_000_000, "library")?, 1))
}

/// A file of this text.
fn file(alloc: Global, text: &str) -> Result<Tree, Refusal> {
    Tree::file(false, Vec::from_slice(alloc, text.as_bytes())?)
}

/// What serves that class: a library with no labels, at the new path.
fn served(alloc: Global) -> Result<IndexMap<StorePath, Realisation>, Refusal> {
    let class = library(alloc)?;
    let path = class.path().clone()?;
    let record = Record::new(class, path_of(alloc, NEW, "library")?, Vec::new(alloc))?;
    let mut served = IndexMap::new(alloc);
    let _none = served.insert(path, Realisation::new(record, file(alloc, "2")?))?;
    Ok(served)
}

/// The record of a number: a file with the number and the hash part of the library at the old path,
/// which its label names.
fn record_of(alloc: Global, number: usize) -> Result<Realisation, Refusal> {
    let path = path_of(alloc, number, "program")?;
    let class = Class::new(path.clone()?, 2);
    let text = format!(in alloc; "{number} {:032}", OLD)?;
    let mut labels = Vec::new(alloc);
    labels.push(Label::new(path_of(alloc, OLD, "library")?, Some(library(alloc)?)))?;
    let record = Record::new(class, path, labels)?;
    Ok(Realisation::new(record, file(alloc, text.as_str())?))
}

/// The path by which the record of a number is served.
fn path_served(
    alloc: Global,
    number: usize,
    served: &IndexMap<StorePath, Realisation>,
    cache: &mut Cache,
) -> Result<StorePath, Refusal> {
    let record = record_of(alloc, number)?;
    Ok(serve(alloc, &record, served, cache)?.path().clone()?)
}

/// The paths by which the records of these numbers are served.
fn paths_served(
    alloc: Global,
    numbers: usize,
    served: &IndexMap<StorePath, Realisation>,
    cache: &mut Cache,
) -> Result<Vec<StorePath>, Refusal> {
    let mut paths = Vec::new(alloc);
    for number in 0..numbers {
        paths.push(path_served(alloc, number, served, cache)?)?;
    }
    Ok(paths)
}

/// A new cache of so many records.
fn cache_of(alloc: Global, hashing: RandomState, most: usize) -> Result<Cache, Refusal> {
    match NonZeroUsize::new(most) {
        Some(most) => Cache::new(alloc, hashing, most, u32::MAX),
        None => Err(Refusal::BadLine),
    }
}

/// `MOST NUMBERS`: serves the records of these numbers with a new cache of so many records, and then
/// once more in the same order. Prints the path of the last one, whether both times all paths were as
/// without a cache, how many look-ups the cache answered, and how many records were repaired.
pub(crate) fn repairs(
    alloc: Global,
    hashing: RandomState,
    argument: &str,
    out: &mut Answer,
) -> Result<(), Refusal> {
    let (most, rest) = number(argument)?;
    let (numbers, _) = number(rest)?;
    let served = served(alloc)?;
    let bare = paths_served(alloc, numbers, &served, &mut Cache::none())?;
    let mut cache = cache_of(alloc, hashing, most)?;
    let first = paths_served(alloc, numbers, &served, &mut cache)?;
    let second = paths_served(alloc, numbers, &served, &mut cache)?;
    if let Some(path) = second.last() {
        out.add(path);
    }
    out.add_text(if first == bare && second == bare {
        ", all as without"
    } else {
        ", others"
    });
    out.add_text(", hits: ");
    out.add(&cache.hits());
    out.add_text(", repaired: ");
    out.add(&cache.computed());
    Ok(())
}
