//! Histories in files of the system.

use crate::opened::{in_words, read_all};
use crate::trials::told;
use anyhow::Result;
use journal::{Opening, Place, PlaceError, SystemFile};
use std::alloc::Global;
use std::fs::{File, Files};

/// What a place answers, in a word.
fn word_of(error: &PlaceError) -> &'static str {
    match error {
        PlaceError::Absent => "absent",
        PlaceError::Present => "present",
        PlaceError::NoPlainFile => "no plain file",
        PlaceError::Busy => "busy",
        PlaceError::Io(_) => "io",
    }
}

/// Makes a history with these groups of a draft, and publishes it.
fn publish<R: Files<File = File>>(
    rt: &R,
    alloc: Global,
    place: &Place,
    draft: Result<SystemFile, PlaceError>,
    groups: &str,
    out: &mut String,
) -> Result<()> {
    match draft {
        Ok(file) => {
            let told = told(alloc, file, groups)?;
            match place.publish(rt) {
                Ok(()) => write!(out, "told {told}")?,
                Err(error) => out.push_str(word_of(&error))?,
            }
        }
        Err(error) => out.push_str(word_of(&error))?,
    }
    Ok(())
}

/// `PATH GROUP..`: makes a history of this path with these groups.
pub(crate) fn makes<R: Files<File = File>>(
    rt: &R,
    alloc: Global,
    argument: &str,
    out: &mut String,
) -> Result<()> {
    let (path, groups) = argument.split_once(' ').unwrap_or((argument, ""));
    let place = Place::new(alloc, path)?;
    let draft = place.create(rt);
    publish(rt, alloc, &place, draft, groups, out)
}

/// `PATH GROUP..`: holds the history of this path, and puts one with these groups into its place.
pub(crate) fn rewrites<R: Files<File = File>>(
    rt: &R,
    alloc: Global,
    argument: &str,
    out: &mut String,
) -> Result<()> {
    let (path, groups) = argument.split_once(' ').unwrap_or((argument, ""));
    let place = Place::new(alloc, path)?;
    match place.open(rt) {
        Ok(held) => {
            let draft = place.rewrite(rt, &held);
            publish(rt, alloc, &place, draft, groups, out)?;
        }
        Err(error) => out.push_str(word_of(&error))?,
    }
    Ok(())
}

/// `PATH`: opens the file of this path, and holds it.
pub(crate) fn holds<R: Files<File = File>>(
    rt: &R,
    alloc: Global,
    path: &str,
    held: &mut Option<SystemFile>,
    out: &mut String,
) -> Result<()> {
    let place = Place::new(alloc, path)?;
    match place.open(rt) {
        Ok(file) => {
            *held = Some(file);
            out.push_str("held")?;
        }
        Err(error) => out.push_str(word_of(&error))?,
    }
    Ok(())
}

/// `PATH`: opens the history of this path.
pub(crate) fn grows<R: Files<File = File>>(
    rt: &R,
    alloc: Global,
    path: &str,
    out: &mut String,
) -> Result<()> {
    let place = Place::new(alloc, path)?;
    match place.open(rt) {
        Ok(file) => {
            let mut opening = Opening::new(alloc, file);
            let given = read_all(alloc, &mut opening);
            out.push_str(in_words(alloc, given)?.as_str())?;
        }
        Err(error) => out.push_str(word_of(&error))?,
    }
    Ok(())
}
