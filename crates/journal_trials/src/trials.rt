//! Lines, and the trials that they name.

use crate::opened::{SETTINGS, in_words, read_all};
use crate::places;
use crate::stopping_file::{StoppingFile, Torn};
use anyhow::{Context, Result, bail};
use journal::{Group, Journal, LogFile, Opening, SystemFile, is_event};
use sha2::{Digest, Sha256};
use std::alloc::{AllocError, Global};
use std::fs::{File, Files};

/// Nothing is torn.
const SOUND: Torn = Torn {
    kept: 0,
    fill: None,
};

/// The first word of a text, and what follows the blank behind it.
fn cut(text: &str) -> (&str, &str) {
    text.split_once(' ').unwrap_or((text, ""))
}

/// A number, and what follows the blank behind it.
fn number(text: &str) -> Result<(usize, &str)> {
    let (word, rest) = cut(text);
    let number = word.parse::<usize>().ok().context("no number")?;
    Ok((number, rest))
}

/// `CALL KEPT FILL`, and what follows the blank behind them.
fn torn_of(text: &str) -> Result<(usize, Torn, &str)> {
    let (calls, rest) = number(text)?;
    let (kept, rest) = number(rest)?;
    let (fill, rest) = cut(rest);
    let fill = fill
        .as_bytes()
        .first()
        .copied()
        .filter(|byte| *byte != b'-');
    Ok((calls, Torn { kept, fill }, rest))
}

/// The group of a word: rows with `,` between them.
fn group_of(alloc: Global, word: &str) -> Result<Group, AllocError> {
    let mut group = Group::new(alloc)?;
    for row in word.split(',') {
        if is_event(row.as_bytes()) {
            group = group.and(row.as_bytes())?;
        }
    }
    Ok(group)
}

/// Begins a history in a file and adds groups to it; gives how many were told.
pub(crate) fn told<D: LogFile + Drop>(alloc: Global, file: D, groups: &str) -> Result<usize>
    requires { D.is_honest file → ⊥ }
{
    let mut told = 0usize;
    let Ok(mut journal) = Journal::begin(alloc, file, SETTINGS) else {
        return Ok(told);
    };
    for word in groups.split(' ') {
        let replies = Sha256::digest(word);
        if journal
            .append(alloc, group_of(alloc, word)?, &replies)
            .is_err()
        {
            break;
        }
        told = told.saturating_add(1);
    }
    Ok(told)
}

/// The bytes of a history with these groups.
fn whole(alloc: Global, groups: &str) -> Result<Vec<u8>> {
    let mut disk = Vec::new(alloc);
    let file = StoppingFile::new(alloc, &mut disk, usize::MAX, SOUND)?;
    let _told = told(alloc, file, groups)?;
    Ok(disk)
}

/// Bytes in base 16.
fn bytes_of(alloc: Global, digits: &str) -> Result<Vec<u8>> {
    hex::decode(alloc, digits).ok().context("no bytes")
}

/// Opens what is on a disk, and tells what that gives, and the digest of what stands there then.
fn opens(alloc: Global, disk: &mut Vec<u8>, out: &mut String) -> Result<()> {
    let file = StoppingFile::new(alloc, disk, usize::MAX, SOUND)?;
    let mut opening = Opening::new(alloc, file);
    let given = read_all(alloc, &mut opening);
    drop(opening);
    let words = in_words(alloc, given)?;
    let digest = hex::encode(alloc, Sha256::digest(disk.as_slice()).as_slice())?;
    write!(out, "{words}, {digest}")?;
    Ok(())
}

/// `CALL KEPT FILL GROUP..`: makes a history on a file that stops.
fn stops(alloc: Global, argument: &str, out: &mut String) -> Result<()> {
    let (calls, torn, groups) = torn_of(argument)?;
    let mut disk = Vec::new(alloc);
    let file = StoppingFile::new(alloc, &mut disk, calls, torn)?;
    let told = told(alloc, file, groups)?;
    write!(out, "told {told}: ")?;
    opens(alloc, &mut disk, out)
}

/// `CALL KEPT FILL BYTES`: opens a file that stops.
fn shuts(alloc: Global, argument: &str, out: &mut String) -> Result<()> {
    let (calls, torn, bytes) = torn_of(argument)?;
    let mut disk = bytes_of(alloc, bytes)?;
    let mut opening = Opening::new(alloc, StoppingFile::new(alloc, &mut disk, calls, torn)?);
    let given = read_all(alloc, &mut opening);
    drop(opening);
    let words = in_words(alloc, given)?;
    write!(out, "{words}: ")?;
    opens(alloc, &mut disk, out)
}

/// `END GROUP..`: opens the first bytes of a history.
fn begins(alloc: Global, argument: &str, out: &mut String) -> Result<()> {
    let (end, groups) = number(argument)?;
    let mut disk = whole(alloc, groups)?;
    disk.truncate(end);
    opens(alloc, &mut disk, out)
}

/// `PLACE GROUP..`: opens a history of which a bit is another.
fn flips(alloc: Global, argument: &str, out: &mut String) -> Result<()> {
    let (place, groups) = number(argument)?;
    let mut disk = whole(alloc, groups)?;
    if let Some(byte) = disk.get_mut(place) {
        *byte ^= 1;
    }
    opens(alloc, &mut disk, out)
}

/// Adds what a line gives.
pub(crate) fn answer_line<R: Files<File = File>>(
    rt: &R,
    alloc: Global,
    line: &str,
    held: &mut Option<SystemFile>,
    out: &mut String,
) -> Result<()> {
    let (call, argument) = cut(line);
    match call {
        "#" => Ok(out.push_str(line)?),
        "stops" => stops(alloc, argument, out),
        "shuts" => shuts(alloc, argument, out),
        "begins" => begins(alloc, argument, out),
        "flips" => flips(alloc, argument, out),
        "opens" => opens(alloc, &mut bytes_of(alloc, argument)?, out),
        "makes" => places::makes(rt, alloc, argument, out),
        "rewrites" => places::rewrites(rt, alloc, argument, out),
        "holds" => places::holds(rt, alloc, argument, held, out),
        "grows" => places::grows(rt, alloc, argument, out),
        _ => bail!("no trial: {line}"),
    }
}
