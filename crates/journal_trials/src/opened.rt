//! A history that is opened.

use journal::{LogFile, OpenError, Opening, Part};
use std::alloc::{AllocError, Global};

/// The settings of each history.
pub(crate) const SETTINGS: &[u8] = b"charge 7";

/// Reads all of a history, and shuts it. Gives how many rows and how many groups it has.
pub(crate) fn read_all<D: LogFile + Drop>(
    alloc: Global,
    opening: &mut Opening<D>,
) -> Result<(usize, usize), OpenError>
    requires { D.is_honest opening.old.reading.pieces.file → ⊥ }
{
    opening.header(SETTINGS)?;
    let (mut rows, mut groups) = (0usize, 0usize);
    for _ in 0..u64::MAX {
        match opening.next(alloc)? {
            Some(Part::Event(_)) => rows = rows.saturating_add(1),
            Some(Part::Seal(_)) => groups = groups.saturating_add(1),
            None => break,
        }
    }
    opening.shut()?;
    Ok((rows, groups))
}

/// What opening gives, in words.
pub(crate) fn in_words(
    alloc: Global,
    given: Result<(usize, usize), OpenError>,
) -> Result<String, AllocError> {
    match given {
        Ok((rows, groups)) => format!(in alloc; "{rows} rows in {groups} groups"),
        Err(OpenError::NotAHistory) => String::from_str(alloc, "not a history"),
        Err(OpenError::OtherSettings) => String::from_str(alloc, "other settings"),
        Err(OpenError::Broken(place)) => format!(in alloc; "broken at {place}"),
        Err(OpenError::Log(error)) => format!(in alloc; "{error:?}"),
    }
}
