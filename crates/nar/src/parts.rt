//! The parts of a node and of a directory's entries.

ghost use Rattle.std.specs.Prelude.{IfErr};
ghost use Rattle.model.specs.ArchiveReading.{executable_at, head_at, closed_at, name_at};
ghost use Rattle.model.specs.ReadOutcomes.{Gives, IsMalformed};
ghost use Rattle.nar.specs.Steps.{next_is_entry, next_name_at};

use crate::names::{comes_before, is_name};
use crate::strings::{read_string, skip_string};
use model::ReadError;

/// The beginning of a node, with the name of its kind, and the rest.
///
/// # Errors
///
/// - `Malformed` exactly where no node begins so.
#[tactic(auto, unfolding(model::specs::ArchiveReading::head_at))]
pub(crate) fn read_head(bytes: &[u8]) -> Result<(&[u8], &[u8]), ReadError>
    ensures read { Gives (λ r. (r.0.now, r.1.now)) result (head_at bytes.now) }
    ensures malformed { IfErr result IsMalformed }
{
    let rest = skip_string(bytes, b"(")?;
    let rest = skip_string(rest, b"type")?;
    let (kind, rest) = read_string(rest)?;
    Ok((kind, rest))
}

/// Whether the mark of an executable file comes next, and what follows it.
///
/// # Errors
///
/// - `Malformed` exactly where no string comes next, or one without the other of the mark's two.
#[tactic(auto, unfolding(model::specs::ArchiveReading::executable_at))]
pub(crate) fn read_executable(bytes: &[u8]) -> Result<(bool, &[u8]), ReadError>
    ensures read { Gives (λ r. (r.0, r.1.now)) result (executable_at bytes.now) }
    ensures malformed { IfErr result IsMalformed }
{
    let (text, rest) = read_string(bytes)?;
    if text == b"executable".as_slice() {
        let rest = skip_string(rest, b"")?;
        Ok((true, rest))
    } else {
        Ok((false, bytes))
    }
}

/// A string with what closes a node behind it, and the rest.
///
/// # Errors
///
/// - `Malformed` exactly where no string comes next, or nothing closes the node behind it.
#[tactic(auto, unfolding(model::specs::ArchiveReading::closed_at))]
pub(crate) fn read_closed(bytes: &[u8]) -> Result<(&[u8], &[u8]), ReadError>
    ensures read { Gives (λ r. (r.0.now, r.1.now)) result (closed_at bytes.now) }
    ensures malformed { IfErr result IsMalformed }
{
    let (text, rest) = read_string(bytes)?;
    let rest = skip_string(rest, b")")?;
    Ok((text, rest))
}

/// Whether an entry comes next.
///
/// # Errors
///
/// - `Malformed` exactly where no string comes next.
#[tactic(auto, unfolding(crate::specs::Steps::next_is_entry))]
pub(crate) fn entry_comes(bytes: &[u8]) -> Result<bool, ReadError>
    ensures read { Gives (λ comes. comes) result (next_is_entry bytes.now) }
    ensures malformed { IfErr result IsMalformed }
{
    let (tag, _rest) = read_string(bytes)?;
    Ok(tag == b"entry".as_slice())
}

/// The beginning of an entry, with its name, which comes after the last one, and the rest.
///
/// # Errors
///
/// - `Malformed` exactly where no entry begins so, or the name is none or does not come after the
///   last one.
#[tactic(auto, unfolding(crate::specs::Steps::next_name_at))]
pub(crate) fn read_next_name<'a>(
    last: &[u8],
    bytes: &'a [u8],
) -> Result<(&'a [u8], &'a [u8]), ReadError>
    ensures read { Gives (λ r. (r.0.now, r.1.now)) result (next_name_at last.now bytes.now) }
    ensures malformed { IfErr result IsMalformed }
{
    let (name, rest) = read_name(bytes)?;
    if is_name(name) && comes_before(last, name) {
        Ok((name, rest))
    } else {
        Err(ReadError::Malformed)
    }
}

// The beginning of an entry, with its name.
#[tactic(auto, unfolding(model::specs::ArchiveReading::name_at))]
fn read_name(bytes: &[u8]) -> Result<(&[u8], &[u8]), ReadError>
    ensures read { Gives (λ r. (r.0.now, r.1.now)) result (name_at bytes.now) }
    ensures malformed { IfErr result IsMalformed }
{
    let rest = skip_string(bytes, b"entry")?;
    let rest = skip_string(rest, b"(")?;
    let rest = skip_string(rest, b"name")?;
    let (name, rest) = read_string(rest)?;
    let rest = skip_string(rest, b"node")?;
    Ok((name, rest))
}
