//! What is run for files that are open.

ghost use Rattle.std.specs.Prelude.{IfOk, IfErr};
ghost use Rattle.files.specs.Parts.{AreNamed, AreParts, HeadNames, IsPartOf, IsRefused, IsRefusedFor};

use crate::opening::{Opened, Refused};
use session::{Faults, InputHead, look_ahead};
use std::alloc::Global;
use std::io::Read;
use teams::Part;
use trust::User;

/// What is run for a file, and the users whom it names.
#[derive(Drop)]
struct Headed<I: Drop, Q: Drop> {
    part: Part<I, Q>,
    users: Vec<User>,
}

/// What is run for files, and the users whom the first of them names.
#[derive(Drop)]
pub struct Parts<I: Drop, Q: Drop> {
    /// The users: none where there is no file.
    pub users: Vec<User>,
    /// What is run for each file, in their order.
    pub parts: Vec<Part<I, Q>>,
}

/// Reads a file up to its users, and gives what is run for it.
fn part_of<'a, I: Read + Faults + Drop, Q: Drop>(
    alloc: Global,
    file: Opened<'a, I, Q>,
) -> Result<Headed<I, Q>, Refused<'a>>
    ensures part { IfOk result (λ headed. IsPartOf I.remaining file.entry headed.part) }
    ensures users { IfOk result (λ headed. HeadNames I.remaining headed.part headed.users.items) }
    ensures refused { IfErr result (IsRefusedFor I.remaining I.failed file.entry) }
{
    let Opened {
        name,
        mut reader,
        runners,
        sweeps,
    } = file;
    match look_ahead(alloc, &mut reader) {
        Ok(InputHead { bytes, users }) => {
            let part = Part {
                bytes,
                reader,
                runners,
                sweeps,
            };
            Ok(Headed { part, users })
        }
        Err(why) => Err(Refused { name, why }),
    }
}

/// Reads files up to their users, each in its turn, and gives what is run for them. The users are those whom the first
/// file names.
///
/// # Errors
///
/// - `InputFault`, with the name of the first file that cannot be read up to there.
/// - `BadUsers`, with the name of the first file whose first line that gets a reply names no users.
/// - `Memory` where memory was refused.
pub fn parts_of<'a, I: Read + Faults + Drop, Q: Drop>(
    alloc: Global,
    files: Vec<Opened<'a, I, Q>>,
) -> Result<Parts<I, Q>, Refused<'a>>
    ensures parts { IfOk result (λ found. AreParts I.remaining files.entry.items found.parts.items) }
    ensures users { IfOk result (λ found. AreNamed I.remaining found.parts.items found.users.items) }
    ensures refused { IfErr result (IsRefused I.remaining I.failed files.entry.items) }
{
    let mut named = None;
    let mut parts = Vec::new(alloc);
    for file in files {
        let Headed { part, users } = part_of(alloc, file)?;
        parts.push(part)?;
        named = Some(named.unwrap_or(users));
    }
    let users = named.unwrap_or(Vec::new(alloc));
    Ok(Parts { users, parts })
}
