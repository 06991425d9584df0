//! Reading what a process writes.

ghost use Rattle.builder.specs.Meaning.{output_of};
ghost use Rattle.builder.specs.Pieces.{IsRead};

use crate::fault::Fault;
use crate::outside::Outside;
use model::MOST_ARCHIVE_BYTES;
use std::alloc::Global;

/// The most bytes that are kept of what a process writes: one more than an archive may have.
const MOST_OUTPUT: usize = MOST_ARCHIVE_BYTES + 1;

/// Reads to the end of what a process writes, and gives the first 67,108,865 bytes of it. What comes after
/// them is dropped.
///
/// # Errors
///
/// - `OutputNotRead` only where reading failed, or did not end.
pub(crate) fn read_output<O: Outside>(
    alloc: Global,
    outside: &mut O,
    output: &mut O::Output,
) -> Result<Vec<u8>, Fault>
    ensures { IsRead O.steps outside.old output.old (output_of result) output.new outside.new }
{
    let mut kept = Vec::new(alloc);
    for _ in 0..u64::MAX {
        match outside.read(output, &mut kept) {
            Ok(0) => return Ok(kept),
            Ok(_) => kept.truncate(MOST_OUTPUT),
            Err(_) => return Err(Fault::OutputNotRead),
        }
    }
    Err(Fault::OutputNotRead)
}
