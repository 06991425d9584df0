//! What a caller of a front was answered.

use book::Row;
use model::Refusal;
use session::answer_text;
use std::alloc::Global;

/// The reply in a row, as it is printed.
pub(crate) fn text_of(alloc: Global, row: &Row) -> Result<Vec<u8>, Refusal> {
    answer_text(alloc, 1, row.event.actor.bytes(), &row.reply)
}
