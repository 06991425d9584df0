//! What one core lacks of another.

use history::Row;
use std::sync::Arc;

/// What the core that is not shown lacks of the one that is.
#[derive(Drop)]
pub enum Lag {
    /// Nothing.
    Nothing,
    /// The event of a row.
    Row(Arc<Row>),
    /// A sweep.
    Sweep,
    /// It is not known. No event can be taken any more.
    Unknown,
}
