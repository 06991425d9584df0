//! Lines that were refused with 25 `BadLine`.

/// How many lines of an input were refused with 25 `BadLine`, and the number of the first of them. At the
/// greatest number the count stays there.
#[derive(Clone, Copy)]
pub struct BadLines {
    /// How many.
    pub count: usize,
    /// The number of the first.
    pub first: usize,
}
