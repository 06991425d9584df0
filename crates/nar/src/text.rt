//! A text in memory.

ghost use Rattle.std.specs.Prelude.{◌≡◌, [], IfOk, IsOk, OnOk};

use crate::sink::Sink;
use std::alloc::{AllocError, Global};

/// A text that is made in memory, for as long as memory is given.
#[derive(Drop)]
pub(crate) struct Text {
    bytes: Vec<u8>,
    so_far: Result<(), AllocError>,
}

impl Text {
    /// An empty text.
    pub(crate) fn new(alloc: Global) -> Text
        ensures { result.bytes.items ≡ [] }
    {
        Text {
            bytes: Vec::new(alloc),
            so_far: Ok(()),
        }
    }

    /// An empty text with room for `len` bytes.
    pub(crate) fn with_capacity(alloc: Global, len: usize) -> Result<Text, AllocError>
        ensures { IfOk result (λ text. text.bytes.items ≡ []) }
    {
        Ok(Text {
            bytes: Vec::with_capacity(alloc, len)?,
            so_far: Ok(()),
        })
    }

    /// What it has taken, or that memory was refused on the way.
    pub(crate) fn into_bytes(self) -> Result<Vec<u8>, AllocError>
        ensures all { OnOk result (IsOk self.so_far) }
        ensures text { IfOk result (λ bytes. bytes.items ≡ self.bytes.items) }
    {
        let Text { bytes, so_far } = self;
        so_far?;
        Ok(bytes)
    }
}

impl Sink for Text {
    ghost use Rattle.std.specs.Prelude.{◌≡◌, ◌++◌, OnOk};

    ghost took = { λ start now taken. OnOk now.so_far (now.bytes.items ≡ start.bytes.items ++ taken) };

    fn take(&mut self, piece: &[u8]) {
        if self.so_far.is_ok() {
            self.so_far = self.bytes.extend_from_slice(piece);
        }
    }
}
