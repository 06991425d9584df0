//! Why a reader of texts read nothing.

use std::alloc::{AllocError, AllocFailed};

/// Why nothing was read.
#[derive(Drop)]
pub enum ReadError {
    /// No text that is read so begins with these bytes.
    Malformed,
    /// Memory was refused.
    Memory,
}

impl From<AllocError> for ReadError {
    ghost use Rattle.std.specs.Prelude.{◌≡◌};
    ghost use Rattle.model.specs.declared.read_error.ReadError.TheVariants.{Memory};

    ghost from_gives = { λ _ e. e ≡ Memory };

    fn from(_error: AllocError) -> ReadError {
        ReadError::Memory
    }
}

impl<T: Drop> From<AllocFailed<T>> for ReadError {
    ghost use Rattle.std.specs.Prelude.{◌≡◌};
    ghost use Rattle.model.specs.declared.read_error.ReadError.TheVariants.{Memory};

    ghost from_gives = { λ _ e. e ≡ Memory };

    fn from(_error: AllocFailed<T>) -> ReadError {
        ReadError::Memory
    }
}
