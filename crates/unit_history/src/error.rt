//! Why a history is not written whole.

ghost use Rattle.std.specs.Prelude.{◌≡◌};
ghost use Rattle.unit_history.specs.declared.error.HistoryError.TheVariants as history_errors;

use std::alloc::AllocError;
use std::io;
use thiserror::Error;

/// Why a history is not written whole.
#[derive(Clone, Copy, PartialEq, Eq, Debug, Error)]
pub enum HistoryError {
    #[error("out of memory")]
    NoMemory,
    /// The writer failed. A part of the history may have gone out.
    #[error("output not written")]
    NotWritten,
}

impl From<AllocError> for HistoryError {
    ghost from_gives = { λ _ e. e ≡ history_errors.NoMemory };

    fn from(_error: AllocError) -> Self {
        HistoryError::NoMemory
    }
}

impl From<io::Error> for HistoryError {
    ghost from_gives = { λ _ e. e ≡ history_errors.NotWritten };

    fn from(_error: io::Error) -> Self {
        HistoryError::NotWritten
    }
}
