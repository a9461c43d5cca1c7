//! The cause that an [`Unfinished`](crate::Unfinished) has.

ghost use Rattle.std.specs.Prelude.{◌≡◌};

use std::alloc::{AllocError, AllocFailed};
use thiserror::Error;

/// Why a run was not brought to its end.
#[derive(Clone, Copy, PartialEq, Eq, Debug, Error)]
pub enum Cause {
    /// There was no memory for what has to grow.
    #[error("no memory")]
    NoMemory,
    /// A unit's state is not at the index of its number, since somebody put it under the lock of another.
    #[error("a unit's state is under the lock of another")]
    Mixed,
}

impl From<AllocError> for Cause {
    fn from(_: AllocError) -> Cause
        ensures { result ≡ Cause.NoMemory }
    {
        Cause::NoMemory
    }
}

impl<T: Drop> From<AllocFailed<T>> for Cause {
    fn from(_: AllocFailed<T>) -> Cause
        ensures { result ≡ Cause.NoMemory }
    {
        Cause::NoMemory
    }
}
