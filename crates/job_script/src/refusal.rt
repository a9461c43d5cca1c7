//! Why a line of a script is not taken.

ghost use Rattle.std.specs.Prelude.{◌≡◌};
ghost use Rattle.job_script.specs.declared.refusal.LineError.TheVariants as refusals;

use crate::fault::FaultName;
use std::alloc::{AllocError, AllocFailed};

/// Why a line is not taken: it has a fault of this name, or memory ran out.
#[derive(Clone, Copy)]
pub enum LineError {
    Fault(FaultName),
    NoMemory,
}

impl From<FaultName> for LineError {
    ghost from_gives = { λ fault e. e ≡ refusals.Fault fault };

    fn from(fault: FaultName) -> Self {
        LineError::Fault(fault)
    }
}

impl From<AllocError> for LineError {
    ghost from_gives = { λ _ e. e ≡ refusals.NoMemory };

    fn from(_error: AllocError) -> Self {
        LineError::NoMemory
    }
}

impl<T: Drop> From<AllocFailed<T>> for LineError {
    ghost from_gives = { λ _ e. e ≡ refusals.NoMemory };

    fn from(_error: AllocFailed<T>) -> Self {
        LineError::NoMemory
    }
}
