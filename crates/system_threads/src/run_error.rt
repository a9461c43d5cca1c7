//! Why a run ends without a report.

use crate::runner::NoThread;
use excp_system::Site;
use post_ledger::Cause;
use std::alloc::{AllocError, AllocFailed};
use thiserror::Error;

/// Why [`run_program`](crate::run_program) returns no report.
#[derive(Clone, Copy, PartialEq, Eq, Debug, Error)]
pub enum RunError {
    /// No thread can be made for a worker. The system does not say whether it lacks threads or memory.
    #[error("no thread can be made for a worker, or out of memory")]
    NoThread,
    #[error("out of memory")]
    NoMemory,
    /// The end of the run finds a unit's state under the lock of another unit.
    #[error("a unit's state is under the lock of another")]
    Mixed,
}

impl From<Cause> for RunError {
    fn from(cause: Cause) -> Self {
        match cause {
            Cause::NoMemory => RunError::NoMemory,
            Cause::Mixed => RunError::Mixed,
        }
    }
}

impl<'r, S: Site, O: Drop> From<NoThread<'r, S, O>> for RunError {
    fn from(_: NoThread<'r, S, O>) -> Self {
        RunError::NoThread
    }
}

impl From<AllocError> for RunError {
    fn from(_: AllocError) -> Self {
        RunError::NoMemory
    }
}

impl<T: Drop> From<AllocFailed<T>> for RunError {
    fn from(_: AllocFailed<T>) -> Self {
        RunError::NoMemory
    }
}
