//! What ends a run: the faults of a script, with their names, texts and exit statuses.

ghost use Rattle.std.specs.Prelude.{◌≡◌};
ghost use Rattle.job_script.specs.Statuses.{exit_status};
ghost use Rattle.job_script.specs.declared.fault.JobError.TheVariants as faults;

use std::alloc::{AllocError, AllocFailed};
use std::fmt;
use thiserror::Error;

/// The name of a fault of a script's line.
#[derive(Clone, Copy, PartialEq, Eq, Debug)]
pub enum FaultName {
    /// The first word is unknown, the number of words wrong, or a byte no printable ASCII character.
    Words,
    /// A word is not of its form, or a number outside its range.
    Number,
    /// A set-up line comes after a command, a line comes twice, or a number is out of sequence.
    Order,
    /// A task, unit, area or DCB is not declared.
    Name,
    /// A record for a unit that is no disk, or a block or a mark for one that is no tape.
    Kind,
    /// An area is misaligned, too long or past the top of storage.
    Area,
    /// A unit's geometry, medium or fault script is none that can be mounted.
    Medium,
    /// A DCB's extents are none that can be opened, or there are too many DCBs.
    Extent,
    /// A request cannot be made of an area, or what is to be shown does not lie in it.
    Request,
}

impl fmt::Display for FaultName {
    fn fmt<W: fmt::Write>(&self, f: &mut fmt::Formatter<W>) -> fmt::Result {
        let name = match self {
            FaultName::Words => "Words",
            FaultName::Number => "Number",
            FaultName::Order => "Order",
            FaultName::Name => "Name",
            FaultName::Kind => "Kind",
            FaultName::Area => "Area",
            FaultName::Medium => "Medium",
            FaultName::Extent => "Extent",
            FaultName::Request => "Request",
        };
        f.write_str(name)
    }
}

/// Why a run of a script ended before its end.
#[derive(Clone, Copy, PartialEq, Eq, Debug, Error)]
pub enum JobError {
    #[error("line {line}: {name}")]
    Line { line: usize, name: FaultName },
    #[error("script too long")]
    TooLong,
    #[error("script unreadable")]
    Unreadable,
    #[error("output not written")]
    NotWritten,
    /// The posts are not those of the requests. No run returns this.
    #[error("posts do not match requests")]
    Unmatched,
    #[error("out of memory")]
    NoMemory,
    /// No thread can be made for a worker (profile).
    #[error("no thread can be made for a worker, or out of memory")]
    NoThread,
}

impl JobError {
    /// The exit status of the program: 3 if memory or a thread is lacking, else 1.
    pub fn status(self) -> u8
        ensures { result ≡ exit_status self }
    {
        match self {
            JobError::NoMemory | JobError::NoThread => 3,
            _ => 1,
        }
    }
}

impl From<AllocError> for JobError {
    ghost from_gives = { λ _ e. e ≡ faults.NoMemory };

    fn from(_error: AllocError) -> Self {
        JobError::NoMemory
    }
}

impl<T: Drop> From<AllocFailed<T>> for JobError {
    ghost from_gives = { λ _ e. e ≡ faults.NoMemory };

    fn from(_error: AllocFailed<T>) -> Self {
        JobError::NoMemory
    }
}
