//! Why a task of a script ends before its last command.

ghost use Rattle.std.specs.Prelude.{◌≡◌};
ghost use Rattle.job_run.specs.Faults.{job_error};
ghost use Rattle.job_run.specs.declared.task_error.TaskError.TheVariants as task_errors;

use job_script::{FaultName, JobError};
use std::alloc::{AllocError, AllocFailed};

/// Why a task ends before its last command.
#[derive(Clone, Copy, PartialEq, Eq, Debug)]
pub enum TaskError {
    /// The command of this line failed.
    Line { line: usize, name: FaultName },
    NoMemory,
}

impl From<AllocError> for TaskError {
    ghost from_gives = { λ _ e. e ≡ task_errors.NoMemory };

    fn from(_error: AllocError) -> Self {
        TaskError::NoMemory
    }
}

impl<T: Drop> From<AllocFailed<T>> for TaskError {
    ghost from_gives = { λ _ e. e ≡ task_errors.NoMemory };

    fn from(_error: AllocFailed<T>) -> Self {
        TaskError::NoMemory
    }
}

impl From<TaskError> for JobError {
    ghost from_gives = { λ error e. e ≡ job_error error };

    fn from(error: TaskError) -> Self {
        match error {
            TaskError::Line { line, name } => JobError::Line { line, name },
            TaskError::NoMemory => JobError::NoMemory,
        }
    }
}
