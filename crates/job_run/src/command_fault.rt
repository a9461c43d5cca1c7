//! Why a command of a task is not done.

ghost use Rattle.std.specs.Prelude.{◌≡◌};
ghost use Rattle.job_run.specs.Faults.{fault_at};
ghost use Rattle.job_run.specs.declared.command_fault.CommandFault.TheVariants as command_faults;

use crate::task_error::TaskError;
use job_script::FaultName;
use std::alloc::AllocError;

/// Why a command of a task is not done.
#[derive(Clone, Copy)]
pub(crate) enum CommandFault {
    /// The task has used the last number of a request to the unit.
    NoNumber,
    NoMemory,
}

impl CommandFault {
    /// What ends the task, by the line of the command.
    pub fn at(self, line: usize) -> TaskError
        ensures { result ≡ fault_at self line }
    {
        let name = match self {
            CommandFault::NoNumber => FaultName::Request,
            CommandFault::NoMemory => return TaskError::NoMemory,
        };
        TaskError::Line { line, name }
    }
}

impl From<AllocError> for CommandFault {
    ghost from_gives = { λ _ e. e ≡ command_faults.NoMemory };

    fn from(_error: AllocError) -> Self {
        CommandFault::NoMemory
    }
}
