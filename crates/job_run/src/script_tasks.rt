//! The tasks of a script.

ghost use Rattle.std.specs.Prelude.{◌≡◌, All, vec_len};
ghost use Rattle.job_mount.specs.Requests.{CanBeDone};
ghost use Rattle.job_run.specs.Filling.{RunsScript};

use crate::job::Job;
use crate::notes::Notes;
use crate::task_end::TaskEnd;
use crate::task_error::TaskError;
use any_device::AnyDevice;
use excp_system::{Opened, System};
use job_script::Script;
use std::alloc::Global;
use std::marker::PhantomData;
use std::sync::Wait;
use system_threads::{Alarm, Client, TaskProgram};

/// Each task does its commands of the script, up to its first fault, and waits until all its requests were posted. Its outcome is
/// its slots and its notes of the type `N`, or why it failed. If a worker runs out of memory, that error is reported first, before
/// the fault of a line.
#[derive(Drop)]
pub struct ScriptTasks<'a, N> {
    script: &'a Script,
    notes: PhantomData<N>,
    ghost requests_can_be_made: { All CanBeDone script.now.commands.items },
}

impl<'a, N: Notes> ScriptTasks<'a, N> {
    /// The tasks of a script whose requests can be made.
    pub fn new(script: &'a Script) -> ScriptTasks<'a, N>
        requires { All CanBeDone script.now.commands.items }
        ensures { result.script.now ≡ script.now }
    {
        ScriptTasks {
            script,
            notes: PhantomData,
        }
    }
}

impl<'a, N: Notes + Send + Sync> TaskProgram<AnyDevice> for ScriptTasks<'a, N> {
    type Outcome = Result<TaskEnd<N>, TaskError>;

    ghost units = { λ tasks. vec_len tasks.script.now.set_up.units };

    ghost runs = { λ tasks old new outcome. RunsScript tasks.script.now old new outcome };

    fn run<S: Opened<AnyDevice>, R: Wait>(
        &self,
        rt: &R,
        alloc: Global,
        system: &System<'_, S, AnyDevice>,
        alarm: &Alarm,
        client: &mut Client<'_, S>,
    ) -> Result<TaskEnd<N>, TaskError> {
        Job::new(self.script, system, alarm).task(rt, alloc, client)
    }
}
