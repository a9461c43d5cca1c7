//! Tasks that do their commands of a script. Then they do not wait for their posts, or sleep for several at a time.

ghost use Rattle.std.specs.Prelude.{◌≡◌, ℕ, ⊤, All, vec_len};
ghost use Rattle.job_mount.specs.Requests.{CanBeDone};

use any_device::AnyDevice;
use excp_system::{Opened, System};
use job_run::{Job, TaskEnd, TaskError};
use job_script::Script;
use post_lines::Slots;
use std::alloc::{AllocError, Global};
use std::sync::Wait;
use system_threads::{Alarm, Client, TaskProgram};

/// Each task leaves the posts that it collected.
#[derive(Drop)]
pub struct LatePosts<'a> {
    script: &'a Script,
    /// How many posts a task sleeps for at its end, or 0 if it does not wait.
    posts: u16,
    ghost requests_can_be_made: { All CanBeDone script.now.commands.items },
}

impl<'a> LatePosts<'a> {
    pub fn new(script: &'a Script, posts: u16) -> LatePosts<'a>
        requires { All CanBeDone script.now.commands.items }
        ensures { result.script.now ≡ script.now }
    {
        LatePosts { script, posts }
    }

    /// Collects all that a task awaits, if it is to wait.
    fn collect<S: Opened<AnyDevice>, R: Wait>(
        &self,
        rt: &R,
        alarm: &Alarm,
        client: &mut Client<'_, S>,
        slots: &mut Slots,
    ) -> Result<(), AllocError>
        ensures number { client.new.number ≡ client.old.number }
    {
        if self.posts == 0 {
            return Ok(());
        }
        for _ in rt.forever() {
            let Some(posted) = client.next_of(rt, alarm, self.posts)? else {
                break;
            };
            slots.fill(posted.unit(), &posted);
        }
        Ok(())
    }
}

impl<'a> TaskProgram<AnyDevice> for LatePosts<'a> {
    type Outcome = Result<TaskEnd<()>, TaskError>;

    ghost units = { λ tasks. vec_len tasks.script.now.set_up.units };

    ghost runs = { λ tasks old new outcome. ⊤ };

    fn run<S: Opened<AnyDevice>, R: Wait>(
        &self,
        rt: &R,
        alloc: Global,
        system: &System<'_, S, AnyDevice>,
        alarm: &Alarm,
        client: &mut Client<'_, S>,
    ) -> Result<TaskEnd<()>, TaskError> {
        let mut end = TaskEnd::new(alloc, self.script, client.number())?;
        Job::new(self.script, system, alarm).commands(
            rt,
            alloc,
            client,
            &mut end.slots,
            &mut end.notes,
        )?;
        self.collect(rt, alarm, client, &mut end.slots)?;
        Ok(end)
    }
}
