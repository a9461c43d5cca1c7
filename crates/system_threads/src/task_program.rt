//! What the tasks of a run do.

ghost use Rattle.std.specs.Prelude.{◌≡◌, ℕ};

use crate::alarm::Alarm;
use crate::client::Client;
use device_port::Device;
use excp_system::{Opened, System};
use std::alloc::Global;
use std::sync::Wait;

/// What the tasks of a run do. Each of them calls `run` with its client, on a thread of its own. If no thread can be
/// made, it runs after another task, so a task must not wait for what another task does.
///
/// A task collects its posts until it awaits none, or its post row has room for all of them. Else that row fills once
/// the task stops collecting, or ends. A unit sends its posts in order, so its next post to the full row holds back all
/// later ones, and other tasks wait for theirs for ever.
pub trait TaskProgram<D: Device>: Sync {
    /// The outcome of a task when it has ended.
    type Outcome: Send + Drop;

    ghost use Rattle.excp_system.specs.States.{TaskState};

    // the number of units that it is written for
    ghost units: { Self → ℕ };

    // what a task does: what it has sent, asked and collected before and after its run, and its outcome
    ghost runs: { Self → TaskState → TaskState → Self.Outcome → Type 0 };

    /// Runs a task to its end. By the client it issues requests and collects their posts. It purges, closes and resets by
    /// [`Client::control`], of a unit whose lock it has from the system. If it delivers a post under that lock, or finds a
    /// post row full, it has to report this to the alarm, or the post's task sleeps on. The number of the client says which
    /// task it is.
    fn run<S: Opened<D>, R: Wait>(
        &self,
        rt: &R,
        alloc: Global,
        system: &System<'_, S, D>,
        alarm: &Alarm,
        client: &mut Client<'_, S>,
    ) -> Self::Outcome
        requires { S.rows.units ≡ units self.now }
        ensures number { client.new.number ≡ client.old.number }
        ensures runs { runs self.now client.old client.new result };
}
