//! Tasks and units over small rows, by hand and by workers.

ghost use Rattle.std.specs.Prelude.{◌≡◌};

use crate::fixtures::{disks, issue};
use ckd_disk::Disk;
use device_port::Device;
use excp_system::{IscTaker, OpenGate, Opened, Rows, Site, Stop, System, Task, serve_isc};
use io_images::Code;
use request_piece::{Name, Posted};
use std::alloc::AllocError;
use std::marker::Brand;
use std::process::Abort;
use std::sync::Wait;
use std::test::Fail;
use std::thread;
use unit_book::UnitBook;

mod notices;
mod side_by_side;
mod task_purges;
mod turns;

/// How often a thread looks before it gives up.
const LOOKS: u32 = 1_000_000;

/// The next posted value of the task, if it comes within a number of looks.
fn awaited<S: Site, R: Wait>(rt: &R, task: &mut Task<'_, S>) -> Option<Posted>
    ensures { task.new.number ≡ task.old.number }
{
    for _ in 0..LOOKS {
        if let Some(value) = task.take_post(rt) {
            return Some(value);
        }
        thread::yield_now();
    }
    None
}

/// Serves all notices.
fn serve_handlers<'r, S: Opened<D>, D: Device, R: Wait>(
    rt: &R,
    system: &System<'r, S, D>,
    mut handlers: Vec<IscTaker<'r, S>>,
    stop: &Stop,
) {
    serve_isc(rt, system, handlers.as_mut_slice(), &OpenGate, stop);
}
