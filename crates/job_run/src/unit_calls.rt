//! What a task does to units under their locks: purges, closes and resets. The number of each entry is read under the same lock.

ghost use Rattle.std.specs.Prelude.{◌≡◌, ◌<◌, OnErr, OnOk, length, true};
ghost use Rattle.excp_system.specs.Controls.{asks};
ghost use Rattle.job_run.specs.Sending.{AsksSome, asks_each};

use crate::notes::Notes;
use any_device::AnyDevice;
use excp_system::{Opened, System};
use request_piece::Scope;
use std::alloc::AllocError;
use std::sync::Wait;
use system_threads::Client;
use unit_book::{Control, DcbError, Mode};

/// Asks a control of a unit, and of no other. It counts as done if it makes no entry: a close or purge of an unknown DCB, and
/// a reset of one that is not open.
///
/// Error: out of memory, which asks nothing. It also returns this if the state under the unit's lock is of another unit.
/// No lock has such a state, but no contract says so, and a control of another unit must not count as done.
pub(crate) fn control<S: Opened<AnyDevice>, R: Wait, N: Notes>(
    rt: &R,
    system: &System<'_, S, AnyDevice>,
    client: &mut Client<'_, S>,
    unit: u16,
    control: Control,
    notes: &mut N,
) -> Result<(), AllocError>
    requires { unit < S.rows.units }
    ensures others { client.new ≡ record client.old { asked = client.new.asked } }
    ensures count { length client.new.asked ≡ length client.old.asked }
    ensures asked { OnOk result (client.new.asked ≡ asks true unit control client.old.asked) }
    ensures unasked { OnErr result (client.new.asked ≡ client.old.asked) }
{
    let mut state = system.lock_of(unit).lock(rt);
    if state.unit() != unit {
        return Err(AllocError);
    }
    let before = state.book().trace().len();
    let answer = client.control(rt, &mut state, control);
    if let Some(entry) = N::last_control(state.book().trace(), before) {
        notes.controlled(unit, entry);
    }
    match answer {
        Ok(_) | Err(DcbError::NoSuchDcb) => Ok(()),
        Err(DcbError::NoMemory) => Err(AllocError),
    }
}

/// Purges the requests of a task at each of these units, in order, each under its lock. It goes on after a unit where memory runs
/// out, and then returns that error. Without an error, the purge was asked of every unit; with one, of some.
pub(crate) fn purge_task<S: Opened<AnyDevice>, R: Wait, N: Notes>(
    rt: &R,
    system: &System<'_, S, AnyDevice>,
    client: &mut Client<'_, S>,
    units: usize,
    task: u16,
    mode: Mode,
    notes: &mut N,
) -> Result<(), AllocError>
    requires { units ≡ S.rows.units }
    ensures others { client.new ≡ record client.old { asked = client.new.asked } }
    ensures asked { OnOk result (client.new.asked ≡ asks_each (Control.Purge (Scope.Task task) mode) client.old.asked) }
    ensures unasked { OnErr result (AsksSome (Control.Purge (Scope.Task task) mode) client.old.asked client.new.asked) }
{
    client.holds();
    let mut purged = Ok(());
    for unit in 0..units as u16 {
        let purge = Control::Purge(Scope::Task(task), mode);
        let here = control(rt, system, client, unit, purge, notes);
        purged = purged.and(here);
    }
    purged
}
