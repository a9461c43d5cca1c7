//! How many commands a turn of a channel worker runs.

ghost use Rattle.std.specs.Prelude.{◌≡◌, ◌<◌};
ghost use Rattle.excp_system.specs.Opening.{AreBooks, AreFresh, site_of};

use super::*;
use crate::fixtures::{READ_RECORD, issue_over};
use excp_system::{Gate, Point, Stop, serve_channel};
use std::alloc::Global;
use unit_book::Entry;

/// Stops a worker after one turn on a unit.
#[derive(Drop)]
struct OneTurn {
    stop: Stop,
}

impl Gate for OneTurn {
    /// A turn ends with a delivery.
    fn pass(&self, _unit: u16, point: Point) {
        if point == Point::Deliver {
            self.stop.raise();
        }
    }
}

/// A request like that which reads a record, but its program is a no-operation in a loop, which runs to the fetch limit.
fn endless() -> [u8; 104] {
    let mut image = READ_RECORD;
    image[48] = 0x03;
    image[52] = 0x60;
    image
}

/// How many commands the newest entry of unit 0 says were run.
fn commands_run<S: Opened<Disk>, R: Wait>(rt: &R, system: &System<'_, S, Disk>) -> Option<u32>
    requires { 0 < S.rows.units }
{
    let state = system.lock_of(0).lock(rt);
    match state.book().trace().last() {
        Some(Entry::Ran(_, count)) => Some(*count),
        _ => None,
    }
}

/// How many commands of a program without end a turn of a channel worker runs.
fn turn_of<'r, S: Opened<Disk>, R: Wait>(
    rt: &R,
    alloc: Global,
    system: &System<'r, S, Disk>,
    tasks: &mut [Task<'r, S>],
) -> Result<Option<u32>, AllocError>
    requires { 0 < S.rows.units }
{
    let task = tasks.first_mut().ok_or(AllocError)?;
    issue_over(rt, alloc, task, 0, &endless())?;
    let gate = OneTurn { stop: Stop::new() };
    serve_channel(rt, system, &[0], &gate, &gate.stop);
    Ok(commands_run(rt, system))
}

/// The turn on a system over these rows and books.
fn turn<S: Opened<Disk>, R: Wait>(
    rt: &R,
    alloc: Global,
    rows: &mut Rows,
    books: Vec<UnitBook<Disk>>,
) -> Result<Option<u32>, AllocError>
    requires site { S.rows ≡ site_of rows.old }
    requires fresh { AreFresh rows.old }
    requires books { AreBooks S.rows.units books.items }
    requires opened { S.opened ≡ books.items }
    requires two { S.rows.units ≡ 2 }
{
    let (system, mut tasks, _) = System::<S, Disk>::new(alloc, rows, books)?;
    turn_of(rt, alloc, &system, tasks.as_mut_slice())
}

#[test]
fn turns_have_a_number_of_commands(rt: HostRuntime) -> Result<(), Fail> {
    let mut rows = Rows::new(rt.alloc(), 1, 2, 1, 1)?;
    let books = disks(rt.alloc(), 1)?;
    let turn = turn::<Brand, _>(&rt, rt.alloc(), &mut rows, books)?;
    assert!(rt; turn == Some(16));
    Ok(())
}
