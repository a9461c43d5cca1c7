//! A program that a purge halts, and the handler that gets the notice of it.

ghost use Rattle.std.specs.Prelude.{◌≡◌, true};
ghost use Rattle.excp_system.specs.Opening.{AreBooks, AreFresh, site_of};

use super::*;
use excp_system::{IscTaker, Stop};
use io_images::{Address, Csw, SubStatus, UnitStatus};
use std::thread::Threads;
use unit_book::{Mode, Purging};

/// The task issues a request to unit 0, which starts it, and halts it before its first command.
fn halt_first<S: Opened<Disk>, R: Wait + Abort + AllocGlobal>(
    rt: &R,
    system: &System<'_, S, Disk>,
    task: &mut Task<'_, S>,
) -> Result<(), Fail>
    requires two { S.rows.units ≡ 2 }
    requires own { S.own_calls ≡ true }
{
    let name = issue(rt, rt.alloc(), task, 0)?;
    let mut unit = system.lock_of(0).lock(rt);
    unit.take(rt)?;
    unit.start()?;
    let halted = unit.purge(rt, 1, Mode::Halt).map_err(|_| AllocError)?;
    assert!(rt; halted == Purging::Active(name));
    Ok(())
}

/// The halted request comes back when the handlers alone are served, with channel end and device end before its first CCW.
fn expect_halted<'r, S: Opened<Disk> + Send + Sync, R: Threads + Wait + Sync + Abort>(
    rt: &R,
    system: &System<'r, S, Disk>,
    handlers: Vec<IscTaker<'r, S>>,
    task: &mut Task<'r, S>,
) -> Result<(), Fail> {
    let posted = halted(rt, system, handlers, task)?.ok_or("no posted value")?;
    let csw = Csw {
        address: Address::new(0x1030),
        unit: UnitStatus::new(0x0C),
        sub: SubStatus::new(0),
        residual: 0,
    };
    assert!(rt; posted.name() == Name { task: 0, seq: 1 } && posted.code() == Code::Purged);
    assert!(rt; posted.csw() == csw && posted.sense() == 0);
    Ok(())
}

/// Halts a request, and serves the handlers.
fn steps<S: Opened<Disk> + Send + Sync, R: Threads + Wait + Sync + Abort + AllocGlobal>(
    rt: &R,
    rows: &mut Rows,
    books: Vec<UnitBook<Disk>>,
) -> Result<(), Fail>
    requires site { S.rows ≡ site_of rows.old }
    requires fresh { AreFresh rows.old }
    requires books { AreBooks S.rows.units books.items }
    requires opened { S.opened ≡ books.items }
    requires two { S.rows.units ≡ 2 }
    requires own { S.own_calls ≡ true }
{
    let (system, mut tasks, handlers) = System::<S, Disk>::new(rt.alloc(), rows, books)?;
    let task = tasks.first_mut().ok_or("no task")?;
    halt_first(rt, &system, task)?;
    expect_halted(rt, &system, handlers, task)
}

/// Serves the handlers in a thread of their own until the task has collected.
fn halted<'r, S: Opened<Disk> + Send + Sync, R: Threads + Wait + Sync>(
    rt: &R,
    system: &System<'r, S, Disk>,
    handlers: Vec<IscTaker<'r, S>>,
    task: &mut Task<'r, S>,
) -> Result<Option<Posted>, AllocError> {
    let stop = Stop::new();
    let stop = &stop;
    thread::scope(
        thread::scope_env(),
        rt,
        move |scope| -> Result<Option<Posted>, AllocError> {
            scope.spawn(move || serve_handlers(rt, system, handlers, stop))?;
            let posted = awaited(rt, task);
            stop.raise();
            Ok(posted)
        },
    )
}

/// It rejects a halt that sends no notice.
#[test]
fn halt_sends_notice(rt: HostRuntime) -> Result<(), Fail> {
    let mut rows = Rows::new(rt.alloc(), 1, 2, 1, 1)?;
    let books = disks(rt.alloc(), 1)?;
    steps::<Brand, _>(&rt, &mut rows, books)
}
