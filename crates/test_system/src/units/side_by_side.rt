//! Two units that are served at the same time. The run of one is held up inside its lock until it has accepted a
//! request and the other has had one collected. The end of the run gives the rest.

ghost use Rattle.std.specs.Prelude.{◌≡◌, IfOk};
ghost use Rattle.excp_system.specs.Drained.{ArePlaced};
ghost use Rattle.excp_system.specs.Opening.{AreBooks, AreFresh, site_of};
ghost use Rattle.post_ledger.specs.Report.{IsFor};

use super::*;
use crate::endings::listed;
use crate::fixtures::is_undisturbed;
use excp_system::{Gate, IscTaker, Point, Stop, serve_channel};
use post_ledger::{Report, finish};
use std::alloc::Global;
use std::sync::atomic::{AtomicBool, Ordering};
use std::thread::{Scope, Threads};

/// Holds up the runs of unit 0 until a call lets them go, and stops the workers.
#[derive(Drop)]
struct Barrier {
    reached: AtomicBool,
    let_go: AtomicBool,
    gave_up: AtomicBool,
    stop: Stop,
}

impl Barrier {
    fn new() -> Barrier {
        Barrier {
            reached: AtomicBool::new(false),
            let_go: AtomicBool::new(false),
            gave_up: AtomicBool::new(false),
            stop: Stop::new(),
        }
    }

    /// Lets a run go, and ends the workers.
    fn lift(&self) {
        self.let_go.store(true, Ordering::SeqCst);
        self.stop.raise();
    }
}

impl Gate for Barrier {
    fn pass(&self, unit: u16, point: Point) {
        if unit != 0 || point != Point::Run {
            return;
        }
        self.reached.store(true, Ordering::SeqCst);
        if !is_set(&self.let_go) {
            self.gave_up.store(true, Ordering::SeqCst);
        }
    }
}

/// Whether a flag is set within a number of looks.
fn is_set(flag: &AtomicBool) -> bool {
    for _ in 0..LOOKS {
        if flag.load(Ordering::SeqCst) {
            return true;
        }
        thread::yield_now();
    }
    false
}

/// The unit of a posted value that the task collected, and how it ended.
type Collected = Option<(u16, Code)>;

/// The state of a run before its end: its tasks, and what the first of them collected.
type Served<'r, S> = (Vec<Task<'r, S>>, [Collected; 2]);

/// The next posted value of the task.
fn collected<S: Site, R: Wait>(rt: &R, task: &mut Task<'_, S>) -> Collected
    ensures { task.new.number ≡ task.old.number }
{
    let value = awaited(rt, task)?;
    Some((value.unit(), value.code()))
}

/// What the task does: with unit 0 held up it issues two requests to it and one to unit 1, and collects of unit 1.
/// Then it lets unit 0 go, and collects the first post of it. It does nothing unless unit 0 is locked while its gate is
/// passed.
fn exchange<S: Opened<Disk>, R: Wait>(
    rt: &R,
    alloc: Global,
    system: &System<'_, S, Disk>,
    task: &mut Task<'_, S>,
    barrier: &Barrier,
) -> Result<[Collected; 2], AllocError>
    requires { S.rows.units ≡ 2 }
    ensures { task.new.number ≡ task.old.number }
{
    if !is_set(&barrier.reached) || system.lock_of(0).try_lock().is_some() {
        return Ok([None, None]);
    }
    issue(rt, alloc, task, 0)?;
    issue(rt, alloc, task, 0)?;
    issue(rt, alloc, task, 1)?;
    let first = collected(rt, task);
    barrier.let_go.store(true, Ordering::SeqCst);
    let second = collected(rt, task);
    Ok([first, second])
}

/// Starts a channel worker for each unit, and a handler, each on a thread of its own.
fn start<'s, 'r, S: Opened<Disk> + Send + Sync, R: Threads + Wait + Sync, E>(
    rt: &'s R,
    scope: &Scope<'s, E>,
    system: &'s System<'r, S, Disk>,
    handlers: Vec<IscTaker<'r, S>>,
    barrier: &'s Barrier,
) -> Result<(), AllocError>
    requires { S.rows.units ≡ 2 }
{
    scope.spawn(
        move || -> ()
            requires { S.rows.units ≡ 2 }
        { serve_channel(rt, system, &[0], barrier, &barrier.stop) },
    )?;
    scope.spawn(
        move || -> ()
            requires { S.rows.units ≡ 2 }
        { serve_channel(rt, system, &[1], barrier, &barrier.stop) },
    )?;
    scope.spawn(move || serve_handlers(rt, system, handlers, &barrier.stop))?;
    Ok(())
}

/// Starts the workers and runs the task beside them. Where a worker cannot be started the task does not run.
fn serve<'s, 'r, S: Opened<Disk> + Send + Sync, R: Threads + Wait + Sync, E>(
    rt: &'s R,
    alloc: Global,
    scope: &Scope<'s, E>,
    system: &'s System<'r, S, Disk>,
    handlers: Vec<IscTaker<'r, S>>,
    mut tasks: Vec<Task<'r, S>>,
    barrier: &'s Barrier,
) -> Result<Served<'r, S>, AllocError>
    requires tasks { ArePlaced (λ task. task.number) S.rows.tasks tasks.items }
    requires one { S.rows.tasks ≡ 1 }
    requires two { S.rows.units ≡ 2 }
    ensures { IfOk result (λ served. ArePlaced (λ task. task.number) S.rows.tasks served.0.items) }
{
    start(rt, scope, system, handlers, barrier)?;
    let task = &mut tasks[0];
    let got = exchange(rt, alloc, system, task, barrier)?;
    Ok((tasks, got))
}

/// Runs the task beside the workers, and stops and joins these.
fn served<'r, S: Opened<Disk> + Send + Sync, R: Threads + Wait + Sync>(
    rt: &R,
    alloc: Global,
    system: &System<'r, S, Disk>,
    handlers: Vec<IscTaker<'r, S>>,
    tasks: Vec<Task<'r, S>>,
    barrier: &Barrier,
) -> Result<Served<'r, S>, AllocError>
    requires tasks { ArePlaced (λ task. task.number) S.rows.tasks tasks.items }
    requires one { S.rows.tasks ≡ 1 }
    requires two { S.rows.units ≡ 2 }
    ensures { IfOk result (λ served. ArePlaced (λ task. task.number) S.rows.tasks served.0.items) }
{
    thread::scope(
        thread::scope_env(),
        rt,
        move |scope| -> Result<Served<'_, S>, AllocError>
            requires tasks { ArePlaced (λ task. task.number) S.rows.tasks tasks.items }
            requires one { S.rows.tasks ≡ 1 }
            requires two { S.rows.units ≡ 2 }
            ensures { IfOk result (λ served. ArePlaced (λ task. task.number) S.rows.tasks served.0.items) }
        {
            let result = serve(rt, alloc, scope, system, handlers, tasks, barrier);
            barrier.lift();
            result
        },
    )
}

/// Asserts that unit 0 was held up, and that the task collected of unit 1 first.
fn expect_collected(rt: &impl Abort, barrier: &Barrier, got: [Collected; 2]) {
    assert!(rt; got == [Some((1, Code::Ended)), Some((0, Code::Ended))]);
    assert!(rt;
        !barrier.gave_up.load(Ordering::SeqCst),
        "it was held up to the end"
    );
}

/// The report of the run.
fn ended<S: Opened<Disk> + Send + Sync, R: Threads + Wait + Sync + Abort + AllocGlobal>(
    rt: &R,
    rows: &mut Rows,
    books: Vec<UnitBook<Disk>>,
) -> Result<Report<Disk>, AllocError>
    requires site { S.rows ≡ site_of rows.old }
    requires fresh { AreFresh rows.old }
    requires books { AreBooks S.rows.units books.items }
    requires opened { S.opened ≡ books.items }
    requires one { S.rows.tasks ≡ 1 }
    requires two { S.rows.units ≡ 2 }
    ensures { IfOk result (λ report. IsFor 2 1 report) }
{
    let (system, tasks, handlers) = System::<S, Disk>::new(rt.alloc(), rows, books)?;
    let barrier = Barrier::new();
    let (tasks, got) = served(rt, rt.alloc(), &system, handlers, tasks, &barrier)?;
    expect_collected(rt, &barrier, got);
    match finish(rt, rt.alloc(), system, tasks) {
        Ok(report) => Ok(report),
        Err(_) => Err(AllocError),
    }
}

/// Asserts that the report lists the second post of unit 0, and that nobody purged, closed or reset a unit.
fn expect_report<R: Abort + AllocGlobal>(rt: &R, report: &Report<Disk>) -> Result<(), Fail>
    requires { IsFor 2 1 report.now }
{
    let first = listed(rt.alloc(), report, 0)?;
    let second = listed(rt.alloc(), report, 1)?;
    assert!(rt; first.as_slice() == [(2, Code::Ended, 0xC1)].as_slice() && second.is_empty());
    for book in report.units() {
        assert!(rt; is_undisturbed(book.trace()));
    }
    Ok(())
}

/// The end of the run gives the post that the task has not collected. The test fails for a serve that does nothing,
/// for an act that adds nothing, for one lock round all units, and for a gate that is passed outside of the lock.
#[test]
fn units_run_side_by_side(rt: HostRuntime) -> Result<(), Fail> {
    let mut rows = Rows::new(rt.alloc(), 1, 2, 2, 2)?;
    let books = disks(rt.alloc(), 2)?;
    let report = ended::<Brand, _>(&rt, &mut rows, books)?;
    expect_report(&rt, &report)
}
