//! A run: the tasks of a system, each on a thread of its own, beside its workers.

ghost use Rattle.std.specs.Prelude.{◌≡◌, ◌<◌, All, IfErr, IfOk, false, is_some, length, map, true};
ghost use Rattle.excp_system.specs.Begun.{AreBegun};
ghost use Rattle.excp_system.specs.Drained.{ArePlaced};
ghost use Rattle.excp_system.specs.Opening.{AreBooks, AreFresh, AreTasks, site_of};
ghost use Rattle.post_ledger.specs.Parting.{Paired};
ghost use Rattle.post_ledger.specs.Report.{AreIdle, AreLegal, AreOfTasks, Controls, IsFor, PostedOnce, Received, Returned};
ghost use Rattle.system_threads.specs.Running.{Accounts, AreRun, HasRun};

use crate::alarm::Alarm;
use crate::crew::{Crew, Workers, start};
use crate::run_error::RunError;
use crate::runner::{NoThread, PartsRoom, Runner, parted, runners};
use crate::task_program::TaskProgram;
use device_port::Device;
use excp_system::{Gate, IscTaker, Opened, Rows, Site, Stop, System, Task};
use post_ledger::{Report, finish};
use std::alloc::{AllocError, Global};
use std::marker::Brand;
use std::sync::Wait;
use std::thread;
use std::thread::Threads;
use unit_book::UnitBook;

/// The most tasks of a system, each of which has a thread of its own (profile).
const MOST_TASKS: usize = 64;

/// Runs the tasks of a system of these rows and books by a program, beside these workers, and brings the run to its
/// end. Returns the report of the run, which holds all posts that the tasks have not collected. Also returns the outcome
/// of each task, in order. The report accounts for what these tasks did. The purges, closes and
/// resets of each unit are those that the tasks asked of it, but for those that made no entry. Each of its books continues
/// the one that was handed in for its unit, on the same device as it was mounted.
///
/// A worker that runs out of memory tries the call again at its next turn, and nothing is lost. If the same call on a
/// unit runs out of memory in [`LASTING_TURNS`](crate::LASTING_TURNS) turns in a row, the tasks are woken, and their
/// [`Client::next_post`](crate::Client::next_post) returns an error.
///
/// Errors, which drop the run:
///
/// - Memory runs out for its parts, before the tasks run.
/// - No thread can be made for a worker.
/// - Its end runs out of memory twice, or finds a unit's state under the lock of another. It is tried once more from
///   where it stopped.
///
/// A caller that keeps what is left of the end makes the run of its parts, and calls [`finish`].
pub fn run_program<D: Device + Send + Sync, P: TaskProgram<D>, R: Threads + Wait + Sync>(
    rt: &R,
    alloc: Global,
    mut rows: Rows,
    books: Vec<UnitBook<D>>,
    workers: Workers,
    program: &P,
) -> Result<(Report<D>, Vec<P::Outcome>), RunError>
    requires fresh { AreFresh rows }
    requires books { AreBooks rows.units books.items }
    requires units { rows.units ≡ P.units program.now }
    ensures report { IfOk result (λ done. IsFor rows.units rows.tasks done.0) }
    ensures began { IfOk result (λ done. AreBegun books.items done.0.books) }
    ensures legal { IfOk result (λ done. AreLegal D.meaning done.0) }
    ensures idle { IfOk result (λ done. AreIdle done.0) }
    ensures of_tasks { IfOk result (λ done. AreOfTasks rows.tasks done.0) }
    ensures outcomes { IfOk result (λ done. length done.1.items ≡ rows.tasks) }
    ensures accounts { IfOk result (λ done. Accounts D.meaning (P.runs program.now) rows.units rows.tasks books.items done.0 done.1.items) }
{
    run_at::<Brand, D, P, R>(rt, alloc, &mut rows, books, workers, program)
}

/// Runs a program of tasks on the system of a site, as `run_program` does.
fn run_at<
    S: Opened<D> + Send + Sync,
    D: Device + Send + Sync,
    P: TaskProgram<D>,
    R: Threads + Wait + Sync,
>(
    rt: &R,
    alloc: Global,
    rows: &mut Rows,
    books: Vec<UnitBook<D>>,
    workers: Workers,
    program: &P,
) -> Result<(Report<D>, Vec<P::Outcome>), RunError>
    requires site { S.rows ≡ site_of rows.old }
    requires fresh { AreFresh rows.old }
    requires books { AreBooks S.rows.units books.items }
    requires opened { S.opened ≡ books.items }
    requires sealed { S.own_calls ≡ false }
    requires units { S.rows.units ≡ P.units program.now }
    ensures report { IfOk result (λ done. IsFor S.rows.units S.rows.tasks done.0) }
    ensures began { IfOk result (λ done. AreBegun S.opened done.0.books) }
    ensures legal { IfOk result (λ done. AreLegal D.meaning done.0) }
    ensures idle { IfOk result (λ done. AreIdle done.0) }
    ensures of_tasks { IfOk result (λ done. AreOfTasks S.rows.tasks done.0) }
    ensures outcomes { IfOk result (λ done. length done.1.items ≡ S.rows.tasks) }
    ensures accounts { IfOk result (λ done. Accounts D.meaning (P.runs program.now) S.rows.units S.rows.tasks S.opened done.0 done.1.items) }
{
    let units = rows.units();
    let used = subclasses_of(books.as_slice());
    let (system, tasks, takers) = System::<S, D>::new(alloc, rows, books)?;
    let crew = crew_of(alloc, units, &used, takers, workers)?;
    let (tasks, outcomes) = run_tasks(rt, alloc, &system, crew, tasks, program)?;
    let report = brought_to_end(rt, alloc, system, tasks)?;
    Ok((report, outcomes))
}

/// The workers of the units, with the takers of these subclasses.
fn crew_of<'r, S: Site>(
    alloc: Global,
    units: u16,
    used: &[bool; 8],
    mut takers: Vec<IscTaker<'r, S>>,
    workers: Workers,
) -> Result<Crew<'r, S>, AllocError>
    requires { units ≡ S.rows.units }
{
    takers.retain(|taker| is_used(used, taker));
    Crew::new(alloc, units, takers, workers)
}

/// Runs the program for all tasks while the workers run. Stops the workers once the tasks have ended. Returns the tasks and their outcomes.
fn run_tasks<
    'r,
    S: Opened<D> + Send + Sync,
    D: Device + Send + Sync,
    P: TaskProgram<D>,
    R: Threads + Wait + Sync,
>(
    rt: &R,
    alloc: Global,
    system: &System<'r, S, D>,
    crew: Crew<'r, S>,
    tasks: Vec<Task<'r, S>>,
    program: &P,
) -> Result<(Vec<Task<'r, S>>, Vec<P::Outcome>), RunError>
    requires units { S.rows.units ≡ P.units program.now }
    requires tasks { AreTasks S.rows.tasks S.rows.units tasks.items }
    ensures placed { IfOk result (λ done. ArePlaced (λ task. task.number) S.rows.tasks done.0.items) }
    ensures outcomes { IfOk result (λ done. length done.1.items ≡ S.rows.tasks) }
    ensures run { IfOk result (λ done. AreRun (P.runs program.now) S.rows.units done.0.items done.1.items) }
{
    let room = PartsRoom::new(alloc, tasks.len())?;
    let runners = runners(alloc, tasks)?;
    let alarm = Alarm::of(alloc, runners.as_slice())?;
    let runners = run_beside(rt, alloc, system, &alarm, &alarm, crew, runners, program)?;
    Ok(parted(runners, room))
}

/// Which interruption subclasses the units of these books have. To the others no notice comes.
fn subclasses_of<D: Device>(books: &[UnitBook<D>]) -> [bool; 8] {
    let mut used = [false; 8];
    for book in books {
        used[usize::from(book.isc())] = true;
    }
    used
}

/// Whether a taker of notices is of one of these subclasses.
fn is_used<S: Site>(used: &[bool; 8], taker: &IscTaker<'_, S>) -> bool {
    used[usize::from(taker.isc())]
}

/// Ends a run whose workers have ended. If that fails, tries once more from where it stopped.
fn brought_to_end<'r, S: Opened<D>, D: Device, R: Wait>(
    rt: &R,
    alloc: Global,
    system: System<'r, S, D>,
    tasks: Vec<Task<'r, S>>,
) -> Result<Report<D>, RunError>
    requires { ArePlaced (λ task. task.number) S.rows.tasks tasks.items }
    ensures complete { IfOk result (λ report. IsFor S.rows.units S.rows.tasks report) }
    ensures began { IfOk result (λ report. AreBegun S.opened report.books) }
    ensures legal { IfOk result (λ report. AreLegal D.meaning report) }
    ensures idle { IfOk result (λ report. AreIdle report) }
    ensures of_tasks { IfOk result (λ report. AreOfTasks S.rows.tasks report) }
    ensures received { IfOk result (λ report. Received report tasks.entry.items) }
    ensures controlled { IfOk result (λ report. Controls S.own_calls S.opened report tasks.entry.items) }
    ensures posted_once { IfOk result (λ report. PostedOnce report tasks.entry.items) }
    ensures returned { IfOk result (λ report. Returned D.meaning report tasks.entry.items) }
{
    let left = match finish(rt, alloc, system, tasks) {
        Ok(report) => return Ok(report),
        Err(left) => left,
    };
    match left.resume(rt) {
        Ok(report) => Ok(report),
        Err(left) => Err(RunError::from(left.cause())),
    }
}

/// Runs all tasks by the program beside the workers, which pass this gate, and stops and joins these. The gate has to
/// hand on each of its calls to the alarm, which counts the turns without memory and wakes the tasks. The alarm has to
/// be [`Alarm::of`] these runners.
///
/// Error: no thread can be made for a worker. Then no task runs, and the runners come back. The crew does not: workers
/// that were started have its takers until they end.
pub fn run_beside<
    'r,
    S: Opened<D> + Send + Sync,
    D: Device + Send + Sync,
    G: Gate + Sync,
    P: TaskProgram<D>,
    R: Threads + Wait + Sync,
>(
    rt: &R,
    alloc: Global,
    system: &System<'r, S, D>,
    alarm: &Alarm,
    gate: &G,
    crew: Crew<'r, S>,
    runners: Vec<Runner<'r, S, P::Outcome>>,
    program: &P,
) -> Result<Vec<Runner<'r, S, P::Outcome>>, NoThread<'r, S, P::Outcome>>
    requires placed { ArePlaced (λ runner. runner.client.number) S.rows.tasks runners.items }
    requires units { S.rows.units ≡ P.units program.now }
    ensures placed { IfOk result (λ after. ArePlaced (λ runner. runner.client.number) S.rows.tasks after.items) }
    ensures ran { IfOk result (λ after. All (λ runner. is_some runner.outcome ≡ true) after.items) }
    ensures runs { IfOk result (λ after. Paired (λ old new. HasRun (P.runs program.now) old.client new.client new.outcome) runners.entry.items after.items) }
    ensures handed_back { IfErr result (λ refused. refused.runners.items ≡ runners.entry.items) }
{
    let Crew { channels, handlers } = crew;
    let channels = channels.as_slice();
    let stop = Stop::new();
    let stop = &stop;
    thread::scope(
        thread::scope_env(),
        rt,
        move |scope| -> Result<Vec<Runner<'_, S, P::Outcome>>, NoThread<'_, S, P::Outcome>>
            requires placed { ArePlaced (λ runner. runner.client.number) S.rows.tasks runners.items }
            requires units { S.rows.units ≡ P.units program.now }
            ensures placed { IfOk result (λ after. ArePlaced (λ runner. runner.client.number) S.rows.tasks after.items) }
            ensures ran { IfOk result (λ after. All (λ runner. is_some runner.outcome ≡ true) after.items) }
            ensures runs { IfOk result (λ after. Paired (λ old new. HasRun (P.runs program.entry.now) old.client new.client new.outcome) runners.entry.items after.items) }
            ensures handed_back { IfErr result (λ refused. refused.runners.items ≡ runners.entry.items) }
        {
            if start(rt, alloc, scope, system, gate, channels, handlers, stop).is_err() {
                stop.raise();
                return Err(NoThread { runners });
            }
            let runners = run_all(rt, alloc, system, alarm, runners, program);
            stop.raise();
            Ok(runners)
        },
    )
}

/// Runs all tasks by the program.
fn run_all<
    'r,
    S: Opened<D> + Send + Sync,
    D: Device + Send + Sync,
    P: TaskProgram<D>,
    R: Threads + Wait + Sync,
>(
    rt: &R,
    alloc: Global,
    system: &System<'_, S, D>,
    alarm: &Alarm,
    mut runners: Vec<Runner<'r, S, P::Outcome>>,
    program: &P,
) -> Vec<Runner<'r, S, P::Outcome>>
    requires placed { ArePlaced (λ runner. runner.client.number) S.rows.tasks runners.items }
    requires units { S.rows.units ≡ P.units program.now }
    ensures placed { ArePlaced (λ runner. runner.client.number) S.rows.tasks result.items }
    ensures ran { All (λ runner. is_some runner.outcome ≡ true) result.items }
    ensures runs { Paired (λ old new. HasRun (P.runs program.now) old.client new.client new.outcome) runners.entry.items result.items }
{
    run_each(
        rt,
        alloc,
        system,
        alarm,
        runners.as_mut_slice(),
        MOST_TASKS,
        program,
    );
    runners
}

/// Runs all tasks by the program in at most `threads` threads.
fn run_each<
    'r,
    S: Opened<D> + Send + Sync,
    D: Device + Send + Sync,
    P: TaskProgram<D>,
    R: Threads + Wait + Sync,
>(
    rt: &R,
    alloc: Global,
    system: &System<'_, S, D>,
    alarm: &Alarm,
    runners: &mut [Runner<'r, S, P::Outcome>],
    threads: usize,
    program: &P,
)
    requires threads { 0 < threads }
    requires placed { ArePlaced (λ runner. runner.client.number) S.rows.tasks runners.old }
    requires units { S.rows.units ≡ P.units program.now }
    ensures placed { ArePlaced (λ runner. runner.client.number) S.rows.tasks runners.new }
    ensures ran { All (λ runner. is_some runner.outcome ≡ true) runners.new }
    ensures runs { Paired (λ old new. HasRun (P.runs program.now) old.client new.client new.outcome) runners.old runners.new }
{
    thread::for_each_mut(
        rt,
        runners,
        threads,
        &|_, runner|
            requires { S.rows.units ≡ P.units program.now }
            ensures number { runner.exit.now.client.number ≡ runner.entry.now.client.number }
            ensures ran { is_some runner.exit.now.outcome ≡ true }
            ensures runs { HasRun (P.runs program.entry.now) runner.entry.now.client runner.exit.now.client runner.exit.now.outcome }
        { run_one(rt, alloc, system, alarm, runner, program) },
    );
}

/// Runs one task by the program.
fn run_one<'r, S: Opened<D>, D: Device, P: TaskProgram<D>, R: Wait>(
    rt: &R,
    alloc: Global,
    system: &System<'_, S, D>,
    alarm: &Alarm,
    runner: &mut Runner<'r, S, P::Outcome>,
    program: &P,
)
    requires { S.rows.units ≡ P.units program.now }
    ensures number { runner.new.client.number ≡ runner.old.client.number }
    ensures ran { is_some runner.new.outcome ≡ true }
    ensures runs { HasRun (P.runs program.now) runner.old.client runner.new.client runner.new.outcome }
{
    let outcome = program.run(rt, alloc, system, alarm, &mut runner.client);
    runner.outcome = Some(outcome);
}
