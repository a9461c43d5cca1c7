//! The run of a script: its tasks on threads of their own, beside channel workers and interruption handlers.

ghost use Rattle.std.specs.Prelude.{◌≡◌, ◌≢◌, ◌≤◌, ◌<◌, ◌+◌, All, IfErr, IfOk, Ok, OnOk, length, map, vec_len};
ghost use Rattle.job_mount.specs.Requests.{CanBeDone};
ghost use Rattle.job_script.specs.Reading.{ReadsAtMost};
ghost use Rattle.job_script.specs.Views.{said};
ghost use Rattle.job_run.specs.Beginning.{AreBegunWith};
ghost use Rattle.job_run.specs.Controls.{AreControlledAs};
ghost use Rattle.job_run.specs.Ending.{EndsBeside, EndsBy, EndsParsed, EndsWriting, IsLate, IsOfTask, IsRunOf, PrintsPosts};
ghost use Rattle.job_run.specs.Filling.{AllListed, EndedBy, filled_at, listed_from};
ghost use Rattle.job_run.specs.Printing.{ended_slots, script_text, tasks_text};
ghost use Rattle.job_run.specs.Faults.{LeavesWriter};
ghost use Rattle.job_run.specs.Ran.{IsDone, Ran};
ghost use Rattle.job_run.specs.Serving.{LeavesOneAtATime, WritesOneAtATime};
ghost use Rattle.excp_system.specs.Begun.{AreBegun};
ghost use Rattle.excp_system.specs.Opening.{AreBooks, AreFresh};
ghost use Rattle.post_ledger.specs.Report.{IsFor};
ghost use Rattle.post_ledger.specs.Work.{lists_of};

use crate::notes::Notes;
use crate::output::write;
use crate::rooms::rows_and_books;
use crate::script_tasks::ScriptTasks;
use crate::task_end::TaskEnd;
use crate::task_error::TaskError;
use any_device::AnyDevice;
use excp_system::Rows;
use job_script::{JobError, LIMIT, Script, read_script};
use post_ledger::Report;
use request_piece::Posted;
use std::alloc::Global;
use std::io::{Read, Write};
use std::sync::Wait;
use std::thread::Threads;
use system_threads::{RunError, Workers, run_program};
use unit_book::UnitBook;

/// A run that was brought to its end: what each task left, and the account of its units.
#[derive(Drop)]
pub struct Finished<N> {
    pub tasks: Vec<TaskEnd<N>>,
    pub report: Report<AnyDevice>,
}

/// Reads a script, at most 1,048,576 bytes and one more. Runs its tasks beside these numbers of channel workers and
/// interruption handlers, and writes the posts of its requests (`printed`). The purges, closes and resets of each unit's trace
/// are those of the script's commands, each task's in order, but for those that made no entry.
///
/// If the script asks for no purge, close or reset, threads change nothing but the order in which tasks get to a unit that they
/// share. The text is that of its requests one at a time, and if one task uses each unit, a function of the script (`serial`).
///
/// Errors: the first fault of the script; out of memory, also if no thread can be made for a worker (never `NoThread`); a
/// failed write, after a first part of the text. It writes only after the run, so every other error leaves the writer as it was.
pub fn run_script<R: Threads + Wait + Sync, I: Read, W: Write>(
    rt: &R,
    alloc: Global,
    reader: &mut I,
    writer: &mut W,
    workers: Workers,
) -> Result<(), JobError>
    ensures bounded { ReadsAtMost (LIMIT + 1) (I.remaining reader.old) (I.remaining reader.new) }
    ensures unwritten { IfErr result (λ fault. LeavesWriter fault writer.old writer.new) }
    ensures serial { OnOk result (WritesOneAtATime LIMIT (I.remaining reader.old) (I.remaining reader.new) (W.contents writer.old) (W.contents writer.new)) }
    ensures printed { OnOk result (PrintsPosts LIMIT (I.remaining reader.old) (I.remaining reader.new) (W.contents writer.old) (W.contents writer.new)) }
    ensures fault { IfErr result (EndsWriting LIMIT (I.remaining reader.old) (I.remaining reader.new) (W.contents writer.old) (W.contents writer.new)) }
    ensures threads { IfErr result (λ fault. fault ≢ JobError.NoThread) }
{
    match read_and_run::<R, (), I>(rt, alloc, reader, workers) {
        Ok((script, run)) => write(&script.commands, &run.tasks, writer),
        // one text for both causes (profile)
        Err(JobError::NoThread) => Err(JobError::NoMemory),
        Err(fault) => Err(fault),
    }
}

/// Reads a script, at most 1,048,576 bytes and one more, and runs it to its end. Its tasks note what `N` does.
///
/// Errors: those of `read_script` and `Script::parse`, and then those of `run_parsed`.
pub fn read_and_run<R: Threads + Wait + Sync, N: Notes + Send + Sync, I: Read>(
    rt: &R,
    alloc: Global,
    reader: &mut I,
    workers: Workers,
) -> Result<(Script, Finished<N>), JobError>
    ensures bounded { ReadsAtMost (LIMIT + 1) (I.remaining reader.old) (I.remaining reader.new) }
    ensures run { IfOk result (λ done. IsRunOf LIMIT (I.remaining reader.old) (I.remaining reader.new) (said done.0) done.1.report.books) }
    ensures text { IfOk result (λ done. tasks_text 0 (map ended_slots done.1.tasks.items) ≡ script_text (said done.0) done.1.report.books) }
    ensures fault { IfErr result (EndsBy LIMIT (I.remaining reader.old) (I.remaining reader.new)) }
{
    let script = {
        let text = read_script(alloc, reader)?;
        Script::parse(alloc, &text)?
    };
    let run = run_parsed(rt, alloc, &script, Vec::new(alloc), workers)?;
    Ok((script, run))
}

/// Runs a script that was parsed, to its end. `given` may have for a unit, by its number, a mounted device, for instance
/// one from an image. A unit without one is mounted as its lines say. The books of the run have for each unit the device as it was
/// mounted, and the device as the run left it. They continue the books of the script. The purges, closes and resets of each
/// unit's trace are those of the script's commands, each task's in order, but for those that made no entry. [`write`]
/// prints the run.
///
/// Errors: those of `books` of job_mount, and then those of `run_on`.
pub fn run_parsed<R: Threads + Wait + Sync, N: Notes + Send + Sync>(
    rt: &R,
    alloc: Global,
    script: &Script,
    given: Vec<Option<AnyDevice>>,
    workers: Workers,
) -> Result<Finished<N>, JobError>
    requires tasks { (1 ≤ script.now.set_up.tasks) × (script.now.set_up.tasks ≤ 64) }
    requires units { (1 ≤ vec_len script.now.set_up.units) × (vec_len script.now.set_up.units ≤ 64) }
    ensures ran { IfOk result (λ finished. Ran (said script.now) finished.report.books) }
    ensures began { IfOk result (λ finished. AreBegunWith given.items (said script.now) finished.report.books) }
    ensures text { IfOk result (λ finished. tasks_text 0 (map ended_slots finished.tasks.items) ≡ script_text (said script.now) finished.report.books) }
    ensures serial { IfOk result (λ finished. LeavesOneAtATime given.items (said script.now) finished.tasks.items) }
    ensures fault { IfErr result (EndsParsed given.items (said script.now)) }
{
    let (rows, books) = rows_and_books(alloc, script, given)?;
    run_on(rt, alloc, rows, books, script, workers)
}

/// Runs a script on a system of these rows and books, to its end.
///
/// Errors: `NoThread` if no thread can be made for a worker; `NoMemory` if `run_program` fails for another cause; else
/// those of [`ended`].
pub fn run_on<R: Threads + Wait + Sync, N: Notes + Send + Sync>(
    rt: &R,
    alloc: Global,
    rows: Rows,
    books: Vec<UnitBook<AnyDevice>>,
    script: &Script,
    workers: Workers,
) -> Result<Finished<N>, JobError>
    requires fresh { AreFresh rows }
    requires books { AreBooks rows.units books.items }
    requires units { vec_len script.now.set_up.units ≡ rows.units }
    requires few { (rows.units ≤ 64) × (rows.tasks ≤ 64) }
    requires tasks { script.now.set_up.tasks ≡ rows.tasks }
    requires requests { All CanBeDone script.now.commands.items }
    ensures ran { IfOk result (λ finished. Ran (said script.now) finished.report.books) }
    ensures began { IfOk result (λ finished. AreBegun books.items finished.report.books) }
    ensures controlled { IfOk result (λ finished. AreControlledAs (said script.now) books.items finished.report.books) }
    ensures text { IfOk result (λ finished. tasks_text 0 (map ended_slots finished.tasks.items) ≡ script_text (said script.now) finished.report.books) }
    ensures fault { IfErr result (IsLate (said script.now)) }
{
    let tasks = ScriptTasks::new(script);
    match run_program(rt, alloc, rows, books, workers, &tasks) {
        Ok((report, outcomes)) => ended(alloc, report, outcomes),
        Err(RunError::NoThread) => Err(JobError::NoThread),
        Err(_) => Err(JobError::NoMemory),
    }
}

/// A run that was brought to its end: what its tasks left, with the posts that they had not collected.
///
/// Errors: out of memory, if a task ended for that; the fault of the first task that ended before its last command.
pub fn ended<N: Notes>(
    alloc: Global,
    report: Report<AnyDevice>,
    outcomes: Vec<Result<TaskEnd<N>, TaskError>>,
) -> Result<Finished<N>, JobError>
    requires lists { IsFor (length report.books) (length outcomes.items) report }
    requires few_units { length report.books ≤ 64 }
    requires few_tasks { length outcomes.items ≤ 64 }
    ensures report { IfOk result (λ finished. finished.report ≡ report) }
    ensures slots { IfOk result (λ finished. EndedBy report.lists outcomes.items finished.tasks.items) }
    ensures done { OnOk result (All IsDone outcomes.items) }
    ensures fault { IfErr result (EndsBeside outcomes.items) }
{
    let mut tasks = ends_of(alloc, outcomes)?;
    add_rest(&mut tasks, &report);
    Ok(Finished { tasks, report })
}

/// What each task left. If a task ended for lack of memory it returns that, and else the first fault.
fn ends_of<N: Notes>(
    alloc: Global,
    outcomes: Vec<Result<TaskEnd<N>, TaskError>>,
) -> Result<Vec<TaskEnd<N>>, TaskError>
    ensures count { IfOk result (λ tasks. length tasks.items ≡ length outcomes.items) }
    ensures made { IfOk result (λ tasks. map Ok tasks.items ≡ outcomes.items) }
    ensures done { OnOk result (All IsDone outcomes.items) }
    ensures fault { IfErr result (IsOfTask outcomes.items) }
{
    if outcomes.iter().any(wants_memory) {
        return Err(TaskError::NoMemory);
    }
    let mut tasks = Vec::with_capacity(alloc, outcomes.len())?;
    for outcome in outcomes {
        tasks.push(outcome?)?;
    }
    Ok(tasks)
}

/// Whether a task ended because memory ran out.
fn wants_memory<N>(outcome: &Result<TaskEnd<N>, TaskError>) -> bool {
    matches!(outcome, Err(TaskError::NoMemory))
}

/// Adds the posts that the report of a run lists to those of each task.
fn add_rest<N: Notes>(tasks: &mut [TaskEnd<N>], report: &Report<AnyDevice>)
    requires lists { IsFor (length report.now.books) (length tasks.old) report.now }
    requires few_units { length report.now.books ≤ 64 }
    requires few_tasks { length tasks.old ≤ 64 }
    ensures { AllListed report.now.lists (map ended_slots tasks.old) (map ended_slots tasks.new) }
{
    let units = report.units().len() as u16;
    for task in 0..tasks.len() {
        add_listed(&mut tasks[task], report, task as u16, units);
    }
}

/// Adds the posts that the report of a run lists for a task to its own.
fn add_listed<N: Notes>(end: &mut TaskEnd<N>, report: &Report<AnyDevice>, task: u16, units: u16)
    requires task { task < length report.now.lists }
    requires units { length (lists_of report.now.lists task) ≡ units }
    ensures { ended_slots end.new ≡ listed_from 0 (lists_of report.now.lists task) (ended_slots end.old) }
{
    for unit in 0..units {
        add_unit(end, unit, report.posts(task, unit));
    }
}

/// Adds the posts of a unit to those of a task.
fn add_unit<N: Notes>(end: &mut TaskEnd<N>, unit: u16, posts: &[Posted])
    ensures { ended_slots end.new ≡ filled_at unit posts.now (ended_slots end.old) }
{
    for posted in posts {
        end.slots.fill(unit, posted);
        end.notes.left(posted);
    }
}
