//! The run of a script by threads, recorded.

ghost use Rattle.std.specs.Prelude.{◌≡◌, ◌≤◌, IfErr, IfOk, vec_len};
ghost use Rattle.job_script.specs.Views.{said};
ghost use Rattle.job_run.specs.Beginning.{AreBegunWith};
ghost use Rattle.job_run.specs.Ending.{EndsParsed};
ghost use Rattle.job_run.specs.Ran.{Ran};

use crate::noted::Noted;
use any_device::AnyDevice;
use job_run::{Finished, TaskEnd, Workers, run_parsed};
use job_script::{JobError, Script};
use post_ledger::Report;
use run_record::TaskRecord;
use std::alloc::{AllocError, Global};
use std::sync::Wait;
use std::thread::Threads;

/// A run that was brought to its end: the record of each task, and the account of its units.
#[derive(Drop)]
pub struct RecordedRun {
    pub tasks: Vec<TaskRecord>,
    pub report: Report<AnyDevice>,
}

/// Runs a script that was parsed, to its end, as `job_run::run_parsed` does, and records what its tasks do.
pub fn run_recorded<R: Threads + Wait + Sync>(
    rt: &R,
    alloc: Global,
    script: &Script,
    given: Vec<Option<AnyDevice>>,
    workers: Workers,
) -> Result<RecordedRun, JobError>
    requires tasks { (1 ≤ script.now.set_up.tasks) × (script.now.set_up.tasks ≤ 64) }
    requires units { (1 ≤ vec_len script.now.set_up.units) × (vec_len script.now.set_up.units ≤ 64) }
    ensures ran { IfOk result (λ run. Ran (said script.now) run.report.books) }
    ensures began { IfOk result (λ run. AreBegunWith given.items (said script.now) run.report.books) }
    ensures fault { IfErr result (EndsParsed given.items (said script.now)) }
{
    let run: Finished<Noted> = run_parsed(rt, alloc, script, given, workers)?;
    Ok(recorded(alloc, run)?)
}

/// The records of the tasks of a run.
fn recorded(alloc: Global, run: Finished<Noted>) -> Result<RecordedRun, AllocError>
    ensures { IfOk result (λ it. it.report ≡ run.report) }
{
    let Finished {
        tasks: ends,
        report,
    } = run;
    let mut tasks = Vec::with_capacity(alloc, ends.len())?;
    for end in ends {
        let TaskEnd { slots, notes } = end;
        tasks.push(TaskRecord {
            slots,
            notes: notes.notes,
        })?;
    }
    Ok(RecordedRun { tasks, report })
}
