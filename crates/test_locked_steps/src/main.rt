//! Carries out a scenario on units under locks and real rows. One thread uses them. It prints what `excp step` prints. That uses a
//! site of the library. The tests compare both.
//!
//! - [`line::ScenarioLine`] is what a line says by its words alone.
//! - [`Dialog`] reads the lines one by one. Its [`Printer`] prints answers and failed expectations.
//! - [`plan::Plan`] is what the lines before the first event declare.
//! - [`line_steps::LineSteps`] are the steps of a line, whose names it has compared with the plan.
//!
//!     test_locked_steps [--views] < SCENARIO
//!
//! With a word it prints what `step --trace --state` prints.
//!
//! Tests: `tests/run scenarios`, crates/test_locked_steps/stdout.
#![tactic(auto)]

mod answer;
mod dialog;
mod line;
mod line_steps;
mod locked;
mod plan;
mod printer;
mod reader;
mod room_line;
mod rooms;
mod scenario;
mod step_answer;
mod task_records;
mod verb;
mod view;

use dialog::Dialog;
use job_script::JobError;
use printer::Printer;
use scenario::with_rows;
use std::env;
use std::process::ExitCode;
use std::sync::Wait;
use view::Views;

fn main(rt: HostRuntime) -> ExitCode {
    match carry_out(&rt, &rt) {
        Ok(true) => ExitCode::SUCCESS,
        Ok(false) => ExitCode::FAILURE,
        Err(fault) => {
            let _ = eprintln!(rt; "excp_job: {fault}");
            ExitCode::from(fault.status())
        }
    }
}

/// Carries out the scenario on standard input. Returns whether all expectations are met.
fn carry_out<R: Wait>(rt: &HostRuntime, waits: &R) -> Result<bool, JobError> {
    let alloc = rt.alloc();
    let has_views = env::args(rt).is_ok_and(|words| words.count() > 1);
    let views = Views {
        trace: has_views,
        state: has_views,
    };
    let (mut out, mut errors) = (rt.stdout(), rt.stderr());
    let printer = Printer::new(alloc, &mut out, &mut errors);
    let mut dialog = Dialog::new(alloc, rt.stdin(), printer)?;
    let plan = dialog.set_up()?;
    with_rows(waits, alloc, &plan, views, &mut dialog)?;
    Ok(dialog.printer.is_met())
}
