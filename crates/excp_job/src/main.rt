//! `excp_job run` reads a script of EXCP requests from standard input, runs it on models of devices, and prints the post of each
//! request. It is the program that the promises are about. `excp_tools` has all other words.
//!
//! Tests: `tests/run command_line`, and every group that runs the program.
#![tactic(auto)]

mod words;

use job_run::{Workers, run_script};
use job_script::JobError;
use run_options::Counts;
use std::io::BufWriter;
use std::process::ExitCode;
use std::sync::Wait;
use std::thread::Threads;

fn main(rt: HostRuntime) -> ExitCode {
    let status = match words::read(&rt) {
        Ok(counts) => run(&rt, &rt, counts),
        Err(status) => status,
    };
    ExitCode::from(status)
}

/// Runs the script of standard input, prints its posts or its fault, and returns the exit status.
fn run<R: Threads + Wait + Sync>(rt: &HostRuntime, threads: &R, counts: Counts) -> u8 {
    match printed(rt, threads, counts) {
        Ok(()) => 0,
        Err(fault) => words::ended_by(rt, fault),
    }
}

/// Runs the script of standard input, and prints its posts.
fn printed<R: Threads + Wait + Sync>(
    rt: &HostRuntime,
    threads: &R,
    counts: Counts,
) -> Result<(), JobError> {
    let Ok(mut out) = BufWriter::new(rt.alloc(), rt.stdout()) else {
        return Err(JobError::NoMemory);
    };
    run_script(
        threads,
        rt.alloc(),
        &mut rt.stdin(),
        &mut out,
        workers(counts),
    )
}

/// The numbers of workers.
fn workers(counts: Counts) -> Workers {
    let Counts {
        channels,
        handlers,
        ..
    } = counts;
    Workers { channels, handlers }
}
