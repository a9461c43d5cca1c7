//! Measures command steps, starts, and cycles of a book and of a site, on a model disk.
//!
//! - `bench_steps` does one round and prints the counts.
//! - `bench_steps ROUNDS` does this many rounds, and also prints the rounds in a second and the time of each.
//! - `bench_steps ROUNDS WORDS` does only what has a name that begins with WORDS.
//!
//! Tests: crates/bench_steps/stdout.
#![tactic(auto)]

mod channel;
mod cycles;
mod report;
mod sites;
mod workload;

use cycles::Cycles;
use report::Arguments;
use std::io;
use std::io::ErrorKind;
use std::process::ExitCode;
use std::time::Instant;
use workload::Workload;

fn main(rt: HostRuntime) -> ExitCode {
    match measure(&rt) {
        Ok(()) => ExitCode::SUCCESS,
        Err(_) => ExitCode::FAILURE,
    }
}

/// Runs and prints each workload that is wanted.
fn measure(rt: &HostRuntime) -> io::Result<()> {
    let arguments = Arguments::read(rt)?;
    for workload in &Workload::ALL {
        if arguments.wants(workload.name()) {
            measure_channel(rt, &arguments, *workload)?;
        }
    }
    if arguments.wants("book cycles") {
        measure_book(rt, &arguments)?;
    }
    if arguments.wants("site cycles") {
        measure_site(rt, &arguments)?;
    }
    Ok(())
}

/// Runs a channel program once a round.
fn measure_channel(rt: &HostRuntime, arguments: &Arguments, workload: Workload) -> io::Result<()> {
    let rounds = arguments.rounds();
    let mut channel = workload.channel(rt.alloc())?;
    let begin = Instant::now(rt)?;
    let steps = channel.attempts(rounds);
    let count = if workload.counts_steps() {
        steps
    } else {
        u64::from(rounds)
    };
    arguments.print(rt, workload.name(), count, &begin)
}

/// Does a cycle of a book a round.
fn measure_book(rt: &HostRuntime, arguments: &Arguments) -> io::Result<()> {
    let mut cycles = Cycles::new(rt.alloc())?;
    let begin = Instant::now(rt)?;
    let done = cycles.run(rt.alloc(), arguments.rounds())?;
    arguments.print(rt, "book cycles", done, &begin)
}

/// Does a cycle of a site a round.
fn measure_site(rt: &HostRuntime, arguments: &Arguments) -> io::Result<()> {
    let Ok(mut site) = sites::site(rt.alloc()) else {
        return Err(io::Error::from(ErrorKind::Other));
    };
    let begin = Instant::now(rt)?;
    let Ok(done) = sites::cycles(&mut site, arguments.rounds()) else {
        return Err(io::Error::from(ErrorKind::Other));
    };
    arguments.print(rt, "site cycles", done, &begin)
}
