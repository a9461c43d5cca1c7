//! The command line of `excp_job`, by `clap`: `run` with `--channels N` and `--handlers N`.
//!
//! Tests: `tests/run command_line`.
#![tactic(auto)]

mod command;
mod counts;

use clap::Error;
use clap::error::ErrorKind;
use command::command;
pub use counts::Counts;
use counts::counts_of;
use std::alloc::Global;

/// The version of the programs. `./excp` and the documents read it from this line.
pub const VERSION: &str = "1.1";

/// The numbers of workers that the words of the command line, the program's name first, ask for; or the error of `clap`.
pub fn parse(alloc: Global, words: &[String]) -> Result<Counts, Error> {
    let mut command = command(alloc)?;
    let matches = command.try_get_matches_from_mut(words)?;
    if let Some((_, options)) = matches.subcommand() {
        if let Some(counts) = counts_of(options) {
            return Ok(counts);
        }
    }
    // no words get here: the subcommand is required, and its numbers have defaults and ranges
    Err(command.error(ErrorKind::ValueValidation, "no number of workers")?)
}
