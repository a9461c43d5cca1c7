//! The command line of `excp_job`, as `clap` takes it.

use crate::VERSION;
use crate::counts::{
    CHANNELS, CHANNELS_HELP, HANDLERS, HANDLERS_HELP, MOST_CHANNELS, MOST_HANDLERS,
};
use clap::builder::ValueParser;
use clap::{Arg, Command};
use std::alloc::{AllocError, Global};

/// The name of the program, which usage lines show.
const PROGRAM: &str = "excp_job";

/// The lines of a script in brief (docs/MANUAL.md).
const LINES: &str = "Lines of a script; tasks, units and areas are numbered from 0, DCBs from 1:
  tasks N                            so many tasks; the first line
  disk U ISC CYLINDERS HEADS BYTES   a disk with tracks of so many bytes
  rec U CYLINDER HEAD R KEY DATA     a record on it, in hexadecimal, - for none
  tape U ISC BYTES                   a tape; block U DATA and mark U lie on it
  printer U ISC LINES PAGES          a printer
  fault U N STATUS STATUS SENSE      the unit's N-th command meets a fault
  open U in|out EXTENT ...           the next DCB of a unit; extents of a disk alone
  area A ADDR HEX ...                storage of requests: IOB, ECB, channel program
  excp T U DCB IOB A SHOW LEN        task T issues a request, shows LEN bytes of it
  wait T                             task T waits for its requests
  purge T U DCB halt|quiesce         purgetask T OTHER halt|quiesce
  close T U DCB                      reset T U DCB
  # ...                              a comment";

/// The whole command line.
pub fn command<'a>(alloc: Global) -> Result<Command<'a>, AllocError> {
    let run = run(alloc)?;
    Command::new(alloc, PROGRAM)
        .about("Runs a script of EXCP requests on models of disk, tape and printer")
        .version(VERSION)
        .after_help(LINES)
        .subcommand_required(true)
        .subcommand(run)
}

/// The subcommand `run`.
fn run<'a>(alloc: Global) -> Result<Command<'a>, AllocError> {
    let channels = argument(alloc, CHANNELS, CHANNELS_HELP, MOST_CHANNELS);
    let handlers = argument(alloc, HANDLERS, HANDLERS_HELP, MOST_HANDLERS);
    Command::new(alloc, "run")
        .about("Reads a script from standard input and prints its posts")
        .arg(channels)?
        .arg(handlers)
}

/// An option that takes a number of workers.
fn argument<'a>(alloc: Global, name: &'a str, help: &'a str, most: u8) -> Arg<'a> {
    Arg::new(alloc, name)
        .long(name)
        .help(help)
        .value_name("N")
        .default_value("1")
        .value_parser(ValueParser::unsigned(1, u64::from(most)))
}
