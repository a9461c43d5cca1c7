//! The numbers of workers of a run, and the options that give them.

ghost use Rattle.std.specs.Prelude.{◌≤◌, IfSome};

use clap::ArgMatches;

/// The options that take a number of workers, from 1, which is the default, to the most of them.
pub const CHANNELS: &str = "channels";

pub const HANDLERS: &str = "handlers";

pub const MOST_CHANNELS: u8 = 16;

pub const MOST_HANDLERS: u8 = 8;

/// What their help says.
pub const CHANNELS_HELP: &str = "How many channel workers serve the units, 1 to 16";

pub const HANDLERS_HELP: &str = "How many handlers serve interruptions, 1 to 8";

/// How many channel workers (1 to 16) and interruption handlers (1 to 8) are asked for.
#[derive(Clone, Copy)]
pub struct Counts {
    pub channels: u8,
    pub handlers: u8,
    ghost channels_fit: { (1 ≤ channels) × (channels ≤ 16) },
    ghost handlers_fit: { (1 ≤ handlers) × (handlers ≤ 8) },
}

/// The numbers that the options of a subcommand give. After a parse each has a number, since each has a default.
pub fn counts_of(options: &ArgMatches<'_>) -> Option<Counts> {
    let channels = number(options, CHANNELS, MOST_CHANNELS)?;
    let handlers = number(options, HANDLERS, MOST_HANDLERS)?;
    Some(Counts { channels, handlers })
}

/// The value of an option, if it is from 1 to `most`.
fn number(options: &ArgMatches<'_>, option: &str, most: u8) -> Option<u8>
    ensures { IfSome result (λ value. (1 ≤ value) × (value ≤ most)) }
{
    let value = options.get_one::<u8>(option)?;
    (1 <= value && value <= most).then_some(value)
}
