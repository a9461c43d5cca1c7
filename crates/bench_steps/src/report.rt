//! What the program was asked to measure, and the lines that it prints.

use std::time::{Duration, Instant};
use std::{env, io};

/// The rounds that were asked for, and the one thing to measure, if not all.
#[derive(Drop)]
pub struct Arguments {
    rounds: Option<u32>,
    only: Option<String>,
}

impl Arguments {
    /// The words behind the program's name: ROUNDS and the first words of a name.
    pub fn read(rt: &HostRuntime) -> io::Result<Self> {
        let mut arguments = env::args(rt)?;
        let _ = arguments.next();
        let rounds = match arguments.next() {
            Some(word) => word.as_str().parse::<u32>().ok(),
            None => None,
        };
        Ok(Arguments {
            rounds,
            only: arguments.next(),
        })
    }

    /// How many rounds are done.
    pub fn rounds(&self) -> u32 {
        self.rounds.unwrap_or(1)
    }

    /// Whether this is measured.
    pub fn wants(&self, name: &str) -> bool {
        match &self.only {
            Some(only) => name.starts_with(only.as_str()),
            None => true,
        }
    }

    /// Prints how many there were, and where rounds were asked for how many in a second and the time of each.
    pub fn print(
        &self,
        rt: &HostRuntime,
        what: &str,
        count: u64,
        begin: &Instant,
    ) -> io::Result<()> {
        if self.rounds.is_none() {
            return println!(rt; "{what}: {count}");
        }
        let nanos = nanos(begin.elapsed(rt)?);
        let rate = count.saturating_mul(1_000_000) / (nanos / 1000).max(1);
        let tenths = nanos.saturating_mul(10) / count.max(1);
        let (whole, tenth) = (tenths / 10, tenths % 10);
        println!(rt; "{what}: {count}, {rate} a second, {whole}.{tenth} ns each")
    }
}

/// The nanoseconds of a time.
fn nanos(spent: Duration) -> u64 {
    spent
        .as_secs()
        .saturating_mul(1_000_000_000)
        .saturating_add(u64::from(spent.subsec_nanos()))
}
