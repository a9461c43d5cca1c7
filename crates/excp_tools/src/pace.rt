//! How far a search is, on a terminal, and how long it may take.

use outcome_search::SearchWatch;
use std::io::IsTerminal;
use std::time::Instant;

/// From this second of a search on, a line on standard error says how far it is.
const FIRST: u64 = 2;

/// Watches a search. It ends the search after some seconds. If standard error is a terminal, a
/// line there says each second how many states were found, and how much memory they take.
#[derive(Drop)]
pub struct Pace<'a> {
    rt: &'a HostRuntime,
    /// When it began, if there is a clock.
    begun: Option<Instant>,
    most_seconds: u64,
    most_bytes: usize,
    is_terminal: bool,
    /// The second in which the line was written; 0 if there is none.
    told: u64,
}

impl<'a> Pace<'a> {
    /// The search begins now, and may take so long and so much, about.
    pub fn new(rt: &'a HostRuntime, most_seconds: u64, most_bytes: usize) -> Self {
        Pace {
            rt,
            begun: Instant::now(rt).ok(),
            most_seconds,
            most_bytes,
            is_terminal: rt.stderr().is_terminal(),
            told: 0,
        }
    }

    /// How many seconds went by.
    fn seconds(&self) -> u64 {
        match &self.begun {
            Some(begun) => begun
                .elapsed(self.rt)
                .map_or(0, |elapsed| elapsed.as_secs()),
            None => 0,
        }
    }
}

impl<'a> SearchWatch for Pace<'a> {
    fn may_go_on(&mut self, states: usize, bytes: usize) -> bool {
        let seconds = self.seconds();
        if self.is_terminal && seconds >= FIRST && seconds != self.told {
            self.told = seconds;
            let _ = eprint!(self.rt;
                "\r\x1b[Kexcp: {states} states, {} of {} MiB",
                bytes >> 20,
                self.most_bytes >> 20
            );
        }
        seconds < self.most_seconds
    }

    fn end(&mut self) {
        if self.told != 0 {
            self.told = 0;
            let _ = eprint!(self.rt; "\r\x1b[K");
        }
    }
}
