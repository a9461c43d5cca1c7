//! How often in a row the calls of workers run out of memory.

ghost use Rattle.std.specs.Prelude.{◌≡◌, ◌<◌, ◌≤◌, ◌+◌, ◌-◌, ◌^◌, ◌↔◌, IsTrue, false, min, true};
ghost use Rattle.system_threads.specs.Turns.{IsOwnPlace, call_number, place_at};

use excp_system::Point;
use std::alloc::{AllocError, Global};
use std::sync::atomic::{AtomicBool, AtomicU32, Ordering};

/// A call of a worker that runs out of memory in this many turns in a row does not succeed later (profile).
pub const LASTING_TURNS: u32 = 10_000;

/// The most units of a system (profile).
const MOST_UNITS: usize = 64;

/// How many calls a worker makes.
const POINTS: usize = 5;

/// Consecutive turns in which one call on one unit ran out of memory, and whether the call was made again since.
#[derive(Clone, Copy)]
struct Count {
    turns: u32,
    is_made: bool,
}

impl Count {
    /// The count as the call is about to be made. If the call had memory the last time, the count begins again.
    fn begun(self) -> Count
        ensures again { self.is_made ≡ true → result.turns ≡ 0 }
        ensures kept { self.is_made ≡ false → result.turns ≡ self.turns }
        ensures made { result.is_made ≡ true }
    {
        Count {
            turns: if self.is_made { 0 } else { self.turns },
            is_made: true,
        }
    }

    /// The count after the call ran out of memory once more.
    fn refused(self) -> Count
        ensures turns { result.turns ≡ min (self.turns + 1) (2 ^ 32 - 1) }
        ensures unmade { result.is_made ≡ false }
    {
        Count {
            turns: self.turns.saturating_add(1),
            is_made: false,
        }
    }

    /// Whether the call ran out of memory in [`LASTING_TURNS`] turns in a row.
    fn is_lasting(self) -> bool
        ensures { IsTrue result ↔ (LASTING_TURNS ≤ self.turns) }
    {
        self.turns >= LASTING_TURNS
    }
}

/// The count of one call on one unit, which one thread after another has under the unit's lock.
#[derive(Drop)]
struct Tries {
    turns: AtomicU32,
    is_made: AtomicBool,
}

impl Tries {
    fn load(&self) -> Count {
        Count {
            turns: self.turns.load(Ordering::SeqCst),
            is_made: self.is_made.load(Ordering::SeqCst),
        }
    }

    fn store(&self, count: Count) {
        self.turns.store(count.turns, Ordering::SeqCst);
        self.is_made.store(count.is_made, Ordering::SeqCst);
    }
}

/// Counts, for each call on each unit, the turns in a row in which it ran out of memory. The calls on a unit come one
/// at a time, under its lock.
#[derive(Drop)]
pub(crate) struct Refusals {
    calls: Vec<Tries>,
}

impl Refusals {
    /// No call ran out of memory.
    pub(crate) fn none(alloc: Global) -> Result<Refusals, AllocError> {
        let mut calls = Vec::with_capacity(alloc, MOST_UNITS * POINTS)?;
        for _ in 0..MOST_UNITS * POINTS {
            calls.push(Tries {
                turns: AtomicU32::new(0),
                is_made: AtomicBool::new(false),
            })?;
        }
        Ok(Refusals { calls })
    }

    /// The call is about to be made. If it had memory the last time, its count begins again.
    pub(crate) fn begin(&self, unit: u16, point: Point) {
        let Some(tries) = self.calls.get(place_of(unit, point)) else {
            return;
        };
        // a call that has memory each time writes nothing
        if tries.turns.load(Ordering::SeqCst) > 0 {
            tries.store(tries.load().begun());
        }
    }

    /// The call ran out of memory. Returns whether it did so in [`LASTING_TURNS`] turns in a row.
    pub(crate) fn refuse(&self, unit: u16, point: Point) -> bool {
        let Some(tries) = self.calls.get(place_of(unit, point)) else {
            return true;
        };
        let count = tries.load().refused();
        tries.store(count);
        count.is_lasting()
    }
}

/// The index of a call on a unit, which no other call and no other unit has. So memory for one call does not hide that
/// another has none.
fn place_of(unit: u16, point: Point) -> usize
    ensures place { result ≡ place_at unit point }
    ensures own { IsOwnPlace unit point result }
    ensures within { unit < 64 → result < 320 }
{
    usize::from(unit) * POINTS + number_of(point)
}

/// The number of a call among the five.
fn number_of(call: Point) -> usize
    ensures number { result ≡ call_number call }
    ensures few { result < 5 }
{
    match call {
        Point::Take => 0,
        Point::Start => 1,
        Point::Run => 2,
        Point::Interrupt => 3,
        Point::Deliver => 4,
    }
}
