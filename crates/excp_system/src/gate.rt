//! Hooks around the calls of workers, and the signal that stops them.

use request_piece::Name;
use std::sync::atomic::{AtomicBool, Ordering};

/// The call that a worker is about to make.
#[derive(Clone, Copy, PartialEq, Eq, Debug)]
pub enum Point {
    Take,
    Start,
    Run,
    Interrupt,
    Deliver,
}

/// Hooks around the calls of a worker, which holds the unit's lock meanwhile. `pass` runs before each call, and may watch or delay
/// the worker, as tests do. The other hooks report calls that run out of memory, posts that were sent back, and full post rows.
/// By default they do nothing.
pub trait Gate {
    /// The worker is about to make this call.
    fn pass(&self, unit: u16, point: Point);

    /// There was no memory for this call, which changed nothing but that a notice may be owed.
    fn lack_memory(&self, _unit: u16, _point: Point) {}

    /// What a request was posted with is in the post row of its task.
    fn delivered(&self, _request: Name) {}

    /// What a request was posted with waits, because the post row of its task is full.
    fn row_is_full(&self, _request: Name) {}
}

/// A gate that delays no worker.
pub struct OpenGate;

impl Gate for OpenGate {
    fn pass(&self, _unit: u16, _point: Point) {}
}

/// Tells workers to stop.
#[derive(Drop)]
pub struct Stop {
    raised: AtomicBool,
}

impl Stop {
    /// Workers go on.
    pub fn new() -> Stop {
        Stop {
            raised: AtomicBool::new(false),
        }
    }

    /// Workers end after the pass over their units that they are in.
    pub fn raise(&self) {
        self.raised.store(true, Ordering::SeqCst);
    }

    /// Whether workers are to end.
    pub fn raised(&self) -> bool {
        self.raised.load(Ordering::SeqCst)
    }
}
