//! One step of a book: which of its calls, and what that did.

use crate::answer::{Interruption, Running, Starting};
use crate::control::{Control, Controlling};

/// A start, a run, an interruption or a control of a book.
#[derive(Clone, Copy, PartialEq, Eq, Debug)]
pub enum UnitStep {
    /// [`crate::UnitBook::start`]
    Start,
    /// [`crate::UnitBook::run`], for at most this many commands, which is at least 1.
    Run(u32),
    /// [`crate::UnitBook::interrupt`]
    Interrupt,
    /// [`crate::UnitBook::control`]
    Control(Control),
}

/// What a step did: the answer of its call.
#[derive(Clone, Copy, PartialEq, Eq, Debug)]
pub enum UnitAnswer {
    Started(Starting),
    Ran(Running),
    Interrupted(Interruption),
    Controlled(Controlling),
}
