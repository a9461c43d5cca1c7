//! The history of a unit: the events of its trace, each with its cause, and the commands of its channel programs, replayed (the
//! profile's CCW trace), each with its position on the medium. It knows no script and prints nothing.
//!
//! A [`replay::Replay`] works on a copy of the device as mounted, and on copies of the areas as issued. It depends on the trace
//! alone, so a run of any threads can be looked at step by step afterwards. [`Before`](before::Before) keeps what the position of a
//! command depends on beside the device after it.
//!
//! Tests: tests/cases/histories, samples/*.steps, tests/places.py.
#![tactic(auto)]

mod arrivals;
mod attempt;
mod before;
mod command;
mod commands;
mod dcbs;
mod disk;
mod done;
mod error;
mod event;
mod events;
mod moved;
mod place;
mod printer;
mod replay;
mod tape;
mod trace_state;

pub use before::Placed;
pub use command::{After, BrokenCcw, EndingStatus, ExecutedCommand};
pub use commands::{CommandList, Commands, Next, Replayed};
pub use dcbs::Dcbs;
pub use error::HistoryError;
pub use event::{EventKind, PostCause, UnitEvent};
pub use events::Events;
pub use moved::{DataDirection, Moved, Shown};
pub use place::{MediumPosition, Passed, RecordPlace};
