//! The book of one unit: the requests that arrived, waited, were started and posted, as a trace that is
//! proved legal, with the subchannel that runs them.
//!
//! `specs/` says what a trace is and which ones are legal, from `Trace.antt` to `Legal.antt`. `Answers.antt` says what
//! each call adds and returns.
//!
//! Tests: tests/library/out_of_memory.c, tests/cases/scenarios, tests/cases/scripts, tests/mutants/unit_book.
#![tactic(auto)]

mod active;
mod activity;
mod answer;
mod book;
mod control;
mod dcb;
mod decision;
mod doom;
mod entries;
mod entry;
mod extents;
pub mod laws;
mod step;

pub use activity::{Activity, ActivityPhase};
pub use answer::{
    ArriveError, Closing, DcbError, Delivery, Intake, Interruption, OpenError, Purging, Running,
    Starting,
};
pub use book::UnitBook;
pub use control::{Control, Controlling};
pub use dcb::{DcbState, ProcessingMethod};
pub use entry::{Entry, Mode};
pub use extents::{ExtentRefusal, Extents, ExtentsRefusal, extents_refusal, passes_check};
pub use request_piece::Issued;
pub use step::{UnitAnswer, UnitStep};
