//! A line printer: its mounting, its commands, and readers of what it has printed.
//!
//! A printer is seen as the list of its printed lines and the position of the next one. The list has room for all
//! lines from the beginning, so no command takes memory.
//!
//! Tests: tests/library/commands.c, tests/cases/scripts.
#![tactic(auto)]

mod command;
mod listing;
mod paper;
mod printed_line;
mod printer;

pub use paper::PaperPosition;
pub use printed_line::PrintedLine;
pub use printer::{PaperRefusal, Printer, paper_refusal};
