//! Storage: a map from addresses below 2^24 to bytes, at most 8,192 of them in a row.
//!
//! Tests: tests/library/out_of_memory.c, tests/cases/mistakes.
#![tactic(auto)]

mod area;
mod error;

pub use area::Area;
pub use error::AreaError;
