//! What becomes of a request whose channel program has ended: another try, or an end with a code.
//!
//! Tests: tests/cases/scripts/verdicts.posts, tests/mutants/recovery.
#![tactic(auto)]

mod answer;
mod table;

pub use answer::Verdict;
pub use table::{MAX_RETRIES, verdict};
