//! Tests of what only code can reach: locks, threads, gates, and calls that run out of memory.
//!
//! They test what no contract says: that a call succeeds with enough memory, that it returns only out of memory without,
//! and that threads wait and wake. All else is data: tests/cases. A call that always runs out of memory, the mutant of
//! memory_is_enough, fails every test, but for those that are made for calls that run out of memory.
#![tactic(auto)]

#[cfg(test)]
mod endings;
#[cfg(test)]
mod fixtures;
#[cfg(test)]
mod jobs;
#[cfg(test)]
mod requests;
#[cfg(test)]
mod rows;
#[cfg(test)]
mod units;
