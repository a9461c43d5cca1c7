//! The laws that keep a hostile request from the tracks of others.
//!
//! `specs/Laws.antt` says what no channel program does to a disk, and what no request of a legal trace does.
//!
//! Tests: proofs/Worked.antt, by computation.
#![tactic(auto)]

pub mod laws;
