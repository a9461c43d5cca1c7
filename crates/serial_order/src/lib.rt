//! The law that a unit without controls posts each request as if it served one at a time, in order of arrival.
//!
//! `specs/OneAtATime.antt` defines a unit that serves one request at a time. It uses no trace but the openings.
//! `specs/Laws.antt` says that each request of a trace without controls has the post that this unit gives it.
//!
//! Tests: tests/groups/serial.py, a model of these definitions against the program.
#![tactic(auto)]

pub mod laws;
