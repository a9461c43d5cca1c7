//! A site for callers that make the events themselves, as those from C do: units with disks, tapes and printers, and tasks
//! that issue requests to them. Each call tests its numbers, and returns the first refusal that applies.
//!
//! What the calls do to units and tasks are the steps of `unit_world`, on the devices of `any_device`. This crate adds what a
//! caller outside Rattle needs: media put together record by record or taken from images, storage from bytes, texts, and the
//! structs of c/excp.h. After a checkpoint a unit's memory is as it was when it was mounted.
//!
//! Tests: tests/groups/library_clients.py, tests/mutants/excp_site.
#![tactic(auto)]

mod channel;
mod deb;
mod medium;
mod reason;
mod refusal;
mod served;
mod site;
mod state;

pub use channel::{ChannelRan, ChannelStatus, OwnChannel};
pub use deb::extents;
pub use medium::Medium;
pub use reason::Reason;
pub use refusal::Refusal;
pub use served::{Served, ServedEnd};
pub use site::{RefusedCall, Room, Site};
pub use state::{ActiveRequest, DcbState, Place, UnitState};
