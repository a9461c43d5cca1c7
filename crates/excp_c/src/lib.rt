//! The exports that c/excp.c calls: `excp_call_step` for the steps of a unit, and `excp_call_X` for each other `excp_X` of c/excp.h.
#![tactic(auto)]

mod answer;
mod buffer;
mod channels;
mod contents;
mod dcbs;
mod entries;
mod events;
mod handle;
mod long_use;
mod looks;
mod loose;
mod media;
mod posts;
mod sites;
mod slot;
mod status;
mod texts;

pub use answer::Answer;
pub use contents::{Item, Line, Record};
pub use entries::TraceEntry;
pub use handle::Handle;
pub use posts::Post;
