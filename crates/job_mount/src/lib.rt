//! The units of a script mounted, its DCBs opened, and its requests tried: exactly what the script says, or its first
//! fault. All units are mounted first, then all DCBs are opened, then all requests are tried (profile).
//!
//! Tests: tests/cases/scripts/broken.posts, tests/groups/first_faults.py, tests/mutants/job_mount.
#![tactic(auto)]

mod device;
mod mounting;
mod requests;
mod runs;

pub use device::mounted;
pub use mounting::{books, mounted_book, open_dcbs};
pub use requests::{can_issue, request};
pub use runs::worked_runs;
