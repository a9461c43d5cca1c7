//! Scripts of EXCP requests: the grammar, and the parsed script or its first fault (profile).
//!
//! A script has at most 1,048,576 bytes. Its lines end with LF; words are separated by spaces; a line that is empty or
//! whose first word begins with `#` says nothing. Set-up lines come before the first command.
//!
//! Tests: tests/cases/scripts/broken.posts, tests/cases/mistakes/lines.findings, the group refusals of tests/run.
#![tactic(auto)]

mod command;
mod fault;
pub mod forms;
mod line;
mod reading;
mod refusal;
mod runs;
mod script;
mod set_up;

pub use command::{Action, DcbName, Excp, ScriptCommand};
pub use fault::{FaultName, JobError};
pub use line::{AreaLine, ExcpLine, ScriptLine, SetUpLine, TasksLine, UnitLine};
pub use reading::{LIMIT, read_script};
pub use refusal::LineError;
pub use runs::worked_runs;
pub use script::Script;
pub use set_up::{InitialMedium, Opening, SetUp, UnitSetup};
