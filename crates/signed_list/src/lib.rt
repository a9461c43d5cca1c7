//! A list of signed items. Each pen of its register knows what it signed, in order. The list has all that was signed, each item
//! with the number of its pen. A call that has the list and a pen signs an item, or shows that both agree. None takes memory
//! or waits.
//!
//! Tests: tests/cases/scripts, and the groups purges and random of tests/run, by the controls of tasks;
//! tests/mutants/signed_list.
#![tactic(auto)]

mod register;
mod rule;
mod view;

pub use register::{Pen, Register, SignedList};
pub use view::ListView;
