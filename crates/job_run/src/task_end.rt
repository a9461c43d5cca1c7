//! What a task leaves when it has ended.

ghost use Rattle.std.specs.Prelude.{◌≡◌, IfOk, OnOk};
ghost use Rattle.post_lines.specs.Slots.{slots_of};
ghost use Rattle.job_run.specs.Filling.{expects, slots_for};

use crate::notes::Notes;
use job_script::{Action, Script};
use post_lines::Slots;
use std::alloc::{AllocError, Global};

/// The posts of a task's requests, each in its slot, and what was noted beside them.
#[derive(Drop)]
pub struct TaskEnd<N> {
    pub slots: Slots,
    pub notes: N,
}

impl<N: Notes> TaskEnd<N> {
    /// A slot for each request that a script issues by a task, and the notes of that task.
    pub fn new(alloc: Global, script: &Script, task: u16) -> Result<TaskEnd<N>, AllocError>
        ensures { IfOk result (λ end. slots_of end.slots ≡ slots_for script.now task) }
    {
        let notes = N::of_task(alloc, script, task)?;
        let slots = slots_of_task(alloc, script, task)?;
        Ok(TaskEnd { slots, notes })
    }
}

/// A slot for each request that a script issues by a task.
fn slots_of_task(alloc: Global, script: &Script, task: u16) -> Result<Slots, AllocError>
    ensures { IfOk result (λ slots. slots_of slots ≡ slots_for script.now task) }
{
    let mut slots = Slots::new(alloc, script.set_up.units.len())?;
    for place in script.places_of(task) {
        expect(alloc, &mut slots, &script.commands[*place].action)?;
    }
    Ok(slots)
}

/// Adds the slot of an EXCP. No other command has one.
fn expect(alloc: Global, slots: &mut Slots, action: &Action) -> Result<(), AllocError>
    ensures { OnOk result (slots_of slots.new ≡ expects action.now (slots_of slots.old)) }
{
    match action {
        Action::Excp(excp) => slots.expect(alloc, excp.dcb.unit, excp.show, excp.len as usize),
        Action::Purge(_, _)
        | Action::PurgeTask(_, _)
        | Action::Close(_)
        | Action::Reset(_)
        | Action::Wait => Ok(()),
    }
}
