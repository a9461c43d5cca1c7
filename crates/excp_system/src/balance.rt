//! Whether anything is on its way.

ghost use Rattle.std.specs.Prelude.{◌↔◌, IsTrue};
ghost use Rattle.excp_system.specs.Drained.{Drained, IsDrained, IsTaken};

use crate::site::Opened;
use crate::task::Task;
use crate::unit::UnitState;
use device_port::Device;

/// Whether nothing is out at any unit, and each intake and post row has had as many items taken as sent. It looks at
/// all of these units and tasks. It takes no memory.
pub fn drained<S: Opened<D>, D: Device>(
    units: &[UnitState<'_, S, D>],
    tasks: &[Task<'_, S>],
) -> bool
    ensures { IsTrue result ↔ Drained D.meaning units.now tasks.now }
{
    for unit in units {
        if !is_drained(unit, tasks) {
            return false;
        }
    }
    true
}

/// Whether nothing is out at a unit, and nothing is on its way between it and the tasks.
fn is_drained<S: Opened<D>, D: Device>(unit: &UnitState<'_, S, D>, tasks: &[Task<'_, S>]) -> bool
    ensures { IsTrue result ↔ IsDrained D.meaning tasks.now unit.now }
{
    if unit.book().out_len() > 0 {
        return false;
    }
    for task in tasks {
        if !is_taken(unit, task) {
            return false;
        }
    }
    true
}

/// Whether nothing is on its way between a unit and a task.
fn is_taken<S: Opened<D>, D: Device>(unit: &UnitState<'_, S, D>, task: &Task<'_, S>) -> bool
    ensures { IsTrue result ↔ IsTaken D.meaning unit.now task.now }
{
    unit.took(task.number()) == task.issued(unit.unit())
        && task.collected(unit.unit()) == unit.gave(task.number())
}
