//! Units whose states were put under each other's locks.

ghost use Rattle.std.specs.Prelude.{◌≡◌};
ghost use Rattle.excp_system.specs.Opening.{AreBooks, AreFresh, site_of};

use super::*;
use std::mem::swap;

/// Why a run does not end, at first and when it is resumed, and what is left of it.
#[derive(Drop)]
struct Left {
    causes: [Cause; 2],
    /// The numbers of the units, in the order of their locks.
    units: Vec<u16>,
    tasks: usize,
}

/// What is left of a run whose two units are swapped, if each was under a lock of its own.
fn left_of<S: Opened<Disk>, R: Wait>(
    rt: &R,
    alloc: Global,
    rows: &mut Rows,
    books: Vec<UnitBook<Disk>>,
) -> Result<Option<Left>, AllocError>
    requires site { S.rows ≡ site_of rows.old }
    requires fresh { AreFresh rows.old }
    requires books { AreBooks S.rows.units books.items }
    requires opened { S.opened ≡ books.items }
    requires units { S.rows.units ≡ 2 }
{
    let (system, tasks, _) = System::<S, Disk>::new(alloc, rows, books)?;
    if !swap_units(rt, &system) {
        return Ok(None);
    }
    let Err(unfinished) = finish(rt, alloc, system, tasks) else {
        return Ok(None);
    };
    let first = unfinished.cause();
    match unfinished.resume(rt) {
        Ok(_) => Ok(None),
        Err(unfinished) => Ok(Some(parts_of(alloc, first, unfinished)?)),
    }
}

/// The parts of what is left of a run.
fn parts_of<S: Opened<Disk>>(
    alloc: Global,
    first: Cause,
    unfinished: Unfinished<'_, S, Disk>,
) -> Result<Left, AllocError> {
    let causes = [first, unfinished.cause()];
    let (units, tasks, _) = unfinished.into_parts();
    let mut numbers = Vec::new(alloc);
    if let Units::Free(units) = units {
        for unit in units {
            numbers.push(unit.unit())?;
        }
    }
    Ok(Left {
        causes,
        units: numbers,
        tasks: tasks.len(),
    })
}

/// Puts the states of the two units under each other's locks. Returns whether each was under a lock of its own.
fn swap_units<S: Opened<Disk>, R: Wait>(rt: &R, system: &System<'_, S, Disk>) -> bool
    requires { S.rows.units ≡ 2 }
{
    let mut first = system.lock_of(0).lock(rt);
    let Some(mut second) = system.lock_of(1).try_lock() else {
        return false;
    };
    swap(&mut *first, &mut *second);
    (first.unit(), second.unit()) == (1, 0)
}

/// It rejects one lock for both units: the second one is then locked.
#[test]
fn swapped_units_are_mixed(rt: HostRuntime) -> Result<(), Fail> {
    let mut rows = Rows::new(rt.alloc(), 1, 2, 1, 1)?;
    let books = disks(rt.alloc(), 1)?;
    let left = left_of::<Brand, _>(&rt, rt.alloc(), &mut rows, books)?;
    let left = left.ok_or("the run ends")?;
    assert!(rt; left.causes == [Cause::Mixed, Cause::Mixed] && left.tasks == 1);
    assert!(rt; left.units.as_slice() == [1, 0].as_slice());
    Ok(())
}
