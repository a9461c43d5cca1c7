//! Units and tasks are brought to where nothing is on its way between them.

ghost use Rattle.std.specs.Prelude.{◌≡◌, length, take, OnOk};
ghost use Rattle.std.specs.List.{All};
ghost use Rattle.unit_book.specs.Settle.{IsIdle};
ghost use Rattle.excp_system.specs.Drained.{Drained};
ghost use Rattle.post_ledger.specs.Parting.{Paired};
ghost use Rattle.post_ledger.specs.Work.{CollectsAll, Works};

use crate::posts::Posts;
use device_port::Device;
use excp_system::{Opened, Site, Task, UnitState, drained};
use std::alloc::AllocError;
use std::sync::Wait;
use unit_book::{Delivery, Intake};

/// Lets what is in flight to a unit arrive, as far as its book has room.
fn receive<S: Opened<D>, D: Device, R: Wait>(
    rt: &R,
    unit: &mut UnitState<'_, S, D>,
) -> Result<(), AllocError>
    ensures { Works unit.old unit.new }
{
    for _ in rt.forever() {
        match unit.take(rt)? {
            Intake::Took(_) => {}
            Intake::Held | Intake::Quiet => break,
        }
    }
    Ok(())
}

/// Sends back what a unit has posted, as far as there is room.
fn give_back<S: Opened<D>, D: Device, R: Wait>(rt: &R, unit: &mut UnitState<'_, S, D>)
    ensures unit { unit.new.unit ≡ unit.old.unit }
    ensures trace { unit.new.book.trace ≡ unit.old.book.trace }
    ensures mounted { unit.new.book.mounted ≡ unit.old.book.mounted }
{
    for _ in rt.forever() {
        match unit.deliver(rt) {
            Delivery::Delivered(_) => {}
            Delivery::Quiet | Delivery::Full(_) => break,
        }
    }
}

/// Does all that a unit can do.
fn work<S: Opened<D>, D: Device, R: Wait>(
    rt: &R,
    unit: &mut UnitState<'_, S, D>,
) -> Result<(), AllocError>
    ensures works { Works unit.old unit.new }
    ensures idle { OnOk result (IsIdle unit.new.book.trace) }
{
    receive(rt, unit)?;
    unit.settle()?;
    give_back(rt, unit);
    Ok(())
}

/// Does all that each unit can do.
fn work_all<S: Opened<D>, D: Device, R: Wait>(
    rt: &R,
    units: &mut Vec<UnitState<'_, S, D>>,
) -> Result<(), AllocError>
    ensures works { Paired Works units.old.items units.new.items }
    ensures idle { OnOk result (All (λ unit. IsIdle unit.book.trace) units.new.items) }
{
    for place in 0..units.len() {
        let unit = &mut units[place];
        work(rt, unit)?;
    }
    Ok(())
}

/// Collects what is on its way back to each task.
fn gather_all<S: Site, R: Wait>(
    rt: &R,
    tasks: &mut Vec<Task<'_, S>>,
    posts: &mut Vec<Posts>,
) -> Result<(), AllocError>
    requires count { length posts.old.items ≡ length tasks.old.items }
    requires lists { All (λ lists. length lists ≡ S.rows.units) posts.old.items }
    ensures collects { CollectsAll S.rows.units tasks.old.items tasks.new.items posts.old.items posts.new.items }
    ensures count { length posts.new.items ≡ length posts.old.items }
    ensures lists { All (λ lists. length lists ≡ S.rows.units) posts.new.items }
{
    for place in 0..tasks.len() {
        let task = &mut tasks[place];
        let lists = &mut posts[place];
        lists.gather(rt, task)?;
    }
    Ok(())
}

/// Has units and tasks do all that they can do until nothing is on its way between them. A full book or a full row
/// takes several rounds.
pub(crate) fn drain<S: Opened<D>, D: Device, R: Wait>(
    rt: &R,
    units: &mut Vec<UnitState<'_, S, D>>,
    tasks: &mut Vec<Task<'_, S>>,
    posts: &mut Vec<Posts>,
) -> Result<(), AllocError>
    requires count { length posts.old.items ≡ length tasks.old.items }
    requires lists { All (λ lists. length lists ≡ S.rows.units) posts.old.items }
    ensures works { Paired Works units.old.items units.new.items }
    ensures collects { CollectsAll S.rows.units tasks.old.items tasks.new.items posts.old.items posts.new.items }
    ensures count { length posts.new.items ≡ length posts.old.items }
    ensures lists { All (λ lists. length lists ≡ S.rows.units) posts.new.items }
    ensures idle { OnOk result (All (λ unit. IsIdle unit.book.trace) units.new.items) }
    ensures drained { OnOk result (Drained D.meaning units.new.items tasks.new.items) }
{
    for _ in rt.forever() {
        work_all(rt, units)?;
        gather_all(rt, tasks, posts)?;
        if drained(units.as_slice(), tasks.as_slice()) {
            // a break would lose what this round did
            return Ok(());
        }
    }
    unreachable!()
}
