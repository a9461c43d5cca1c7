//! Units and tasks are taken apart, and their ends of the rows come together.

ghost use Rattle.std.specs.Prelude.{◌≡◌, ◌≤◌, [], length, map, vec_capacity, vec_len, IfOk};
ghost use Rattle.std.specs.List.{All};
ghost use Rattle.unit_book.specs.Trace.{arrivals};
ghost use Rattle.excp_system.specs.Begun.{Began};
ghost use Rattle.excp_system.specs.Drained.{ArePlaced, Drained};
ghost use Rattle.excp_system.specs.States.{AreOf};
ghost use Rattle.post_ledger.specs.Parting.{AreControlled, AreSettled, IsBack, IsLogOf, BookKeeps, Paired, book_of, hand_of, intake_end, out_of, post_end};

use crate::audit::audit_all;
use crate::join::join_rows;
use device_port::Device;
use excp_system::{
    Fan, IntakeRows, Log, Opened, Pens, PostRows, Returned, Sent, Site, Task, UnitState,
};
use fifo_row::Taker;
use std::alloc::{AllocError, Global};
use unit_book::UnitBook;

/// What units are taken apart into.
#[derive(Drop)]
struct UnitParts<'r, S: Opened<D>, D: Device> {
    books: Vec<UnitBook<D>>,
    intakes: Vec<Taker<'r, Sent>>,
    backs: Vec<Fan<'r, Returned, PostRows<S>>>,
    logs: Vec<Log<'r, S>>,
}

/// What tasks are taken apart into.
#[derive(Drop)]
struct TaskParts<'r, S: Site> {
    outs: Vec<Fan<'r, Sent, IntakeRows<S>>>,
    collected: Vec<Taker<'r, Returned>>,
    hands: Vec<Pens<'r, S>>,
}

/// Lists that were made large enough for the parts of all units and tasks, so that taking them apart never allocates.
#[derive(Drop)]
pub(crate) struct PartStore<'r, S: Opened<D>, D: Device> {
    books: Vec<UnitBook<D>>,
    intakes: Vec<Taker<'r, Sent>>,
    backs: Vec<Fan<'r, Returned, PostRows<S>>>,
    logs: Vec<Log<'r, S>>,
    outs: Vec<Fan<'r, Sent, IntakeRows<S>>>,
    collected: Vec<Taker<'r, Returned>>,
    hands: Vec<Pens<'r, S>>,
    ghost no_books: { (books.items ≡ []) × (S.rows.units ≤ vec_capacity books) },
    ghost no_intakes: { (intakes.items ≡ []) × (S.rows.units ≤ vec_capacity intakes) },
    ghost no_backs: { (backs.items ≡ []) × (S.rows.units ≤ vec_capacity backs) },
    ghost no_logs: { (logs.items ≡ []) × (S.rows.units ≤ vec_capacity logs) },
    ghost no_outs: { (outs.items ≡ []) × (S.rows.tasks ≤ vec_capacity outs) },
    ghost no_collected: { (collected.items ≡ []) × (S.rows.tasks ≤ vec_capacity collected) },
    ghost no_hands: { (hands.items ≡ []) × (S.rows.tasks ≤ vec_capacity hands) },
}

impl<'r, S: Opened<D>, D: Device> PartStore<'r, S, D> {
    /// Lists large enough for all units and tasks of a site.
    pub(crate) fn new(
        alloc: Global,
        units: usize,
        tasks: usize,
    ) -> Result<PartStore<'r, S, D>, AllocError>
        requires units { units ≡ S.rows.units }
        requires tasks { tasks ≡ S.rows.tasks }
    {
        Ok(PartStore {
            books: Vec::with_capacity(alloc, units)?,
            intakes: Vec::with_capacity(alloc, units)?,
            backs: Vec::with_capacity(alloc, units)?,
            logs: Vec::with_capacity(alloc, units)?,
            outs: Vec::with_capacity(alloc, tasks)?,
            collected: Vec::with_capacity(alloc, tasks)?,
            hands: Vec::with_capacity(alloc, tasks)?,
        })
    }
}

/// Takes units apart. There is room for their parts.
fn split_units<'r, S: Opened<D>, D: Device>(
    units: Vec<UnitState<'r, S, D>>,
    parts: UnitParts<'r, S, D>,
) -> UnitParts<'r, S, D>
    requires books { (parts.books.items ≡ []) × (vec_len units ≤ vec_capacity parts.books) }
    requires intakes { (parts.intakes.items ≡ []) × (vec_len units ≤ vec_capacity parts.intakes) }
    requires backs { (parts.backs.items ≡ []) × (vec_len units ≤ vec_capacity parts.backs) }
    requires logs { (parts.logs.items ≡ []) × (vec_len units ≤ vec_capacity parts.logs) }
    ensures books { result.books.items ≡ map book_of units.entry.items }
    ensures intakes { result.intakes.items ≡ map (intake_end S.rows) units.entry.items }
    ensures backs { Paired (IsBack D.meaning S.rows) units.entry.items result.backs.items }
    ensures logs { Paired (IsLogOf S.rows S.own_calls S.opened) units.entry.items result.logs.items }
    ensures sound { All (λ unit. BookKeeps D.meaning unit.book) units.entry.items }
    ensures began { All (λ unit. Began S.opened unit.unit unit.book) units.entry.items }
    ensures of_unit { All (λ unit. AreOf S.rows unit.unit (arrivals unit.book.trace)) units.entry.items }
{
    let UnitParts {
        mut books,
        mut intakes,
        mut backs,
        mut logs,
    } = parts;
    for unit in units {
        unit.holds();
        let (book, intake, back, _notice, log) = unit.into_parts();
        books.push_reserved(book);
        intakes.push_reserved(intake);
        backs.push_reserved(back);
        logs.push_reserved(log);
    }
    UnitParts {
        books,
        intakes,
        backs,
        logs,
    }
}

/// Takes tasks apart. There is room for their parts.
fn split_tasks<'r, S: Site>(tasks: Vec<Task<'r, S>>, parts: TaskParts<'r, S>) -> TaskParts<'r, S>
    requires outs { (parts.outs.items ≡ []) × (vec_len tasks ≤ vec_capacity parts.outs) }
    requires collected { (parts.collected.items ≡ []) × (vec_len tasks ≤ vec_capacity parts.collected) }
    requires hands { (parts.hands.items ≡ []) × (vec_len tasks ≤ vec_capacity parts.hands) }
    ensures outs { result.outs.items ≡ map out_of tasks.entry.items }
    ensures collected { result.collected.items ≡ map (post_end S.rows) tasks.entry.items }
    ensures counts { All (λ task. length task.sent ≡ S.rows.units) tasks.entry.items }
    ensures hands { result.hands.items ≡ map hand_of tasks.entry.items }
    ensures pens { All (λ task. length task.asked ≡ S.rows.units) tasks.entry.items }
{
    let TaskParts {
        mut outs,
        mut collected,
        mut hands,
    } = parts;
    for task in tasks {
        let (out, end, pens) = task.into_parts();
        outs.push_reserved(out);
        collected.push_reserved(end);
        hands.push_reserved(pens);
    }
    TaskParts {
        outs,
        collected,
        hands,
    }
}

/// Joins all rows of a system from which all was taken, and gives the books. It takes no memory, and cannot be refused.
pub(crate) fn join_all<'r, S: Opened<D>, D: Device>(
    units: Vec<UnitState<'r, S, D>>,
    tasks: Vec<Task<'r, S>>,
    room: PartStore<'r, S, D>,
) -> Vec<UnitBook<D>>
    requires units { ArePlaced (λ unit. unit.unit) S.rows.units units.items }
    requires tasks { ArePlaced (λ task. task.number) S.rows.tasks tasks.items }
    requires drained { Drained D.meaning units.items tasks.items }
    ensures books { result.items ≡ map book_of units.entry.items }
    ensures sound { All (λ unit. BookKeeps D.meaning unit.book) units.entry.items }
    ensures began { All (λ unit. Began S.opened unit.unit unit.book) units.entry.items }
    ensures of_unit { All (λ unit. AreOf S.rows unit.unit (arrivals unit.book.trace)) units.entry.items }
    ensures settled { AreSettled D.meaning units.entry.items tasks.entry.items }
    ensures controlled { AreControlled S.own_calls S.opened units.entry.items tasks.entry.items }
{
    let PartStore {
        books,
        intakes,
        backs,
        logs,
        outs,
        collected,
        hands,
    } = room;
    let UnitParts {
        books,
        intakes,
        mut backs,
        logs,
    } = split_units(
        units,
        UnitParts {
            books,
            intakes,
            backs,
            logs,
        },
    );
    let TaskParts {
        mut outs,
        collected,
        mut hands,
    } = split_tasks(
        tasks,
        TaskParts {
            outs,
            collected,
            hands,
        },
    );
    join_rows(intakes, &mut outs);
    join_rows(collected, &mut backs);
    audit_all(logs, &mut hands);
    books
}
