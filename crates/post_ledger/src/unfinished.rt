//! The end of a run.

ghost use Rattle.std.specs.Prelude.{◌≡◌, ◌≤◌, [], Some, length, map, IfErr, IfOk, IfSome, OnOk};
ghost use Rattle.std.specs.List.{All};
ghost use Rattle.unit_book.specs.Settle.{IsIdle};
ghost use Rattle.excp_system.specs.Begun.{AreBegun};
ghost use Rattle.excp_system.specs.Drained.{ArePlaced, Drained};
ghost use Rattle.post_ledger.specs.Left.{AreLists, GrewInto, IsCause, WorkOn, free_states};
ghost use Rattle.post_ledger.specs.Parting.{Paired, book_of};
ghost use Rattle.post_ledger.specs.Report.{AreIdle, AreLegal, AreOfTasks, Controls, IsFor, PostedOnce, Received, Returned, ReturnedRest};
ghost use Rattle.post_ledger.specs.Work.{CollectsAll, Works};

use crate::cause::Cause;
use crate::drain::drain;
use crate::parting::{PartStore, join_all};
use crate::places::are_placed;
use crate::posts::{Posts, make_lists};
use crate::report::Report;
use device_port::Device;
use excp_system::{Opened, System, Task, UnitState};
use std::alloc::{AllocError, AllocFailed, Global};
use std::marker::Model;
use std::sync::Wait;
use unit_book::laws::finished_posts_once;

/// The units of a run.
#[derive(Drop)]
pub enum Units<L, F> {
    /// The units under their locks.
    Locked(L),
    /// The units without locks: the end of the run has taken these off.
    Free(F),
}

/// The units of a run that was not brought to its end: the system, or the states of its units.
pub type UnitsLeft<'r, S, D> = Units<System<'r, S, D>, Vec<UnitState<'r, S, D>>>;

/// A run that was not brought to its end, with all that it has: its units, its tasks, and what was collected of
/// each task for the report. What has changed in it is a list of lawful steps, and no row is joined. Contracts see
/// the cause, the states of the units once they are free, the tasks, and for each task a list for each unit.
#[derive(Drop)]
pub struct Unfinished<'r, S: Opened<D>, D: Device> {
    alloc: Global,
    cause: Cause,
    units: UnitsLeft<'r, S, D>,
    tasks: Vec<Task<'r, S>>,
    posts: Vec<Posts>,
}

impl<'r, S: Opened<D>, D: Device> Model for Unfinished<'r, S, D> {
    ghost use Rattle.std.specs.Prelude.{◌≤◌, ◌≡◌, length, IfSome};
    ghost use Rattle.std.specs.List.{All};
    ghost use Rattle.excp_system.specs.Drained.{ArePlaced};
    ghost use Rattle.post_ledger.specs.Left.{Left, free_states, AreLists};

    ghost Value = { Left D };

    ghost view = { λ u. record { cause = u.cause; units = free_states u.units; tasks = u.tasks.items; lists = u.posts.items } };

    ghost invariant = { λ u. ArePlaced (λ task. task.number) S.rows.tasks u.tasks.items
        × AreLists S.rows.units S.rows.tasks u.posts.items
        × IfSome (free_states u.units) (λ units. length units ≡ S.rows.units) };
}

impl<'r, S: Opened<D>, D: Device> Unfinished<'r, S, D> {
    /// Why the run was not brought to its end.
    pub fn cause(&self) -> Cause
        ensures { result ≡ self.now.cause }
    {
        self.cause
    }

    /// Its units.
    pub fn units(&self) -> &UnitsLeft<'r, S, D>
        ensures { free_states result.now ≡ self.now.units }
    {
        &self.units
    }

    /// Its tasks, in order of number.
    pub fn tasks(&self) -> &[Task<'r, S>]
        ensures tasks { result.now ≡ self.now.tasks }
        ensures placed { ArePlaced (λ task. task.number) S.rows.tasks result.now }
    {
        self.tasks.as_slice()
    }

    /// What was collected for the report of each of the first tasks, or of all.
    pub fn posts(&self) -> &[Posts]
        ensures lists { result.now ≡ self.now.lists }
        ensures sized { AreLists S.rows.units S.rows.tasks result.now }
    {
        self.posts.as_slice()
    }

    /// Its units, its tasks in order of number, and what was collected for the report of each of the first tasks, or of
    /// all. It takes no memory.
    pub fn into_parts(self) -> (UnitsLeft<'r, S, D>, Vec<Task<'r, S>>, Vec<Posts>)
        ensures units { free_states result.0 ≡ self.entry.units }
        ensures tasks { result.1.items ≡ self.entry.tasks }
        ensures lists { result.2.items ≡ self.entry.lists }
        ensures counted { IfSome self.entry.units (λ units. length units ≡ S.rows.units) }
        ensures placed { ArePlaced (λ task. task.number) S.rows.tasks result.1.items }
        ensures sized { AreLists S.rows.units S.rows.tasks result.2.items }
    {
        let Unfinished {
            alloc: _,
            cause: _,
            units,
            tasks,
            posts,
        } = self;
        (units, tasks, posts)
    }

    /// Goes on to bring the run to its end, as [`finish`], from where it stopped.
    ///
    /// Errors: those of `finish`. Nothing is lost then.
    pub fn resume<R: Wait>(self, rt: &R) -> Result<Report<D>, Unfinished<'r, S, D>>
        ensures complete { IfOk result (λ report. IsFor S.rows.units S.rows.tasks report) }
        ensures began { IfOk result (λ report. AreBegun S.opened report.books) }
        ensures legal { IfOk result (λ report. AreLegal D.meaning report) }
        ensures idle { IfOk result (λ report. AreIdle report) }
        ensures of_tasks { IfOk result (λ report. AreOfTasks S.rows.tasks report) }
        ensures received { IfOk result (λ report. Received report self.entry.tasks) }
        ensures controlled { IfOk result (λ report. Controls S.own_calls S.opened report self.entry.tasks) }
        ensures posted_once { IfOk result (λ report. PostedOnce report self.entry.tasks) }
        ensures returned { IfOk result (λ report. ReturnedRest D.meaning self.entry.lists report self.entry.tasks) }
        ensures grew { IfOk result (λ report. GrewInto self.entry.units report.books) }
        ensures collects { IfErr result (λ left. CollectsAll S.rows.units self.entry.tasks left.tasks self.entry.lists left.lists) }
        ensures works { IfErr result (λ left. WorkOn self.entry.units left.units) }
        ensures cause { IfErr result (λ left. IsCause S.rows.units left.cause left.units) }
    {
        let Unfinished {
            alloc,
            cause: _,
            units,
            tasks,
            posts,
        } = self;
        match units {
            Units::Free(units) => go_on(rt, alloc, units, tasks, posts),
            Units::Locked(system) => match system.into_units() {
                Ok(units) => go_on(rt, alloc, units, tasks, posts),
                Err(AllocFailed { value: system }) => Err(Unfinished {
                    alloc,
                    cause: Cause::NoMemory,
                    units: Units::Locked(system),
                    tasks,
                    posts,
                }),
            },
        }
    }
}

/// Brings a run to its end, once its workers have ended. It takes the locks off. Units and tasks do all that is left,
/// until nothing is on its way between them. Then it joins the ends of each row. The tasks are all tasks of the system,
/// each at the index of its number.
///
/// Whatever the threads of the run did, this holds of each unit of the report, with the trace of its book:
///
/// - The book continues the one that was handed in for the unit when the system was made. Its device as mounted is the
///   same, and its trace has only grown.
/// - The trace is legal, nothing waits and nothing is active.
/// - What arrived of each task is what `excp` accepted of it there, in order. No other request arrived.
/// - The purges, closes and resets of its trace since that book are those that the tasks asked of it, each task's in order,
///   and those of the unit's own calls, if these may be used. A close or a reset of a DCB that was not open, and a purge
///   of one that was never opened, made no entry.
/// - Each of these requests has just one post.
/// - What the task had collected of the unit, and then its list in the report, is what the unit posted for it, in
///   order, each value as its trace gives it.
/// - The device of the book is that of its trace on the device as it was mounted ([`unit_book::UnitBook::device`]).
///
/// Errors, in this order: out of memory for the list of states; a unit's state that is not under its own lock; out of
/// memory. Nothing is lost then: see [`Unfinished`].
pub fn finish<'r, S: Opened<D>, D: Device, R: Wait>(
    rt: &R,
    alloc: Global,
    system: System<'r, S, D>,
    tasks: Vec<Task<'r, S>>,
) -> Result<Report<D>, Unfinished<'r, S, D>>
    requires { ArePlaced (λ task. task.number) S.rows.tasks tasks.items }
    ensures complete { IfOk result (λ report. IsFor S.rows.units S.rows.tasks report) }
    ensures began { IfOk result (λ report. AreBegun S.opened report.books) }
    ensures legal { IfOk result (λ report. AreLegal D.meaning report) }
    ensures idle { IfOk result (λ report. AreIdle report) }
    ensures of_tasks { IfOk result (λ report. AreOfTasks S.rows.tasks report) }
    ensures received { IfOk result (λ report. Received report tasks.entry.items) }
    ensures controlled { IfOk result (λ report. Controls S.own_calls S.opened report tasks.entry.items) }
    ensures posted_once { IfOk result (λ report. PostedOnce report tasks.entry.items) }
    ensures returned { IfOk result (λ report. Returned D.meaning report tasks.entry.items) }
    ensures collects { IfErr result (λ left. CollectsAll S.rows.units tasks.entry.items left.tasks [] left.lists) }
    ensures cause { IfErr result (λ left. IsCause S.rows.units left.cause left.units) }
{
    let run = Unfinished {
        alloc,
        cause: Cause::NoMemory,
        units: Units::Locked(system),
        tasks,
        posts: Vec::new(alloc),
    };
    run.resume(rt)
}

/// Brings a run whose units are free to its end, if each unit's state is at the index of its number.
fn go_on<'r, S: Opened<D>, D: Device, R: Wait>(
    rt: &R,
    alloc: Global,
    mut units: Vec<UnitState<'r, S, D>>,
    mut tasks: Vec<Task<'r, S>>,
    mut posts: Vec<Posts>,
) -> Result<Report<D>, Unfinished<'r, S, D>>
    requires units { length units.items ≡ S.rows.units }
    requires tasks { ArePlaced (λ task. task.number) S.rows.tasks tasks.items }
    requires lists { AreLists S.rows.units S.rows.tasks posts.items }
    ensures complete { IfOk result (λ report. IsFor S.rows.units S.rows.tasks report) }
    ensures began { IfOk result (λ report. AreBegun S.opened report.books) }
    ensures legal { IfOk result (λ report. AreLegal D.meaning report) }
    ensures idle { IfOk result (λ report. AreIdle report) }
    ensures of_tasks { IfOk result (λ report. AreOfTasks S.rows.tasks report) }
    ensures received { IfOk result (λ report. Received report tasks.entry.items) }
    ensures controlled { IfOk result (λ report. Controls S.own_calls S.opened report tasks.entry.items) }
    ensures posted_once { IfOk result (λ report. PostedOnce report tasks.entry.items) }
    ensures returned { IfOk result (λ report. ReturnedRest D.meaning posts.items report tasks.entry.items) }
    ensures grew { IfOk result (λ report. GrewInto (Some units.entry.items) report.books) }
    ensures collects { IfErr result (λ left. CollectsAll S.rows.units tasks.entry.items left.tasks posts.items left.lists) }
    ensures works { IfErr result (λ left. WorkOn (Some units.entry.items) left.units) }
    ensures cause { IfErr result (λ left. IsCause S.rows.units left.cause left.units) }
{
    if !are_placed(units.as_slice()) {
        return Err(Unfinished {
            alloc,
            cause: Cause::Mixed,
            units: Units::Free(units),
            tasks,
            posts,
        });
    }
    match make_ready(rt, alloc, &mut units, &mut tasks, &mut posts) {
        Ok(room) => Ok(close(units, tasks, posts, room)),
        Err(AllocError) => Err(Unfinished {
            alloc,
            cause: Cause::NoMemory,
            units: Units::Free(units),
            tasks,
            posts,
        }),
    }
}

/// Lets units and tasks do all that is left to do, and makes room for all that the report needs, so that nothing is
/// refused any more.
fn make_ready<'r, S: Opened<D>, D: Device, R: Wait>(
    rt: &R,
    alloc: Global,
    units: &mut Vec<UnitState<'r, S, D>>,
    tasks: &mut Vec<Task<'r, S>>,
    posts: &mut Vec<Posts>,
) -> Result<PartStore<'r, S, D>, AllocError>
    requires units { ArePlaced (λ unit. unit.unit) S.rows.units units.old.items }
    requires tasks { ArePlaced (λ task. task.number) S.rows.tasks tasks.old.items }
    requires lists { AreLists S.rows.units S.rows.tasks posts.old.items }
    ensures works { Paired Works units.old.items units.new.items }
    ensures collects { CollectsAll S.rows.units tasks.old.items tasks.new.items posts.old.items posts.new.items }
    ensures lists { AreLists S.rows.units S.rows.tasks posts.new.items }
    ensures all { OnOk result (length posts.new.items ≡ S.rows.tasks) }
    ensures idle { OnOk result (All (λ unit. IsIdle unit.book.trace) units.new.items) }
    ensures drained { OnOk result (Drained D.meaning units.new.items tasks.new.items) }
{
    make_lists(alloc, posts, tasks.len(), units.len())?;
    drain(rt, units, tasks, posts)?;
    PartStore::new(alloc, units.len(), tasks.len())
}

/// Joins the rows of a run in which nothing is left to do, and gives its report. It takes no memory, and cannot be
/// refused.
fn close<'r, S: Opened<D>, D: Device>(
    units: Vec<UnitState<'r, S, D>>,
    tasks: Vec<Task<'r, S>>,
    posts: Vec<Posts>,
    room: PartStore<'r, S, D>,
) -> Report<D>
    requires units { ArePlaced (λ unit. unit.unit) S.rows.units units.items }
    requires tasks { ArePlaced (λ task. task.number) S.rows.tasks tasks.items }
    requires idle { All (λ unit. IsIdle unit.book.trace) units.items }
    requires drained { Drained D.meaning units.items tasks.items }
    ensures books { result.books ≡ map book_of units.entry.items }
    ensures lists { result.lists ≡ posts.items }
    ensures began { AreBegun S.opened result.books }
    ensures legal { AreLegal D.meaning result }
    ensures idle { AreIdle result }
    ensures of_tasks { AreOfTasks S.rows.tasks result }
    ensures received { Received result tasks.entry.items }
    ensures controlled { Controls S.own_calls S.opened result tasks.entry.items }
    ensures posted_once { PostedOnce result tasks.entry.items }
    ensures returned { ReturnedRest D.meaning posts.items result tasks.entry.items }
{
    finished_posts_once::<D>();
    let books = join_all(units, tasks, room);
    Report::new(books, posts)
}
