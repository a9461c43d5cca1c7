//! Units under locks.

ghost use Rattle.std.specs.Prelude.{◌≡◌, ◌<◌, ◌≤◌, ◌^◌, true, IfErr, IfOk, vec_capacity, vec_len};
ghost use Rattle.excp_system.specs.Opening.{AreBooks, AreFans, AreFresh, AreHands, AreHandlers, AreLogs, AreTakers, AreTasks, site_of};
ghost use Rattle.excp_system.specs.Sites.{intake_rows, notice_rows, post_rows};

use crate::fan::Fan;
use crate::isc::IscTaker;
use crate::item::{Notice, Returned, Sent};
use crate::log::Log;
use crate::pens::Pens;
use crate::rows::{Ends, Rows};
use crate::site::{IntakeRows, NoticeRows, Opened, PostRows, Site};
use crate::task::Task;
use crate::unit::UnitState;
use device_port::Device;
use fifo_row::Taker;
use std::alloc::{AllocError, AllocFailed, Global};
use std::sync::{Mutex, Wait};
use unit_book::{Mode, Purging, UnitBook};

/// The units of a site, each under its lock.
#[derive(Drop)]
pub struct System<'r, S: Opened<D>, D: Device> {
    alloc: Global,
    locks: Vec<Mutex<UnitState<'r, S, D>>>,
    ghost sized: { vec_len locks ≡ S.rows.units },
}

impl<'r, S: Opened<D>, D: Device> System<'r, S, D> {
    /// A system over the rows of its site, which gave no ends yet, with a book for each unit, in which nothing
    /// happened but openings of DCBs. The site says that its units begin with these books, so each unit continues its
    /// own. Returns the system with its tasks, in order of number, and the takers of its notices, in order of subclass.
    /// If memory runs out, it returns the books, and drops the rows.
    pub fn new(
        alloc: Global,
        rows: &'r mut Rows,
        books: Vec<UnitBook<D>>,
    ) -> Result<
        (System<'r, S, D>, Vec<Task<'r, S>>, Vec<IscTaker<'r, S>>),
        AllocFailed<Vec<UnitBook<D>>>,
    >
        requires site { S.rows ≡ site_of rows.old }
        requires fresh { AreFresh rows.old }
        requires books { AreBooks S.rows.units books.items }
        requires opened { S.opened ≡ books.items }
        ensures tasks { IfOk result (λ made. AreTasks S.rows.tasks S.rows.units made.1.items) }
        ensures handlers { IfOk result (λ made. AreHandlers made.2.items) }
        ensures handed_back { IfErr result (λ failed. failed.value.items ≡ books.items) }
    {
        let Ok((ends, tasks, handlers)) = make_ends(alloc, rows) else {
            return Err(AllocFailed { value: books });
        };
        let Ok(locks) = Vec::with_capacity(alloc, books.len()) else {
            return Err(AllocFailed { value: books });
        };
        let locks = lock_units(books, ends, locks);
        Ok((System { alloc, locks }, tasks, handlers))
    }

    /// The lock of a unit. It takes no memory, and waits for nobody.
    pub fn lock_of(&self, unit: u16) -> &Mutex<UnitState<'r, S, D>>
        requires { unit < S.rows.units }
    {
        &self.locks[usize::from(unit)]
    }

    /// Purges the requests of a task at each unit, in the order of their numbers, each under its lock: there is no one
    /// moment for all units. Any number is allowed. Returns for each unit what is active there, or that memory ran out
    /// there, which changes nothing at that unit. If there is no memory for the answers, nothing changes at all.
    pub fn purge_task<R: Wait>(
        &self,
        rt: &R,
        task: u16,
        mode: Mode,
    ) -> Result<Vec<Result<Purging, AllocError>>, AllocError>
        requires { S.own_calls ≡ true }
        ensures { IfOk result (λ answers. vec_len answers ≡ S.rows.units) }
    {
        let count = self.locks.len();
        let mut answers = Vec::with_capacity(self.alloc, count)?;
        for place in 0..count {
            let mut unit = self.locks[place].lock(rt);
            answers.push_reserved(unit.purge_task(rt, task, mode));
        }
        Ok(answers)
    }

    /// The states of the units, in order of the locks.
    ///
    /// Error: out of memory. The system is handed back.
    pub fn into_units(self) -> Result<Vec<UnitState<'r, S, D>>, AllocFailed<System<'r, S, D>>>
        ensures units { IfOk result (λ units. vec_len units ≡ S.rows.units) }
        ensures handed_back { IfErr result (λ failed. failed.value ≡ self.entry) }
    {
        let Ok(mut units) = Vec::with_capacity(self.alloc, self.locks.len()) else {
            return Err(AllocFailed { value: self });
        };
        let System { alloc: _, locks } = self;
        for lock in locks {
            units.push_reserved(lock.into_inner());
        }
        Ok(units)
    }
}

/// The ends of all units of a site, which were not used yet.
#[derive(Drop)]
struct UnitEnds<'r, S: Site> {
    intake: Vec<Taker<'r, Sent>>,
    back: Vec<Fan<'r, Returned, PostRows<S>>>,
    notice: Vec<Fan<'r, Notice, NoticeRows<S>>>,
    logs: Vec<Log<'r, S>>,
    ghost intake_are: { AreTakers (intake_rows S.rows) S.rows.tasks S.rows.units intake.items },
    ghost back_are: { AreFans S.rows.units S.rows.tasks back.items },
    ghost notice_are: { AreFans S.rows.units 8 notice.items },
    ghost logs_are: { AreLogs S.rows S.rows.units logs.items },
}

/// The ends of the units of these rows, which are those of the site, with its tasks and the takers of its notices.
fn make_ends<'r, S: Site>(
    alloc: Global,
    rows: &'r mut Rows,
) -> Result<(UnitEnds<'r, S>, Vec<Task<'r, S>>, Vec<IscTaker<'r, S>>), AllocError>
    requires site { S.rows ≡ site_of rows.old }
    requires fresh { AreFresh rows.old }
    ensures tasks { IfOk result (λ made. AreTasks S.rows.tasks S.rows.units made.1.items) }
    ensures handlers { IfOk result (λ made. AreHandlers made.2.items) }
{
    let Ends {
        out,
        collected,
        intake,
        back,
        notice,
        handled,
        hands,
        logs,
    } = rows.seats::<S>(alloc)?;
    let tasks = make_tasks(alloc, out, collected, hands)?;
    let handlers = make_handlers(alloc, handled)?;
    let ends = UnitEnds {
        intake,
        back,
        notice,
        logs,
    };
    Ok((ends, tasks, handlers))
}

/// The tasks that these ends and pens are of.
fn make_tasks<'r, S: Site>(
    alloc: Global,
    out: Vec<Fan<'r, Sent, IntakeRows<S>>>,
    collected: Vec<Taker<'r, Returned>>,
    hands: Vec<Pens<'r, S>>,
) -> Result<Vec<Task<'r, S>>, AllocError>
    requires few_units { S.rows.units < 2 ^ 16 }
    requires out { AreFans S.rows.tasks S.rows.units out.items }
    requires collected { AreTakers (post_rows S.rows) S.rows.units S.rows.tasks collected.items }
    requires hands { AreHands S.rows.tasks S.rows.units hands.items }
    ensures { IfOk result (λ tasks. AreTasks S.rows.tasks S.rows.units tasks.items) }
{
    let mut tasks = Vec::new(alloc);
    for ((fan, taker), pens) in out.into_iter().zip(collected).zip(hands) {
        tasks.push(Task::new(fan.number(), fan, taker, pens))?;
    }
    Ok(tasks)
}

/// The takers of notices that these ends are of.
fn make_handlers<'r, S: Site>(
    alloc: Global,
    handled: Vec<Taker<'r, Notice>>,
) -> Result<Vec<IscTaker<'r, S>>, AllocError>
    requires { AreTakers (notice_rows S.rows) S.rows.units 8 handled.items }
    ensures { IfOk result (λ handlers. AreHandlers handlers.items) }
{
    let mut handlers = Vec::new(alloc);
    let mut isc = 0;
    for taker in handled {
        handlers.push(IscTaker::new(isc, taker))?;
        isc += 1;
    }
    Ok(handlers)
}

/// Puts each book with its unit's ends under a lock. There is room for all locks.
fn lock_units<'r, S: Opened<D>, D: Device>(
    books: Vec<UnitBook<D>>,
    ends: UnitEnds<'r, S>,
    mut locks: Vec<Mutex<UnitState<'r, S, D>>>,
) -> Vec<Mutex<UnitState<'r, S, D>>>
    requires books { AreBooks S.rows.units books.items }
    requires opened { S.opened ≡ books.items }
    requires none { vec_len locks ≡ 0 }
    requires room { S.rows.units ≤ vec_capacity locks }
    ensures { vec_len result ≡ S.rows.units }
{
    let rows = ends.intake.into_iter().zip(ends.back);
    let rows = rows.zip(ends.notice).zip(ends.logs);
    for (book, (((intake, back), notice), log)) in books.into_iter().zip(rows) {
        let notice = notice.into_end(u16::from(book.isc()));
        let unit = UnitState::new(back.number(), book, intake, back, notice, log);
        locks.push_reserved(Mutex::new(unit));
    }
    locks
}
