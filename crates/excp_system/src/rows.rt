//! The rows of a system.

ghost use Rattle.std.specs.Prelude.{◌≡◌, ◌<◌, ◌≤◌, ◌^◌, IfOk};
ghost use Rattle.excp_system.specs.Opening.{AreBlank, AreFans, AreFresh, AreHands, AreLogs, ArePlain, AreTakers, site_of};
ghost use Rattle.excp_system.specs.Sites.{intake_rows, notice_rows, post_rows};

use crate::fan::Fan;
use crate::item::{Notice, Returned, Sent};
use crate::log::Log;
use crate::opening::{new_fans, new_hands, seat_registers, seat_rows};
use crate::pens::Pens;
use crate::site::{IntakeRows, NoticeRows, PostRows, Site};
use fifo_row::{Row, RowItem, Taker};
use signed_list::Register;
use std::alloc::{AllocError, Global};
use std::marker::Model;
use unit_book::Control;

/// How many interruption subclasses there are (SA22-7832, "Interruption Subclass").
pub(crate) const SUBCLASSES: u16 = 8;

/// The rows of a system: an intake row for each unit, a post row for each task, and a notice row for each interruption
/// subclass. A row's tag is the number of that unit, task or subclass. With them goes a register for each unit, of the
/// controls that are asked of it.
#[derive(Drop)]
pub struct Rows {
    tasks: u16,
    units: u16,
    intake_capacity: usize,
    post_capacity: usize,
    intake: Vec<Row<Sent>>,
    post: Vec<Row<Returned>>,
    notice: Vec<Row<Notice>>,
    registers: Vec<Register<Control>>,
}

impl Model for Rows {
    ghost use Rattle.excp_system.specs.Opening.{RowsState};

    ghost Value = { RowsState };

    ghost view = { λ r. record {
      tasks = r.tasks;
      units = r.units;
      intake_capacity = r.intake_capacity;
      post_capacity = r.post_capacity;
      intake = r.intake.items;
      post = r.post.items;
      notice = r.notice.items;
      registers = r.registers.items;
    } };
}

impl Rows {
    /// The rows for these numbers of tasks and units (1 to 64 each). `intake` is the capacity of each intake row and
    /// `post` that of each post row (1 to 65,536 each). A notice row has room for a notice of each unit.
    pub fn new(
        alloc: Global,
        tasks: u16,
        units: u16,
        intake: usize,
        post: usize,
    ) -> Result<Rows, AllocError>
        requires tasks { (1 ≤ tasks) × (tasks ≤ 64) }
        requires units { (1 ≤ units) × (units ≤ 64) }
        requires intake { (1 ≤ intake) × (intake ≤ 65536) }
        requires post { (1 ≤ post) × (post ≤ 65536) }
        ensures tasks { IfOk result (λ rows. rows.tasks ≡ tasks) }
        ensures units { IfOk result (λ rows. rows.units ≡ units) }
        ensures intake { IfOk result (λ rows. rows.intake_capacity ≡ intake) }
        ensures post { IfOk result (λ rows. rows.post_capacity ≡ post) }
        ensures fresh { IfOk result AreFresh }
    {
        Ok(Rows {
            tasks,
            units,
            intake_capacity: intake,
            post_capacity: post,
            intake: new_rows(alloc, units, tasks, intake)?,
            post: new_rows(alloc, tasks, units, post)?,
            notice: new_rows(alloc, SUBCLASSES, units, usize::from(units))?,
            registers: new_registers(alloc, units, tasks)?,
        })
    }

    /// How many units they are for.
    pub fn units(&self) -> u16
        ensures { result ≡ self.now.units }
    {
        self.units
    }

    /// The ends of these rows, which are those of the site.
    pub(crate) fn seats<S: Site>(&mut self, alloc: Global) -> Result<Ends<'_, S>, AllocError>
        requires site { S.rows ≡ site_of self.old }
        requires fresh { AreFresh self.old }
    {
        let tasks = self.tasks;
        let units = self.units;
        let mut out = new_fans::<Sent, IntakeRows<S>>(alloc, tasks)?;
        let intake = seat_rows(alloc, &mut self.intake, tasks, &mut out)?;
        let mut back = new_fans::<Returned, PostRows<S>>(alloc, units)?;
        let collected = seat_rows(alloc, &mut self.post, units, &mut back)?;
        let mut notice = new_fans::<Notice, NoticeRows<S>>(alloc, units)?;
        let handled = seat_rows(alloc, &mut self.notice, units, &mut notice)?;
        let mut hands = new_hands::<S>(alloc, tasks)?;
        let logs = seat_registers(alloc, &mut self.registers, tasks, &mut hands)?;
        Ok(Ends {
            out,
            collected,
            intake,
            back,
            notice,
            handled,
            hands,
            logs,
        })
    }
}

/// The ends of all rows of a site, which were not used yet. The tasks have ends of the intake rows and of their post
/// rows. The units have ends of their intake rows, of the post rows and of the notice rows. The handlers have ends of
/// the notice rows. The tasks have pens of the units' registers, which have their lists in the units' logs.
#[derive(Drop)]
pub(crate) struct Ends<'r, S: Site> {
    pub(crate) out: Vec<Fan<'r, Sent, IntakeRows<S>>>,
    pub(crate) collected: Vec<Taker<'r, Returned>>,
    pub(crate) intake: Vec<Taker<'r, Sent>>,
    pub(crate) back: Vec<Fan<'r, Returned, PostRows<S>>>,
    pub(crate) notice: Vec<Fan<'r, Notice, NoticeRows<S>>>,
    pub(crate) handled: Vec<Taker<'r, Notice>>,
    pub(crate) hands: Vec<Pens<'r, S>>,
    pub(crate) logs: Vec<Log<'r, S>>,
    ghost few_units: { S.rows.units < 2 ^ 16 },
    ghost out_are: { AreFans S.rows.tasks S.rows.units out.items },
    ghost collected_are: { AreTakers (post_rows S.rows) S.rows.units S.rows.tasks collected.items },
    ghost intake_are: { AreTakers (intake_rows S.rows) S.rows.tasks S.rows.units intake.items },
    ghost back_are: { AreFans S.rows.units S.rows.tasks back.items },
    ghost notice_are: { AreFans S.rows.units 8 notice.items },
    ghost handled_are: { AreTakers (notice_rows S.rows) S.rows.units 8 handled.items },
    ghost hands_are: { AreHands S.rows.tasks S.rows.units hands.items },
    ghost logs_are: { AreLogs S.rows S.rows.units logs.items },
}

/// `count` rows, each with its index for its tag.
fn new_rows<I: RowItem + Drop>(
    alloc: Global,
    count: u16,
    senders: u16,
    capacity: usize,
) -> Result<Vec<Row<I>>, AllocError>
    requires senders { 0 < senders }
    requires capacity { 0 < capacity }
    ensures { IfOk result (λ rows. ArePlain capacity count senders rows.items) }
{
    let mut rows = Vec::with_capacity(alloc, usize::from(count))?;
    for tag in 0..count {
        rows.push_reserved(Row::new(alloc, senders, capacity, tag)?);
    }
    Ok(rows)
}

/// `count` registers, each with a pen for each of `tasks` tasks and one for the unit's own calls.
fn new_registers(
    alloc: Global,
    count: u16,
    tasks: u16,
) -> Result<Vec<Register<Control>>, AllocError>
    requires { tasks ≤ 64 }
    ensures { IfOk result (λ registers. AreBlank count tasks registers.items) }
{
    let mut registers = Vec::with_capacity(alloc, usize::from(count))?;
    for _ in 0..count {
        registers.push_reserved(Register::new(alloc, tasks + 1)?);
    }
    Ok(registers)
}
