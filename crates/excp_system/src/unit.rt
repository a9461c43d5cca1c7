//! What a unit's lock protects.

mod book_calls;

ghost use Rattle.std.specs.Prelude.{◌≡◌, ◌<◌, ◌≤◌, ◌++◌, ℕ, false, length, slice_get, IfOk, OnErr, Some};
ghost use Rattle.fifo_row.specs.Lists.{of_sender};
ghost use Rattle.unit_book.specs.Book.{given, occupancy};
ghost use Rattle.unit_book.specs.Legal.{Legal, Settled};
ghost use Rattle.unit_book.specs.Posts.{posted};
ghost use Rattle.unit_book.specs.Trace.{arrivals, arrived_of};
ghost use Rattle.excp_system.specs.Begun.{Began};
ghost use Rattle.excp_system.specs.Controls.{KeepsLog};
ghost use Rattle.excp_system.specs.RowCalls.{UnitDelivers, TakesIn};
ghost use Rattle.excp_system.specs.Fans.{sent_to};
ghost use Rattle.excp_system.specs.Sites.{end_of, for_task, intake_rows, notice_rows, taker_of};
ghost use Rattle.excp_system.specs.States.{AreOf, IsUnit, owing_nothing};

use crate::fan::Fan;
use crate::item::{Notice, Returned, Sent};
use crate::log::Log;
use crate::site::{Opened, PostRows};
use device_port::Device;
use fifo_row::{Full, Sender, Taker};
use std::alloc::AllocError;
use std::marker::{Model, PhantomData};
use std::sync::Wait;
use unit_book::{Delivery, Intake, UnitBook};

/// A unit's book with its ends of the rows, and the log of its controls. Contracts see the unit's number, the book, the
/// notices that it sent, and whether it owes one.
#[derive(Drop)]
pub struct UnitState<'r, S: Opened<D>, D: Device> {
    unit: u16,
    book: UnitBook<D>,
    intake: Taker<'r, Sent>,
    back: Fan<'r, Returned, PostRows<S>>,
    notice: Sender<'r, Notice>,
    log: Log<'r, S>,
    /// Whether a notice is to be sent at the next `run`.
    owes: bool,
    of: PhantomData<S>,
}

impl<'r, S: Opened<D>, D: Device> Model for UnitState<'r, S, D> {
    ghost use Rattle.excp_system.specs.Begun.{Began};
    ghost use Rattle.excp_system.specs.Controls.{KeepsLog};
    ghost use Rattle.excp_system.specs.States.{IsUnit, Locked};

    ghost Value = { Locked D };

    ghost view = { λ u. record { unit = u.unit; book = u.book; notified = u.notice.sent; owes = u.owes } };

    ghost invariant = { λ u. IsUnit D.meaning S.rows (record { unit = u.unit; book = u.book; notified = u.notice.sent; owes = u.owes }) u.intake u.back u.notice
        × Began S.opened u.unit u.book × KeepsLog S.rows S.own_calls S.opened u.unit u.log u.book.trace };
}

impl<'r, S: Opened<D>, D: Device> UnitState<'r, S, D> {
    /// The unit with this number, book, ends and log, which owes no notice. The book is the one that was handed in for it.
    pub(crate) fn new(
        unit: u16,
        book: UnitBook<D>,
        intake: Taker<'r, Sent>,
        back: Fan<'r, Returned, PostRows<S>>,
        notice: Sender<'r, Notice>,
        log: Log<'r, S>,
    ) -> UnitState<'r, S, D>
        requires ends { IsUnit D.meaning S.rows (owing_nothing unit book notice.sent) intake back notice }
        requires opened { slice_get S.opened unit ≡ Some book }
        requires log { KeepsLog S.rows S.own_calls S.opened unit log book.trace }
        ensures { result ≡ owing_nothing unit book notice.entry.sent }
    {
        UnitState {
            unit,
            book,
            intake,
            back,
            notice,
            log,
            owes: false,
            of: PhantomData,
        }
    }

    /// The number of the unit. It takes no memory.
    pub fn unit(&self) -> u16
        ensures is { result ≡ self.now.unit }
        ensures of_site { result < S.rows.units }
    {
        self.unit
    }

    /// The book of the unit. It takes no memory.
    pub fn book(&self) -> &UnitBook<D>
        ensures { result.now ≡ self.now.book }
    {
        &self.book
    }

    /// What holds whenever a caller has the unit's lock. The book keeps its invariant. Each request is of one of the tasks and for
    /// this unit. The book continues the one that the unit was made with, on the device as it was mounted. For the ends of the
    /// unit's rows see `intake`, `back` and `notice`. Never allocates.
    pub fn holds(&self)
        ensures legal { Legal D.meaning self.now.book.mounted self.now.book.trace }
        ensures settled { Settled D.meaning self.now.book.mounted self.now.book.trace }
        ensures given { given D.meaning self.now.book ++ self.now.book.out ≡ posted D.meaning self.now.book.mounted self.now.book.trace }
        ensures occupancy { occupancy self.now.book ≤ self.now.book.capacity }
        ensures isc { self.now.book.isc ≤ 7 }
        ensures of_unit { AreOf S.rows self.now.unit (arrivals self.now.book.trace) }
        ensures began { Began S.opened self.now.unit self.now.book }
    {
        self.book.holds();
    }

    /// Its end of the intake row that the site has for this unit: what was taken there is what arrived at the book, in
    /// order. It takes no memory.
    pub fn intake(&self) -> &Taker<'r, Sent>
        ensures { result.now ≡ taker_of (intake_rows S.rows) S.rows.tasks self.now.unit (arrivals self.now.book.trace) }
    {
        &self.intake
    }

    /// Its ends of the post rows: each task was sent what the book gave of its posted values, in order. It takes no
    /// memory.
    pub fn back(&self) -> &Fan<'r, Returned, PostRows<S>>
        ensures number { result.now.number ≡ self.now.unit }
        ensures count { length result.now.sent ≡ S.rows.tasks }
        ensures sent { (task : ℕ) → task < S.rows.tasks → sent_to result.now task ≡ of_sender for_task task (given D.meaning self.now.book) }
    {
        &self.back
    }

    /// Its end of the notice row that the site has for the book's interruption subclass. It takes no memory.
    pub fn notice(&self) -> &Sender<'r, Notice>
        ensures { result.now ≡ end_of (notice_rows S.rows) self.now.unit self.now.book.isc self.now.notified }
    {
        &self.notice
    }

    /// How many requests of a task it took.
    pub(crate) fn took(&self, task: u16) -> u64
        requires { task < S.rows.tasks }
        ensures { result ≡ arrived_of task self.now.book.trace }
    {
        self.intake.taken_len(task)
    }

    /// How many posted values it gave to a task.
    pub(crate) fn gave(&self, task: u16) -> u64
        requires { task < S.rows.tasks }
        ensures { result ≡ length (of_sender for_task task (given D.meaning self.now.book)) }
    {
        self.back.sent_len(task)
    }

    /// Lets the first request of the intake row arrive at the book, if the book has room.
    ///
    /// Error: out of memory. Nothing is taken then.
    pub fn take<R: Wait>(&mut self, rt: &R) -> Result<Intake, AllocError>
        ensures answer { IfOk result (λ answer. TakesIn D.meaning S.rows self.old answer self.new) }
        ensures err { OnErr result (self.new ≡ self.old) }
        ensures refused { OnErr result ((occupancy self.old.book < self.old.book.capacity) × (self.old.book.spare < 2)) }
    {
        if !self.book.has_room() {
            return Ok(Intake::Held);
        }
        self.book.holds();
        self.book.reserve()?;
        match self.intake.take(rt) {
            None => Ok(Intake::Quiet),
            Some(sent) => {
                let request = sent.into_request();
                let name = request.name();
                self.book.arrive_reserved(request);
                Ok(Intake::Took(name))
            }
        }
    }

    /// Sends the first posted value that is out back to its task. It takes no memory.
    pub fn deliver<R: Wait>(&mut self, rt: &R) -> Delivery
        ensures { UnitDelivers D.meaning S.rows self.old result self.new }
    {
        self.book.holds();
        match self.book.take_out() {
            None => Delivery::Quiet,
            Some(value) => {
                let name = value.name();
                match self.back.send(rt, name.task, Returned::new(value)) {
                    Ok(()) => Delivery::Delivered(name),
                    Err(Full(returned)) => {
                        self.book.return_out(returned.into_posted());
                        Delivery::Full(name)
                    }
                }
            }
        }
    }

    /// The book, the end of the intake row, those of the post rows and that of the notice row, and the log, which has the
    /// controls of the trace. It takes no memory.
    pub fn into_parts(
        self,
    ) -> (
        UnitBook<D>,
        Taker<'r, Sent>,
        Fan<'r, Returned, PostRows<S>>,
        Sender<'r, Notice>,
        Log<'r, S>,
    )
        ensures book { result.0 ≡ self.entry.book }
        ensures log { KeepsLog S.rows S.own_calls S.opened self.entry.unit result.4 self.entry.book.trace }
        ensures ends { IsUnit D.meaning S.rows self.entry result.1 result.2 result.3 }
    {
        let UnitState {
            unit: _,
            book,
            intake,
            back,
            notice,
            log,
            owes: _,
            of: _,
        } = self;
        (book, intake, back, notice, log)
    }
}
