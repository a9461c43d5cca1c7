//! The calls of a locked unit that are those of its book.

ghost use Rattle.std.specs.Prelude.{◌≡◌, ◌≤◌, ◌||◌, ◌&&◌, true, [], not, is_ok, length, IfErr, IfOk, OnErr, OnOk};
ghost use Rattle.unit_book.specs.Answers.{Adds, InterruptsBook, OpenRefused, OpensBook, RunsBook, StartsBook};
ghost use Rattle.unit_book.specs.Book.{is_pending};
ghost use Rattle.unit_book.specs.Controls.{ClosesBook, DcbRefused, PurgesBook, ResetRefused};
ghost use Rattle.unit_book.specs.Dcbs.{is_open, is_opened};
ghost use Rattle.unit_book.specs.Refusals.{CloseLacks, InterruptLacks, PurgeLacks, ResetLacks, RunLacks, SettleLacks, StartLacks};
ghost use Rattle.unit_book.specs.Settle.{AddsService, Settles};
ghost use Rattle.unit_book.specs.Steps.{ControlLacks, ControlRefused, ControlsBook};
ghost use Rattle.unit_book.specs.Trace.{active, waiting};
ghost use Rattle.excp_system.specs.Controls.{asks, is_asked};
ghost use Rattle.excp_system.specs.Notices.{InBook, Notifies, OwesIf, became_pending, leaves_pending};

use crate::item::Notice;
use crate::pens::Pens;
use crate::site::Opened;
use crate::unit::UnitState;
use device_port::Device;
use io_images::Extent;
use request_piece::Scope;
use std::alloc::AllocError;
use std::sync::Wait;
use unit_book::{
    Closing, Control, Controlling, DcbError, Entry, Interruption, Mode, OpenError,
    ProcessingMethod, Purging, Running, Starting,
};

/// Whether the answer of a run says that a status is pending now.
fn leaves_pending(answer: Running) -> bool
    ensures { result ≡ leaves_pending answer }
{
    match answer {
        Running::Quiet => false,
        Running::Ran { pending, .. } => pending,
    }
}

/// Whether a control was asked: its answer is not that memory ran out.
fn is_asked<T>(answer: &Result<T, DcbError>) -> bool
    ensures { result ≡ is_asked answer.now }
{
    !matches!(answer, Err(DcbError::NoMemory))
}

impl<'r, S: Opened<D>, D: Device> UnitState<'r, S, D> {
    /// Opens a DCB, as [`unit_book::UnitBook::open`].
    ///
    /// Errors: those of the book. Only the room for entries may have grown then.
    pub fn open(&mut self, method: ProcessingMethod, extents: &[Extent]) -> Result<u16, OpenError>
        requires { S.own_calls ≡ true }
        ensures ok { IfOk result (λ dcb. OpensBook D.meaning self.old.book dcb method extents.now self.new.book) }
        ensures refused { IfErr result (OpenRefused D.meaning self.old.book extents.now) }
        ensures err { OnErr result (self.new.book ≡ record self.old.book { spare = self.new.book.spare }) }
        ensures kept { OnErr result (self.old.book.spare ≤ self.new.book.spare) }
        ensures rest { InBook self.old self.new }
    {
        self.book.holds();
        self.book.open(method, extents)
    }

    /// Starts what comes next, as [`unit_book::UnitBook::start`].
    pub fn start(&mut self) -> Result<Starting, AllocError>
        ensures ok { IfOk result (λ answer. StartsBook D.meaning self.old.book answer self.new.book) }
        ensures full { OnErr result (StartLacks D.meaning self.old.book) }
        ensures err { OnErr result (self.new ≡ self.old) }
        ensures rest { InBook self.old self.new }
    {
        self.book.holds();
        self.book.start()
    }

    /// Runs the active program for at most `max` commands, as [`unit_book::UnitBook::run`]. If it ends, or a notice
    /// is owed, the unit's interruption handler gets one. If the row of its subclass is full, the notice is owed.
    ///
    /// Error: that of the book, which changes nothing.
    pub fn run<R: Wait>(&mut self, rt: &R, max: u32) -> Result<Running, AllocError>
        requires { 1 ≤ max }
        ensures ok { IfOk result (λ answer. RunsBook D.meaning self.old.book max answer self.new.book) }
        ensures full { OnErr result (RunLacks D.meaning self.old.book) }
        ensures err { OnErr result (self.new ≡ self.old) }
        ensures notice { IfOk result (λ answer. Notifies S.rows (self.old.owes || leaves_pending answer) self.old self.new) }
    {
        self.book.holds();
        let answer = self.book.run(max)?;
        let due = self.owes | leaves_pending(answer);
        self.notify(rt, due);
        Ok(answer)
    }

    /// Takes the pending status, as [`unit_book::UnitBook::interrupt`].
    ///
    /// Error: out of memory. The next `run` sends a notice again.
    pub fn interrupt(&mut self) -> Result<Interruption, AllocError>
        ensures ok { IfOk result (λ answer. InterruptsBook D.meaning self.old.book answer self.new.book) }
        ensures full { OnErr result (InterruptLacks D.meaning self.old.book) }
        ensures err { OnErr result (self.new ≡ record self.old { owes = true }) }
        ensures rest { OnOk result (InBook self.old self.new) }
    {
        self.book.holds();
        let answer = self.book.interrupt();
        self.owes |= answer.is_err();
        answer
    }

    /// Purges the requests of a DCB, as [`unit_book::UnitBook::purge`]. If that halts the active program, the
    /// unit's interruption handler gets a notice.
    ///
    /// Errors: those of the book, which change nothing.
    pub fn purge<R: Wait>(&mut self, rt: &R, dcb: u16, mode: Mode) -> Result<Purging, DcbError>
        requires { S.own_calls ≡ true }
        ensures opened { OnOk result (is_opened dcb self.old.book.trace ≡ true) }
        ensures ok { IfOk result (λ answer. PurgesBook D.meaning self.old.book (Scope.Dcb dcb) mode answer self.new.book) }
        ensures refused { IfErr result (DcbRefused self.old.book dcb) }
        ensures full { IfErr result (λ e. e ≡ DcbError.NoMemory → PurgeLacks self.old.book) }
        ensures err { OnErr result (self.new ≡ self.old) }
        ensures notice { Notifies S.rows (became_pending D.meaning self.old.book self.new.book) self.old self.new }
    {
        self.book.holds();
        let was_pending = self.book.pending();
        let answer = self.book.purge(dcb, mode);
        let control = Control::Purge(Scope::Dcb(dcb), mode);
        self.log.note(is_asked(&answer), control);
        let halted = !was_pending & self.book.pending();
        self.notify(rt, halted);
        answer
    }

    /// Purges the requests of a task, as [`unit_book::UnitBook::purge_task`]. Any number is allowed: of a task without
    /// requests the purge covers nothing.
    pub fn purge_task<R: Wait>(
        &mut self,
        rt: &R,
        task: u16,
        mode: Mode,
    ) -> Result<Purging, AllocError>
        requires { S.own_calls ≡ true }
        ensures ok { IfOk result (λ answer. PurgesBook D.meaning self.old.book (Scope.Task task) mode answer self.new.book) }
        ensures full { OnErr result (PurgeLacks self.old.book) }
        ensures err { OnErr result (self.new ≡ self.old) }
        ensures notice { Notifies S.rows (became_pending D.meaning self.old.book self.new.book) self.old self.new }
    {
        self.book.holds();
        let was_pending = self.book.pending();
        let answer = self.book.purge_task(task, mode);
        let control = Control::Purge(Scope::Task(task), mode);
        self.log.note(answer.is_ok(), control);
        let halted = !was_pending & self.book.pending();
        self.notify(rt, halted);
        answer
    }

    /// Closes a DCB, as [`unit_book::UnitBook::close`].
    ///
    /// Errors: those of the book, which change nothing.
    pub fn close(&mut self, dcb: u16) -> Result<Closing, DcbError>
        requires { S.own_calls ≡ true }
        ensures ok { IfOk result (λ answer. ClosesBook D.meaning self.old.book dcb answer self.new.book) }
        ensures refused { IfErr result (DcbRefused self.old.book dcb) }
        ensures full { IfErr result (λ e. e ≡ DcbError.NoMemory → CloseLacks self.old.book dcb) }
        ensures err { OnErr result (self.new ≡ self.old) }
        ensures rest { InBook self.old self.new }
    {
        self.book.holds();
        let answer = self.book.close(dcb);
        self.log.note(is_asked(&answer), Control::Close(dcb));
        answer
    }

    /// Clears the error flag of an open DCB, as [`unit_book::UnitBook::reset`].
    ///
    /// Errors: those of the book, which change nothing.
    pub fn reset(&mut self, dcb: u16) -> Result<(), DcbError>
        requires { S.own_calls ≡ true }
        ensures ok { OnOk result (Adds self.old.book (Entry.Reset dcb) self.new.book) }
        ensures opened { OnOk result (is_open dcb self.old.book.trace ≡ true) }
        ensures refused { IfErr result (ResetRefused self.old.book dcb) }
        ensures full { IfErr result (λ e. e ≡ DcbError.NoMemory → ResetLacks self.old.book) }
        ensures err { OnErr result (self.new ≡ self.old) }
        ensures rest { InBook self.old self.new }
    {
        self.book.holds();
        let answer = self.book.reset(dcb);
        self.log.note(is_asked(&answer), Control::Reset(dcb));
        answer
    }

    /// Does a control that a task asks with its pens.
    pub(crate) fn control<R: Wait>(
        &mut self,
        rt: &R,
        pens: &mut Pens<'_, S>,
        control: Control,
    ) -> Result<Controlling, DcbError>
        requires { length pens.old.asked ≡ S.rows.units }
        ensures asked { pens.new ≡ record pens.old { asked = asks (is_asked result) self.old.unit control pens.old.asked } }
        ensures ok { IfOk result (λ answer. ControlsBook D.meaning self.old.book control answer self.new.book) }
        ensures refused { IfErr result (ControlRefused self.old.book control) }
        ensures full { IfErr result (λ e. e ≡ DcbError.NoMemory → ControlLacks self.old.book control) }
        ensures err { OnErr result (self.new ≡ self.old) }
        ensures notice { Notifies S.rows (became_pending D.meaning self.old.book self.new.book) self.old self.new }
    {
        self.book.holds();
        let was_pending = self.book.pending();
        let answer = self.book.control(control);
        pens.note(self.unit, &mut self.log, is_asked(&answer), control);
        let halted = !was_pending & self.book.pending();
        self.notify(rt, halted);
        answer
    }

    /// Starts, runs and interrupts until nothing waits or is active, as [`unit_book::UnitBook::settle`]. If memory
    /// runs out with a status pending, a notice is owed.
    pub fn settle(&mut self) -> Result<(), AllocError>
        ensures steps { Settles D.meaning self.old.book self.new.book }
        ensures adds { AddsService self.old.book.trace self.new.book.trace }
        ensures waiting { OnOk result (waiting self.new.book.trace ≡ []) }
        ensures active { OnOk result (active self.new.book.trace ≡ None) }
        ensures mounted { self.new.book.mounted ≡ self.old.book.mounted }
        ensures isc { self.new.book.isc ≡ self.old.book.isc }
        ensures capacity { self.new.book.capacity ≡ self.old.book.capacity }
        ensures full { OnErr result (SettleLacks D.meaning self.new.book) }
        ensures notice { OwesIf (not (is_ok result) && is_pending D.meaning self.new.book) self.old self.new }
    {
        self.book.holds();
        let answer = self.book.settle();
        self.owes |= answer.is_err() & self.book.pending();
        answer
    }

    /// Sends a notice, if one is due. It is owed if the row of the unit's subclass is full.
    fn notify<R: Wait>(&mut self, rt: &R, due: bool)
        ensures book { self.new.book ≡ self.old.book }
        ensures notice { Notifies S.rows due self.old self.new }
    {
        if due {
            let notice = Notice { unit: self.unit };
            self.owes = self.notice.send(rt, notice).is_err();
        }
    }
}
