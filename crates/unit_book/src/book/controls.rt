//! Purges, closes and resets.

ghost use Rattle.std.specs.Prelude.{◌≡◌, ◌≤◌, ◌<◌, ◌+◌, ◌||◌, true, length, IfOk, IfErr, OnOk, OnErr};
ghost use Rattle.unit_book.specs.Answers.{Adds};
ghost use Rattle.unit_book.specs.Book.{is_pending};
ghost use Rattle.unit_book.specs.Controls.{ClosesBook, ClosesBy, DcbRefused, PurgesBook, PurgesBy, ResetRefused, active_of, closing, covers_awaiting, halts_program, purging};
ghost use Rattle.unit_book.specs.Dcbs.{is_opened, is_open};
ghost use Rattle.unit_book.specs.Legal.{CanPurge};
ghost use Rattle.unit_book.specs.Refusals.{CloseLacks, PurgeLacks, ResetLacks};
ghost use Rattle.unit_book.specs.Room.{KeepsRoom};
ghost use Rattle.unit_book.specs.Trace.{waiting};

use crate::answer::{Closing, DcbError, Purging};
use crate::book::UnitBook;
use crate::dcb::DcbState;
use crate::entry::{Entry, Mode};
use device_port::Device;
use request_piece::{Name, Scope};
use std::alloc::AllocError;
use unit_queue::Selection;

/// What a close answers.
fn closing(active: Option<Name>) -> Closing
    ensures { result ≡ closing active }
{
    match active {
        Some(name) => Closing::Closing(name),
        None => Closing::Closed,
    }
}

impl<D: Device> UnitBook<D> {
    /// Purges the requests of a DCB (DFSMSdfp Advanced Services, PURGE): those that wait are posted 48. Returns what
    /// is active then.
    ///
    /// With `Halt` the active request is covered too (profile):
    ///
    /// - A running program is halted, and the next `interrupt` posts it 48.
    /// - A pending status is posted 48 only if it would be tried again.
    /// - A request that awaits its restart is posted 48 at once, after the others.
    ///
    /// Errors, in this order, which change nothing: the DCB was never opened; out of memory.
    pub fn purge(&mut self, dcb: u16, mode: Mode) -> Result<Purging, DcbError>
        ensures opened { OnOk result (is_opened dcb self.old.trace ≡ true) }
        ensures ok { IfOk result (λ answer. PurgesBook D.meaning self.old (Scope.Dcb dcb) mode answer self.new) }
        ensures spare { OnOk result (KeepsRoom self.old self.new) }
        ensures refused { IfErr result (DcbRefused self.old dcb) }
        ensures err { OnErr result (self.new ≡ self.old) }
        ensures full { IfErr result (λ e. e ≡ DcbError.NoMemory → PurgeLacks self.old) }
        ensures pending { OnOk result (is_pending D.meaning self.new ≡ (is_pending D.meaning self.old || halts_program D.meaning self.old (Scope.Dcb dcb) mode)) }
    {
        if self.dcb_state(dcb) == DcbState::Unknown {
            return Err(DcbError::NoSuchDcb);
        }
        self.purge_scope(Scope::Dcb(dcb), mode)
            .map_err(|_| DcbError::NoMemory)
    }

    /// Purges the requests of a task, as `purge` those of a DCB (profile).
    ///
    /// Error: out of memory. Nothing changes then.
    pub fn purge_task(&mut self, task: u16, mode: Mode) -> Result<Purging, AllocError>
        ensures ok { IfOk result (λ answer. PurgesBook D.meaning self.old (Scope.Task task) mode answer self.new) }
        ensures spare { OnOk result (KeepsRoom self.old self.new) }
        ensures err { OnErr result (self.new ≡ self.old) }
        ensures full { OnErr result (PurgeLacks self.old) }
        ensures pending { OnOk result (is_pending D.meaning self.new ≡ (is_pending D.meaning self.old || halts_program D.meaning self.old (Scope.Task task) mode)) }
    {
        self.purge_scope(Scope::Task(task), mode)
    }

    /// Purges the requests of a scope.
    fn purge_scope(&mut self, scope: Scope, mode: Mode) -> Result<Purging, AllocError>
        requires { CanPurge D.meaning self.old.mounted scope self.old.trace }
        ensures ok { IfOk result (λ answer. PurgesBook D.meaning self.old scope mode answer self.new) }
        ensures spare { OnOk result (KeepsRoom self.old self.new) }
        ensures err { OnErr result (self.new ≡ self.old) }
        ensures full { OnErr result (PurgeLacks self.old) }
        ensures pending { OnOk result (is_pending D.meaning self.new ≡ (is_pending D.meaning self.old || halts_program D.meaning self.old scope mode)) }
    {
        self.entries.holds();
        self.entries.reserve_posts(2)?;
        self.purge_in_room(scope, mode);
        Ok(self.purging(scope))
    }

    /// What a purge of a scope answers.
    fn purging(&self, scope: Scope) -> Purging
        ensures { result ≡ purging (active_of scope self.now.trace) }
    {
        match self.entries.active_of(scope) {
            Some(name) => Purging::Active(name),
            None => Purging::Quiet,
        }
    }

    /// Purges the requests of a scope. There is room for the entries.
    fn purge_in_room(&mut self, scope: Scope, mode: Mode)
        requires spare { length (waiting self.old.trace) + 2 ≤ self.old.spare }
        requires can { CanPurge D.meaning self.old.mounted scope self.old.trace }
        ensures book { PurgesBy D.meaning (covers_awaiting self.old scope mode) self.old scope mode self.new }
        ensures spare { KeepsRoom self.old self.new }
    {
        if self.entries.purge_awaiting(scope, mode) {
            return;
        }
        self.entries.purge(scope, mode);
        self.entries.sweep(Some(Selection::Scope(scope)));
    }

    /// Closes a DCB (DFSMSdfp Advanced Services, CLOSE): its requests that wait are posted 48, an active one goes
    /// on (profile). A DCB that is closed already stays as it is. Returns whether a request of it is active.
    ///
    /// Errors, in this order, which change nothing: the DCB was never opened; out of memory.
    pub fn close(&mut self, dcb: u16) -> Result<Closing, DcbError>
        ensures ok { IfOk result (λ answer. ClosesBook D.meaning self.old dcb answer self.new) }
        ensures spare { OnOk result (KeepsRoom self.old self.new) }
        ensures refused { IfErr result (DcbRefused self.old dcb) }
        ensures full { IfErr result (λ e. e ≡ DcbError.NoMemory → CloseLacks self.old dcb) }
        ensures err { OnErr result (self.new ≡ self.old) }
        ensures pending { is_pending D.meaning self.new ≡ is_pending D.meaning self.old }
    {
        let state = self.dcb_state(dcb);
        if state == DcbState::Unknown {
            return Err(DcbError::NoSuchDcb);
        }
        if state == DcbState::Open && self.close_open(dcb).is_err() {
            return Err(DcbError::NoMemory);
        }
        Ok(closing(self.entries.active_of(Scope::Dcb(dcb))))
    }

    /// Closes a DCB that is open.
    fn close_open(&mut self, dcb: u16) -> Result<(), AllocError>
        requires { is_open dcb self.old.trace ≡ true }
        ensures ok { OnOk result (ClosesBy D.meaning true self.old dcb self.new) }
        ensures spare { OnOk result (KeepsRoom self.old self.new) }
        ensures err { OnErr result (self.new ≡ self.old) }
        ensures full { OnErr result (CloseLacks self.old dcb) }
        ensures pending { is_pending D.meaning self.new ≡ is_pending D.meaning self.old }
    {
        self.entries.holds();
        self.entries.reserve_posts(1)?;
        self.entries.close(dcb);
        self.entries.sweep(Some(Selection::Scope(Scope::Dcb(dcb))));
        Ok(())
    }

    /// Clears the error flag of an open DCB, as storing 00 in DCBIFLGS (DFSMSdfp Advanced Services, "Data
    /// Control Block Fields").
    ///
    /// Errors, in this order, which change nothing: the DCB is not open; out of memory.
    pub fn reset(&mut self, dcb: u16) -> Result<(), DcbError>
        ensures ok { OnOk result (Adds self.old (Entry.Reset dcb) self.new) }
        ensures spare { OnOk result (KeepsRoom self.old self.new) }
        ensures opened { OnOk result (is_open dcb self.old.trace ≡ true) }
        ensures refused { IfErr result (ResetRefused self.old dcb) }
        ensures full { IfErr result (λ e. e ≡ DcbError.NoMemory → ResetLacks self.old) }
        ensures err { OnErr result (self.new ≡ self.old) }
        ensures pending { is_pending D.meaning self.new ≡ is_pending D.meaning self.old }
    {
        if self.dcb_state(dcb) != DcbState::Open {
            return Err(DcbError::NoSuchDcb);
        }
        if self.entries.reserve(1).is_err() {
            return Err(DcbError::NoMemory);
        }
        self.entries.reset(dcb);
        Ok(())
    }
}
