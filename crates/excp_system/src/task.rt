//! A task's ends of the rows.

ghost use Rattle.std.specs.Prelude.{◌≡◌, ◌<◌, ◌≤◌, ◌-◌, ◌^◌, length, IfErr, IfNone, IfOk, IfSome, OnErr, OnOk};
ghost use Rattle.std.specs.List.{All};
ghost use Rattle.fifo_row.specs.Lists.{of_sender};
ghost use Rattle.unit_book.specs.Steps.{ControlLacks, ControlRefused, ControlsBook};
ghost use Rattle.excp_system.specs.Notices.{Notifies, became_pending};
ghost use Rattle.excp_system.specs.Calls.{Asks, TaskCollects, IntakeWasFull, Issues, PostRowWasEmpty, next_name};
ghost use Rattle.excp_system.specs.Sites.{unit_of};
ghost use Rattle.excp_system.specs.States.{IsTask, sent_by};

use crate::fan::Fan;
use crate::item::{Returned, Sent};
use crate::pens::Pens;
use crate::site::{IntakeRows, Opened, Site};
use crate::unit::UnitState;
use device_port::Device;
use fifo_row::{Full, Taker};
use request_piece::{Name, Posted, Request};
use std::marker::Model;
use std::sync::Wait;
use unit_book::{Control, Controlling, DcbError};

/// A task. Contracts see its number, what it sent to each unit, what it collected, and the controls that it asked of each
/// unit.
#[derive(Drop)]
pub struct Task<'r, S: Site> {
    number: u16,
    out: Fan<'r, Sent, IntakeRows<S>>,
    collected: Taker<'r, Returned>,
    pens: Pens<'r, S>,
}

impl<'r, S: Site> Model for Task<'r, S> {
    ghost use Rattle.excp_system.specs.States.{TaskState, IsTask};

    ghost Value = { TaskState };

    ghost view = { λ t. record { number = t.number; sent = t.out.sent; got = t.collected.taken; asked = t.pens.asked } };

    ghost invariant = { λ t. IsTask S.rows (record { number = t.number; sent = t.out.sent; got = t.collected.taken; asked = t.pens.asked }) t.out t.collected t.pens };
}

impl<'r, S: Site> Task<'r, S> {
    /// The task with this number, these ends and these pens.
    pub(crate) fn new(
        number: u16,
        out: Fan<'r, Sent, IntakeRows<S>>,
        collected: Taker<'r, Returned>,
        pens: Pens<'r, S>,
    ) -> Task<'r, S>
        requires { IsTask S.rows (record { number = number; sent = out.sent; got = collected.taken; asked = pens.asked }) out collected pens }
        ensures { result ≡ record { number = number; sent = out.entry.sent; got = collected.entry.taken; asked = pens.entry.asked } }
    {
        Task {
            number,
            out,
            collected,
            pens,
        }
    }

    /// The number of the task. It takes no memory.
    pub fn number(&self) -> u16
        ensures is { result ≡ self.now.number }
        ensures of_site { result < S.rows.tasks }
    {
        self.number
    }

    /// What holds of a task at any time: it is of the site, and it has sent each unit at most 4,294,967,295 requests. It
    /// takes no memory.
    pub fn holds(&self)
        ensures of_site { self.now.number < S.rows.tasks }
        ensures count { length self.now.sent ≡ S.rows.units }
        ensures asked { length self.now.asked ≡ S.rows.units }
        ensures few_units { S.rows.units < 2 ^ 16 }
        ensures few { All (λ requests. length requests ≤ 2 ^ 32 - 1) self.now.sent }
    {
        let _ = &self.out;
    }

    /// How many requests it sent to a unit.
    pub(crate) fn issued(&self, unit: u16) -> u64
        requires { unit < S.rows.units }
        ensures { result ≡ length (sent_by self.now unit) }
    {
        self.out.sent_len(unit)
    }

    /// How many posted values of a unit it collected.
    pub(crate) fn collected(&self, unit: u16) -> u64
        requires { unit < S.rows.units }
        ensures { result ≡ length (of_sender unit_of unit self.now.got) }
    {
        self.collected.taken_len(unit)
    }

    /// The name of the next request to a unit, and none after the last number, 4,294,967,295 (profile). It takes no
    /// memory.
    pub fn name(&self, unit: u16) -> Option<Name>
        requires { unit < S.rows.units }
        ensures name { IfSome result (λ name. name ≡ next_name self.now unit) }
        ensures last { IfNone result (2 ^ 32 - 1 ≤ length (sent_by self.now unit)) }
    {
        let count = self.out.sent_len(unit);
        if count >= u64::from(u32::MAX) {
            return None;
        }
        Some(Name {
            task: self.number,
            seq: count as u32 + 1,
        })
    }

    /// Issues a request, whose name is the next to its unit (DFSMSdfp Advanced Services, EXCP). Never allocates, and
    /// takes no unit's lock.
    ///
    /// Error: the unit's row was full at one moment of the call. The request is handed back, and uses no number.
    pub fn excp<R: Wait>(&mut self, rt: &R, request: Request) -> Result<(), Full<Request>>
        requires unit { request.unit < S.rows.units }
        requires name { request.name ≡ next_name self.old request.unit }
        ensures accepted { OnOk result (Issues self.old request self.new) }
        ensures handed_back { IfErr result (λ full. full.0 ≡ request) }
        ensures unchanged { OnErr result (self.new ≡ self.old) }
        ensures was_full { OnErr result (IntakeWasFull S.rows self.old request.unit) }
    {
        let unit = request.unit();
        // its number has 32 bits, which bounds how many requests the task has sent
        let _name = request.name();
        match self.out.send(rt, unit, Sent::new(request)) {
            Ok(()) => Ok(()),
            Err(Full(sent)) => Err(Full(sent.into_request())),
        }
    }

    /// Collects the next posted value. Returns none only if the row was empty at one moment of the call. It takes no
    /// memory and no unit's lock.
    pub fn take_post<R: Wait>(&mut self, rt: &R) -> Option<Posted>
        ensures collected { IfSome result (λ value. TaskCollects self.old value self.new) }
        ensures of_unit { IfSome result (λ value. value.unit < S.rows.units) }
        ensures unchanged { IfNone result (self.new ≡ self.old) }
        ensures was_empty { IfNone result (PostRowWasEmpty S.rows self.old) }
    {
        match self.collected.take(rt) {
            Some(returned) => Some(returned.into_posted()),
            None => None,
        }
    }

    /// Asks a control of a unit whose lock is held, and signs it in the unit's log with the task's pen, unless memory runs
    /// out. If that halts the active program, the unit's interruption handler gets a notice, or is owed one if its row is
    /// full.
    ///
    /// Errors: those of the book, which leave the unit as it was. Unless memory ran out, the control was asked.
    pub fn control<D: Device, R: Wait>(
        &mut self,
        rt: &R,
        unit: &mut UnitState<'_, S, D>,
        control: Control,
    ) -> Result<Controlling, DcbError>
    where
        S: Opened<D>,
        ensures asked { Asks result self.old unit.old.unit control self.new }
        ensures ok { IfOk result (λ answer. ControlsBook D.meaning unit.old.book control answer unit.new.book) }
        ensures refused { IfErr result (ControlRefused unit.old.book control) }
        ensures full { IfErr result (λ e. e ≡ DcbError.NoMemory → ControlLacks unit.old.book control) }
        ensures err { OnErr result (unit.new ≡ unit.old) }
        ensures notice { Notifies S.rows (became_pending D.meaning unit.old.book unit.new.book) unit.old unit.new }
    {
        unit.control(rt, &mut self.pens, control)
    }

    /// Its ends of the intake rows, its end of its post row, and its pens.
    pub fn into_parts(
        self,
    ) -> (
        Fan<'r, Sent, IntakeRows<S>>,
        Taker<'r, Returned>,
        Pens<'r, S>,
    )
        ensures { IsTask S.rows self.entry result.0 result.1 result.2 }
    {
        let Task {
            number: _,
            out,
            collected,
            pens,
        } = self;
        (out, collected, pens)
    }
}
