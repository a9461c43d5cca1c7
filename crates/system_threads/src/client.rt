//! A task that sleeps until its requests are posted.

ghost use Rattle.std.specs.Prelude.{◌≡◌, ◌<◌, ◌≤◌, ◌-◌, ◌^◌, length, IfErr, IfNone, IfOk, IfSome, OnErr, OnOk};
ghost use Rattle.std.specs.Arc.{arc_value};
ghost use Rattle.request_piece.specs.Requests.{request_of};
ghost use Rattle.unit_book.specs.Steps.{ControlLacks, ControlRefused, ControlsBook};
ghost use Rattle.excp_system.specs.Notices.{Notifies, became_pending};
ghost use Rattle.excp_system.specs.Calls.{Asks, TaskCollects, IntakeWasFull, Issues, PostRowWasEmpty, next_name};
ghost use Rattle.excp_system.specs.States.{awaited_count, sent_by};
ghost use Rattle.system_threads.specs.Counting.{HasCounted};
ghost use Rattle.system_threads.specs.Issuing.{IssueRefused};

use crate::alarm::Alarm;
use crossbeam_utils::Backoff;
use crossbeam_utils::sync::{Parker, Unparker};
use device_port::Device;
use excp_system::{Opened, Site, Task, UnitState};
use fifo_row::Full;
use io_area::Area;
use request_piece::{Name, Posted, Request, RequestError};
use std::alloc::{AllocError, Global};
use std::marker::Model;
use std::sync::{Arc, Wait};
use thiserror::Error;
use unit_book::{Control, Controlling, DcbError};

/// Why a request is not issued.
#[derive(Clone, Copy, PartialEq, Eq, Debug, Error)]
pub enum IssueError {
    /// The task has sent as many requests to the unit as there are numbers.
    #[error("the last number of a request to this unit is used")]
    NoName,
    /// The area describes no request, or there is no memory for it.
    #[error("{0}")]
    Request(RequestError),
    /// There was no room in the unit's row.
    #[error("the row of the unit is full")]
    Full,
}

/// A task that counts how many posts it awaits, and sleeps until the next of them is there. Contracts see the task: its
/// number, what it sent to each unit, what it collected, and the controls that it asked of each unit.
///
/// A run keeps each request as it was issued, in the trace of its unit, until its report is dropped. That of
/// [`Client::issue`] has a copy of its area, at most 8,192 bytes. Requests of [`Client::issue_over`] share one area, so a
/// client that issues the same request many times takes only the entries of the trace for each.
#[derive(Drop)]
pub struct Client<'r, S: Site> {
    task: Task<'r, S>,
    /// How many requests it sent.
    issued: usize,
    /// How many posted values it collected.
    collected: usize,
    parker: Parker,
}

impl<'r, S: Site> Model for Client<'r, S> {
    ghost use Rattle.excp_system.specs.States.{TaskState};
    ghost use Rattle.system_threads.specs.Counting.{HasCounted};

    ghost Value = { TaskState };

    ghost view = { λ c. c.task };

    ghost invariant = { λ c. HasCounted c.task c.issued c.collected };
}

impl<'r, S: Site> Client<'r, S> {
    /// The client of a task that has sent and collected nothing.
    pub(crate) fn new(alloc: Global, task: Task<'r, S>) -> Result<Client<'r, S>, AllocError>
        requires { HasCounted task 0 0 }
        ensures { IfOk result (λ client. client ≡ task.entry) }
    {
        Ok(Client {
            task,
            issued: 0,
            collected: 0,
            parker: Parker::new(alloc)?,
        })
    }

    /// What wakes it.
    pub(crate) fn unparker(&self) -> Result<Unparker, AllocError> {
        self.parker.unparker().clone()
    }

    /// The number of the task.
    pub fn number(&self) -> u16
        ensures is { result ≡ self.now.number }
        ensures of_site { result < S.rows.tasks }
    {
        self.task.number()
    }

    /// What holds of a client at any time, by [`Task::holds`] of its task: units have 16-bit numbers, and it has a list of
    /// controls for each.
    pub fn holds(&self)
        ensures few_units { S.rows.units < 2 ^ 16 }
        ensures asked { length self.now.asked ≡ S.rows.units }
    {
        self.task.holds();
    }

    /// How many posts it awaits: the count of the requests that it sent, less that of the posted values that it collected.
    pub fn awaited(&self) -> usize
        ensures { result ≡ awaited_count self.now }
    {
        self.task.holds();
        self.issued.saturating_sub(self.collected)
    }

    /// The name of the next request to a unit, and none after the last number, 4,294,967,295 (profile).
    pub fn name(&self, unit: u16) -> Option<Name>
        requires { unit < S.rows.units }
        ensures name { IfSome result (λ name. name ≡ next_name self.now unit) }
        ensures last { IfNone result (2 ^ 32 - 1 ≤ length (sent_by self.now unit)) }
    {
        self.task.name(unit)
    }

    /// Asks a control of a unit whose lock is held, as [`Task::control`].
    ///
    /// Errors: those of the book, which leave the unit as it was. Unless memory ran out, the control was asked.
    pub fn control<D: Device, R: Wait>(
        &mut self,
        rt: &R,
        unit: &mut UnitState<'_, S, D>,
        control: Control,
    ) -> Result<Controlling, DcbError>
    where
        S: Opened<D>,
        ensures asked { Asks result self.old unit.old.unit control self.new }
        ensures ok { IfOk result (λ answer. ControlsBook D.meaning unit.old.book control answer unit.new.book) }
        ensures refused { IfErr result (ControlRefused unit.old.book control) }
        ensures full { IfErr result (λ e. e ≡ DcbError.NoMemory → ControlLacks unit.old.book control) }
        ensures err { OnErr result (unit.new ≡ unit.old) }
        ensures notice { Notifies S.rows (became_pending D.meaning unit.old.book unit.new.book) unit.old unit.new }
    {
        self.task.control(rt, unit, control)
    }

    /// Issues a request, whose name is the next to its unit, as [`Task::excp`].
    ///
    /// Error: the unit's row was full at one moment of the call. The request is handed back.
    pub fn excp<R: Wait>(&mut self, rt: &R, request: Request) -> Result<(), Full<Request>>
        requires unit { request.unit < S.rows.units }
        requires name { request.name ≡ next_name self.old request.unit }
        ensures accepted { OnOk result (Issues self.old request self.new) }
        ensures handed_back { IfErr result (λ full. full.0 ≡ request) }
        ensures unchanged { OnErr result (self.new ≡ self.old) }
        ensures was_full { OnErr result (IntakeWasFull S.rows self.old request.unit) }
    {
        self.task.holds();
        self.task.excp(rt, request)?;
        self.issued += 1;
        Ok(())
    }

    /// Issues the request that the IOB at the address `iob` of an area describes, to a DCB of a unit (DFSMSdfp Advanced
    /// Services, EXCP).
    ///
    /// Errors, each with the area, in this order: the last number is used; the area describes no request, or memory runs
    /// out; the unit's row was full at one moment of the call.
    pub fn issue<R: Wait>(
        &mut self,
        rt: &R,
        alloc: Global,
        unit: u16,
        dcb: u16,
        iob: u32,
        area: Area,
    ) -> Result<(), (IssueError, Area)>
        requires { unit < S.rows.units }
        ensures accepted { OnOk result (Issues self.old (request_of (next_name self.old unit) unit dcb iob area) self.new) }
        ensures refused { IfErr result (λ e. IssueRefused S.rows self.old unit dcb iob area e.0) }
        ensures given_back { IfErr result (λ e. e.1 ≡ area) }
        ensures unchanged { OnErr result (self.new ≡ self.old) }
    {
        let Some(name) = self.name(unit) else {
            return Err((IssueError::NoName, area));
        };
        match Request::new(alloc, name, unit, dcb, iob, area) {
            Ok(request) => self
                .excp(rt, request)
                .map_err(|full| (IssueError::Full, area_of(full))),
            Err((error, area)) => Err((IssueError::Request(error), area)),
        }
    }

    /// Issues the request that the IOB at the address `iob` of a shared area describes, as `issue`. The request works on
    /// a copy, which its post has. The trace keeps the area itself, so issuing over it again takes no memory for a
    /// further one.
    ///
    /// Errors: as of `issue`. The caller keeps the area.
    pub fn issue_over<R: Wait>(
        &mut self,
        rt: &R,
        alloc: Global,
        unit: u16,
        dcb: u16,
        iob: u32,
        area: &Arc<Area, Global>,
    ) -> Result<(), IssueError>
        requires { unit < S.rows.units }
        ensures accepted { OnOk result (Issues self.old (request_of (next_name self.old unit) unit dcb iob (arc_value area.now)) self.new) }
        ensures refused { IfErr result (IssueRefused S.rows self.old unit dcb iob (arc_value area.now)) }
        ensures unchanged { OnErr result (self.new ≡ self.old) }
    {
        let Some(name) = self.name(unit) else {
            return Err(IssueError::NoName);
        };
        match Request::over(alloc, name, unit, dcb, iob, area) {
            Ok(request) => self.excp(rt, request).map_err(|_| IssueError::Full),
            Err(error) => Err(IssueError::Request(error)),
        }
    }

    /// Collects the next post of its requests, and sleeps until there is one. Takes no memory. The alarm is that of
    /// the run.
    ///
    /// If a call of a worker ran out of memory in [`LASTING_TURNS`](crate::LASTING_TURNS) turns in a row, a post may
    /// never come. So if there was none at one moment of the call, it then returns an error, whether a post is awaited
    /// or not. Else it returns none only if it has collected at least as many posts as it sent requests.
    pub fn next_post<R: Wait>(
        &mut self,
        rt: &R,
        alarm: &Alarm,
    ) -> Result<Option<Posted>, AllocError>
        ensures collected { IfOk result (λ next. IfSome next (λ posted. TaskCollects self.old posted self.new)) }
        ensures of_unit { IfOk result (λ next. IfSome next (λ posted. posted.unit < S.rows.units)) }
        ensures none { IfOk result (λ next. IfNone next (self.new ≡ self.old)) }
        ensures awaits_none { IfOk result (λ next. IfNone next (awaited_count self.old ≡ 0)) }
        ensures was_empty { IfOk result (λ next. IfNone next (PostRowWasEmpty S.rows self.old)) }
        ensures unchanged { OnErr result (self.new ≡ self.old) }
        ensures looked { OnErr result (PostRowWasEmpty S.rows self.old) }
    {
        self.next_of(rt, alarm, 1)
    }

    /// Collects the next post, as `next_post`. If there is none yet, and `posts` is more than 1, it sleeps at once. It then
    /// sleeps until `posts` were sent back, or all that it awaits, or its post row is full.
    pub fn next_of<R: Wait>(
        &mut self,
        rt: &R,
        alarm: &Alarm,
        posts: u16,
    ) -> Result<Option<Posted>, AllocError>
        requires some { 1 ≤ posts }
        ensures collected { IfOk result (λ next. IfSome next (λ posted. TaskCollects self.old posted self.new)) }
        ensures of_unit { IfOk result (λ next. IfSome next (λ posted. posted.unit < S.rows.units)) }
        ensures none { IfOk result (λ next. IfNone next (self.new ≡ self.old)) }
        ensures awaits_none { IfOk result (λ next. IfNone next (awaited_count self.old ≡ 0)) }
        ensures was_empty { IfOk result (λ next. IfNone next (PostRowWasEmpty S.rows self.old)) }
        ensures unchanged { OnErr result (self.new ≡ self.old) }
        ensures looked { OnErr result (PostRowWasEmpty S.rows self.old) }
    {
        let number = self.number();
        let awaited = self.awaited();
        let idle = Backoff::new();
        let mut is_wanted = false;
        for _ in rt.forever() {
            if let Some(posted) = self.task.take_post(rt) {
                self.collected = self.collected.saturating_add(1);
                return Ok(Some(posted));
            }
            if alarm.raised() {
                return Err(AllocError);
            }
            if awaited == 0 {
                break;
            }
            if is_wanted {
                self.parker.park(rt);
                is_wanted = false;
            } else if posts > 1 || idle.is_completed() {
                let wanted = u16::try_from(awaited).unwrap_or(u16::MAX).min(posts);
                alarm.want(number, wanted);
                is_wanted = true;
            } else {
                idle.snooze();
            }
        }
        Ok(None)
    }

    /// The task. It takes no memory.
    pub fn into_task(self) -> Task<'r, S>
        ensures { result ≡ self.entry }
    {
        self.task
    }
}

/// The area of a request that came back.
fn area_of(full: Full<Request>) -> Area
    ensures { result ≡ full.0.area }
{
    let (_, piece) = full.0.into_parts();
    Box::into_inner(piece).area
}
