//! What one task does of a script.

ghost use Rattle.std.specs.Prelude.{◌≡◌, ◌<◌, ◌≤◌, All, IfErr, IfNone, IfOk, OnErr, OnOk, [], length, vec_len};
ghost use Rattle.excp_system.specs.Calls.{next_name};
ghost use Rattle.excp_system.specs.States.{awaited_count};
ghost use Rattle.job_mount.specs.Requests.{CanBeDone, CanIssue};
ghost use Rattle.job_script.specs.Commands.{NamesUnits};
ghost use Rattle.post_lines.specs.Slots.{slots_of};
ghost use Rattle.job_run.specs.Filling.{FillsSlots, slots_for};
ghost use Rattle.job_run.specs.Sending.{AsksPart, EndsEarly, ExcpFails, Fails, HasDone, StopsAt, asks_of, collects, sends, sends_excp, sends_one};

use crate::command_fault::CommandFault;
use crate::notes::Notes;
use crate::task_end::TaskEnd;
use crate::task_error::TaskError;
use crate::unit_calls::{control, purge_task};
use any_device::AnyDevice;
use crossbeam_utils::Backoff;
use excp_system::{Opened, System};
use fifo_row::Full;
use job_mount::request;
use job_script::{Action, Excp, Script, ScriptCommand};
use post_lines::Slots;
use request_piece::{Posted, Request, Scope};
use std::alloc::{AllocError, Global};
use std::sync::Wait;
use system_threads::{Alarm, Client};
use unit_book::Control;

/// The most requests that a task has under way, so that the storage of a run does not grow with all its requests
/// (profile).
pub(crate) const MOST_UNDER_WAY: usize = 256;

/// How many posts a task sleeps for that has the most requests under way, so that it wakes less often.
const POSTS_TO_SLEEP_FOR: u16 = 64;

/// What the tasks of a run share: the script, the system of its units, and what wakes them.
#[derive(Drop)]
pub struct Job<'a, 'r, S: Opened<AnyDevice>> {
    script: &'a Script,
    system: &'a System<'r, S, AnyDevice>,
    alarm: &'a Alarm,
    ghost units_are: { vec_len script.now.set_up.units ≡ S.rows.units },
    ghost requests_can_be_made: { All CanBeDone script.now.commands.items },
}

impl<'a, 'r, S: Opened<AnyDevice>> Job<'a, 'r, S> {
    /// The job of a script, whose requests can be made, on the system of its units.
    pub fn new(
        script: &'a Script,
        system: &'a System<'r, S, AnyDevice>,
        alarm: &'a Alarm,
    ) -> Job<'a, 'r, S>
        requires units { vec_len script.now.set_up.units ≡ S.rows.units }
        requires requests { All CanBeDone script.now.commands.items }
        ensures { result.script.now ≡ script.now }
    {
        Job {
            script,
            system,
            alarm,
        }
    }

    /// Does all that a task does: its commands, up to the first fault, and then waits until all its requests were
    /// posted. Returns how its requests ended, and its notes.
    ///
    /// Errors: out of memory; else those of `commands`.
    pub fn task<R: Wait, N: Notes>(
        &self,
        rt: &R,
        alloc: Global,
        client: &mut Client<'_, S>,
    ) -> Result<TaskEnd<N>, TaskError>
        ensures number { client.new.number ≡ client.old.number }
        ensures noted { IfOk result (λ end. FillsSlots client.old.got (slots_for self.now.script.now client.old.number) client.new.got (slots_of end.slots)) }
        ensures done { OnOk result (HasDone self.now.script.now.commands.items [] client.old client.new) }
        ensures awaits_none { OnOk result (awaited_count client.new ≡ 0) }
        ensures stopped { IfErr result (EndsEarly self.now.script.now.commands.items client.old client.new) }
    {
        let mut end = TaskEnd::new(alloc, self.script, client.number())?;
        self.to_the_end(rt, alloc, client, &mut end.slots, &mut end.notes)?;
        Ok(end)
    }

    /// Does the commands of a task up to the first fault, and then waits for all its posts. Each post goes to its slot.
    fn to_the_end<R: Wait, N: Notes>(
        &self,
        rt: &R,
        alloc: Global,
        client: &mut Client<'_, S>,
        slots: &mut Slots,
        notes: &mut N,
    ) -> Result<(), TaskError>
        ensures number { client.new.number ≡ client.old.number }
        ensures noted { FillsSlots client.old.got (slots_of slots.old) client.new.got (slots_of slots.new) }
        ensures done { OnOk result (HasDone self.now.script.now.commands.items [] client.old client.new) }
        ensures awaits_none { OnOk result (awaited_count client.new ≡ 0) }
        ensures stopped { IfErr result (EndsEarly self.now.script.now.commands.items client.old client.new) }
    {
        let done = self.commands(rt, alloc, client, slots, notes);
        self.collect(rt, client, slots, notes)?;
        done
    }

    /// Does the commands of a task, in order, up to the first fault. Whatever other threads do, the task sends each unit the
    /// requests of its commands there, in order, and no other. It asks of each unit their purges, closes and resets, in
    /// order, and no other. A task that stops at a command has done those before it, and none after it. It has then
    /// collected at least as many posts as it had sent requests at its last wait.
    ///
    /// Errors: the first command that fails, as an `excp` after the last number; out of memory.
    pub fn commands<R: Wait, N: Notes>(
        &self,
        rt: &R,
        alloc: Global,
        client: &mut Client<'_, S>,
        slots: &mut Slots,
        notes: &mut N,
    ) -> Result<(), TaskError>
        ensures number { client.new.number ≡ client.old.number }
        ensures noted { FillsSlots client.old.got (slots_of slots.old) client.new.got (slots_of slots.new) }
        ensures done { OnOk result (HasDone self.now.script.now.commands.items [] client.old client.new) }
        ensures stopped { IfErr result (StopsAt self.now.script.now.commands.items client.old client.new) }
    {
        for place in self.script.places_of(client.number()) {
            let command = &self.script.commands[*place];
            if let Err(fault) = self.command(rt, alloc, client, slots, notes, command) {
                return Err(fault.at(command.line));
            }
        }
        Ok(())
    }

    /// Does one command.
    fn command<R: Wait, N: Notes>(
        &self,
        rt: &R,
        alloc: Global,
        client: &mut Client<'_, S>,
        slots: &mut Slots,
        notes: &mut N,
        command: &ScriptCommand,
    ) -> Result<(), CommandFault>
        requires units { NamesUnits S.rows.units command.now }
        requires request { CanBeDone command.now }
        ensures number { client.new.number ≡ client.old.number }
        ensures noted { FillsSlots client.old.got (slots_of slots.old) client.new.got (slots_of slots.new) }
        ensures sent { OnOk result (client.new.sent ≡ sends client.old.number command.now.action client.old.sent) }
        ensures asked { OnOk result (client.new.asked ≡ asks_of command.now.action client.old.asked) }
        ensures collected { OnOk result (collects command.now.action client.old.sent 0 ≤ length client.new.got) }
        ensures unsent { OnErr result (client.new.sent ≡ client.old.sent) }
        ensures unasked { OnErr result (AsksPart command.now.action client.old.asked client.new.asked) }
        ensures fails { IfErr result (Fails command.now.action client.old.sent) }
    {
        match &command.action {
            Action::Excp(excp) => self.issue(rt, alloc, client, slots, notes, excp)?,
            Action::Purge(dcb, mode) => {
                let purge = Control::Purge(Scope::Dcb(dcb.number), *mode);
                control(rt, self.system, client, dcb.unit, purge, notes)?;
            }
            Action::PurgeTask(task, mode) => {
                let units = self.script.set_up.units.len();
                purge_task(rt, self.system, client, units, *task, *mode, notes)?;
            }
            Action::Close(dcb) => {
                let close = Control::Close(dcb.number);
                control(rt, self.system, client, dcb.unit, close, notes)?;
            }
            Action::Reset(dcb) => {
                let reset = Control::Reset(dcb.number);
                control(rt, self.system, client, dcb.unit, reset, notes)?;
            }
            Action::Wait => {
                notes.waits();
                self.collect(rt, client, slots, notes)?;
            }
        }
        Ok(())
    }

    /// Issues a request. If 256 are under way, it collects one post, and uses its storage again.
    #[tactic(auto, using(crate::proofs::Filled::fills_more))]
    fn issue<R: Wait, N: Notes>(
        &self,
        rt: &R,
        alloc: Global,
        client: &mut Client<'_, S>,
        slots: &mut Slots,
        notes: &mut N,
        excp: &Excp,
    ) -> Result<(), CommandFault>
        requires unit { excp.now.dcb.unit < S.rows.units }
        requires request { CanIssue excp.now }
        ensures number { client.new.number ≡ client.old.number }
        ensures noted { FillsSlots client.old.got (slots_of slots.old) client.new.got (slots_of slots.new) }
        ensures sent { OnOk result (client.new.sent ≡ sends_excp client.old.number excp.now client.old.sent) }
        ensures asked { client.new.asked ≡ client.old.asked }
        ensures unsent { OnErr result (client.new.sent ≡ client.old.sent) }
        ensures fails { IfErr result (ExcpFails excp.now client.old.sent) }
    {
        let ended = self.make_room(rt, client, slots, notes)?;
        let Some(name) = client.name(excp.dcb.unit) else {
            return Err(CommandFault::NoNumber);
        };
        let request = request(alloc, excp, name, ended)?;
        self.send(rt, client, slots, notes, request)?;
        Ok(())
    }

    /// Collects one post if 256 requests are under way.
    fn make_room<R: Wait, N: Notes>(
        &self,
        rt: &R,
        client: &mut Client<'_, S>,
        slots: &mut Slots,
        notes: &mut N,
    ) -> Result<Option<Posted>, AllocError>
        ensures number { client.new.number ≡ client.old.number }
        ensures noted { FillsSlots client.old.got (slots_of slots.old) client.new.got (slots_of slots.new) }
        ensures sent { client.new.sent ≡ client.old.sent }
        ensures asked { client.new.asked ≡ client.old.asked }
    {
        if client.awaited() < MOST_UNDER_WAY {
            return Ok(None);
        }
        self.collect_one(rt, client, slots, notes, POSTS_TO_SLEEP_FOR)
    }

    /// Sends a request to its unit. If the unit's row is full, it collects posts and tries again.
    #[tactic(auto, using(crate::proofs::Filled::fills_more))]
    fn send<R: Wait, N: Notes>(
        &self,
        rt: &R,
        client: &mut Client<'_, S>,
        slots: &mut Slots,
        notes: &mut N,
        request: Request,
    ) -> Result<(), AllocError>
        requires unit { request.unit < S.rows.units }
        requires name { request.name ≡ next_name client.old request.unit }
        ensures number { client.new.number ≡ client.old.number }
        ensures noted { FillsSlots client.old.got (slots_of slots.old) client.new.got (slots_of slots.new) }
        ensures sent { OnOk result (client.new.sent ≡ sends_one request client.old.sent) }
        ensures asked { client.new.asked ≡ client.old.asked }
        ensures unsent { OnErr result (client.new.sent ≡ client.old.sent) }
    {
        let unit = request.unit();
        let number = request.name().seq;
        let mut request = request;
        let idle = Backoff::new();
        for _ in rt.forever() {
            match client.excp(rt, request) {
                Ok(()) => {
                    notes.issued(unit, number);
                    return Ok(());
                }
                Err(Full(again)) => request = again,
            }
            match self.collect_one(rt, client, slots, notes, 1)? {
                Some(_) => idle.reset(),
                None => idle.snooze(),
            }
        }
        unreachable!()
    }

    /// Collects posts until their count is that of the requests that the task has issued.
    #[tactic(auto, using(crate::proofs::Filled::fills_more))]
    pub fn collect<R: Wait, N: Notes>(
        &self,
        rt: &R,
        client: &mut Client<'_, S>,
        slots: &mut Slots,
        notes: &mut N,
    ) -> Result<(), AllocError>
        ensures number { client.new.number ≡ client.old.number }
        ensures noted { FillsSlots client.old.got (slots_of slots.old) client.new.got (slots_of slots.new) }
        ensures sent { client.new.sent ≡ client.old.sent }
        ensures asked { client.new.asked ≡ client.old.asked }
        ensures awaits_none { OnOk result (awaited_count client.new ≡ 0) }
    {
        for _ in rt.forever() {
            if self.collect_one(rt, client, slots, notes, 1)?.is_none() {
                return Ok(());
            }
        }
        unreachable!()
    }

    /// Collects the next post and notes it. If there is none, it sleeps for this many posts, as [`Client::next_of`].
    fn collect_one<R: Wait, N: Notes>(
        &self,
        rt: &R,
        client: &mut Client<'_, S>,
        slots: &mut Slots,
        notes: &mut N,
        posts: u16,
    ) -> Result<Option<Posted>, AllocError>
        requires some { 1 ≤ posts }
        ensures number { client.new.number ≡ client.old.number }
        ensures noted { FillsSlots client.old.got (slots_of slots.old) client.new.got (slots_of slots.new) }
        ensures sent { client.new.sent ≡ client.old.sent }
        ensures asked { client.new.asked ≡ client.old.asked }
        ensures awaits_none { IfOk result (λ next. IfNone next (awaited_count client.new ≡ 0)) }
    {
        let Some(posted) = client.next_of(rt, self.alarm, posts)? else {
            return Ok(None);
        };
        slots.fill(posted.unit(), &posted);
        notes.collected(&posted);
        Ok(Some(posted))
    }
}
