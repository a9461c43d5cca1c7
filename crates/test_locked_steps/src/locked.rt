//! Units under locks and real rows, used by one thread.

ghost use Rattle.std.specs.Prelude.{◌≡◌, IfSome, true};
ghost use Rattle.std.specs.Option.{option_copied};
ghost use Rattle.excp_system.specs.Drained.{ArePlaced};
ghost use Rattle.job_mount.specs.Requests.{CanIssue};

use crate::step_answer::{Issuing, StepAnswer};
use crate::view::View;
use any_device::AnyDevice;
use book_states::Step;
use excp_system::{Opened, System, Task, UnitState};
use job_mount::request;
use job_script::{Excp, Opening};
use post_ledger::finish;
use request_piece::{Posted, Scope};
use std::alloc::{AllocError, Global};
use std::sync::Wait;
use unit_book::{DcbError, OpenError, UnitBook};

/// What a step brings: a push its EXCP, an open its opening.
#[derive(Clone, Copy)]
pub struct Supply<'a> {
    pub excp: Option<&'a Excp>,
    pub opening: Option<&'a Opening>,
}

/// The units of a site under their locks, and its tasks.
#[derive(Drop)]
pub struct Locked<'a, 'r, S: Opened<AnyDevice>, R: Wait> {
    pub rt: &'a R,
    /// How many units there are.
    pub units: usize,
    pub system: System<'r, S, AnyDevice>,
    pub tasks: Vec<Task<'r, S>>,
    ghost units_are: { units ≡ S.rows.units },
    ghost own: { S.own_calls ≡ true },
    ghost placed: { ArePlaced (λ task. task.number) S.rows.tasks tasks.items },
}

impl<'a, 'r, S: Opened<AnyDevice>, R: Wait> Locked<'a, 'r, S, R> {
    /// Carries out a step: the call of its name, once. It is none if there is no such unit, request or opening.
    pub fn make(
        &mut self,
        alloc: Global,
        step: Step,
        supply: Supply<'_>,
    ) -> Result<StepAnswer, AllocError>
        requires { IfSome (option_copied supply.excp) CanIssue }
    {
        if let (Step::Push { task, .. }, Some(excp)) = (step, supply.excp) {
            return self.push(alloc, task, excp);
        }
        if let Step::Collect(task) = step {
            return Ok(StepAnswer::Collected(self.collect(task)));
        }
        match step.unit() {
            Some(unit) if usize::from(unit) < self.units => {
                let mut state = self.system.lock_of(unit).lock(self.rt);
                make_at(self.rt, &mut state, step, supply.opening)
            }
            _ => Ok(StepAnswer::None),
        }
    }

    /// A task issues the request of an EXCP, under its next name to the unit.
    fn push(&mut self, alloc: Global, task: u16, excp: &Excp) -> Result<StepAnswer, AllocError>
        requires { CanIssue excp.now }
    {
        let place = usize::from(task);
        if place >= self.tasks.len() || usize::from(excp.dcb.unit) >= self.units {
            return Ok(StepAnswer::None);
        }
        let task = &mut self.tasks[place];
        let Some(name) = task.name(excp.dcb.unit) else {
            return Ok(StepAnswer::Pushed(Issuing::NoNumber));
        };
        let request = request(alloc, excp, name, None)?;
        match task.excp(self.rt, request) {
            Ok(()) => Ok(StepAnswer::Pushed(Issuing::Accepted(name))),
            Err(_) => Ok(StepAnswer::Pushed(Issuing::Full)),
        }
    }

    /// A task collects its next post.
    fn collect(&mut self, task: u16) -> Option<Posted> {
        let place = usize::from(task);
        if place < self.tasks.len() {
            self.tasks[place].take_post(self.rt)
        } else {
            None
        }
    }

    /// Adds to a view what is printed of a unit.
    pub fn look(&self, unit: u16, view: &mut View) -> Result<(), AllocError> {
        if usize::from(unit) >= self.units {
            return Ok(());
        }
        let state = self.system.lock_of(unit).lock(self.rt);
        view.add(unit, state.book())
    }

    /// Ends every request. Returns the books, and the posts that no task has collected, in order of tasks, units and posting.
    pub fn finish(
        self,
        alloc: Global,
    ) -> Result<(Vec<UnitBook<AnyDevice>>, Vec<Posted>), AllocError> {
        let Locked {
            rt,
            system,
            tasks,
            ..
        } = self;
        let Ok(report) = finish(rt, alloc, system, tasks) else {
            return Err(AllocError);
        };
        let (books, lists) = report.into_parts();
        let mut posts = Vec::new(alloc);
        for task in lists {
            for mut list in task.into_units() {
                posts.append(&mut list)?;
            }
        }
        Ok((books, posts))
    }
}

/// Carries out the step of a unit.
fn make_at<S: Opened<AnyDevice>, R: Wait>(
    rt: &R,
    unit: &mut UnitState<'_, S, AnyDevice>,
    step: Step,
    opening: Option<&Opening>,
) -> Result<StepAnswer, AllocError>
    requires { S.own_calls ≡ true }
{
    match step {
        Step::Take(_) => Ok(StepAnswer::Taken(unit.take(rt)?)),
        Step::Start(_) => Ok(StepAnswer::Started(unit.start()?)),
        Step::Run { most, .. } if most > 0 => Ok(StepAnswer::Ran(unit.run(rt, most)?)),
        Step::Interrupt(_) => Ok(StepAnswer::Interrupted(unit.interrupt()?)),
        Step::Deliver(_) => Ok(StepAnswer::Delivered(unit.deliver(rt))),
        Step::Settle(_) => {
            unit.settle()?;
            Ok(StepAnswer::Settled)
        }
        Step::Purge { scope, mode, .. } => match scope {
            Scope::Task(task) => Ok(StepAnswer::Purged(unit.purge_task(rt, task, mode)?)),
            Scope::Dcb(dcb) => of_dcb(unit.purge(rt, dcb, mode).map(StepAnswer::Purged)),
        },
        Step::Close { dcb, .. } => of_dcb(unit.close(dcb).map(StepAnswer::Closed)),
        Step::Reset { dcb, .. } => of_dcb(unit.reset(dcb).and(Ok(StepAnswer::Reset))),
        Step::Open { .. } => match opening {
            Some(opening) => match unit.open(opening.method, &opening.extents) {
                Ok(dcb) => Ok(StepAnswer::Opened(dcb)),
                Err(OpenError::NoMemory) => Err(AllocError),
                Err(error) => Ok(StepAnswer::NotOpened(error)),
            },
            None => Ok(StepAnswer::None),
        },
        _ => Ok(StepAnswer::None),
    }
}

/// The answer of a call that names a DCB.
fn of_dcb(outcome: Result<StepAnswer, DcbError>) -> Result<StepAnswer, AllocError> {
    match outcome {
        Ok(answer) => Ok(answer),
        Err(DcbError::NoSuchDcb) => Ok(StepAnswer::NoSuchDcb),
        Err(DcbError::NoMemory) => Err(AllocError),
    }
}
