//! The steps of a line, in their order.

ghost use Rattle.std.specs.Prelude.{IfOk, IfSome};
ghost use Rattle.std.specs.Option.{option_copied};
ghost use Rattle.job_mount.specs.Requests.{CanIssue};

use crate::answer::write_answer;
use crate::line::ScenarioLine;
use crate::locked::Supply;
use crate::step_answer::StepAnswer;
use crate::task_records::TaskRecords;
use book_states::Step;
use job_mount::can_issue;
use job_script::{
    Action, DcbName, Excp, ExcpLine, FaultName, LineError, Opening, ScriptCommand, ScriptLine,
    SetUp, SetUpLine,
};
use request_piece::Scope;
use std::alloc::AllocError;
use unit_book::{Delivery, Mode};

/// The most commands of a turn in which a program runs to its end. A program fetches at most 4,096 CCWs.
const TO_THE_END: u32 = 65_535;

/// Whether a line has one step or more.
#[derive(Clone, Copy, PartialEq, Eq)]
enum Course {
    Once,
    /// A purge at each unit, in the order of their numbers, of which this is the count.
    EachUnit(usize),
    /// Take, start, run to the end, interrupt and deliver, until none of these changes the unit.
    Serve,
}

/// The steps of a line of a scenario, and what they bring. All that they name is declared.
#[derive(Drop)]
pub struct LineSteps {
    course: Course,
    step: Option<Step>,
    /// Whether a step of this round of serving was made.
    is_made: bool,
    excp: Option<IssuableExcp>,
    opening: Option<Opening>,
}

/// An EXCP whose request can be made.
#[derive(Drop)]
struct IssuableExcp {
    excp: Excp,
    ghost issuable: { CanIssue excp },
}

impl LineSteps {
    /// The steps of a line, if it is an event and all that it names is declared.
    pub(crate) fn of(set_up: &SetUp, line: ScenarioLine) -> Result<Self, LineError> {
        match line {
            ScenarioLine::Script(ScriptLine::Excp(line)) => LineSteps::push(set_up, line),
            ScenarioLine::Script(ScriptLine::Command(command)) => LineSteps::command(
                set_up, &command,
            ),
            ScenarioLine::Script(ScriptLine::SetUp(SetUpLine::Opening(unit, opening))) => {
                let step = Step::Open { unit, opening: 0 };
                let mut steps = LineSteps::new(set_up, Course::Once, step)?;
                steps.opening = Some(opening);
                Ok(steps)
            }
            ScenarioLine::Step(step) => LineSteps::new(set_up, Course::Once, step),
            ScenarioLine::Serve(unit) => LineSteps::new(set_up, Course::Serve, Step::Take(unit)),
            _ => Err(LineError::Fault(FaultName::Order)),
        }
    }

    /// The steps from this one on, which bring nothing. The tasks and the unit that it names must be declared.
    fn new(set_up: &SetUp, course: Course, step: Step) -> Result<Self, LineError> {
        names(set_up, step)?;
        Ok(LineSteps {
            course,
            step: Some(step),
            is_made: false,
            excp: None,
            opening: None,
        })
    }

    /// The step of an EXCP.
    fn push(set_up: &SetUp, line: ExcpLine) -> Result<Self, LineError> {
        let task = line.task;
        let excp = set_up.over_area(line)?;
        let step = Step::Push { task, request: 0 };
        let mut steps = LineSteps::new(set_up, Course::Once, step)?;
        set_up.names_unit(excp.dcb.unit)?;
        if !can_issue(&excp) {
            return Err(LineError::Fault(FaultName::Request));
        }
        steps.excp = Some(IssuableExcp { excp });
        Ok(steps)
    }

    /// The steps of a command of a task other than an EXCP.
    fn command(set_up: &SetUp, command: &ScriptCommand) -> Result<Self, LineError> {
        let task = command.task;
        let mut course = Course::Once;
        let step = match command.action {
            Action::Purge(dcb, mode) => purge(task, dcb.unit, Scope::Dcb(dcb.number), mode),
            Action::PurgeTask(other, mode) => {
                course = Course::EachUnit(set_up.units.len());
                purge(task, 0, Scope::Task(other), mode)
            }
            Action::Close(DcbName { unit, number: dcb }) => Step::Close { task, unit, dcb },
            Action::Reset(DcbName { unit, number: dcb }) => Step::Reset { task, unit, dcb },
            Action::Excp(_) | Action::Wait => Step::Pass(task),
        };
        LineSteps::new(set_up, course, step)
    }

    /// The step that comes next. It is none after the last.
    pub fn step(&self) -> Option<Step> {
        self.step
    }

    /// What the step brings.
    pub fn supply(&self) -> Supply<'_>
        ensures { IfSome (option_copied result.excp) CanIssue }
    {
        let excp = match &self.excp {
            Some(issuable) => Some(&issuable.excp),
            None => None,
        };
        Supply {
            excp,
            opening: self.opening.as_ref(),
        }
    }

    /// Adds the answer of the step to those before it. Goes on to the next one. The past has what the step did.
    pub fn answered(
        &mut self,
        text: &mut Vec<u8>,
        answer: &StepAnswer,
        past: &TaskRecords,
    ) -> Result<(), AllocError> {
        if self.tells(text, answer) {
            if !text.is_empty() {
                text.extend_from_slice(b", ")?;
            }
            write_answer(text, self.unit(), answer, past).or(Err(AllocError))?;
        }
        self.go_on(answer);
        Ok(())
    }

    /// The unit of the step.
    fn unit(&self) -> u16 {
        match (self.step.and_then(|step| step.unit()), &self.excp) {
            (Some(unit), _) => unit,
            (None, Some(issuable)) => issuable.excp.dcb.unit,
            (None, None) => 0,
        }
    }

    /// Whether an answer is printed. To serve a unit answers with the deliveries. Its last answer is that a row is full, or that
    /// nothing was delivered.
    fn tells(&self, text: &[u8], answer: &StepAnswer) -> bool {
        match answer {
            _ if self.course != Course::Serve => true,
            StepAnswer::Delivered(Delivery::Delivered(_)) => true,
            StepAnswer::Delivered(Delivery::Full(_)) => !self.is_made,
            StepAnswer::Delivered(Delivery::Quiet) => !self.is_made && text.is_empty(),
            _ => false,
        }
    }

    /// Goes on to the next step, after the answer of this one.
    fn go_on(&mut self, answer: &StepAnswer) {
        self.is_made |= answer.is_made();
        self.step = match (self.course, self.step) {
            (Course::EachUnit(units), Some(step)) => at_next_unit(step, units),
            (Course::Serve, Some(Step::Deliver(unit))) if self.is_made => {
                self.is_made = false;
                Some(Step::Take(unit))
            }
            (Course::Serve, Some(step)) => after_in_turn(step),
            _ => None,
        };
    }
}

fn purge(task: u16, unit: u16, scope: Scope, mode: Mode) -> Step {
    Step::Purge {
        task,
        unit,
        scope,
        mode,
    }
}

/// A purge at the next unit, if one has a number below `units`.
fn at_next_unit(step: Step, units: usize) -> Option<Step> {
    let mut next = step;
    match &mut next {
        Step::Purge { unit, .. } if usize::from(*unit).saturating_add(1) < units => {
            *unit = unit.saturating_add(1);
            Some(next)
        }
        _ => None,
    }
}

/// The step of a unit that comes after this one while the unit is served.
fn after_in_turn(step: Step) -> Option<Step> {
    match step {
        Step::Take(unit) => Some(Step::Start(unit)),
        Step::Start(unit) => Some(Step::Run {
            unit,
            most: TO_THE_END,
        }),
        Step::Run { unit, .. } => Some(Step::Interrupt(unit)),
        Step::Interrupt(unit) => Some(Step::Deliver(unit)),
        _ => None,
    }
}

/// The tasks and the unit that a step names are declared.
fn names(set_up: &SetUp, step: Step) -> Result<(), FaultName> {
    if let Step::Collect(task) = step {
        return set_up.names_task(task);
    }
    if let Some(task) = step.task() {
        set_up.names_task(task)?;
    }
    if let Some((_, Scope::Task(other))) = step.control() {
        set_up.names_task(other)?;
    }
    match step.unit() {
        Some(unit) => set_up.names_unit(unit),
        None => Ok(()),
    }
}
