//! The lines of a scenario, one by one, and what is printed of them.

ghost use Rattle.std.specs.Prelude.{◌≡◌, ◌≤◌, IfOk, Ok, vec_len};

use crate::line::ScenarioLine;
use crate::line_steps::LineSteps;
use crate::plan::Plan;
use crate::printer::Printer;
use crate::reader::ScenarioReader;
use book_states::Step;
use job_script::{FaultName, JobError, LIMIT, LineError, ScriptLine, SetUp};
use std::alloc::Global;
use std::io::{Read, Write};

/// A scenario that is read, with the answer of its last event.
#[derive(Drop)]
pub struct Dialog<'a, I: Read + Drop, W: Write, E: Write> {
    alloc: Global,
    reader: ScenarioReader<I>,
    pub printer: Printer<'a, W, E>,
    /// The first event, until its steps are asked for.
    event: Option<ScenarioLine>,
    /// Whether the line `finish` was read.
    is_finished: bool,
    /// The answer of the last event.
    pub answer: Vec<u8>,
}

impl<'a, I: Read + Drop, W: Write, E: Write> Dialog<'a, I, W, E> {
    /// Before the first line of this input.
    pub fn new(alloc: Global, input: I, printer: Printer<'a, W, E>) -> Result<Self, JobError> {
        let reader = ScenarioReader::new(alloc, input)?;
        Ok(Dialog {
            alloc,
            reader,
            printer,
            event: None,
            is_finished: false,
            answer: Vec::new(alloc),
        })
    }

    /// Reads the lines up to the first event. Returns what they declare.
    pub fn set_up(&mut self) -> Result<Plan, JobError>
        ensures tasks { IfOk result (λ plan. 1 ≤ plan.set_up.tasks) }
        ensures units { IfOk result (λ plan. 1 ≤ vec_len plan.set_up.units) }
    {
        let mut plan = Plan::new(self.alloc);
        for _ in 0..=LIMIT {
            let Some(line) = self.line()? else {
                break;
            };
            let added = plan.add(self.alloc, line);
            if let Some(event) = self.of_line(added)? {
                self.event = Some(event);
                break;
            }
        }
        plan.whole()?;
        Ok(plan)
    }

    /// The next line that says something; none after the last.
    fn line(&mut self) -> Result<Option<ScenarioLine>, JobError> {
        for _ in 0..=LIMIT {
            if !self.reader.next()? {
                break;
            }
            match self.of_line(self.reader.line())? {
                ScenarioLine::Script(ScriptLine::Nothing) => {}
                line => return Ok(Some(line)),
            }
        }
        Ok(None)
    }

    /// The steps of the next event; none after the last line. The lines before it are compared with the last answer, which is then
    /// cleared.
    pub fn next(&mut self, set_up: &SetUp) -> Result<Option<LineSteps>, JobError> {
        for _ in 0..=LIMIT {
            let line = match self.event.take() {
                Some(event) => Some(event),
                None => self.line()?,
            };
            match line {
                None => break,
                Some(ScenarioLine::Expect) => self.compare()?,
                Some(line) => {
                    let steps = self.steps(set_up, line);
                    let steps = self.of_line(steps)?;
                    self.answer.clear();
                    return Ok(Some(steps));
                }
            }
        }
        Ok(None)
    }

    /// Compares an expectation with the next line of the last answer.
    fn compare(&mut self) -> Result<(), JobError> {
        let (number, line) = (self.reader.number, self.reader.current());
        self.printer.expect(number, line, &self.answer)
    }

    /// The steps of an event. There is none after `finish`.
    fn steps(&mut self, set_up: &SetUp, line: ScenarioLine) -> Result<LineSteps, LineError> {
        if self.is_finished {
            return Err(LineError::Fault(FaultName::Order));
        }
        let steps = LineSteps::of(set_up, line)?;
        self.is_finished = steps.step() == Some(Step::Finish);
        Ok(steps)
    }

    /// Prints the answer of the event that was read last, and the lines of a view.
    pub fn print(&mut self, view: &[u8]) -> Result<(), JobError> {
        let event = self.reader.current();
        self.printer.answer(event, &self.answer, view)
    }

    /// The outcome of the line that was read last, whose number an error has.
    fn of_line<T: Drop>(&self, outcome: Result<T, LineError>) -> Result<T, JobError>
        ensures { IfOk result (λ value. outcome ≡ Ok value) }
    {
        match outcome {
            Ok(value) => Ok(value),
            Err(LineError::NoMemory) => Err(JobError::NoMemory),
            Err(LineError::Fault(name)) => Err(JobError::Line {
                line: self.reader.number,
                name,
            }),
        }
    }
}
