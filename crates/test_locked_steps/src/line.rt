//! A line of a scenario, by its words: a line of a script, a size, a step, or an expectation of the event before it.

ghost use Rattle.std.specs.Prelude.{◌≡◌};
ghost use Rattle.job_script.specs.Said.{says_command};
ghost use Rattle.job_script.specs.Views.{command_said};
ghost use Rattle.job_script.specs.Lines.{line_of};
ghost use Rattle.job_script.specs.Outcomes.{Reads, ReadsAs, Returns, words_in};
ghost use Rattle.test_locked_steps.specs.ScenarioLines.{by_event_verb, event_kind, no_wait, number_line, purge_at_line, room_line, run_line, scenario_line, with_no_wait};
ghost use Rattle.test_locked_steps.specs.ScenarioSaid.{says_step, scenario_said};

use crate::room_line::RoomLine;
use crate::verb::EventVerb;
use book_states::Step;
use job_script::forms::{has, has_least, index, mode_of, number_in};
use job_script::{Action, FaultName, LineError, ScriptCommand, ScriptLine};
use request_piece::Scope;
use script_words::{LineWords, is_word};
use std::alloc::Global;

/// A line of a scenario.
#[derive(Drop)]
pub(crate) enum ScenarioLine {
    /// A line that scripts have too, other than `wait`.
    Script(ScriptLine),
    Room(RoomLine),
    Step(Step),
    /// The unit takes, starts, runs, interrupts and delivers until it is idle.
    Serve(u16),
    /// The text after the first word is the answer of the event before this line.
    Expect,
}

impl ScenarioLine {
    /// Reads the line with this number.
    pub(crate) fn read(
        alloc: Global,
        number: usize,
        line: &LineWords<'_>,
    ) -> Result<ScenarioLine, LineError>
        ensures { Returns scenario_said result (scenario_line number line.now.line.now) }
    {
        match event_verb(line) {
            Some(verb) => Ok(ScenarioLine::by_verb(verb, line)?),
            None => of_script(alloc, number, line),
        }
    }

    /// Reads a line that scripts do not have.
    #[tactic(auto, unfolding(crate::specs::ScenarioLines::by_event_verb))]
    fn by_verb(verb: EventVerb, line: &LineWords<'_>) -> Result<ScenarioLine, FaultName>
        ensures { ReadsAs scenario_said result (by_event_verb verb (words_in line.now)) }
    {
        match verb {
            EventVerb::Room => Ok(ScenarioLine::Room(room_on(line)?)),
            EventVerb::Take => Ok(ScenarioLine::Step(Step::Take(number_on(line)?))),
            EventVerb::Start => Ok(ScenarioLine::Step(Step::Start(number_on(line)?))),
            EventVerb::Run => Ok(ScenarioLine::Step(run_on(line)?)),
            EventVerb::Interrupt => Ok(ScenarioLine::Step(Step::Interrupt(number_on(line)?))),
            EventVerb::Deliver => Ok(ScenarioLine::Step(Step::Deliver(number_on(line)?))),
            EventVerb::Collect => Ok(ScenarioLine::Step(Step::Collect(number_on(line)?))),
            EventVerb::PurgeTaskAt => Ok(ScenarioLine::Step(purge_on(line)?)),
            EventVerb::Settle => Ok(ScenarioLine::Step(Step::Settle(number_on(line)?))),
            EventVerb::Serve => Ok(ScenarioLine::Serve(number_on(line)?)),
            EventVerb::Finish => {
                has(line, 1)?;
                Ok(ScenarioLine::Step(Step::Finish))
            }
            EventVerb::Expect => Ok(ScenarioLine::Expect),
        }
    }
}

/// The first word of a line, if scripts have no such line.
#[tactic(auto, unfolding(crate::specs::ScenarioLines::event_kind))]
fn event_verb(line: &LineWords<'_>) -> Option<EventVerb>
    ensures { result ≡ event_kind line.now.line.now }
{
    if line.is_printable() {
        EventVerb::of(line.word(0))
    } else {
        None
    }
}

/// Reads a line that scripts have too.
fn of_script(alloc: Global, number: usize, line: &LineWords<'_>) -> Result<ScenarioLine, LineError>
    ensures { Returns scenario_said result (with_no_wait (line_of number line.now.line.now)) }
{
    match ScriptLine::read(alloc, number, line) {
        Ok(ScriptLine::Command(command)) => of_command(command),
        Ok(read) => Ok(ScenarioLine::Script(read)),
        Err(refusal) => Err(refusal),
    }
}

/// A command of a task. Rejects `wait`.
fn of_command(command: ScriptCommand) -> Result<ScenarioLine, LineError>
    ensures { Returns scenario_said result (no_wait (says_command (command_said command))) }
{
    match command.action {
        Action::Wait => Err(LineError::Fault(FaultName::Words)),
        _ => Ok(ScenarioLine::Script(ScriptLine::Command(command))),
    }
}

/// The number of a unit or a task, on a line of two words.
#[tactic(auto, unfolding(crate::specs::ScenarioLines::number_line))]
fn number_on(line: &LineWords<'_>) -> Result<u16, FaultName>
    ensures { Reads result (number_line (words_in line.now)) }
{
    has(line, 2)?;
    index(line, 1)
}

/// `run U N`
#[tactic(auto, unfolding(crate::specs::ScenarioLines::run_line))]
fn run_on(line: &LineWords<'_>) -> Result<Step, FaultName>
    ensures { ReadsAs says_step result (run_line (words_in line.now)) }
{
    has(line, 3)?;
    let unit = index(line, 1)?;
    let most = u32::from(number_in(line, 2, 1, 65535)?);
    Ok(Step::Run { unit, most })
}

/// `purgetaskat T X MODE U`
#[tactic(auto, unfolding(crate::specs::ScenarioLines::purge_at_line))]
fn purge_on(line: &LineWords<'_>) -> Result<Step, FaultName>
    ensures { ReadsAs says_step result (purge_at_line (words_in line.now)) }
{
    has(line, 5)?;
    let task = index(line, 1)?;
    let scope = Scope::Task(index(line, 2)?);
    let mode = mode_of(line, 3)?;
    let unit = index(line, 4)?;
    Ok(Step::Purge {
        task,
        unit,
        scope,
        mode,
    })
}

/// `room intake N`, `room post N` or `room book U N`
#[tactic(auto, unfolding(crate::specs::ScenarioLines::room_line))]
fn room_on(line: &LineWords<'_>) -> Result<RoomLine, FaultName>
    ensures { Reads result (room_line (words_in line.now)) }
{
    has_least(line, 2)?;
    let row = line.word(1);
    if is_word(row, b"intake") {
        has(line, 3)?;
        return Ok(RoomLine::Intake(number_in(line, 2, 1, 65535)?));
    }
    if is_word(row, b"post") {
        has(line, 3)?;
        return Ok(RoomLine::Post(number_in(line, 2, 1, 65535)?));
    }
    if is_word(row, b"book") {
        has(line, 4)?;
        let unit = index(line, 2)?;
        return Ok(RoomLine::Book(unit, number_in(line, 3, 1, 65535)?));
    }
    Err(FaultName::Number)
}
