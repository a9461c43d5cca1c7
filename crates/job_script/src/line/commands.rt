//! Lines of commands.

ghost use Rattle.std.specs.Prelude.{◌≡◌};
ghost use Rattle.job_script.specs.Lines.{close_line, excp_line, purge_line, purgetask_line, reset_line, wait_line};
ghost use Rattle.job_script.specs.Outcomes.{Reads, ReadsAs, words_in};
ghost use Rattle.job_script.specs.Views.{command_said};

use super::ExcpLine;
use crate::command::{Action, ScriptCommand};
use crate::fault::FaultName;
use crate::forms::{address, dcb_of, has, index, mode_of, number};
use script_words::LineWords;

/// `excp T U DCB IOB A SHOW LEN`
#[inline(always)]
#[tactic(auto, unfolding(crate::specs::Lines::excp_line))]
pub fn excp(at: usize, line: &LineWords<'_>) -> Result<ExcpLine, FaultName>
    ensures { Reads result (excp_line at (words_in line.now)) }
{
    has(line, 8)?;
    Ok(ExcpLine {
        line: at,
        task: index(line, 1)?,
        dcb: dcb_of(line, 2, 3)?,
        iob: address(line, 4)?,
        area: number(line, 5)?,
        show: address(line, 6)?,
        len: number(line, 7)?,
    })
}

/// `purge T U DCB MODE`
#[inline(always)]
#[tactic(auto, unfolding(crate::specs::Lines::purge_line))]
pub fn purge(at: usize, line: &LineWords<'_>) -> Result<ScriptCommand, FaultName>
    ensures { ReadsAs command_said result (purge_line at (words_in line.now)) }
{
    has(line, 5)?;
    let task = index(line, 1)?;
    let dcb = dcb_of(line, 2, 3)?;
    let mode = mode_of(line, 4)?;
    Ok(command(at, task, Action::Purge(dcb, mode)))
}

/// `purgetask T X MODE`
#[inline(always)]
#[tactic(auto, unfolding(crate::specs::Lines::purgetask_line))]
pub fn purge_task(at: usize, line: &LineWords<'_>) -> Result<ScriptCommand, FaultName>
    ensures { ReadsAs command_said result (purgetask_line at (words_in line.now)) }
{
    has(line, 4)?;
    let task = index(line, 1)?;
    let other = index(line, 2)?;
    let mode = mode_of(line, 3)?;
    Ok(command(at, task, Action::PurgeTask(other, mode)))
}

/// `close T U DCB`
#[inline(always)]
#[tactic(auto, unfolding(crate::specs::Lines::close_line))]
pub fn close(at: usize, line: &LineWords<'_>) -> Result<ScriptCommand, FaultName>
    ensures { ReadsAs command_said result (close_line at (words_in line.now)) }
{
    has(line, 4)?;
    let task = index(line, 1)?;
    let dcb = dcb_of(line, 2, 3)?;
    Ok(command(at, task, Action::Close(dcb)))
}

/// `reset T U DCB`
#[inline(always)]
#[tactic(auto, unfolding(crate::specs::Lines::reset_line))]
pub fn reset(at: usize, line: &LineWords<'_>) -> Result<ScriptCommand, FaultName>
    ensures { ReadsAs command_said result (reset_line at (words_in line.now)) }
{
    has(line, 4)?;
    let task = index(line, 1)?;
    let dcb = dcb_of(line, 2, 3)?;
    Ok(command(at, task, Action::Reset(dcb)))
}

/// `wait T`
#[inline(always)]
#[tactic(auto, unfolding(crate::specs::Lines::wait_line))]
pub fn wait(at: usize, line: &LineWords<'_>) -> Result<ScriptCommand, FaultName>
    ensures { ReadsAs command_said result (wait_line at (words_in line.now)) }
{
    has(line, 2)?;
    let task = index(line, 1)?;
    Ok(command(at, task, Action::Wait))
}

/// A command of a task.
#[inline(always)]
fn command(line: usize, task: u16, action: Action) -> ScriptCommand
    ensures { result ≡ record { line = line; task = task; action = action } }
{
    ScriptCommand { line, task, action }
}
