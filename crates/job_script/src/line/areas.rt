//! Lines on tasks, DCBs and areas.

ghost use Rattle.std.specs.Prelude.{◌≡◌};
ghost use Rattle.job_script.specs.LineViews.{set_up_line_said};
ghost use Rattle.job_script.specs.Lines.{area_line, open_line, tasks_line};
ghost use Rattle.job_script.specs.Outcomes.{Returns, words_in};

use super::{AreaLine, SetUpLine, TasksLine};
use crate::forms::{
    address, extents, has, has_least, index, joined_bytes, method_of, number, number_in,
};
use crate::refusal::LineError;
use crate::set_up::Opening;
use script_words::LineWords;
use std::alloc::Global;

/// `tasks N`
#[inline(always)]
#[tactic(auto, unfolding(crate::specs::Lines::tasks_line))]
pub fn tasks(line: &LineWords<'_>) -> Result<SetUpLine, LineError>
    ensures { Returns set_up_line_said result (tasks_line (words_in line.now)) }
{
    has(line, 2)?;
    let tasks = number_in(line, 1, 1, 64)?;
    Ok(SetUpLine::Tasks(TasksLine { tasks }))
}

/// `open U in EXTENT ...` or `open U out EXTENT ...`
#[inline(always)]
#[tactic(auto, unfolding(crate::specs::Lines::open_line))]
pub fn opening(alloc: Global, at: usize, line: &LineWords<'_>) -> Result<SetUpLine, LineError>
    ensures { Returns set_up_line_said result (open_line at (words_in line.now)) }
{
    has_least(line, 3)?;
    let unit = index(line, 1)?;
    let method = method_of(line, 2)?;
    let extents = extents(alloc, line)?;
    let opening = Opening {
        line: at,
        method,
        extents,
    };
    Ok(SetUpLine::Opening(unit, opening))
}

/// `area A ADDR HEX ...`
#[inline(always)]
#[tactic(auto, unfolding(crate::specs::Lines::area_line))]
pub fn area(alloc: Global, line: &LineWords<'_>) -> Result<SetUpLine, LineError>
    ensures { Returns set_up_line_said result (area_line (words_in line.now)) }
{
    has_least(line, 3)?;
    let number = number(line, 1)?;
    let base = address(line, 2)?;
    let bytes = joined_bytes(alloc, line)?;
    Ok(SetUpLine::Area(AreaLine {
        number,
        base,
        bytes,
    }))
}
