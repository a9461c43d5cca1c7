//! Lines on units: what they are, the content of their media, and the faults that they meet.

ghost use Rattle.std.specs.Prelude.{◌≡◌};
ghost use Rattle.job_script.specs.LineViews.{set_up_line_said};
ghost use Rattle.job_script.specs.Lines.{block_line, disk_line, fault_line, mark_line, printer_line, record_line, tape_line};
ghost use Rattle.job_script.specs.Outcomes.{Returns, words_in};

use super::{SetUpLine, UnitLine};
use crate::forms::{byte, bytes, halfword, has, index, number, small_number, subclass, two_bytes};
use crate::refusal::LineError;
use crate::set_up::InitialMedium;
use ckd_disk::{Geometry, InitialRecord};
use device_port::Fault;
use io_images::{SubStatus, UnitStatus};
use script_words::LineWords;
use std::alloc::Global;
use tape_unit::InitialItem;

/// `disk U ISC CYLS HEADS BYTES`
#[inline(always)]
#[tactic(auto, unfolding(crate::specs::Lines::disk_line))]
pub fn disk(alloc: Global, at: usize, line: &LineWords<'_>) -> Result<SetUpLine, LineError>
    ensures { Returns set_up_line_said result (disk_line at (words_in line.now)) }
{
    has(line, 6)?;
    let unit_number = index(line, 1)?;
    let isc = subclass(line, 2)?;
    let geometry = Geometry {
        cylinders: number(line, 3)?,
        heads: number(line, 4)?,
        track_bytes: number(line, 5)?,
    };
    let medium = InitialMedium::Disk(geometry, Vec::new(alloc));
    Ok(SetUpLine::Unit(UnitLine {
        number: unit_number,
        line: at,
        isc,
        medium,
    }))
}

/// `tape U ISC BYTES`
#[inline(always)]
#[tactic(auto, unfolding(crate::specs::Lines::tape_line))]
pub fn tape(alloc: Global, at: usize, line: &LineWords<'_>) -> Result<SetUpLine, LineError>
    ensures { Returns set_up_line_said result (tape_line at (words_in line.now)) }
{
    has(line, 4)?;
    let unit_number = index(line, 1)?;
    let isc = subclass(line, 2)?;
    let medium = InitialMedium::Tape(number(line, 3)?, Vec::new(alloc));
    Ok(SetUpLine::Unit(UnitLine {
        number: unit_number,
        line: at,
        isc,
        medium,
    }))
}

/// `printer U ISC LINES PAGES`
#[inline(always)]
#[tactic(auto, unfolding(crate::specs::Lines::printer_line))]
pub fn printer(at: usize, line: &LineWords<'_>) -> Result<SetUpLine, LineError>
    ensures { Returns set_up_line_said result (printer_line at (words_in line.now)) }
{
    has(line, 5)?;
    let unit_number = index(line, 1)?;
    let isc = subclass(line, 2)?;
    let lines = number(line, 3)?;
    let pages = number(line, 4)?;
    let medium = InitialMedium::Printer { lines, pages };
    Ok(SetUpLine::Unit(UnitLine {
        number: unit_number,
        line: at,
        isc,
        medium,
    }))
}

/// `rec U CC HH R KEY HEX`
#[inline(always)]
#[tactic(auto, unfolding(crate::specs::Lines::record_line))]
pub fn record(alloc: Global, line: &LineWords<'_>) -> Result<SetUpLine, LineError>
    ensures { Returns set_up_line_said result (record_line (words_in line.now)) }
{
    has(line, 7)?;
    let unit = index(line, 1)?;
    let cylinder = halfword(line, 2)?;
    let head = halfword(line, 3)?;
    let number = small_number(line, 4)?;
    let key = bytes(alloc, line, 5)?;
    let content = bytes(alloc, line, 6)?;
    let initial = InitialRecord {
        cylinder,
        head,
        number,
        key,
        content,
    };
    Ok(SetUpLine::Record(unit, initial))
}

/// `block U HEX`
#[inline(always)]
#[tactic(auto, unfolding(crate::specs::Lines::block_line))]
pub fn block(alloc: Global, line: &LineWords<'_>) -> Result<SetUpLine, LineError>
    ensures { Returns set_up_line_said result (block_line (words_in line.now)) }
{
    has(line, 3)?;
    let unit = index(line, 1)?;
    let content = bytes(alloc, line, 2)?;
    Ok(SetUpLine::Item(unit, InitialItem::Block(content)))
}

/// `mark U`
#[inline(always)]
#[tactic(auto, unfolding(crate::specs::Lines::mark_line))]
pub fn mark(line: &LineWords<'_>) -> Result<SetUpLine, LineError>
    ensures { Returns set_up_line_said result (mark_line (words_in line.now)) }
{
    has(line, 2)?;
    let unit = index(line, 1)?;
    Ok(SetUpLine::Item(unit, InitialItem::Mark))
}

/// `fault U ORDINAL UU SS XXXX`
#[inline(always)]
#[tactic(auto, unfolding(crate::specs::Lines::fault_line))]
pub fn fault(line: &LineWords<'_>) -> Result<SetUpLine, LineError>
    ensures { Returns set_up_line_said result (fault_line (words_in line.now)) }
{
    has(line, 6)?;
    let unit = index(line, 1)?;
    let fault = Fault {
        ordinal: number(line, 2)?,
        unit: UnitStatus::new(byte(line, 3)?),
        sub: SubStatus::new(byte(line, 4)?),
        sense: two_bytes(line, 5)?,
    };
    Ok(SetUpLine::Fault(unit, fault))
}
