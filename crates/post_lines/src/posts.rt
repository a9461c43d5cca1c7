//! The posts of a run: those of one task after another, and their number. A call that fails has written a first part of its text.

ghost use Rattle.std.specs.Prelude.{◌≡◌, OnErr, OnOk, map};
ghost use Rattle.std.specs.Io.KnownBytes.{Appends};
ghost use Rattle.post_lines.specs.Writing.{AppendsPart};
ghost use Rattle.post_lines.specs.Slots.{shown_in, slot_of, slots_of};
ghost use Rattle.post_lines.specs.Lines.{count_text, slot_line, task_text, unit_text};

use crate::post::write_post;
use crate::slot::PostSlot;
use crate::slots::Slots;
use crate::writing::{put_decimal, write_text};
use request_piece::Posted;
use std::io;
use std::io::Write;

/// Writes the lines of the posts of a task, in order of units and numbers.
pub fn write_task<W: Write>(out: &mut W, task: usize, slots: &Slots) -> io::Result<()>
    ensures whole { OnOk result (Appends (W.contents out.old) (W.contents out.new) (task_text task (slots_of slots.now))) }
    ensures part { OnErr result (AppendsPart (W.contents out.old) (W.contents out.new) (task_text task (slots_of slots.now))) }
{
    for unit in 0..slots.units.len() {
        write_unit(out, task, unit, &slots.units[unit])?;
    }
    Ok(())
}

/// Writes the lines of the posts of a task's requests to a unit.
fn write_unit<W: Write>(out: &mut W, task: usize, unit: usize, slots: &[PostSlot]) -> io::Result<()>
    ensures whole { OnOk result (Appends (W.contents out.old) (W.contents out.new) (unit_text task unit 1 (map slot_of slots.now))) }
    ensures part { OnErr result (AppendsPart (W.contents out.old) (W.contents out.new) (unit_text task unit 1 (map slot_of slots.now))) }
{
    for place in 0..slots.len() {
        write_slot(out, task, unit, place + 1, &slots[place])?;
    }
    Ok(())
}

/// Writes the line of a request, if it was posted.
fn write_slot<W: Write>(
    out: &mut W,
    task: usize,
    unit: usize,
    number: usize,
    slot: &PostSlot,
) -> io::Result<()>
    ensures whole { OnOk result (Appends (W.contents out.old) (W.contents out.new) (slot_line task unit number (slot_of slot.now))) }
    ensures part { OnErr result (AppendsPart (W.contents out.old) (W.contents out.new) (slot_line task unit number (slot_of slot.now))) }
{
    let Some(end) = slot.end() else {
        return Ok(());
    };
    write_post(out, task, unit, number, &end, slot.shown())?;
    write_text(out, b"\n")
}

/// Writes the last line: how many posts there are.
pub fn write_count<W: Write>(out: &mut W, count: usize) -> io::Result<()>
    ensures whole { OnOk result (Appends (W.contents out.old) (W.contents out.new) (count_text count)) }
    ensures part { OnErr result (AppendsPart (W.contents out.old) (W.contents out.new) (count_text count)) }
{
    let mut text = [b'\n'; 21];
    let start = put_decimal(&mut text, 20, count);
    write_text(out, b"end ")?;
    write_text(out, &text[start..])
}

/// The `len` bytes at the address `show` of the area of a posted request, or none if they do not lie in it.
pub fn shown(posted: &Posted, show: u32, len: u64) -> &[u8]
    ensures { result.now ≡ shown_in posted.now.area show len }
{
    let count = usize::try_from(len).unwrap_or(usize::MAX);
    posted.area().get(show, count).unwrap_or(&[])
}
