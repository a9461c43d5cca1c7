//! The items of a tape at which commands were.

ghost use Rattle.std.specs.Prelude.{IfSome};
ghost use Rattle.any_device.specs.declared.device.AnyDevice.TheVariants.{Tape as AsTape};
ghost use Rattle.unit_history.specs.declared.before.CommandEnd.TheVariants.{Normal};
ghost use Rattle.unit_history.specs.Places.{IsWhere};

use crate::place::MediumPosition;
use tape_unit::Tape;

/// The item that a command read, wrote or went over, by the tape after it. It is the last one that the head went by.
pub(crate) fn place_on_tape(tape: &Tape, code: u8) -> Option<MediumPosition<'static>>
    ensures { IfSome result (IsWhere (AsTape tape.now) Normal) }
{
    let before = tape.place();
    match code {
        // write, read, write tape mark, forward space block, forward space file
        0x01 | 0x02 | 0x1F | 0x37 | 0x3F => Some(MediumPosition::Item(before)),
        // read backward, backspace block, backspace file
        0x0C | 0x27 | 0x2F => Some(MediumPosition::Item(before.saturating_add(1))),
        _ => None,
    }
}
