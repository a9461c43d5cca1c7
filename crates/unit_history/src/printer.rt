//! The lines of a printer at which commands were.

ghost use Rattle.std.specs.Prelude.{IfSome};
ghost use Rattle.any_device.specs.declared.device.AnyDevice.TheVariants.{Printer as AsPrinter};
ghost use Rattle.unit_history.specs.declared.before.CommandEnd.TheVariants.{Normal};
ghost use Rattle.unit_history.specs.Places.{IsWhere};

use crate::place::MediumPosition;
use line_printer::{PaperPosition, Printer};

/// Where a command printed, which is where the paper was before it, or where it moved the paper.
pub(crate) fn place_on_paper(
    printer: &Printer,
    code: u8,
    before: PaperPosition,
) -> Option<MediumPosition<'static>>
    ensures { IfSome result (IsWhere (AsPrinter printer.now) Normal) }
{
    match code {
        // print, and space 0 to 3 lines or skip to channel 1
        0x01 | 0x09 | 0x11 | 0x19 | 0x89 => Some(MediumPosition::Line(before)),
        // space 1 to 3 lines, skip to channel 1
        0x0B | 0x13 | 0x1B | 0x8B => Some(MediumPosition::Line(printer.position())),
        _ => None,
    }
}
