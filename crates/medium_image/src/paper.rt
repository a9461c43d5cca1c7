//! The paper of a printer as a text file.

ghost use Rattle.std.specs.Prelude.{◌≡◌, OnOk, replicate};
ghost use Rattle.std.specs.Io.KnownBytes.{Appends};
ghost use Rattle.medium_image.specs.Paper.{line_text, motion_text, paper_text, without_blanks};

use crate::characters::character;
use line_printer::{PaperPosition, Printer};
use std::io;
use std::io::Write;

/// The blank of EBCDIC.
const BLANK: u8 = 0x40;

/// The top of the first page.
const TOP: PaperPosition = PaperPosition { page: 1, line: 1 };

/// Writes what a printer has printed, as text in UTF-8: each printed line without its trailing blanks, and after it how
/// the paper moved. A line feed is a line down, and a form feed the top of the next page. A carriage return says that
/// the next line is printed over this one.
pub(crate) fn write_paper<W: Write>(out: &mut W, printer: &Printer) -> io::Result<()>
    ensures { OnOk result (Appends (W.contents out.old) (W.contents out.new) (paper_text printer.now)) }
{
    let mut at = TOP;
    let mut is_printed = false;
    for line in printer.printed() {
        write_motion(out, at, line.position(), is_printed)?;
        write_line(out, line.bytes())?;
        at = line.position();
        is_printed = true;
    }
    write_motion(out, at, printer.position(), is_printed)?;
    Ok(())
}

/// Writes how the paper moved from one position to another. `is_printed` says whether a line was printed at the first.
fn write_motion<W: Write>(
    out: &mut W,
    from: PaperPosition,
    to: PaperPosition,
    is_printed: bool,
) -> io::Result<()>
    ensures { OnOk result (Appends (W.contents out.old) (W.contents out.new) (motion_text is_printed from to)) }
{
    if is_printed && from == to {
        return out.write_all(b"\r");
    }
    let line = if from.page < to.page { 1 } else { from.line };
    write_times(out, b'\x0c', to.page.saturating_sub(from.page))?;
    write_times(out, b'\n', u16::from(to.line.saturating_sub(line)))
}

/// Writes a byte `count` times.
fn write_times<W: Write>(out: &mut W, byte: u8, count: u16) -> io::Result<()>
    ensures { OnOk result (Appends (W.contents out.old) (W.contents out.new) (replicate count byte)) }
{
    for _ in 0..count {
        out.write_all(&[byte])?;
    }
    Ok(())
}

/// Writes the characters of a line up to its last byte that is no blank.
fn write_line<W: Write>(out: &mut W, line: &[u8]) -> io::Result<()>
    ensures { OnOk result (Appends (W.contents out.old) (W.contents out.new) (line_text line.now)) }
{
    for byte in without_blanks(line) {
        write!(out, "{}", character(*byte))?;
    }
    Ok(())
}

/// A line without the blanks that it ends with.
fn without_blanks(line: &[u8]) -> &[u8]
    ensures { result.now ≡ without_blanks line.now }
{
    let mut line = line;
    while let Some((last, others)) = line.split_last() {
        if *last != BLANK {
            return line;
        }
        line = others;
    }
    line
}
