//! The line of a post. A call that fails has written a first part of its text.

ghost use Rattle.std.specs.Prelude.{◌≡◌, ◌++◌, OnErr, OnOk, replicate};
ghost use Rattle.std.specs.Io.KnownBytes.{Appends};
ghost use Rattle.post_lines.specs.Slots.{posted_end};
ghost use Rattle.post_lines.specs.Lines.{end_text, head_text, post_text};
ghost use Rattle.post_lines.specs.Digits.{shown_text};
ghost use Rattle.post_lines.specs.Writing.{AppendsPart};

use crate::end::End;
use crate::writing::{put_decimal, put_digits, write_bytes, write_text};
use request_piece::{Name, Posted};
use std::io;
use std::io::Write;

/// How many bytes tell how a request ended, up to its shown bytes.
const END_LEN: usize = 25;

/// Writes the line of a post that was collected, without a line feed, with these bytes of its area.
pub fn write_posted<W: Write>(out: &mut W, posted: &Posted, shown: &[u8]) -> io::Result<()>
    ensures whole { OnOk result (Appends (W.contents out.old) (W.contents out.new) (post_text posted.now.name.task posted.now.unit posted.now.name.seq (posted_end posted.now) shown.now)) }
    ensures part { OnErr result (AppendsPart (W.contents out.old) (W.contents out.new) (post_text posted.now.name.task posted.now.unit posted.now.name.seq (posted_end posted.now) shown.now)) }
{
    let Name { task, seq } = posted.name();
    let unit = usize::from(posted.unit());
    write_post(
        out,
        usize::from(task),
        unit,
        seq as usize,
        &End::of(posted),
        shown,
    )
}

/// Writes the outcome of a request: its post without the numbers of task, unit and request.
pub fn write_outcome<W: Write>(out: &mut W, posted: &Posted, shown: &[u8]) -> io::Result<()>
    ensures whole { OnOk result (Appends (W.contents out.old) (W.contents out.new) (end_text (posted_end posted.now) ++ shown_text shown.now)) }
    ensures part { OnErr result (AppendsPart (W.contents out.old) (W.contents out.new) (end_text (posted_end posted.now) ++ shown_text shown.now)) }
{
    let mut text = [b' '; END_LEN];
    put_end(&mut text, &End::of(posted));
    write_text(out, &text)?;
    write_bytes(out, shown)
}

/// Writes the line of a post, without a line feed: `post`, the numbers of task, unit and request, how the request ended, and
/// the shown bytes of its area.
pub fn write_post<W: Write>(
    out: &mut W,
    task: usize,
    unit: usize,
    number: usize,
    end: &End,
    shown: &[u8],
) -> io::Result<()>
    ensures whole { OnOk result (Appends (W.contents out.old) (W.contents out.new) (post_text task unit number end.now shown.now)) }
    ensures part { OnErr result (AppendsPart (W.contents out.old) (W.contents out.new) (post_text task unit number end.now shown.now)) }
{
    write_head(out, task, unit, number, end)?;
    write_bytes(out, shown)
}

/// Writes a line up to its shown bytes: `post`, the numbers of task, unit and request, and how it ended, each followed by a
/// blank. Puts the text together from its end.
fn write_head<W: Write>(
    out: &mut W,
    task: usize,
    unit: usize,
    number: usize,
    end: &End,
) -> io::Result<()>
    ensures whole { OnOk result (Appends (W.contents out.old) (W.contents out.new) (head_text task unit number end.now)) }
    ensures part { OnErr result (AppendsPart (W.contents out.old) (W.contents out.new) (head_text task unit number end.now)) }
{
    let mut text = [b' '; 96];
    put_end(&mut text[71..], end);
    let number = put_decimal(&mut text, 70, number);
    let unit = put_decimal(&mut text, number - 1, unit);
    let task = put_decimal(&mut text, unit - 1, task);
    let start = task - 5;
    text[start..start + 4].copy_from_slice(b"post");
    write_text(out, &text[start..])
}

/// Puts the completion code, the CSW (the address, both status bytes, the residual count) and the sense bytes into a
/// text of blanks.
fn put_end(text: &mut [u8], end: &End)
    requires { text.old ≡ replicate END_LEN 32 }
    ensures { text.new ≡ end_text end.now }
{
    let [_, top, middle, low] = end.csw.address.get().to_be_bytes();
    put_digits(text, 0, &[end.code.byte()]);
    put_digits(text, 3, &[top, middle, low]);
    put_digits(text, 10, &[end.csw.unit.bits(), end.csw.sub.bits()]);
    put_digits(text, 15, &end.csw.residual.to_be_bytes());
    put_digits(text, 20, &end.sense.to_be_bytes());
}
