//! Numbers in decimal and bytes in hexadecimal, as text, and how a text is written.

ghost use Rattle.std.specs.Prelude.{◌≡◌, ◌+◌, ◌*◌, ◌≤◌, [], ◌∷◌, ◌++◌, length, take, drop, OnErr, OnOk};
ghost use Rattle.std.specs.Fmt.{decimal};
ghost use Rattle.std.specs.Io.KnownBytes.{Appends};
ghost use Rattle.post_lines.specs.Digits.{in_digits, shown_text};
ghost use Rattle.post_lines.specs.Writing.{AppendsPart};

use itoa::write_digits;
use std::io;
use std::io::{ErrorKind, Write};

/// The hexadecimal digits.
const DIGITS: [u8; 16] = *b"0123456789ABCDEF";

/// A byte as two hexadecimal digits.
#[inline(always)]
pub fn digits_of(byte: u8) -> [u8; 2]
    ensures { result ≡ in_digits (byte ∷ []) }
{
    [
        DIGITS[usize::from(byte / 16)],
        DIGITS[usize::from(byte % 16)],
    ]
}

/// Puts a number in decimal into a text, up to this index, and gives the index of its first digit.
pub fn put_decimal(text: &mut [u8], end: usize, number: usize) -> usize
    requires { (20 ≤ end) × (end ≤ length text.old) }
    ensures start { result + length (decimal number) ≡ end }
    ensures few { end ≤ result + 20 }
    ensures written { drop result text.new ≡ decimal number ++ drop end text.old }
    ensures before { take result text.new ≡ take result text.old }
{
    write_digits(number as u64, text, end)
}

/// Puts bytes in hexadecimal into a text, from this index on.
pub fn put_digits(text: &mut [u8], place: usize, bytes: &[u8])
    requires { place + 2 * length bytes.now ≤ length text.old }
    ensures { text.new ≡ take place text.old ++ in_digits bytes.now ++ drop (place + 2 * length bytes.now) text.old }
{
    for number in 0..bytes.len() {
        let [high, low] = digits_of(bytes[number]);
        text[place + 2 * number] = high;
        text[place + 2 * number + 1] = low;
    }
}

/// Writes a text. Repeats a write that was interrupted.
///
/// Error: a failed write, after a first part of the text.
pub fn write_text<W: Write>(out: &mut W, text: &[u8]) -> io::Result<()>
    ensures whole { OnOk result (Appends (W.contents out.old) (W.contents out.new) text.now) }
    ensures part { OnErr result (AppendsPart (W.contents out.old) (W.contents out.new) text.now) }
{
    let mut rest = text;
    for _ in 0..u64::MAX {
        if rest.is_empty() {
            return Ok(());
        }
        match out.write(rest) {
            Ok(0) => return Err(ErrorKind::WriteZero.into()),
            Ok(count) => rest = &rest[count..],
            Err(error) if error.kind() == ErrorKind::Interrupted => {}
            Err(error) => return Err(error),
        }
    }
    Err(ErrorKind::Interrupted.into())
}

/// Writes bytes in hexadecimal, or `-` for none.
///
/// Error: a failed write, after a first part of them.
pub fn write_bytes<W: Write>(out: &mut W, bytes: &[u8]) -> io::Result<()>
    ensures whole { OnOk result (Appends (W.contents out.old) (W.contents out.new) (shown_text bytes.now)) }
    ensures part { OnErr result (AppendsPart (W.contents out.old) (W.contents out.new) (shown_text bytes.now)) }
{
    if bytes.is_empty() {
        return write_text(out, b"-");
    }
    for part in bytes.chunks(32) {
        write_part(out, part)?;
    }
    Ok(())
}

/// Writes a few bytes in hexadecimal.
fn write_part<W: Write>(out: &mut W, part: &[u8]) -> io::Result<()>
    requires { length part.now ≤ 32 }
    ensures whole { OnOk result (Appends (W.contents out.old) (W.contents out.new) (in_digits part.now)) }
    ensures part { OnErr result (AppendsPart (W.contents out.old) (W.contents out.new) (in_digits part.now)) }
{
    let mut text = [0; 64];
    put_digits(&mut text, 0, part);
    write_text(out, &text[..2 * part.len()])
}
