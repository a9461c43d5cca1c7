//! A piece of an image.

ghost use Rattle.std.specs.Prelude.{IfOk};
ghost use Rattle.image_source.specs.Filled.{Fills};

use std::io::{self, Read};

/// Reads bytes until the buffer is full or the reader is at its end, and returns how many.
///
/// Error: that of the reader, after a part.
pub fn fill<R: Read>(source: &mut R, buffer: &mut [u8]) -> io::Result<usize>
    ensures { IfOk result (Fills (R.remaining source.old) (R.remaining source.new) buffer.new) }
{
    let mut count = 0;
    while count < buffer.len() {
        let more = source.read(&mut buffer[count..])?;
        if more == 0 {
            return Ok(count);
        }
        count += more;
    }
    Ok(count)
}
