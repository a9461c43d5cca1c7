//! How a script is read.

ghost use Rattle.std.specs.Prelude.{◌+◌, IfErr, IfOk};
ghost use Rattle.job_script.specs.Reading.{ReadFault, ReadsAll, ReadsAtMost};

use crate::fault::JobError;
use std::alloc::Global;
use std::io::Read;

/// The most bytes of a script.
pub const LIMIT: usize = 1_048_576;

/// Reads a script to its end, and no further than one byte past its limit.
///
/// Errors: the reader fails; the script is too long; out of memory.
pub fn read_script<R: Read>(alloc: Global, reader: &mut R) -> Result<Vec<u8>, JobError>
    ensures bounded { ReadsAtMost (LIMIT + 1) (R.remaining reader.old) (R.remaining reader.new) }
    ensures whole { IfOk result (λ text. ReadsAll LIMIT (R.remaining reader.old) (R.remaining reader.new) text.items) }
    ensures fault { IfErr result (ReadFault LIMIT (R.remaining reader.old) (R.remaining reader.new)) }
{
    let mut text = Vec::new(alloc);
    let mut buffer = [0; 8192];
    for _ in 0..=LIMIT {
        let room = (LIMIT + 1 - text.len()).min(buffer.len());
        let Ok(count) = reader.read(&mut buffer[..room]) else {
            return Err(JobError::Unreadable);
        };
        if count == 0 {
            return Ok(text);
        }
        match text.extend_from_slice(&buffer[..count]) {
            Ok(()) => {}
            Err(_) => return Err(JobError::NoMemory),
        }
        if text.len() > LIMIT {
            return Err(JobError::TooLong);
        }
    }
    unreachable!()
}
