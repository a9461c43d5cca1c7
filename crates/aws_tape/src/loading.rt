//! Images of tapes, read whole.

ghost use Rattle.std.specs.Prelude.{◌≡◌, [], true};
ghost use Rattle.std.specs.List.{list_all};
ghost use Rattle.tape_unit.specs.Recording.{is_recordable};
ghost use Rattle.aws_tape.specs.Chunk.{is_digit};
ghost use Rattle.aws_tape.specs.Reading.{Loads, is_fake_tape, start, at_offset, image_end};
ghost use Rattle.aws_tape.specs.Stepping.{ReadsChunks};

use crate::chunk::{HEADER, is_digit};
use crate::fault::{AwsError, AwsFault};
use crate::image::TapeImage;
use crate::reader::Reader;
use image_source::fill;
use std::alloc::Global;
use std::io::Read;
use tape_unit::Recording;

/// The bytes of a header of a FakeTape file.
const FAKE_HEADER: usize = 12;

/// More chunks than a tape and a layout in memory can have.
const MOST_CHUNKS: u64 = 1_099_511_627_776;

/// Reads an image to its end, to a tape of `bytes` bytes.
///
/// Errors: the first rule that the image breaks, with the offset of its chunk; `Unreadable` if a read fails, or
/// `NoMemory`.
pub fn load<R: Read>(alloc: Global, source: &mut R, bytes: u64) -> Result<TapeImage, AwsError>
    requires { is_recordable bytes ≡ true }
    ensures { Loads bytes (R.remaining source.old) result }
{
    let mut first = [0; FAKE_HEADER];
    let Ok(count) = fill(source, &mut first) else {
        return Err(AwsError {
            fault: AwsFault::Unreadable,
            offset: 0,
        });
    };
    let read = &first[..count];
    if is_fake_tape(read) {
        return Err(AwsError {
            fault: AwsFault::FakeTape,
            offset: 0,
        });
    }
    load_chunks(alloc, &mut read.chain(source), bytes)
}

/// Whether bytes begin as a FakeTape file.
fn is_fake_tape(bytes: &[u8]) -> bool
    ensures { result ≡ is_fake_tape bytes.now }
{
    bytes.len() >= FAKE_HEADER && are_digits(&bytes[..FAKE_HEADER])
}

/// Whether all bytes are upper hexadecimal digits in ASCII.
fn are_digits(bytes: &[u8]) -> bool
    ensures { result ≡ list_all is_digit bytes.now }
{
    bytes.iter().all(|byte| is_digit(*byte))
}

/// Reads the chunks of an image.
fn load_chunks<R: Read>(alloc: Global, source: &mut R, bytes: u64) -> Result<TapeImage, AwsError>
    requires { is_recordable bytes ≡ true }
    ensures { ReadsChunks (start (record { size = bytes; items = [] })) (R.remaining source.old) result }
{
    let Ok(tape) = Recording::new(alloc, bytes) else {
        unreachable!()
    };
    let mut reader = Reader::new(alloc, tape);
    let mut offset = 0;
    for _ in 0..MOST_CHUNKS {
        match reader.chunk(source) {
            Ok(Some(len)) => offset += HEADER as u64 + len as u64,
            Ok(None) => return ended(reader, offset),
            Err(fault) => return Err(AwsError { fault, offset }),
        }
    }
    Err(AwsError {
        fault: AwsFault::NoMemory,
        offset,
    })
}

/// The image that ends at an offset.
fn ended(reader: Reader, offset: u64) -> Result<TapeImage, AwsError>
    ensures { result ≡ at_offset offset (image_end reader) }
{
    match reader.end() {
        Ok(image) => Ok(image),
        Err(fault) => Err(AwsError { fault, offset }),
    }
}
