//! The headers of chunks.

ghost use Rattle.std.specs.Prelude.{◌≡◌, ◌<◌, ◌≤◌, length};
ghost use Rattle.byteorder.specs.Endian.{little_number};
ghost use Rattle.aws_tape.specs.Chunk.{chunk_kind, is_digit};

use byteorder::{ByteOrder, LittleEndian};

/// The bytes of a header.
pub const HEADER: usize = 6;

/// What a chunk is.
#[derive(Clone, Copy, Debug, PartialEq, Eq)]
pub enum ChunkKind {
    /// A tape mark.
    Mark,
    /// A block.
    Whole,
    /// The first part of a block.
    First,
    /// A part of a block between others.
    Middle,
    /// The last part of a block.
    Last,
}

/// What a header says of its chunk.
#[derive(Clone, Copy, Debug, PartialEq, Eq)]
pub struct Header {
    pub kind: ChunkKind,
    /// How many bytes of data follow the header.
    pub len: u16,
}

impl ChunkKind {
    /// What a chunk is by byte 4 of its header.
    pub fn decode(flags: u8) -> Option<Self>
        ensures { result ≡ chunk_kind flags }
    {
        let kind = match flags {
            0x40 => ChunkKind::Mark,
            0xA0 => ChunkKind::Whole,
            0x80 => ChunkKind::First,
            0x00 => ChunkKind::Middle,
            0x20 => ChunkKind::Last,
            _ => return None,
        };
        Some(kind)
    }
}

/// The number in two bytes, the lowest first.
pub fn number(bytes: &[u8]) -> u16
    requires { 2 ≤ length bytes.now }
    ensures { result ≡ little_number 2 bytes.now }
{
    LittleEndian::read_u16(bytes)
}

/// Whether a byte is an upper hexadecimal digit in ASCII.
pub fn is_digit(byte: u8) -> bool
    ensures { result ≡ is_digit byte }
{
    (byte >= 0x30 && byte <= 0x39) || (byte >= 0x41 && byte <= 0x46)
}
