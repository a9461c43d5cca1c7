//! The header of an image.

ghost use Rattle.std.specs.Prelude.{◌≡◌, Err, length};
ghost use Rattle.ckd_image.specs.Header.{format_of};

use crate::fault::{CkdError, CkdFault};
use byteorder::{ByteOrder, LittleEndian};

/// How many bytes a header has.
pub const HEADER: usize = 512;

/// How many bytes of a track in an image a volume does not have: the home address and the end mark, rounded.
pub const BESIDE: u32 = 14;

/// How large the tracks and cylinders of an image are.
#[derive(Clone, Copy, Debug, PartialEq, Eq)]
pub struct Format {
    /// Tracks a cylinder: 1 to 65,535.
    pub heads: u16,
    /// Bytes a track in the image: 30 to 65,549.
    pub bytes: u32,
}

impl Format {
    /// What the header of an image says.
    ///
    /// Errors: the first rule that the header breaks.
    pub fn of(header: &[u8]) -> Result<Self, CkdError>
        requires { length header.now ≡ 512 }
        ensures { result ≡ format_of header.now }
    {
        if header.starts_with(b"CKD_C370") {
            return fails(CkdFault::Compressed, 0);
        }
        if !header.starts_with(b"CKD_P370") {
            return fails(CkdFault::BadEyeCatcher, 0);
        }
        let heads = LittleEndian::read_u32(&header[8..]);
        if heads < 1 || heads > 65_535 {
            return fails(CkdFault::BadHeads, 8);
        }
        let bytes = LittleEndian::read_u32(&header[12..]);
        if bytes < 30 || bytes > 65_549 {
            return fails(CkdFault::BadTrackBytes, 12);
        }
        if header[17] != 0 {
            return fails(CkdFault::SplitVolume, 17);
        }
        Ok(Format {
            heads: heads as u16,
            bytes,
        })
    }
}

/// A fault at an offset.
fn fails(fault: CkdFault, offset: usize) -> Result<Format, CkdError>
    ensures { result ≡ Err (record { fault = fault; offset = offset }) }
{
    Err(CkdError { fault, offset })
}
