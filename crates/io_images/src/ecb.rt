//! Event control blocks.

ghost use Rattle.std.specs.Prelude.{◌≡◌};
ghost use Rattle.io_images.specs.Images.{ecb_of};
ghost use Rattle.io_images.specs.Written.{ecb_image};
ghost use Rattle.io_images.specs.Codes.{posted_ecb, is_complete};

use crate::code::Code;
use byteorder::{BigEndian, ByteOrder};

/// The complete bit, X'40' of byte 0.
const COMPLETE: u32 = 0x4000_0000;

/// An event control block, a fullword (DFSMSdfp Advanced Services, "Event Control Block Fields").
#[derive(Clone, Copy, PartialEq, Eq, Debug, Default)]
pub struct Ecb {
    /// Byte 0 has the wait bit X'80', the complete bit X'40' and the beginning of the completion
    /// code.
    pub word: u32,
}

impl Ecb {
    /// What a post writes: the completion code in byte 0 and zeros.
    pub fn posted(code: Code) -> Ecb
        ensures { result ≡ posted_ecb code }
    {
        Ecb {
            word: u32::from(code.byte()) << 24,
        }
    }

    /// Whether the complete bit is on.
    pub fn is_complete(&self) -> bool
        ensures { result ≡ is_complete self.now }
    {
        self.word & COMPLETE == COMPLETE
    }

    /// The word of an image.
    pub fn read(image: &[u8; 4]) -> Ecb
        ensures { result ≡ ecb_of image.now }
    {
        Ecb {
            word: BigEndian::read_u32(image),
        }
    }

    /// Writes the four bytes.
    pub fn write(&self, image: &mut [u8; 4])
        ensures image { image.new ≡ ecb_image self.now }
        ensures reads_back { ecb_of image.new ≡ self.now }
    {
        let word = self.word;
        BigEndian::write_u32(image, word);
    }
}
