//! The file mask of a disk.

ghost use Rattle.std.specs.Prelude.{◌≡◌};
ghost use Rattle.io_images.specs.FileMask.{inhibits_writes, inhibits_formatting, inhibits_seeks};

/// Which writes and which seeks a disk lets a program do (count-key-data devices; bits 3 and 4 other than 00
/// inhibit every seek, profile).
#[derive(Clone, Copy, PartialEq, Eq, Debug)]
pub struct FileMask(pub u8);

/// Bits 0 and 1, and their values that inhibit all writes, and those that format.
const WRITE_BITS: u8 = 0xC0;

const NO_WRITES: u8 = 0x40;

const NO_FORMATTING: u8 = 0x80;

/// Bits 3 and 4.
const SEEK_BITS: u8 = 0x18;

impl FileMask {
    /// The mask of a DCB opened for input: no writes and no seeks (profile).
    pub const INPUT: FileMask = FileMask(0x58);

    /// The mask of a DCB opened for output: no seeks (profile).
    pub const OUTPUT: FileMask = FileMask(0x18);

    /// Whether all writes are inhibited.
    pub fn inhibits_writes(self) -> bool
        ensures { result ≡ inhibits_writes self.0 }
    {
        self.0 & WRITE_BITS == NO_WRITES
    }

    /// Whether writes that format are inhibited.
    pub fn inhibits_formatting(self) -> bool
        ensures { result ≡ inhibits_formatting self.0 }
    {
        self.inhibits_writes() || self.0 & WRITE_BITS == NO_FORMATTING
    }

    /// Whether seeks are inhibited.
    pub fn inhibits_seeks(self) -> bool
        ensures { result ≡ inhibits_seeks self.0 }
    {
        self.0 & SEEK_BITS != 0
    }
}
