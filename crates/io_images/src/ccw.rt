//! Channel-command words and their flags.

ghost use Rattle.std.specs.Prelude.{⊤, ◌≡◌, [], ◌∷◌, codes, slice_index};
ghost use Rattle.io_images.specs.Bits.{is_on, is_off, chain_data_bit, chain_command_bit, suppress_length_bit, skip_bit, interrupt_bit, indirect_bit, suspend_bit, reserved_bit, unusable_flags};
ghost use Rattle.io_images.specs.Images.{ccw_of};
ghost use Rattle.io_images.specs.Written.{ccw_image};

use crate::address::Address;
use bitflags::{Flag, Flags, bitflag_items};
use byteorder::{BigEndian, ByteOrder};

/// The flags of a CCW (Principles of Operation, chapter 15, "Channel-Command Word").
#[derive(Clone, Copy, PartialEq, Eq, Debug, Default)]
pub struct CcwFlags(u8);

bitflag_items! {
    impl CcwFlags: u8 {
        const CHAIN_DATA = 0x80;
        const CHAIN_COMMAND = 0x40;
        const SUPPRESS_LENGTH = 0x20;
        const SKIP = 0x10;
        const INTERRUPT = 0x08;
        const INDIRECT = 0x04;
        const SUSPEND = 0x02;
        const RESERVED = 0x01;
    }
}

impl Flags for CcwFlags {
    type Bits = u8;

    ghost exact = { ⊤ };

    ghost table = { (codes "CHAIN_DATA", chain_data_bit) ∷ (codes "CHAIN_COMMAND", chain_command_bit) ∷ (codes "SUPPRESS_LENGTH", suppress_length_bit) ∷ (codes "SKIP", skip_bit) ∷ (codes "INTERRUPT", interrupt_bit) ∷ (codes "INDIRECT", indirect_bit) ∷ (codes "SUSPEND", suspend_bit) ∷ (codes "RESERVED", reserved_bit) ∷ [] };

    ghost set_of = { λ p. p.0 };

    fn flags<'a>() -> &'a [Flag<CcwFlags>] {
        CcwFlags::FLAGS
    }

    fn bits(&self) -> u8 {
        self.0
    }

    fn from_bits_retain(bits: u8) -> Self {
        Self(bits)
    }
}

/// The flags that a program may not use (profile).
const UNUSABLE: u8 = 0x03;

impl CcwFlags {
    /// The flags with these bits on.
    pub fn new(bits: u8) -> CcwFlags
        ensures { result.0 ≡ bits }
    {
        CcwFlags(bits)
    }

    /// The flags in one byte.
    pub fn read(image: &[u8; 1]) -> CcwFlags
        ensures { result.0 ≡ slice_index image.now 0 }
    {
        CcwFlags(image[0])
    }

    /// Writes the byte.
    pub fn write(&self, image: &mut [u8; 1])
        ensures image { image.new ≡ self.now.0 ∷ [] }
        ensures reads_back { slice_index image.new 0 ≡ self.now.0 }
    {
        image[0] = self.0;
    }

    /// Whether the next CCW continues the same data.
    pub fn chains_data(self) -> bool
        ensures { result ≡ is_on chain_data_bit self.0 }
    {
        self.contains(CcwFlags::CHAIN_DATA)
    }

    /// Whether another command follows.
    pub fn chains_command(self) -> bool
        ensures { result ≡ is_on chain_command_bit self.0 }
    {
        self.contains(CcwFlags::CHAIN_COMMAND)
    }

    /// Whether incorrect length is not to be shown.
    pub fn suppresses_length(self) -> bool
        ensures { result ≡ is_on suppress_length_bit self.0 }
    {
        self.contains(CcwFlags::SUPPRESS_LENGTH)
    }

    /// Whether the data of a read are not to be stored.
    pub fn skips(self) -> bool
        ensures { result ≡ is_on skip_bit self.0 }
    {
        self.contains(CcwFlags::SKIP)
    }

    /// Whether the address is that of a list of address words.
    pub fn is_indirect(self) -> bool
        ensures { result ≡ is_on indirect_bit self.0 }
    {
        self.contains(CcwFlags::INDIRECT)
    }

    /// Whether the flags that a program may not use, suspend and the last bit, are off (profile).
    pub fn reserved_off(self) -> bool
        ensures { result ≡ is_off unusable_flags self.0 }
    {
        self.0 & UNUSABLE == 0
    }
}

/// A format-0 CCW, eight bytes (Principles of Operation, chapter 15, "Channel-Command Word").
#[derive(Clone, Copy, PartialEq, Eq, Debug, Default)]
pub struct Ccw {
    /// Command code.
    pub command: u8,
    /// Data address.
    pub address: Address,
    pub flags: CcwFlags,
    /// Byte count.
    pub count: u16,
}

impl Ccw {
    /// The fields of an image. Byte 5 is not looked at.
    pub fn read(image: &[u8; 8]) -> Ccw
        ensures { result ≡ ccw_of image.now }
    {
        Ccw {
            command: image[0],
            address: Address::of_word(&[image[0], image[1], image[2], image[3]]),
            flags: CcwFlags::new(image[4]),
            count: BigEndian::read_u16(&image[6..]),
        }
    }

    /// Writes the fields and keeps byte 5.
    pub fn write(&self, image: &mut [u8; 8])
        ensures image { image.new ≡ ccw_image self.now image.old }
        ensures reads_back { ccw_of image.new ≡ self.now }
    {
        let count = self.count;
        image[0] = self.command;
        BigEndian::write_u24(&mut image[1..], self.address.get());
        image[4] = self.flags.0;
        BigEndian::write_u16(&mut image[6..], count);
    }
}
