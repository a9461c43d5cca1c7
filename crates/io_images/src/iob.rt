//! Input/output blocks.

ghost use Rattle.std.specs.Prelude.{⊤, ◌≡◌, [], ◌∷◌, codes};
ghost use Rattle.io_images.specs.Bits.{iob_data_chaining_bit, iob_command_chaining_bit, iob_io_error_bit, iob_unrelated_bit};
ghost use Rattle.io_images.specs.Images.{iob_of};
ghost use Rattle.io_images.specs.Written.{iob_image, flag_byte};

use crate::address::Address;
use crate::csw::Csw;
use crate::seek::Seek;
use bitflags::{Flag, Flags, bitflag_items};
use byteorder::{BigEndian, ByteOrder};

/// The named bits of IOBFLAG1, byte 0 of an IOB.
#[derive(Clone, Copy, PartialEq, Eq, Debug)]
struct IobFlags(u8);

bitflag_items! {
    impl IobFlags: u8 {
        const DATA_CHAINING = 0x80;
        const COMMAND_CHAINING = 0x40;
        const IO_ERROR = 0x04;
        const UNRELATED = 0x02;
    }
}

impl Flags for IobFlags {
    type Bits = u8;

    ghost exact = { ⊤ };

    ghost table = { (codes "DATA_CHAINING", iob_data_chaining_bit) ∷ (codes "COMMAND_CHAINING", iob_command_chaining_bit) ∷ (codes "IO_ERROR", iob_io_error_bit) ∷ (codes "UNRELATED", iob_unrelated_bit) ∷ [] };

    ghost set_of = { λ p. p.0 };

    fn flags<'a>() -> &'a [Flag<IobFlags>] {
        IobFlags::FLAGS
    }

    fn bits(&self) -> u8 {
        self.0
    }

    fn from_bits_retain(bits: u8) -> IobFlags {
        IobFlags(bits)
    }
}

/// An input/output block, forty bytes for every kind of device (DFSMSdfp Advanced Services,
/// "Input/Output Block Fields"; its length is the profile's).
#[derive(Clone, Copy, PartialEq, Eq, Debug)]
pub struct Iob {
    /// Data chaining is used; kept and not examined.
    pub data_chaining: bool,
    /// Command chaining is used; kept and not examined.
    pub command_chaining: bool,
    /// IOBIOERR.
    pub io_error: bool,
    /// IOBUNREL.
    pub unrelated: bool,
    /// IOBSENS0 and IOBSENS1.
    pub sense: u16,
    /// IOBECBCC, the completion code.
    pub completion: u8,
    /// Address of the ECB.
    pub ecb: Address,
    /// IOBCSW.
    pub csw: Csw,
    /// IOBSTART, the address of the channel program.
    pub start: Address,
    /// The DCB pointer, which holds the number of the DCB (profile).
    pub dcb: Address,
    /// IOBSEEK, examined for a disk only.
    pub seek: Seek,
}

impl Iob {
    /// The fields of an image.
    pub fn read(image: &[u8; 40]) -> Iob
        ensures { result ≡ iob_of image.now }
    {
        let flags = IobFlags(image[0]);
        Iob {
            data_chaining: flags.contains(IobFlags::DATA_CHAINING),
            command_chaining: flags.contains(IobFlags::COMMAND_CHAINING),
            io_error: flags.contains(IobFlags::IO_ERROR),
            unrelated: flags.contains(IobFlags::UNRELATED),
            sense: BigEndian::read_u16(&image[2..]),
            completion: image[4],
            ecb: Address::of_word(&[image[4], image[5], image[6], image[7]]),
            csw: Csw::take(&image[8..]),
            start: Address::of_word(&[image[16], image[17], image[18], image[19]]),
            dcb: Address::of_word(&[image[20], image[21], image[22], image[23]]),
            seek: Seek::take(&image[32..]),
        }
    }

    /// Writes the fields, and keeps the other bits of byte 0 and the bytes 1, 8, 16, 20 and 24 to 31.
    pub fn write(&self, image: &mut [u8; 40])
        ensures image { image.new ≡ iob_image self.now image.old }
        ensures reads_back { iob_of image.new ≡ self.now }
    {
        let sense = self.sense;
        image[0] = self.flag_byte(image[0]);
        BigEndian::write_u16(&mut image[2..], sense);
        image[4] = self.completion;
        BigEndian::write_u24(&mut image[5..], self.ecb.get());
        self.csw.put(&mut image[8..]);
        BigEndian::write_u24(&mut image[17..], self.start.get());
        BigEndian::write_u24(&mut image[21..], self.dcb.get());
        self.seek.put(&mut image[32..]);
    }

    /// IOBFLAG1 with the named bits as here, and the other bits as they were.
    fn flag_byte(&self, old: u8) -> u8
        ensures { result ≡ flag_byte self.now old }
    {
        let mut flags = IobFlags(old);
        flags.set(IobFlags::DATA_CHAINING, self.data_chaining);
        flags.set(IobFlags::COMMAND_CHAINING, self.command_chaining);
        flags.set(IobFlags::IO_ERROR, self.io_error);
        flags.set(IobFlags::UNRELATED, self.unrelated);
        flags.0
    }
}
