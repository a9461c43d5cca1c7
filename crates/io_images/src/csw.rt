//! The status of a channel program.

ghost use Rattle.std.specs.Prelude.{◌≡◌, ◌≤◌, ◌++◌, length, drop};
ghost use Rattle.io_images.specs.Images.{csw_of, no_status};
ghost use Rattle.io_images.specs.Written.{csw_image};

use crate::address::Address;
use crate::status::{SubStatus, UnitStatus};
use byteorder::{BigEndian, ByteOrder};

/// The status of a channel program, as bytes 8 to 15 of an IOB have it (DFSMSdfp Advanced Services,
/// "Input/Output Block Fields", IOBCSW).
#[derive(Clone, Copy, PartialEq, Eq, Debug, Default)]
pub struct Csw {
    /// Address of the last CCW used, plus 8.
    pub address: Address,
    /// Unit status.
    pub unit: UnitStatus,
    /// Subchannel status.
    pub sub: SubStatus,
    /// Bytes that the last CCW used has left of its count.
    pub residual: u16,
}

impl Csw {
    /// The fields of an image. Byte 0 is not looked at.
    pub fn read(image: &[u8; 8]) -> Csw
        ensures { result ≡ csw_of image.now }
    {
        Csw::take(image)
    }

    /// Writes the fields and keeps byte 0.
    pub fn write(&self, image: &mut [u8; 8])
        ensures image { image.new ≡ csw_image self.now image.old }
        ensures reads_back { csw_of image.new ≡ self.now }
    {
        self.put(image);
    }

    /// The empty status: that of a request that was never started, and of an idle subchannel that is halted
    /// (profile).
    pub fn empty() -> Csw
        ensures { result ≡ no_status }
    {
        Csw::default()
    }

    /// The fields in the first eight bytes.
    pub(crate) fn take(image: &[u8]) -> Csw
        requires { 8 ≤ length image.now }
        ensures { result ≡ csw_of image.now }
    {
        Csw {
            address: Address::of_word(&[image[0], image[1], image[2], image[3]]),
            unit: UnitStatus::new(image[4]),
            sub: SubStatus::new(image[5]),
            residual: BigEndian::read_u16(&image[6..]),
        }
    }

    /// Writes the fields into the first eight bytes.
    pub(crate) fn put(&self, image: &mut [u8])
        requires { 8 ≤ length image.old }
        ensures image { image.new ≡ csw_image self.now image.old ++ drop 8 image.old }
        ensures reads_back { csw_of image.new ≡ self.now }
    {
        let residual = self.residual;
        BigEndian::write_u24(&mut image[1..], self.address.get());
        image[4] = self.unit.bits();
        image[5] = self.sub.bits();
        BigEndian::write_u16(&mut image[6..], residual);
    }
}
