//! Seek addresses.

ghost use Rattle.std.specs.Prelude.{◌≡◌, ◌≤◌, ◌++◌, length, drop};
ghost use Rattle.io_images.specs.Images.{seek_of};
ghost use Rattle.io_images.specs.Written.{seek_image};

use byteorder::{BigEndian, ByteOrder};

/// A seek address MBBCCHHR, eight bytes (DFSMSdfp Advanced Services, "Input/Output Block Fields",
/// IOBSEEK).
#[derive(Clone, Copy, PartialEq, Eq, Debug, Default)]
pub struct Seek {
    /// M, the number of the extent.
    pub extent: u8,
    /// BB, the bin.
    pub bin: u16,
    /// CC, the cylinder.
    pub cylinder: u16,
    /// HH, the head.
    pub head: u16,
    /// R, the record.
    pub record: u8,
}

impl Seek {
    /// The fields of an image.
    pub fn read(image: &[u8; 8]) -> Seek
        ensures { result ≡ seek_of image.now }
    {
        Seek::take(image)
    }

    /// Writes the eight bytes.
    pub fn write(&self, image: &mut [u8; 8])
        ensures image { image.new ≡ seek_image self.now }
        ensures reads_back { seek_of image.new ≡ self.now }
    {
        self.put(image);
    }

    /// The fields in the first eight bytes.
    pub(crate) fn take(image: &[u8]) -> Seek
        requires { 8 ≤ length image.now }
        ensures { result ≡ seek_of image.now }
    {
        Seek {
            extent: image[0],
            bin: BigEndian::read_u16(&image[1..]),
            cylinder: BigEndian::read_u16(&image[3..]),
            head: BigEndian::read_u16(&image[5..]),
            record: image[7],
        }
    }

    /// Writes the first eight bytes.
    pub(crate) fn put(&self, image: &mut [u8])
        requires { 8 ≤ length image.old }
        ensures image { image.new ≡ seek_image self.now ++ drop 8 image.old }
        ensures reads_back { seek_of image.new ≡ self.now }
    {
        let Seek {
            extent,
            bin,
            cylinder,
            head,
            record,
        } = *self;
        image[0] = extent;
        BigEndian::write_u16(&mut image[1..], bin);
        BigEndian::write_u16(&mut image[3..], cylinder);
        BigEndian::write_u16(&mut image[5..], head);
        image[7] = record;
    }
}
