//! Extents of a disk.

ghost use Rattle.std.specs.Prelude.{◌≡◌};
ghost use Rattle.io_images.specs.Images.{extent_of};
ghost use Rattle.io_images.specs.Written.{extent_image};

use crate::address::Address;
use byteorder::{BigEndian, ByteOrder};

/// An extent of a disk, sixteen bytes (DFSMSdfp Advanced Services, "Data Extent Block Fields",
/// the direct access section).
#[derive(Clone, Copy, PartialEq, Eq, Debug, Default)]
pub struct Extent {
    /// File mask, kept and not examined (profile).
    pub file_mask: u8,
    /// Address of the unit's control block, kept and not examined (profile).
    pub unit_block: Address,
    /// Bin, kept and not examined (profile).
    pub bin: u16,
    pub start_cylinder: u16,
    pub start_head: u16,
    pub end_cylinder: u16,
    pub end_head: u16,
    /// Number of tracks.
    pub tracks: u16,
}

impl Extent {
    /// The fields of an image.
    pub fn read(image: &[u8; 16]) -> Extent
        ensures { result ≡ extent_of image.now }
    {
        Extent {
            file_mask: image[0],
            unit_block: Address::of_word(&[image[0], image[1], image[2], image[3]]),
            bin: BigEndian::read_u16(&image[4..]),
            start_cylinder: BigEndian::read_u16(&image[6..]),
            start_head: BigEndian::read_u16(&image[8..]),
            end_cylinder: BigEndian::read_u16(&image[10..]),
            end_head: BigEndian::read_u16(&image[12..]),
            tracks: BigEndian::read_u16(&image[14..]),
        }
    }

    /// Writes the sixteen bytes.
    pub fn write(&self, image: &mut [u8; 16])
        ensures image { image.new ≡ extent_image self.now }
        ensures reads_back { extent_of image.new ≡ self.now }
    {
        let Extent {
            file_mask,
            unit_block,
            bin,
            start_cylinder,
            start_head,
            end_cylinder,
            end_head,
            tracks,
        } = *self;
        image[0] = file_mask;
        BigEndian::write_u24(&mut image[1..], unit_block.get());
        BigEndian::write_u16(&mut image[4..], bin);
        BigEndian::write_u16(&mut image[6..], start_cylinder);
        BigEndian::write_u16(&mut image[8..], start_head);
        BigEndian::write_u16(&mut image[10..], end_cylinder);
        BigEndian::write_u16(&mut image[12..], end_head);
        BigEndian::write_u16(&mut image[14..], tracks);
    }
}
