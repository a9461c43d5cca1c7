//! Words of address lists.

ghost use Rattle.std.specs.Prelude.{◌≡◌};
ghost use Rattle.io_images.specs.Images.{word_of};
ghost use Rattle.io_images.specs.Written.{word_image};

use byteorder::{BigEndian, ByteOrder};
use std::marker::Model;

/// A word of an address list (Principles of Operation, chapter 15, "Indirect Data Addressing"): four
/// bytes that hold an address. One whose bit 0 is on can be read; the channel refuses it later.
#[derive(Clone, Copy, PartialEq, Eq, Debug, Default)]
pub struct AddressWord {
    value: u32,
}

impl Model for AddressWord {
    ghost use Rattle.std.specs.Prelude.{ℕ};

    ghost Value = { ℕ };

    ghost view = { λ w. w.value };

    ghost inverse = { λ n. record { value = n } };
}

impl AddressWord {
    /// The word with this number.
    pub fn new(value: u32) -> AddressWord
        ensures { result ≡ value }
    {
        AddressWord { value }
    }

    /// The number of the word, bit 0 included.
    pub fn get(self) -> u32
        ensures { result ≡ self }
    {
        self.value
    }

    /// The word in four bytes.
    pub fn read(image: &[u8; 4]) -> AddressWord
        ensures { result ≡ word_of image.now }
    {
        AddressWord {
            value: BigEndian::read_u32(image),
        }
    }

    /// Writes the four bytes.
    pub fn write(&self, image: &mut [u8; 4])
        ensures image { image.new ≡ word_image self.now }
        ensures reads_back { word_of image.new ≡ self.now }
    {
        BigEndian::write_u32(image, self.get());
    }
}
