//! Addresses below 2^24.

ghost use Rattle.std.specs.Prelude.{◌≡◌, ◌<◌, ◌^◌, ◌%◌, ◌+◌};
ghost use Rattle.byteorder.specs.Endian.{big_from};
ghost use Rattle.io_images.specs.Images.{address_of};
ghost use Rattle.io_images.specs.Written.{address_image};

use byteorder::{BigEndian, ByteOrder};
use std::marker::Model;

/// An address of storage, below 2^24, as a format-0 CCW has it (Principles of Operation, chapter 15,
/// "Channel-Command Word"). In an image it takes three bytes.
#[derive(Clone, Copy, PartialEq, Eq, Debug, Default)]
pub struct Address {
    value: u32,
}

impl Model for Address {
    ghost use Rattle.std.specs.Prelude.{ℕ, ◌<◌, ◌^◌};

    ghost Value = { ℕ };

    ghost view = { λ a. a.value };

    ghost invariant = { λ a. a.value < 2 ^ 24 };

    ghost inverse = { λ n. record { value = n } };
}

impl Address {
    /// The address with this number.
    pub fn new(value: u32) -> Address
        requires { value < 2 ^ 24 }
        ensures { result ≡ value }
    {
        Address { value }
    }

    /// The address that a CSW has for the CCW at an address: eight more, modulo 2^24 (Principles of
    /// Operation, chapter 16, "CCW Address").
    pub fn stored(at: u32) -> Address
        ensures { result ≡ (at + 8) % 2 ^ 24 }
    {
        Address {
            value: ((u64::from(at) + 8) % 0x100_0000) as u32,
        }
    }

    /// The number of the address.
    pub fn get(self) -> u32
        ensures value { result ≡ self }
        ensures bound { result < 2 ^ 24 }
    {
        self.value
    }

    /// The address in three bytes.
    pub fn read(image: &[u8; 3]) -> Address
        ensures { result ≡ address_of image.now }
    {
        Address {
            value: u32::from(image[0]) * 65536 + u32::from(image[1]) * 256 + u32::from(image[2]),
        }
    }

    /// The address in the last three of four bytes. One load of four bytes costs less than three loads of one.
    #[inline(always)]
    pub(crate) fn of_word(image: &[u8; 4]) -> Address
        ensures { result ≡ big_from 1 3 image.now }
    {
        Address {
            value: BigEndian::read_u32(image) % 0x100_0000,
        }
    }

    /// Writes the three bytes.
    pub fn write(&self, image: &mut [u8; 3])
        ensures image { image.new ≡ address_image self.now }
        ensures reads_back { address_of image.new ≡ self.now }
    {
        BigEndian::write_u24(image, self.get());
    }
}
