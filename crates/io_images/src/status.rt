//! Unit status and subchannel status.

ghost use Rattle.std.specs.Prelude.{⊤, ◌≡◌, ◌==◌, [], ◌∷◌, codes, slice_index};
ghost use Rattle.io_images.specs.Bits.{is_off, check_or_exception, attention_bit, status_modifier_bit, control_unit_end_bit, busy_bit, channel_end_bit, device_end_bit, unit_check_bit, unit_exception_bit, program_interruption_bit, incorrect_length_bit, program_check_bit, protection_check_bit, channel_data_check_bit, channel_control_check_bit, interface_control_check_bit, chaining_check_bit};

use bitflags::{Flag, Flags, bitflag_items};

/// Unit status (Principles of Operation, chapter 16, "Device-Status Field"). Each set of bits can be
/// read.
#[derive(Clone, Copy, PartialEq, Eq, Debug, Default)]
pub struct UnitStatus(pub u8);

bitflag_items! {
    impl UnitStatus: u8 {
        const ATTENTION = 0x80;
        const STATUS_MODIFIER = 0x40;
        const CONTROL_UNIT_END = 0x20;
        const BUSY = 0x10;
        const CHANNEL_END = 0x08;
        const DEVICE_END = 0x04;
        const UNIT_CHECK = 0x02;
        const UNIT_EXCEPTION = 0x01;
    }
}

impl Flags for UnitStatus {
    type Bits = u8;

    ghost exact = { ⊤ };

    ghost table = { (codes "ATTENTION", attention_bit) ∷ (codes "STATUS_MODIFIER", status_modifier_bit) ∷ (codes "CONTROL_UNIT_END", control_unit_end_bit) ∷ (codes "BUSY", busy_bit) ∷ (codes "CHANNEL_END", channel_end_bit) ∷ (codes "DEVICE_END", device_end_bit) ∷ (codes "UNIT_CHECK", unit_check_bit) ∷ (codes "UNIT_EXCEPTION", unit_exception_bit) ∷ [] };

    ghost set_of = { λ s. s.0 };

    fn flags<'a>() -> &'a [Flag<UnitStatus>] {
        UnitStatus::FLAGS
    }

    fn bits(&self) -> u8 {
        self.0
    }

    fn from_bits_retain(bits: u8) -> Self {
        Self(bits)
    }
}

/// Unit check and unit exception.
const CHECK_OR_EXCEPTION: u8 = 0x03;

impl UnitStatus {
    /// Channel end and device end, which come at once (profile): a command has ended normally.
    pub const NORMAL_END: UnitStatus = UnitStatus(0x0C);

    /// Status modifier, channel end and device end: a search has found its record, and the next CCW is skipped.
    pub const MODIFIER_END: UnitStatus = UnitStatus(0x4C);

    /// Channel end, device end and unit check: a command has ended with an error that the sense bytes describe.
    pub const CHECK_END: UnitStatus = UnitStatus(0x0E);

    /// Channel end, device end and unit exception: a command has met a tape mark or a record without data.
    pub const EXCEPTION_END: UnitStatus = UnitStatus(0x0D);

    /// The status with these bits on.
    pub fn new(bits: u8) -> UnitStatus
        ensures { result.0 ≡ bits }
    {
        UnitStatus(bits)
    }

    /// The bits.
    pub fn bits(self) -> u8
        ensures { result ≡ self.0 }
    {
        self.0
    }

    /// The status in one byte.
    pub fn read(image: &[u8; 1]) -> UnitStatus
        ensures { result.0 ≡ slice_index image.now 0 }
    {
        UnitStatus(image[0])
    }

    /// Writes the byte.
    pub fn write(&self, image: &mut [u8; 1])
        ensures image { image.new ≡ self.now.0 ∷ [] }
        ensures reads_back { slice_index image.new 0 ≡ self.now.0 }
    {
        image[0] = self.0;
    }

    /// Whether neither unit check nor unit exception is on.
    pub fn is_normal(self) -> bool
        ensures { result ≡ is_off check_or_exception self.0 }
    {
        self.0 & CHECK_OR_EXCEPTION == 0
    }
}

/// Subchannel status (Principles of Operation, chapter 16, "Subchannel-Status Field"). Each set of
/// bits can be read.
#[derive(Clone, Copy, PartialEq, Eq, Debug, Default)]
pub struct SubStatus(pub u8);

bitflag_items! {
    impl SubStatus: u8 {
        const PROGRAM_INTERRUPTION = 0x80;
        const INCORRECT_LENGTH = 0x40;
        const PROGRAM_CHECK = 0x20;
        const PROTECTION_CHECK = 0x10;
        const CHANNEL_DATA_CHECK = 0x08;
        const CHANNEL_CONTROL_CHECK = 0x04;
        const INTERFACE_CONTROL_CHECK = 0x02;
        const CHAINING_CHECK = 0x01;
    }
}

impl Flags for SubStatus {
    type Bits = u8;

    ghost exact = { ⊤ };

    ghost table = { (codes "PROGRAM_INTERRUPTION", program_interruption_bit) ∷ (codes "INCORRECT_LENGTH", incorrect_length_bit) ∷ (codes "PROGRAM_CHECK", program_check_bit) ∷ (codes "PROTECTION_CHECK", protection_check_bit) ∷ (codes "CHANNEL_DATA_CHECK", channel_data_check_bit) ∷ (codes "CHANNEL_CONTROL_CHECK", channel_control_check_bit) ∷ (codes "INTERFACE_CONTROL_CHECK", interface_control_check_bit) ∷ (codes "CHAINING_CHECK", chaining_check_bit) ∷ [] };

    ghost set_of = { λ s. s.0 };

    fn flags<'a>() -> &'a [Flag<SubStatus>] {
        SubStatus::FLAGS
    }

    fn bits(&self) -> u8 {
        self.0
    }

    fn from_bits_retain(bits: u8) -> Self {
        Self(bits)
    }
}

impl SubStatus {
    /// The status with these bits on.
    pub fn new(bits: u8) -> SubStatus
        ensures { result.0 ≡ bits }
    {
        SubStatus(bits)
    }

    /// The bits.
    pub fn bits(self) -> u8
        ensures { result ≡ self.0 }
    {
        self.0
    }

    /// The status in one byte.
    pub fn read(image: &[u8; 1]) -> SubStatus
        ensures { result.0 ≡ slice_index image.now 0 }
    {
        SubStatus(image[0])
    }

    /// Writes the byte.
    pub fn write(&self, image: &mut [u8; 1])
        ensures image { image.new ≡ self.now.0 ∷ [] }
        ensures reads_back { slice_index image.new 0 ≡ self.now.0 }
    {
        image[0] = self.0;
    }

    /// Whether no bit is on.
    pub fn is_clear(self) -> bool
        ensures { result ≡ (self.0 == 0) }
    {
        self.0 == 0
    }
}
