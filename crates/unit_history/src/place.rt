//! Places on a medium.

use ckd_disk::Disk;
use line_printer::PaperPosition;

/// Where on its medium a command was.
#[derive(Clone, Copy)]
pub enum MediumPosition<'m> {
    /// A record that was compared, read or written.
    Record(RecordPlace<'m>),
    /// A search that found no record.
    NoRecord(Passed<'m>),
    /// The item of a tape with this number, from 1.
    Item(usize),
    /// A line of a printer.
    Line(PaperPosition),
}

/// A record of a disk that a command compared, read or wrote, as it is after the command.
#[derive(Clone, Copy)]
pub struct RecordPlace<'m> {
    pub cylinder: u16,
    pub head: u16,
    /// Its position on the track. R0 has position 0.
    pub nth: usize,
    /// Its CCHHR, 5 bytes.
    pub id: &'m [u8],
    pub key: &'m [u8],
    /// Whether a search matched it. None of a read or a write.
    pub is_equal: Option<bool>,
}

impl<'m> RecordPlace<'m> {
    /// R, the last byte of its CCHHR, if the rest of that is the number of the track.
    pub fn number(&self) -> Option<u8> {
        let [high_cylinder, low_cylinder, high_head, low_head, number] = self.id else {
            return None;
        };
        let cylinder = u16::from_be_bytes([*high_cylinder, *low_cylinder]);
        let head = u16::from_be_bytes([*high_head, *low_head]);
        if (cylinder, head) != (self.cylinder, self.head) {
            return None;
        }
        Some(*number)
    }
}

/// A search that found no record. The records of its track are those of the disk.
#[derive(Clone, Copy)]
pub struct Passed<'m> {
    pub cylinder: u16,
    pub head: u16,
    /// How many records the searches compared since they began to count index points.
    pub passed: u64,
    /// Whether it searched for a key.
    pub by_key: bool,
    pub disk: &'m Disk,
}
