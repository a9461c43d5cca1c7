//! A tape that is recorded item by item.

ghost use Rattle.std.specs.Prelude.{◌≡◌, ◌*◌, ◌≤◌, ◌∷◌, [], MatchResult, OnErr, OnOk, length, true};
ghost use Rattle.tape_unit.specs.Item.{tape_mark, block, item_with, is_item};
ghost use Rattle.tape_unit.specs.Reel.{bytes_of, longest_reel};

use crate::reel::{LENGTHS, LONGEST_BLOCK, LONGEST_REEL, Reel, write_item};
use crate::tape::Tape;
use device_port::{Fault, FaultScript, MountError, is_script};
use std::alloc::Global;
use std::marker::Model;
use thiserror::Error;

/// Why a tape or an item is not recorded.
#[derive(Clone, Copy, Debug, Drop, Error, PartialEq, Eq)]
pub enum RecordingError {
    /// The tape is to have more than 4 GiB.
    #[error("a tape has at most 4,294,967,296 bytes")]
    BadSize,
    /// The block is empty or over 65,535 bytes.
    #[error("a block has 1 to 65,535 bytes")]
    BadBlock,
    /// The item takes more bytes than the tape has left.
    #[error("the tape is too short for its items")]
    Full,
    /// Out of memory.
    #[error("out of memory")]
    NoMemory,
}

/// A tape that is recorded item by item from its load point on, as from an image of a tape, and mounted then. It has up
/// to 4 GiB, so it takes more than `Tape::mount` does. Its memory grows with its items.
#[derive(Debug, Drop)]
pub struct Recording {
    bytes: Vec<u8>,
    count: usize,
    size: usize,
}

impl Model for Recording {
    ghost use Rattle.device_port.specs.Packed.{items_at};
    ghost use Rattle.tape_unit.specs.Item.{on_tape};
    ghost use Rattle.tape_unit.specs.Reel.{ReelState};
    ghost use Rattle.tape_unit.specs.Recording.{HoldsRecording};

    ghost Value = { ReelState };

    ghost view = { λ r. record { size = r.size; items = items_at on_tape r.count r.bytes.items } };

    ghost invariant = { λ r. HoldsRecording r.bytes.items r.count r.size };
}

/// A recording that is not mounted, as it was, and why.
#[derive(Debug, Drop)]
pub struct Unmounted {
    pub reason: MountError,
    pub recording: Recording,
}

impl Recording {
    ghost use Rattle.tape_unit.specs.Recording.{BeginsRecording, Records, Resizes, with_item, resized, cut};
    ghost use Rattle.tape_unit.specs.Mount.{MountsReel};

    /// A tape of `bytes` bytes with no item yet.
    ///
    /// Error: `BadSize` if it is to have more than 4 GiB.
    pub fn new(alloc: Global, bytes: u64) -> Result<Self, RecordingError>
        ensures { BeginsRecording bytes result }
    {
        if bytes > LONGEST_REEL {
            return Err(RecordingError::BadSize);
        }
        Ok(Recording {
            bytes: Vec::new(alloc),
            count: 0,
            size: bytes as usize,
        })
    }

    /// How many bytes of the tape its items take: each four beside its data.
    pub fn used(&self) -> u64
        ensures { result ≡ bytes_of self.now.items }
    {
        self.bytes.len() as u64
    }

    /// How many items it has.
    pub fn len(&self) -> usize
        ensures len { result ≡ length self.now.items }
        ensures few { 4 * result ≤ longest_reel }
    {
        self.count
    }

    /// Records a block after the items there.
    ///
    /// Errors, in this order: `BadBlock`, `Full`, `NoMemory`. The items stay as they are then.
    pub fn write_block(&mut self, content: &[u8]) -> Result<(), RecordingError>
        ensures answer { Records self.old (block content.now) result }
        ensures recorded { OnOk result (self.new ≡ with_item self.old (block content.now)) }
        ensures unchanged { OnErr result (self.new ≡ self.old) }
    {
        if content.is_empty() || content.len() > LONGEST_BLOCK {
            return Err(RecordingError::BadBlock);
        }
        self.write(content)
    }

    /// Records a tape mark after the items there.
    ///
    /// Errors, in this order: `Full`, `NoMemory`. The items stay as they are then.
    pub fn write_tape_mark(&mut self) -> Result<(), RecordingError>
        ensures answer { Records self.old tape_mark result }
        ensures recorded { OnOk result (self.new ≡ with_item self.old tape_mark) }
        ensures unchanged { OnErr result (self.new ≡ self.old) }
    {
        self.write(&[])
    }

    /// Records an item after those there. An item without data is a tape mark.
    fn write(&mut self, content: &[u8]) -> Result<(), RecordingError>
        requires { is_item (item_with content.now) ≡ true }
        ensures answer { Records self.old (item_with content.now) result }
        ensures recorded { OnOk result (self.new ≡ with_item self.old (item_with content.now)) }
        ensures unchanged { OnErr result (self.new ≡ self.old) }
    {
        let start = self.bytes.len();
        let end = start + LENGTHS + content.len();
        if end > self.size {
            return Err(RecordingError::Full);
        }
        let Ok(()) = self.bytes.resize(end, 0) else {
            return Err(RecordingError::NoMemory);
        };
        write_item(&mut self.bytes, start, content);
        self.count += 1;
        Ok(())
    }

    /// Gives the tape a size of `bytes` bytes.
    ///
    /// Errors, in this order: `BadSize` if that is more than 4 GiB, `Full` if the items take more. The size stays as it
    /// is then.
    pub fn resize(&mut self, bytes: u64) -> Result<(), RecordingError>
        ensures answer { Resizes self.old bytes result }
        ensures resized { OnOk result (self.new ≡ resized self.old bytes) }
        ensures unchanged { OnErr result (self.new ≡ self.old) }
    {
        if bytes > LONGEST_REEL {
            return Err(RecordingError::BadSize);
        }
        if self.used() > bytes {
            return Err(RecordingError::Full);
        }
        self.size = bytes as usize;
        Ok(())
    }

    /// Cuts the tape after its last item, so that no other item fits.
    pub fn cut(&mut self)
        ensures { self.new ≡ cut self.old }
    {
        self.size = self.bytes.len();
    }

    /// The tape at its load point, that meets these faults.
    ///
    /// Errors, in this order, each with the recording as it was:
    ///
    /// - `BadMedium`: the faults are no fault script.
    /// - `NoMemory`.
    pub fn mount(self, alloc: Global, faults: &[Fault]) -> Result<Tape, Unmounted>
        ensures { MountsReel self faults.now result }
    {
        if !is_script(faults) {
            return Err(Unmounted {
                reason: MountError::BadMedium,
                recording: self,
            });
        }
        let Ok(faults) = FaultScript::new(alloc, faults) else {
            return Err(Unmounted {
                reason: MountError::NoMemory,
                recording: self,
            });
        };
        match self.wound() {
            Ok(reel) => Ok(Tape::wound(reel, faults)),
            Err(recording) => Err(Unmounted {
                reason: MountError::NoMemory,
                recording,
            }),
        }
    }

    /// The reel; or the recording as it was if memory runs out.
    fn wound(mut self) -> Result<Reel, Self>
        ensures { MatchResult result (λ reel. reel ≡ self) (λ recording. recording ≡ self) }
    {
        let used = self.bytes.len();
        let Ok(()) = self.bytes.reserve_exact(self.size - used) else {
            return Err(self);
        };
        let Recording {
            mut bytes,
            count,
            size,
        } = self;
        let Ok(()) = bytes.resize(size, 0) else {
            unreachable!()
        };
        Ok(Reel::of(bytes, used, count))
    }
}
