//! Units from images, and media as images.

ghost use Rattle.std.specs.Prelude.{◌≡◌, ◌<◌, ◌⊎◌, length, false, true, option_copied, Ok, IfErr, IfOk, OnErr, OnOk};
ghost use Rattle.std.specs.Bool.{OnTrue};
ghost use Rattle.ckd_image.specs.Loading.{IsFault};
ghost use Rattle.aws_tape.specs.Reading.{IsOfImage, read_image};
ghost use Rattle.tape_unit.specs.Recording.{is_recordable};
ghost use Rattle.excp_site.specs.Imaging.{AwsRefused, BreaksAws, BreaksCkd, CkdRefused, ImageRefused, IsCkd, IsImageOf, LeavesMade, LoadRefused, MakesImage, MountsAws, MountsCkd, NotImageOf};
ghost use Rattle.excp_site.specs.Media.{IsEmpty};
ghost use Rattle.excp_site.specs.Mounting.{has_no_items, has_no_records};
ghost use Rattle.unit_world.specs.Sites.{OnPart};
ghost use Rattle.excp_site.specs.Sites.{beside_of};
ghost use Rattle.excp_site.specs.declared.refusal.Refusal.TheVariants as Refusal;

use crate::refusal::Refusal;
use crate::site::{Room, Site};
use any_device::AnyDevice;
use aws_tape::AwsFault;
use ckd_image::CkdFault;
use medium_image::{ImageError, Kept, SaveError, save};
use std::io::Write;
use tape_unit::LONGEST_REEL;

impl Site {
    /// Adds a disk with the volume of a CKD image and the faults that were put, and returns the number of its unit. The faults are
    /// used up.
    ///
    /// Errors, in this order: `BadNumber` if the room is outside its range; `TooManyUnits`; `BadMedium` if a record or an item was put;
    /// `BadImage`; `BadMedium` if the faults are no fault script; `NoMemory`. What was put stays then. With `BadImage`, the rule that
    /// the image breaks, in words, is what was made last.
    pub fn mount_ckd(&mut self, bytes: &[u8], room: Room) -> Result<u16, Refusal>
        ensures ok { IfOk result (λ unit. MountsCkd self.old bytes.now room.in_flight room.held unit self.new) }
        ensures used { OnOk result (IsEmpty self.new.medium) }
        ensures refused { IfErr result (CkdRefused self.old bytes.now room.in_flight room.held) }
        ensures err { IfErr result (LeavesMade self.old self.new) }
    {
        self.can_add(room)?;
        self.has_no_pieces()?;
        let image = self.loaded_disk(bytes)?;
        match image.volume.mount(self.alloc, &self.medium.faults) {
            Ok(disk) => self.add(AnyDevice::Disk(disk), Some(Kept::Disk(image.kept)), room),
            Err(refused) => Err(refused.reason.into()),
        }
    }

    /// Adds a tape of `size` bytes with the items of an AWS image and the faults that were put, and returns the number of its unit.
    /// The faults are used up.
    ///
    /// Errors, in this order: `BadNumber` if the room is outside its range; `TooManyUnits`; `BadMedium` if a record or an item was put;
    /// `BadGeometry` if the tape has more than 4 GiB. Then `BadImage`, also if the tape is too short for its items; `BadMedium` if the
    /// faults are no fault script; `NoMemory`. What was put stays. With `BadImage`, the rule that the image breaks, in words, is
    /// what was made last.
    pub fn mount_aws(&mut self, bytes: &[u8], size: u64, room: Room) -> Result<u16, Refusal>
        ensures ok { IfOk result (λ unit. MountsAws self.old bytes.now size room.in_flight room.held unit self.new) }
        ensures used { OnOk result (IsEmpty self.new.medium) }
        ensures refused { IfErr result (AwsRefused self.old bytes.now size room.in_flight room.held) }
        ensures err { IfErr result (LeavesMade self.old self.new) }
    {
        self.can_add(room)?;
        self.has_no_pieces()?;
        if size > LONGEST_REEL {
            return Err(Refusal::BadGeometry);
        }
        let image = self.loaded_tape(bytes, size)?;
        match image.tape.mount(self.alloc, &self.medium.faults) {
            Ok(tape) => self.add(AnyDevice::Tape(tape), Some(Kept::Tape(image.layout)), room),
            Err(refused) => Err(refused.reason.into()),
        }
    }

    /// Makes an image of the medium of a unit, or a text of the paper of a printer, and keeps it in place of what was made before.
    /// Returns how many bytes it has. The image of a unit that came from an image has what that had beside its medium.
    ///
    /// Errors: `NoUnit`; `NoImage` if no model of a disk has as many heads and bytes a track; `NoMemory`. What was made before stays
    /// then.
    pub fn make_image(&mut self, unit: u16) -> Result<usize, Refusal>
        ensures len { IfOk result (λ len. len ≡ length self.new.made) }
        ensures ok { OnOk result (MakesImage self.old unit self.new) }
        ensures refused { IfErr result (ImageRefused self.old unit) }
        ensures err { OnErr result (self.new ≡ self.old) }
    {
        self.has_unit(unit)?;
        let made = self.image_of(unit, self.plain.book(unit).device())?;
        let len = made.len();
        self.made = made;
        Ok(len)
    }

    /// The image of a medium, which is that of a unit, or of a channel with a copy of its device.
    ///
    /// Errors: `NoImage`, `NoMemory`.
    pub(super) fn image_of(&self, unit: u16, now: &AnyDevice) -> Result<Vec<u8>, Refusal>
        requires unit { unit < length self.now.plain.units }
        ensures ok { IfOk result (λ made. OnPart self.now.plain unit (λ p. IsImageOf (beside_of self.now unit) p.book.mounted now.now made.items)) }
        ensures refused { IfErr result (NotImageOf (beside_of self.now unit) now.now) }
    {
        let mounted = self.plain.book(unit).mounted();
        let mut bytes = Vec::new(self.alloc);
        match save(self.alloc, &mut bytes, self.beside_of(unit), mounted, now) {
            Ok(()) => Ok(bytes),
            Err(SaveError::NoModel { .. }) => Err(Refusal::NoImage),
            // a write to memory fails only if memory runs out
            Err(SaveError::NotWritten(_) | SaveError::NoMemory) => Err(Refusal::NoMemory),
        }
    }

    /// How many bytes were made last.
    pub fn made_len(&self) -> usize
        ensures { result ≡ length self.now.made }
    {
        self.made.len()
    }

    /// What the image that a unit came from has beside its medium.
    fn beside_of(&self, unit: u16) -> Option<&Kept>
        ensures { option_copied result ≡ beside_of self.now unit }
    {
        match self.beside.get(usize::from(unit)) {
            Some(beside) => beside.as_ref(),
            None => None,
        }
    }

    /// Tests that no records and no items were put.
    fn has_no_pieces(&self) -> Result<(), Refusal>
        ensures records { OnOk result (has_no_records self.now ≡ true) }
        ensures items { OnOk result (has_no_items self.now ≡ true) }
        ensures refused { IfErr result (λ e. (e ≡ Refusal.BadMedium) × ((has_no_records self.now ≡ false) ⊎ (has_no_items self.now ≡ false))) }
    {
        if self.medium.records.is_empty() && self.medium.items.is_empty() {
            Ok(())
        } else {
            Err(Refusal::BadMedium)
        }
    }

    /// The disk of an image.
    ///
    /// Errors: `BadImage`, `NoMemory`.
    fn loaded_disk(&mut self, bytes: &[u8]) -> Result<ckd_image::DiskImage, Refusal>
        ensures ok { IfOk result (λ image. IsCkd bytes.now image) }
        ensures same { OnOk result (self.new ≡ self.old) }
        ensures refused { IfErr result (LoadRefused (BreaksCkd bytes.now)) }
        ensures err { IfErr result (LeavesMade self.old self.new) }
    {
        let mut reader = bytes;
        match ckd_image::load(self.alloc, &mut reader) {
            Ok(image) => Ok(image),
            Err(error) if is_of_disk(error.fault) => Err(self.bad_image(ImageError::Disk(error))),
            Err(_) => Err(Refusal::NoMemory),
        }
    }

    /// The tape of an image, with this size.
    ///
    /// Errors: `BadImage`, `NoMemory`.
    fn loaded_tape(&mut self, bytes: &[u8], size: u64) -> Result<aws_tape::TapeImage, Refusal>
        requires { is_recordable size ≡ true }
        ensures ok { IfOk result (λ image. read_image size bytes.now ≡ Ok image) }
        ensures same { OnOk result (self.new ≡ self.old) }
        ensures refused { IfErr result (LoadRefused (BreaksAws size bytes.now)) }
        ensures err { IfErr result (LeavesMade self.old self.new) }
    {
        let mut reader = bytes;
        match aws_tape::load(self.alloc, &mut reader, size) {
            Ok(image) => Ok(image),
            Err(error) if is_of_tape(error.fault) => Err(self.bad_image(ImageError::Tape(error))),
            Err(_) => Err(Refusal::NoMemory),
        }
    }

    /// Keeps the rule that an image breaks, in words, as what was made last.
    fn bad_image(&mut self, error: ImageError) -> Refusal
        ensures refused { (result ≡ Refusal.BadImage) ⊎ (result ≡ Refusal.NoMemory) }
        ensures rest { LeavesMade self.old self.new result }
    {
        let mut text = Vec::new(self.alloc);
        if write!(text, "{error}").is_err() {
            return Refusal::NoMemory;
        }
        self.made = text;
        Refusal::BadImage
    }
}

/// Whether a fault is one of the image. A read from memory fails only if memory runs out.
fn is_of_disk(fault: CkdFault) -> bool
    ensures { OnTrue result (IsFault fault) }
{
    fault != CkdFault::NoMemory && fault != CkdFault::Unreadable
}

/// Whether a fault is one of the image.
fn is_of_tape(fault: AwsFault) -> bool
    ensures { OnTrue result (IsOfImage fault) }
{
    fault != AwsFault::NoMemory && fault != AwsFault::Unreadable
}
