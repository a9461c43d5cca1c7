//! The fields of a request, and its storage.

ghost use Rattle.std.specs.Prelude.{◌≡◌, IfOk};

use io_area::Area;
use io_images::{Address, Seek};
use std::alloc::AllocError;

/// The name of a request: the task that issues it, and its number among the requests of that task to
/// one unit, counted from 1 (profile).
#[derive(Clone, Copy, PartialEq, Eq, Debug)]
pub struct Name {
    pub task: u16,
    pub seq: u32,
}

/// A request as its IOB says, read once, with the storage that holds the IOB, the ECB and the channel
/// program.
#[derive(Drop)]
pub struct Piece {
    pub name: Name,
    pub unit: u16,
    /// Number of the DCB.
    pub dcb: u16,
    /// Whether IOBUNREL is off.
    pub related: bool,
    /// IOBSTART.
    pub start: Address,
    /// IOBSEEK.
    pub seek: Seek,
    /// Address of the IOB.
    pub iob: u32,
    /// Address of the ECB.
    pub ecb: u32,
    pub area: Area,
}

impl Piece {
    /// Copies the request that is worked on, with storage of its own. Fails only if memory runs out.
    pub fn copy(&self) -> Result<Piece, AllocError>
        ensures { IfOk result (λ p. p ≡ self.now) }
    {
        Ok(Piece {
            name: self.name,
            unit: self.unit,
            dcb: self.dcb,
            related: self.related,
            start: self.start,
            seek: self.seek,
            iob: self.iob,
            ecb: self.ecb,
            area: self.area.copy()?,
        })
    }
}
