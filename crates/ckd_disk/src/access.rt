//! The position of the heads, and what a command leaves for the next one.

ghost use Rattle.std.specs.Prelude.{◌≡◌};

use crate::track::Spot;
use io_images::FileMask;

/// The position of the heads on a track: at the index point, or after the count area, the key area or the end of a
/// record.
#[derive(Clone, Copy, Debug, PartialEq, Eq)]
pub enum Orientation {
    Index,
    Count(Spot),
    Key(Spot),
    End(Spot),
}

/// The record on which, or after which, the command before lets the next one write.
#[derive(Clone, Copy, Debug, PartialEq, Eq)]
pub enum Armed {
    No,
    Id(Spot),
    Key(Spot),
    Format(Spot),
}

/// What commands leave for the next one, beside the medium.
#[derive(Clone, Copy, Debug, PartialEq, Eq)]
pub struct Access {
    pub mask: FileMask,
    pub orientation: Orientation,
    /// How many index points the searches have gone by.
    pub passes: u8,
    pub armed: Armed,
}

impl Access {
    /// At the index point of a track, with a file mask.
    pub fn start(mask: FileMask) -> Self
        ensures { result
            ≡ record { mask = mask; orientation = Orientation.Index; passes = 0; armed = Armed.No } }
    {
        Access {
            mask,
            orientation: Orientation::Index,
            passes: 0,
            armed: Armed::No,
        }
    }

    /// Ends a command that is no search.
    pub fn leave(&mut self, orientation: Orientation, armed: Armed)
        ensures { self.new
            ≡ record { mask = self.old.mask; orientation = orientation; passes = 0; armed = armed } }
    {
        self.orientation = orientation;
        self.passes = 0;
        self.armed = armed;
    }
}
