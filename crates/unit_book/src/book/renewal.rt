//! A book that begins again.

ghost use Rattle.std.specs.Prelude.{◌≡◌, []};
ghost use Rattle.unit_book.specs.Renewal.{Renews};
ghost use Rattle.unit_book.specs.Settle.{IsIdle};

use crate::book::UnitBook;
use device_port::FixedSize;

impl<D: FixedSize> UnitBook<D> {
    /// Begins again on the device as it is now. The trace keeps openings and closes alone, so no flag is set (profile). It gives
    /// its other memory back. Nothing waits, is active or is out.
    pub fn renew(&mut self)
        requires idle { IsIdle self.old.trace }
        requires out { self.old.out ≡ [] }
        ensures { Renews D.meaning self.old self.new }
    {
        self.entries.renew();
    }
}
