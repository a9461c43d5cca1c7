//! Settling a book.

ghost use Rattle.std.specs.Prelude.{◌≡◌, ◌<◌, ◌+◌, [], length, IfOk, OnOk, OnErr};
ghost use Rattle.unit_book.specs.Refusals.{SettleLacks};
ghost use Rattle.unit_book.specs.Room.{KeepsRoom};
ghost use Rattle.unit_book.specs.Settle.{AddsService, Attempts, IsIdle, Settles};
ghost use Rattle.unit_book.specs.Trace.{active, waiting};

use crate::answer::Starting;
use crate::book::UnitBook;
use device_port::Device;
use std::alloc::AllocError;

impl<D: Device> UnitBook<D> {
    /// Starts, runs and interrupts until nothing waits and nothing is active.
    ///
    /// Error: out of memory for the entries of the next step. The steps that were made so far stay.
    pub fn settle(&mut self) -> Result<(), AllocError>
        ensures steps { Settles D.meaning self.old self.new }
        ensures adds { AddsService self.old.trace self.new.trace }
        ensures mounted { self.new.mounted ≡ self.old.mounted }
        ensures isc { self.new.isc ≡ self.old.isc }
        ensures capacity { self.new.capacity ≡ self.old.capacity }
        ensures spare { KeepsRoom self.old self.new }
        ensures waiting { OnOk result (waiting self.new.trace ≡ []) }
        ensures active { OnOk result (active self.new.trace ≡ None) }
        ensures full { OnErr result (SettleLacks D.meaning self.new) }
    {
        while self.attempt()? {}
        Ok(())
    }

    /// One more attempt of the active request, or of the one that waits first, to the end of its program. Answers
    /// whether there was one.
    fn attempt(&mut self) -> Result<bool, AllocError>
        ensures steps { Settles D.meaning self.old self.new }
        ensures ok { IfOk result (λ more. Attempts self.old more self.new) }
        ensures spare { KeepsRoom self.old self.new }
        ensures full { OnErr result (SettleLacks D.meaning self.new) }
    {
        if matches!(self.start()?, Starting::Idle) {
            return Ok(false);
        }
        self.run(u32::MAX)?;
        self.holds();
        self.interrupt()?;
        Ok(true)
    }
}
