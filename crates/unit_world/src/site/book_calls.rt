//! The calls of a site that are those of the book of a unit. Each leaves all else as it is.

ghost use Rattle.std.specs.Prelude.{◌≡◌, ◌<◌, length, IfErr, IfOk, OnErr, OnOk};
ghost use Rattle.unit_book.specs.Answers.{OpenRefused, OpensBook};
ghost use Rattle.unit_book.specs.Refusals.{SettleLacks};
ghost use Rattle.unit_book.specs.Settle.{IsIdle};
ghost use Rattle.unit_book.specs.Steps.{IsStep, StepLacks, StepRefused, StepsBook};
ghost use Rattle.unit_world.specs.Parts.{GrowsSpare};
ghost use Rattle.unit_world.specs.Sites.{OnBook, OnPart, SettlesBook};

use crate::site::PlainSite;
use device_port::Device;
use io_images::Extent;
use std::alloc::AllocError;
use unit_book::{DcbError, OpenError, ProcessingMethod, UnitAnswer, UnitStep};

impl<D: Device> PlainSite<D> {
    /// Opens a DCB of a unit, as [`unit_book::UnitBook::open`].
    ///
    /// Errors: those of the book. Only the room for entries may have grown then.
    pub fn open(
        &mut self,
        unit: u16,
        method: ProcessingMethod,
        extents: &[Extent],
    ) -> Result<u16, OpenError>
        requires unit { unit < length self.old.units }
        ensures ok { IfOk result (λ dcb. OnBook self.old unit (λ b c. OpensBook D.meaning b dcb method extents.now c) self.new) }
        ensures refused { IfErr result (λ e. OnPart self.old unit (λ p. OpenRefused D.meaning p.book extents.now e)) }
        ensures err { OnErr result (OnBook self.old unit (λ b c. GrowsSpare b c) self.new) }
    {
        let side = &mut self.units[usize::from(unit)];
        side.book.open(method, extents)
    }

    /// Makes a step of the book of a unit, as [`unit_book::UnitBook::step`].
    ///
    /// Errors: those of the book, which change nothing.
    pub fn step(&mut self, unit: u16, step: UnitStep) -> Result<UnitAnswer, DcbError>
        requires unit { unit < length self.old.units }
        requires step { IsStep step }
        ensures ok { IfOk result (λ answer. OnBook self.old unit (λ b c. StepsBook D.meaning b step answer c) self.new) }
        ensures refused { IfErr result (λ e. OnPart self.old unit (λ p. StepRefused p.book step e)) }
        ensures full { IfErr result (λ e. OnPart self.old unit (λ p. e ≡ DcbError.NoMemory → StepLacks D.meaning p.book step)) }
        ensures err { OnErr result (self.new ≡ self.old) }
    {
        let side = &mut self.units[usize::from(unit)];
        side.book.step(step)
    }

    /// Starts, runs and interrupts until nothing waits or is active at a unit, as [`unit_book::UnitBook::settle`]. If
    /// memory runs out, the steps that were made so far stay.
    pub fn settle(&mut self, unit: u16) -> Result<(), AllocError>
        requires unit { unit < length self.old.units }
        ensures settles { OnBook self.old unit (λ b c. SettlesBook D.meaning b c) self.new }
        ensures idle { OnOk result (OnPart self.new unit (λ p. IsIdle p.book.trace)) }
        ensures full { OnErr result (OnPart self.new unit (λ p. SettleLacks D.meaning p.book)) }
    {
        let side = &mut self.units[usize::from(unit)];
        side.book.settle()
    }
}
