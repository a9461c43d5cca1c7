//! The events of a unit: each is a step of its world.

ghost use Rattle.std.specs.Prelude.{◌≡◌, ◌<◌, length, IfErr, IfOk, OnErr, OnOk};
ghost use Rattle.any_device.specs.Devices.{any_device};
ghost use Rattle.excp_site.specs.Refusals.{HasTaskOf, NumbersRefused, OpenCallLeaves, OpenCallRefused, StepCallRefused, UnitRefused};
ghost use Rattle.excp_site.specs.Sites.{IssuesRequest, IssueCallRefused};
ghost use Rattle.unit_book.specs.Answers.{OpensBook};
ghost use Rattle.unit_book.specs.Book.{occupancy};
ghost use Rattle.unit_book.specs.Steps.{IsStep, StepsBook};
ghost use Rattle.unit_world.specs.Parts.{PartTakes};
ghost use Rattle.unit_world.specs.Sites.{DeliversAs, OnBook, OnUnit};

use crate::refusal::Refusal;
use crate::site::Site;
use io_area::Area;
use io_images::Extent;
use request_piece::{Name, Request, Scope};
use unit_book::{Control, Delivery, Intake, ProcessingMethod, UnitAnswer, UnitStep};

impl Site {
    /// Opens the next DCB of a unit (DFSMSdfp Advanced Services, OPEN). Returns its number, counted from 1.
    ///
    /// Errors: `NoUnit`, `TooManyDcbs`, `BadExtent`, `NoMemory`. The room for entries may have grown then.
    pub fn open(
        &mut self,
        unit: u16,
        method: ProcessingMethod,
        extents: &[Extent],
    ) -> Result<u16, Refusal>
        ensures ok { IfOk result (λ dcb. OnBook self.old.plain unit (λ b c. OpensBook any_device b dcb method extents.now c) self.new.plain) }
        ensures refused { IfErr result (OpenCallRefused self.old.plain unit extents.now) }
        ensures err { IfErr result (OpenCallLeaves self.old.plain unit self.new.plain) }
        ensures rest { self.new ≡ record self.old { plain = self.new.plain } }
    {
        self.has_unit(unit)?;
        Ok(self.plain.open(unit, method, extents)?)
    }

    /// Issues a request of a task on a copy of the storage, which lies at `base` and has its IOB at `iob` (DFSMSdfp Advanced
    /// Services, EXCP). It is in flight to the unit then. Returns its name.
    ///
    /// Errors, in this order: `NoUnit`, `NoTask`; those of the storage, `AreaMisaligned`, `AreaTooLong`, `AreaPastTop`; `NoNumber`;
    /// those of the request, `BadIob`, `BadEcb`, `BadProgram`, `WrongDcb`; `Full`. `NoMemory` may come where memory is needed.
    pub fn issue(
        &mut self,
        task: u16,
        unit: u16,
        dcb: u16,
        iob: u32,
        base: u32,
        storage: &[u8],
    ) -> Result<Name, Refusal>
        ensures ok { IfOk result (λ name. IssuesRequest self.old.plain task unit dcb iob (record { base = base; bytes = storage.now }) name self.new.plain) }
        ensures refused { IfErr result (IssueCallRefused self.old.plain task unit dcb iob (record { base = base; bytes = storage.now })) }
        ensures rest { self.new ≡ record self.old { plain = self.new.plain } }
        ensures err { OnErr result (self.new ≡ self.old) }
    {
        self.has_unit(unit)?;
        self.has_task(task)?;
        let area = Area::new(self.alloc, base, storage)?;
        let Some(name) = self.plain.next_name(task, unit) else {
            return Err(Refusal::NoNumber);
        };
        let request = match Request::new(self.alloc, name, unit, dcb, iob, area) {
            Ok(request) => request,
            Err((error, _)) => return Err(Refusal::from(error)),
        };
        match self.plain.accept(request) {
            Ok(()) => Ok(name),
            Err(_) => Err(Refusal::Full),
        }
    }

    /// The first request in flight arrives at a unit.
    ///
    /// Errors: `NoUnit`, `NoMemory`.
    pub fn take(&mut self, unit: u16) -> Result<Intake, Refusal>
        ensures ok { IfOk result (λ answer. OnUnit self.old.plain unit (λ p q. PartTakes any_device p answer q) self.new.plain) }
        ensures refused { IfErr result (UnitRefused self.old.plain unit (λ b. (occupancy b < b.capacity) × (b.spare < 2))) }
        ensures rest { self.new ≡ record self.old { plain = self.new.plain } }
        ensures err { OnErr result (self.new ≡ self.old) }
    {
        self.has_unit(unit)?;
        Ok(self.plain.take(unit)?)
    }

    /// Makes a step of a unit: starts, runs, interrupts, purges, closes or resets ([`unit_book::UnitBook::step`]).
    ///
    /// Errors, in this order:
    ///
    /// - `NoUnit`.
    /// - `BadNumber` for a run of no command, `NoTask` if there is no such task to purge.
    /// - `NoDcb`: the DCB to purge or close was never opened, or that to reset is not open.
    /// - `NoMemory`.
    pub fn step(&mut self, unit: u16, step: UnitStep) -> Result<UnitAnswer, Refusal>
        ensures ok { IfOk result (λ answer. OnBook self.old.plain unit (λ b c. StepsBook any_device b step answer c) self.new.plain) }
        ensures task { OnOk result (HasTaskOf self.old.plain step) }
        ensures refused { IfErr result (StepCallRefused self.old.plain unit step) }
        ensures rest { self.new ≡ record self.old { plain = self.new.plain } }
        ensures err { OnErr result (self.new ≡ self.old) }
    {
        self.has_unit(unit)?;
        self.has_numbers_of(step)?;
        Ok(self.plain.step(unit, step)?)
    }

    /// Tests that a run has a command, and that there is a task to purge.
    fn has_numbers_of(&self, step: UnitStep) -> Result<(), Refusal>
        ensures step { OnOk result (IsStep step) }
        ensures task { OnOk result (HasTaskOf self.now.plain step) }
        ensures refused { IfErr result (NumbersRefused self.now.plain step) }
    {
        match step {
            UnitStep::Run(max) if max == 0 => Err(Refusal::BadNumber),
            UnitStep::Control(Control::Purge(Scope::Task(task), _)) => self.has_task(task),
            UnitStep::Control(
                Control::Purge(Scope::Dcb(_), _) | Control::Close(_) | Control::Reset(_),
            )
            | UnitStep::Run(_)
            | UnitStep::Start
            | UnitStep::Interrupt => Ok(()),
        }
    }

    /// Sends the first posted request of a unit back to its task.
    ///
    /// Error: `NoUnit`.
    pub fn deliver(&mut self, unit: u16) -> Result<Delivery, Refusal>
        ensures ok { IfOk result (λ answer. DeliversAs self.old.plain unit answer self.new.plain) }
        ensures unit { OnOk result (unit < length self.old.plain.units) }
        ensures refused { IfErr result (UnitRefused self.old.plain unit (λ _. ⊥)) }
        ensures rest { self.new ≡ record self.old { plain = self.new.plain } }
        ensures err { OnErr result (self.new ≡ self.old) }
    {
        self.has_unit(unit)?;
        Ok(self.plain.deliver(unit))
    }
}
