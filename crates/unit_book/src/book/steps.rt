//! The calls of a book by a value that says which.

ghost use Rattle.std.specs.Prelude.{◌≡◌, IfOk, IfErr, OnErr, OnOk};
ghost use Rattle.unit_book.specs.Room.{KeepsRoom};
ghost use Rattle.unit_book.specs.Steps.{ControlLacks, ControlRefused, ControlsBook, IsStep, StepLacks, StepRefused, StepsBook};

use crate::answer::DcbError;
use crate::book::UnitBook;
use crate::control::{Control, Controlling};
use crate::step::{UnitAnswer, UnitStep};
use device_port::Device;
use request_piece::Scope;

impl<D: Device> UnitBook<D> {
    /// Does a control: [`UnitBook::purge`], [`UnitBook::purge_task`], [`UnitBook::close`] or [`UnitBook::reset`].
    ///
    /// Errors: those of the call, which change nothing.
    pub fn control(&mut self, control: Control) -> Result<Controlling, DcbError>
        ensures ok { IfOk result (λ answer. ControlsBook D.meaning self.old control answer self.new) }
        ensures spare { OnOk result (KeepsRoom self.old self.new) }
        ensures refused { IfErr result (ControlRefused self.old control) }
        ensures full { IfErr result (λ e. e ≡ DcbError.NoMemory → ControlLacks self.old control) }
        ensures err { OnErr result (self.new ≡ self.old) }
    {
        match control {
            Control::Purge(Scope::Dcb(dcb), mode) => {
                let purging = self.purge(dcb, mode)?;
                Ok(Controlling::Purged(purging))
            }
            Control::Purge(Scope::Task(task), mode) => match self.purge_task(task, mode) {
                Ok(purging) => Ok(Controlling::Purged(purging)),
                Err(_) => Err(DcbError::NoMemory),
            },
            Control::Close(dcb) => Ok(Controlling::Closed(self.close(dcb)?)),
            Control::Reset(dcb) => {
                self.reset(dcb)?;
                Ok(Controlling::Reset)
            }
        }
    }

    /// Does a step: [`UnitBook::start`], [`UnitBook::run`], [`UnitBook::interrupt`] or [`UnitBook::control`].
    ///
    /// Errors: those of the call, which change nothing. Only a control of a DCB fails for another reason than memory.
    pub fn step(&mut self, step: UnitStep) -> Result<UnitAnswer, DcbError>
        requires { IsStep step }
        ensures ok { IfOk result (λ answer. StepsBook D.meaning self.old step answer self.new) }
        ensures spare { OnOk result (KeepsRoom self.old self.new) }
        ensures refused { IfErr result (StepRefused self.old step) }
        ensures full { IfErr result (λ e. e ≡ DcbError.NoMemory → StepLacks D.meaning self.old step) }
        ensures err { OnErr result (self.new ≡ self.old) }
    {
        match step {
            UnitStep::Start => match self.start() {
                Ok(answer) => Ok(UnitAnswer::Started(answer)),
                Err(_) => Err(DcbError::NoMemory),
            },
            UnitStep::Run(max) => match self.run(max) {
                Ok(answer) => Ok(UnitAnswer::Ran(answer)),
                Err(_) => Err(DcbError::NoMemory),
            },
            UnitStep::Interrupt => match self.interrupt() {
                Ok(answer) => Ok(UnitAnswer::Interrupted(answer)),
                Err(_) => Err(DcbError::NoMemory),
            },
            UnitStep::Control(control) => Ok(UnitAnswer::Controlled(self.control(control)?)),
        }
    }
}
