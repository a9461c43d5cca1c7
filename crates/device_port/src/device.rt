//! The calls of a device, and why one is not mounted.

ghost use Rattle.std.specs.Prelude.{◌≡◌, IfOk, true};
ghost use Rattle.io_area.specs.Storage.{SamePlace};
ghost use Rattle.device_port.specs.Meaning.{Meaning, Lawful, effect, fits};
ghost use Rattle.device_port.specs.Moves.{CanAct};

use crate::answer::Acted;
use crate::chain::Chain;
use crate::kind::{Flow, Kind};
use io_area::Area;
use io_images::Seek;
use std::alloc::AllocError;
use thiserror::Error;

/// A device on a subchannel. All its calls are said by one member, its meaning.
pub trait Device: Drop {
    ghost meaning: { Meaning Self };

    /// The kind of this device.
    fn kind(&self) -> Kind
        ensures { result ≡ meaning.kind self.now };

    /// The number of cylinders of a disk; 0 on a tape or a printer.
    fn cylinders(&self) -> u16
        ensures { result ≡ meaning.cylinders self.now };

    /// The number of tracks of a cylinder of a disk; 0 on a tape or a printer.
    fn heads(&self) -> u16
        ensures { result ≡ meaning.heads self.now };

    /// Whether a seek address is one of this device.
    fn fits(&self, seek: &Seek) -> bool
        ensures { result ≡ fits meaning self.now seek.now };

    /// The direction of a command's data.
    fn flow(&self, command: u8) -> Flow
        ensures { result ≡ meaning.flow self.now command };

    /// Seeks and sets the file mask, as the system does before each program for a disk (profile). A tape
    /// or a printer stays as it is.
    fn prefix(&mut self, seek: &Seek, mask: u8)
        requires { fits meaning self.old seek.now ≡ true }
        ensures { self.new ≡ meaning.prefix self.old seek.now mask };

    /// Does a command on the parts of its data chain. Takes no memory.
    fn act(&mut self, command: u8, chain: &Chain<'_>, area: &mut Area) -> Acted
        requires { CanAct (meaning.flow self.old command) area.old chain.now }
        ensures acted { result ≡ (effect meaning self.old command chain.now area.old).acted }
        ensures device { self.new ≡ (effect meaning self.old command chain.now area.old).device }
        ensures area { area.new ≡ (effect meaning self.old command chain.now area.old).area }
        ensures place { SamePlace area.old area.new };

    /// Copies the device with its medium and its faults still to come. Fails only if memory runs out.
    fn copy(&self) -> Result<Self, AllocError>
        ensures { IfOk result (λ d. d ≡ self.now) };

    ghost lawful: { Lawful meaning };
}

/// Why a device is not mounted, the first reason in this order.
#[derive(Clone, Copy, PartialEq, Eq, Debug, Error)]
pub enum MountError {
    /// A number of the geometry is outside its range.
    #[error("bad geometry")]
    BadGeometry,
    /// What is to lie on the medium does not fit it, or the fault script is none.
    #[error("bad medium")]
    BadMedium,
    /// There was no memory.
    #[error("no memory")]
    NoMemory,
}
