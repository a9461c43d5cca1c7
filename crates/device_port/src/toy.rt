//! A device of one block of four bytes, for the tests of the crates above (profile).

ghost use Rattle.std.specs.Prelude.{◌≡◌, IfOk, true};
ghost use Rattle.device_port.specs.Faults.{is_script};
ghost use Rattle.device_port.specs.Moves.{AllLie, gathered, padded};
ghost use Rattle.device_port.specs.Toy.{toy};
ghost use Rattle.device_port.specs.ToyLaws.{toy_lawful};

use crate::answer::Acted;
use crate::chain::Chain;
use crate::device::Device;
use crate::faults::{Fault, FaultScript};
use crate::given::Given;
use crate::kind::{Flow, Kind};
use io_area::Area;
use io_images::Seek;
use std::alloc::{AllocError, Global};
use std::marker::Model;

/// The commands of a block.
const WRITE: u8 = 0x01;

const READ: u8 = 0x02;

const NO_OPERATION: u8 = 0x03;

const READ_BACKWARD: u8 = 0x0C;

/// A block of four bytes: 01 writes it, 02 reads it, 0C reads it backward, 03 is no-operation and every
/// other command is rejected. Standing for a disk it has one track. Only tests use it: no script and no client has it.
#[derive(Drop)]
pub struct ToyBlock {
    kind: Kind,
    block: [u8; 4],
    faults: FaultScript,
}

impl Model for ToyBlock {
    ghost use Rattle.device_port.specs.Toy.{ToyBlock as Block};

    ghost Value = { Block };

    ghost view = { λ d. record { kind = d.kind; block = d.block; ordinals = d.faults } };
}

impl ToyBlock {
    /// A block that was given no command.
    pub fn mount(
        alloc: Global,
        kind: Kind,
        block: [u8; 4],
        faults: &[Fault],
    ) -> Result<Self, AllocError>
        requires { is_script faults.now ≡ true }
        ensures { IfOk result (λ d. d ≡ record { kind = kind; block = block; ordinals = record { script = faults.now; done = 0 } }) }
    {
        let faults = FaultScript::new(alloc, faults)?;
        Ok(ToyBlock {
            kind,
            block,
            faults,
        })
    }

    /// Takes a new block from storage.
    fn write(&mut self, chain: &Chain<'_>, area: &Area)
        requires { AllLie Flow.Out area.now chain.now }
        ensures { self.new ≡ record self.old { block = padded 4 (gathered area.now chain.now) } }
    {
        Given::new(chain, area).fill(&mut self.block);
    }
}

impl Device for ToyBlock {
    ghost meaning = { toy };

    fn kind(&self) -> Kind {
        self.kind
    }

    fn cylinders(&self) -> u16 {
        match self.kind {
            Kind::Disk => 1,
            Kind::Tape | Kind::Printer => 0,
        }
    }

    fn heads(&self) -> u16 {
        self.cylinders()
    }

    fn fits(&self, seek: &Seek) -> bool {
        match self.kind {
            Kind::Disk => seek.bin == 0 && seek.cylinder < 1 && seek.head < 1,
            Kind::Tape | Kind::Printer => true,
        }
    }

    fn flow(&self, command: u8) -> Flow {
        match command {
            WRITE => Flow::Out,
            READ => Flow::Input,
            READ_BACKWARD => Flow::Back,
            _ => Flow::None,
        }
    }

    fn prefix(&mut self, _seek: &Seek, _mask: u8) {}

    fn act(&mut self, command: u8, chain: &Chain<'_>, area: &mut Area) -> Acted {
        if let Some(fault) = self.faults.count() {
            return fault.acted();
        }
        match command {
            WRITE => {
                self.write(chain, area);
                Acted::normal_end(4)
            }
            READ => {
                chain.store(area, &self.block);
                Acted::normal_end(4)
            }
            READ_BACKWARD => {
                chain.store_back(area, &self.block);
                Acted::normal_end(4)
            }
            NO_OPERATION => Acted::no_operation(),
            _ => Acted::rejected(),
        }
    }

    fn copy(&self) -> Result<Self, AllocError> {
        Ok(ToyBlock {
            kind: self.kind,
            block: self.block,
            faults: self.faults.copy()?,
        })
    }

    ghost lawful = { toy_lawful };
}
