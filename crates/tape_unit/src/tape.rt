//! The tape as a device: its mounting, its commands, and its reader.

ghost use Rattle.std.specs.Prelude.{◌≡◌, ◌≤◌, ◌-◌, ◌^◌, IfNone, IfSome, length};
ghost use Rattle.device_port.specs.Faults.{IsClear};
ghost use Rattle.tape_unit.specs.Item.{content_of};
ghost use Rattle.tape_unit.specs.Tape.{tape, read_ended, spaced_ended};
ghost use Rattle.tape_unit.specs.TapeLaws.{tape_lawful};
ghost use Rattle.tape_unit.specs.TapeSize.{tape_keeps_size, tape_size};

use crate::command::{Command, ControlCommand};
use crate::mount::{InitialItem, are_items, fit, is_size, loaded};
use crate::position::Position;
use crate::reel::{LONGEST_BLOCK, Reel};
use crate::stored::{Items, Stored};
use device_port::{
    Acted, COMMAND_REJECT, Chain, Device, EQUIPMENT_CHECK, Fault, FaultScript, FixedSize, Flow,
    Given, Kind, MountError, SENSE_BYTES, is_script,
};
use io_area::Area;
use io_images::Seek;
use std::alloc::{AllocError, Global};
use std::marker::Model;

/// A magnetic tape (profile), as contracts see it: the items on its reel, how many of them lie before the head,
/// and the fault script.
#[derive(Drop)]
pub struct Tape {
    reel: Reel,
    head: Position,
    faults: FaultScript,
}

impl Model for Tape {
    ghost use Rattle.tape_unit.specs.Reel.{IsOn};
    ghost use Rattle.tape_unit.specs.Tape.{TapeState};

    ghost Value = { TapeState };

    ghost view = { λ t. record { reel = t.reel; place = t.head.place; ordinals = t.faults } };

    ghost invariant = { λ t. IsOn t.reel.items t.head };
}

impl Tape {
    ghost use Rattle.std.specs.Prelude.{◌≡◌, ◌≤◌, length};
    ghost use Rattle.device_port.specs.Moves.{AllLie, gathered, stored, stored_back};
    ghost use Rattle.io_area.specs.Storage.{SamePlace};
    ghost use Rattle.tape_unit.specs.Tape.{control_on, read, read_backward, forward_space_block, backspace_block, forward_space_file, backspace_file, rewind, write, write_tape_mark};
    ghost use Rattle.tape_unit.specs.Mount.{Mounts};

    /// A tape of `bytes` bytes with these items, at its load point, that meets these faults (profile).
    ///
    /// Errors, in this order:
    ///
    /// - `BadGeometry`: `bytes` is not 4 to 16,777,216.
    /// - `BadMedium`: a block is empty or over 65,535 bytes; the items take more than `bytes`, each four bytes beside
    ///   its data; or the faults are no fault script.
    /// - `NoMemory`.
    pub fn mount(
        alloc: Global,
        items: &[InitialItem],
        bytes: u64,
        faults: &[Fault],
    ) -> Result<Self, MountError>
        ensures { Mounts bytes items.now faults.now result }
    {
        if !is_size(bytes) {
            return Err(MountError::BadGeometry);
        }
        if !is_script(faults) || !are_items(items) || !fit(items, bytes) {
            return Err(MountError::BadMedium);
        }
        let Ok(reel) = loaded(alloc, items, bytes) else {
            return Err(MountError::NoMemory);
        };
        let Ok(faults) = FaultScript::new(alloc, faults) else {
            return Err(MountError::NoMemory);
        };
        Ok(Tape::wound(reel, faults))
    }

    /// A tape at its load point.
    pub(crate) fn wound(reel: Reel, faults: FaultScript) -> Self
        ensures { result ≡ record { reel = reel; place = 0; ordinals = faults } }
    {
        Tape {
            reel,
            head: Position::load_point(),
            faults,
        }
    }

    /// The items, from the load point on.
    pub fn items(&self) -> Items<'_>
        ensures { result ≡ self.now.reel.items }
    {
        self.reel.items()
    }

    /// How many bytes its medium has.
    pub fn bytes(&self) -> usize
        ensures { result ≡ self.now.reel.size }
    {
        self.reel.size()
    }

    /// How many items it has.
    pub fn len(&self) -> usize
        ensures { result ≡ length self.now.reel.items }
    {
        self.reel.len()
    }

    /// The position of the tape: the number of items before its head.
    pub fn place(&self) -> usize
        ensures { result ≡ self.now.place }
    {
        self.head.place
    }

    /// How many commands were done, if a fault may still come. Otherwise no later command meets one.
    pub fn to_come(&self) -> Option<u64>
        ensures done { IfSome result (λ done. done ≡ self.now.ordinals.done) }
        ensures none { IfNone result (IsClear self.now.ordinals.script self.now.ordinals.done (2 ^ 64 - 1)) }
    {
        self.faults.to_come()
    }

    /// A command that moves no data.
    fn control(&mut self, command: ControlCommand) -> Acted
        ensures acted { result ≡ (control_on self.old command).acted }
        ensures device { self.new ≡ (control_on self.old command).device }
    {
        match command {
            ControlCommand::NoOperation => Acted::no_operation(),
            ControlCommand::Rewind => self.rewind(),
            ControlCommand::WriteTapeMark => self.write_tape_mark(),
            ControlCommand::BackspaceBlock => self.backspace_block(),
            ControlCommand::BackspaceFile => self.backspace_file(),
            ControlCommand::ForwardSpaceBlock => self.forward_space_block(),
            ControlCommand::ForwardSpaceFile => self.forward_space_file(),
        }
    }

    /// READ.
    fn read(&mut self, chain: &Chain<'_>, area: &mut Area) -> Acted
        requires { AllLie Flow.Input area.old chain.now }
        ensures acted { result ≡ (read self.old).acted }
        ensures device { self.new ≡ (read self.old).device }
        ensures area { area.new ≡ stored chain.now (read self.old).bytes area.old }
        ensures place { SamePlace area.old area.new }
    {
        if self.head.place == self.reel.len() {
            return Acted::unit_check(EQUIPMENT_CHECK);
        }
        let item = self.reel.item(self.head);
        chain.store(area, item.content());
        self.head = self.reel.next(self.head);
        read_ended(&item)
    }

    /// READ BACKWARD.
    fn read_backward(&mut self, chain: &Chain<'_>, area: &mut Area) -> Acted
        requires { AllLie Flow.Back area.old chain.now }
        ensures acted { result ≡ (read_backward self.old).acted }
        ensures device { self.new ≡ (read_backward self.old).device }
        ensures area { area.new ≡ stored_back chain.now (read_backward self.old).bytes area.old }
        ensures place { SamePlace area.old area.new }
    {
        if self.head.place == 0 {
            return Acted::unit_check(COMMAND_REJECT);
        }
        let before = self.reel.previous(self.head);
        let item = self.reel.item(before);
        chain.store_back(area, item.content());
        self.head = before;
        read_ended(&item)
    }

    /// FORWARD SPACE BLOCK.
    fn forward_space_block(&mut self) -> Acted
        ensures acted { result ≡ (forward_space_block self.old).acted }
        ensures device { self.new ≡ (forward_space_block self.old).device }
    {
        if self.head.place == self.reel.len() {
            return Acted::unit_check(EQUIPMENT_CHECK);
        }
        let acted = spaced_ended(&self.reel.item(self.head));
        self.head = self.reel.next(self.head);
        acted
    }

    /// BACKSPACE BLOCK.
    fn backspace_block(&mut self) -> Acted
        ensures acted { result ≡ (backspace_block self.old).acted }
        ensures device { self.new ≡ (backspace_block self.old).device }
    {
        if self.head.place == 0 {
            return Acted::unit_check(COMMAND_REJECT);
        }
        self.head = self.reel.previous(self.head);
        spaced_ended(&self.reel.item(self.head))
    }

    /// FORWARD SPACE FILE.
    fn forward_space_file(&mut self) -> Acted
        ensures acted { result ≡ (forward_space_file self.old).acted }
        ensures device { self.new ≡ (forward_space_file self.old).device }
    {
        let Some(mark) = self.reel.mark_ahead(self.head) else {
            self.head = self.reel.end();
            return Acted::unit_check(EQUIPMENT_CHECK);
        };
        self.head = self.reel.next(mark);
        Acted::normal_end(0)
    }

    /// BACKSPACE FILE.
    fn backspace_file(&mut self) -> Acted
        ensures acted { result ≡ (backspace_file self.old).acted }
        ensures device { self.new ≡ (backspace_file self.old).device }
    {
        let Some(mark) = self.reel.mark_behind(self.head) else {
            self.head = Position::load_point();
            return Acted::unit_check(COMMAND_REJECT);
        };
        self.head = mark;
        Acted::normal_end(0)
    }

    /// REWIND.
    fn rewind(&mut self) -> Acted
        ensures acted { result ≡ (rewind self.old).acted }
        ensures device { self.new ≡ (rewind self.old).device }
    {
        self.head = Position::load_point();
        Acted::normal_end(0)
    }

    /// WRITE.
    fn write(&mut self, given: &Given<'_>) -> Acted
        requires { 1 ≤ length given.now }
        ensures acted { result ≡ (write self.old given.now).acted }
        ensures device { self.new ≡ (write self.old given.now).device }
    {
        let len = given.len().min(LONGEST_BLOCK);
        if !self.reel.has_room(self.head, len) {
            return Acted::unit_check(EQUIPMENT_CHECK);
        }
        self.head = self.reel.put_given(self.head, given, len);
        Acted::normal_end(len as u32)
    }

    /// WRITE of what a chain gives.
    fn write_from(&mut self, chain: &Chain<'_>, area: &Area) -> Acted
        requires lies { AllLie Flow.Out area.now chain.now }
        requires some { 1 ≤ length (gathered area.now chain.now) }
        ensures acted { result ≡ (write self.old (gathered area.now chain.now)).acted }
        ensures device { self.new ≡ (write self.old (gathered area.now chain.now)).device }
    {
        self.write(&Given::new(chain, area))
    }

    /// WRITE TAPE MARK.
    fn write_tape_mark(&mut self) -> Acted
        ensures acted { result ≡ (write_tape_mark self.old).acted }
        ensures device { self.new ≡ (write_tape_mark self.old).device }
    {
        if !self.reel.has_room(self.head, 0) {
            return Acted::unit_check(EQUIPMENT_CHECK);
        }
        self.head = self.reel.put(self.head, &[]);
        Acted::normal_end(0)
    }
}

/// How a command ends that reads an item.
fn read_ended(item: &Stored<'_>) -> Acted
    requires { length (content_of item.now) ≤ 65_535 }
    ensures { result ≡ read_ended item.now }
{
    if item.is_mark() {
        Acted::unit_exception(0)
    } else {
        Acted::normal_end(item.content().len() as u32)
    }
}

/// How a command ends that spaces over an item.
fn spaced_ended(item: &Stored<'_>) -> Acted
    ensures { result ≡ spaced_ended item.now }
{
    if item.is_mark() {
        Acted::unit_exception(0)
    } else {
        Acted::normal_end(0)
    }
}

impl Device for Tape {
    ghost meaning = { tape };

    fn kind(&self) -> Kind {
        Kind::Tape
    }

    fn cylinders(&self) -> u16 {
        0
    }

    fn heads(&self) -> u16 {
        0
    }

    fn fits(&self, _seek: &Seek) -> bool {
        true
    }

    fn flow(&self, command: u8) -> Flow {
        Command::flow(Command::decode(command))
    }

    fn prefix(&mut self, _seek: &Seek, _mask: u8) {}

    fn act(&mut self, command: u8, chain: &Chain<'_>, area: &mut Area) -> Acted {
        if let Some(fault) = self.faults.count() {
            return fault.acted();
        }
        match Command::decode(command) {
            None => Acted::rejected(),
            Some(Command::Control(control)) => self.control(control),
            Some(Command::Sense) => {
                chain.store(area, &SENSE_BYTES);
                Acted::sense()
            }
            Some(Command::Read) => self.read(chain, area),
            Some(Command::ReadBackward) => self.read_backward(chain, area),
            Some(Command::Write) => self.write_from(chain, area),
        }
    }

    fn copy(&self) -> Result<Self, AllocError> {
        Ok(Tape {
            reel: self.reel.copy()?,
            head: self.head,
            faults: self.faults.copy()?,
        })
    }

    ghost lawful = { tape_lawful };
}

impl FixedSize for Tape {
    ghost size = { tape_size };

    fn copy_from(&mut self, from: &Self) {
        self.reel.copy_from(&from.reel);
        self.faults.copy_from(&from.faults);
        self.head = from.head;
    }

    ghost keeps_size = { tape_keeps_size };
}
