//! Media and units.

ghost use Rattle.std.specs.Prelude.{◌≡◌, ◌≤◌, ◌<◌, [], ◌∷◌, ◌++◌, length, replicate, true, None, IfErr, IfOk, OnErr, OnOk};
ghost use Rattle.std.specs.Bool.{OnTrue};
ghost use Rattle.any_device.specs.declared.device.AnyDevice.TheVariants as AnyDevice;
ghost use Rattle.ckd_disk.specs.Mount.{opening as opening_disk};
ghost use Rattle.tape_unit.specs.Mount.{opening as opening_tape};
ghost use Rattle.tape_unit.specs.Item.{block, tape_mark};
ghost use Rattle.line_printer.specs.Mount.{opening as opening_printer};
ghost use Rattle.excp_site.specs.Media.{IsEmpty, PutsItem, PutsRecord};
ghost use Rattle.excp_site.specs.Mounting.{AddRefused, DiskRefused, DiskTaken, PrinterRefused, PrinterTaken, TapeRefused, TapeTaken};
ghost use Rattle.excp_site.specs.Sites.{AddsUnit, is_room};
ghost use Rattle.excp_site.specs.declared.refusal.Refusal.TheVariants as Refusal;

use crate::medium::Medium;
use crate::refusal::Refusal;
use crate::site::{MOST_UNITS, Site};
use any_device::AnyDevice;
use ckd_disk::{Disk, Geometry, InitialRecord};
use device_port::Fault;
use line_printer::Printer;
use medium_image::Kept;
use tape_unit::{InitialItem, Tape};
use unit_book::UnitBook;

/// How many requests may be in flight to a unit, and how many its book holds at a time: each 1 to 65,536 (`excp_room`).
#[repr(C)]
#[derive(Clone, Copy)]
pub struct Room {
    pub in_flight: u32,
    pub held: u32,
}

/// Whether both numbers are in their range.
fn is_room(room: Room) -> bool
    ensures value { result ≡ is_room room.in_flight room.held }
    ensures some { OnTrue result (1 ≤ room.held) }
    ensures few { OnTrue result (room.held ≤ 65536) }
{
    1 <= room.in_flight && room.in_flight <= 65_536 && 1 <= room.held && room.held <= 65_536
}

impl Site {
    /// Adds a record to the medium of the next unit, a disk. Its numbers and lengths are tested by the mount.
    ///
    /// Error: `NoMemory`.
    pub fn put_record(
        &mut self,
        cylinder: u16,
        head: u16,
        number: u8,
        key: &[u8],
        content: &[u8],
    ) -> Result<(), Refusal>
        ensures ok { OnOk result (PutsRecord self.old.medium.records.items cylinder head number key.now content.now self.new.medium.records.items) }
        ensures medium { self.new.medium ≡ record self.old.medium { records = self.new.medium.records } }
        ensures rest { self.new ≡ record self.old { medium = self.new.medium } }
        ensures refused { IfErr result (λ e. e ≡ Refusal.NoMemory) }
        ensures err { OnErr result (self.new.medium.records.items ≡ self.old.medium.records.items) }
    {
        let record = InitialRecord {
            cylinder,
            head,
            number,
            key: key.to_vec(self.alloc)?,
            content: content.to_vec(self.alloc)?,
        };
        self.medium.records.push(record)?;
        Ok(())
    }

    /// Adds a block to the medium of the next unit, a tape. Its length is tested by the mount.
    ///
    /// Error: `NoMemory`.
    pub fn put_block(&mut self, content: &[u8]) -> Result<(), Refusal>
        ensures ok { OnOk result (PutsItem self.old.medium.items.items (block content.now) self.new.medium.items.items) }
        ensures medium { self.new.medium ≡ record self.old.medium { items = self.new.medium.items } }
        ensures rest { self.new ≡ record self.old { medium = self.new.medium } }
        ensures refused { IfErr result (λ e. e ≡ Refusal.NoMemory) }
        ensures err { OnErr result (self.new.medium.items.items ≡ self.old.medium.items.items) }
    {
        let block = InitialItem::Block(content.to_vec(self.alloc)?);
        self.medium.items.push(block)?;
        Ok(())
    }

    /// Adds a tape mark to the medium of the next unit, a tape.
    ///
    /// Error: `NoMemory`.
    pub fn put_tape_mark(&mut self) -> Result<(), Refusal>
        ensures ok { OnOk result (PutsItem self.old.medium.items.items tape_mark self.new.medium.items.items) }
        ensures medium { self.new.medium ≡ record self.old.medium { items = self.new.medium.items } }
        ensures rest { self.new ≡ record self.old { medium = self.new.medium } }
        ensures refused { IfErr result (λ e. e ≡ Refusal.NoMemory) }
        ensures err { OnErr result (self.new.medium.items.items ≡ self.old.medium.items.items) }
    {
        self.medium.items.push(InitialItem::Mark)?;
        Ok(())
    }

    /// Adds a fault that the device of the next unit is to meet.
    ///
    /// Error: `NoMemory`.
    pub fn put_fault(&mut self, fault: Fault) -> Result<(), Refusal>
        ensures ok { OnOk result (self.new.medium.faults.items ≡ self.old.medium.faults.items ++ fault ∷ []) }
        ensures medium { self.new.medium ≡ record self.old.medium { faults = self.new.medium.faults } }
        ensures rest { self.new ≡ record self.old { medium = self.new.medium } }
        ensures refused { IfErr result (λ e. e ≡ Refusal.NoMemory) }
        ensures err { OnErr result (self.new.medium.faults.items ≡ self.old.medium.faults.items) }
    {
        self.medium.faults.push(fault)?;
        Ok(())
    }

    /// Forgets what was put.
    pub fn clear_medium(&mut self)
        ensures empty { IsEmpty self.new.medium }
        ensures rest { self.new ≡ record self.old { medium = self.new.medium } }
    {
        self.medium = Medium::new(self.alloc);
    }

    /// Adds a disk with the records and faults that were put, and returns the number of its unit. They are used up.
    ///
    /// Errors, in this order: `BadNumber` if the room is outside its range; `TooManyUnits`; `BadMedium` if an item of a tape was put;
    /// those of [`Disk::mount`]; `NoMemory`. What was put stays then.
    pub fn mount_disk(&mut self, geometry: Geometry, room: Room) -> Result<u16, Refusal>
        ensures ok { IfOk result (λ unit. AddsUnit self.old (AnyDevice.Disk (opening_disk geometry self.old.medium.records.items self.old.medium.faults.items)) None room.in_flight room.held unit self.new) }
        ensures used { OnOk result (IsEmpty self.new.medium) }
        ensures taken { OnOk result (DiskTaken self.old geometry) }
        ensures refused { IfErr result (DiskRefused self.old geometry room.in_flight room.held) }
        ensures err { OnErr result (self.new ≡ self.old) }
    {
        self.can_add(room)?;
        if !self.medium.items.is_empty() {
            return Err(Refusal::BadMedium);
        }
        let medium = &self.medium;
        let disk = Disk::mount(self.alloc, geometry, &medium.records, &medium.faults)?;
        self.add(AnyDevice::Disk(disk), None, room)
    }

    /// Adds a tape of `bytes` bytes with the items and faults that were put, and returns the number of its unit. They are used up.
    ///
    /// Errors, in this order: `BadNumber` if the room is outside its range; `TooManyUnits`; `BadMedium` if a record of a disk was put;
    /// those of [`Tape::mount`]; `NoMemory`. What was put stays then.
    pub fn mount_tape(&mut self, bytes: u64, room: Room) -> Result<u16, Refusal>
        ensures ok { IfOk result (λ unit. AddsUnit self.old (AnyDevice.Tape (opening_tape bytes self.old.medium.items.items self.old.medium.faults.items)) None room.in_flight room.held unit self.new) }
        ensures used { OnOk result (IsEmpty self.new.medium) }
        ensures taken { OnOk result (TapeTaken self.old bytes) }
        ensures refused { IfErr result (TapeRefused self.old bytes room.in_flight room.held) }
        ensures err { OnErr result (self.new ≡ self.old) }
    {
        self.can_add(room)?;
        if !self.medium.records.is_empty() {
            return Err(Refusal::BadMedium);
        }
        let medium = &self.medium;
        let tape = Tape::mount(self.alloc, &medium.items, bytes, &medium.faults)?;
        self.add(AnyDevice::Tape(tape), None, room)
    }

    /// Adds a printer for `lines` lines on paper of `pages` pages, with the faults that were put, and returns the number of its
    /// unit. They are used up.
    ///
    /// Errors, in this order: `BadNumber` if the room is outside its range; `TooManyUnits`; `BadMedium` if a record or an item was
    /// put; those of [`Printer::mount`]; `NoMemory`. What was put stays then.
    pub fn mount_printer(&mut self, lines: u64, pages: u64, room: Room) -> Result<u16, Refusal>
        ensures ok { IfOk result (λ unit. AddsUnit self.old (AnyDevice.Printer (opening_printer lines pages self.old.medium.faults.items)) None room.in_flight room.held unit self.new) }
        ensures used { OnOk result (IsEmpty self.new.medium) }
        ensures taken { OnOk result (PrinterTaken self.old lines pages) }
        ensures refused { IfErr result (PrinterRefused self.old lines pages room.in_flight room.held) }
        ensures err { OnErr result (self.new ≡ self.old) }
    {
        self.can_add(room)?;
        let medium = &self.medium;
        if !medium.records.is_empty() || !medium.items.is_empty() {
            return Err(Refusal::BadMedium);
        }
        let printer = Printer::mount(self.alloc, lines, pages, &medium.faults)?;
        self.add(AnyDevice::Printer(printer), None, room)
    }

    /// Tests that a unit with this room can be added.
    pub(super) fn can_add(&self, room: Room) -> Result<(), Refusal>
        ensures some { OnOk result (1 ≤ room.held) }
        ensures few { OnOk result (room.held ≤ 65536) }
        ensures is_room { OnOk result (is_room room.in_flight room.held ≡ true) }
        ensures units { OnOk result (length self.now.plain.units < 65_535) }
        ensures refused { IfErr result (AddRefused self.now room.in_flight room.held) }
    {
        if !is_room(room) {
            return Err(Refusal::BadNumber);
        }
        if self.plain.units() >= MOST_UNITS {
            return Err(Refusal::TooManyUnits);
        }
        Ok(())
    }

    /// Adds a unit with this device, and what its image has beside the medium. What was put is used up.
    pub(super) fn add(
        &mut self,
        device: AnyDevice,
        beside: Option<Kept>,
        room: Room,
    ) -> Result<u16, Refusal>
        requires units { length self.old.plain.units < 65_535 }
        requires room { is_room room.in_flight room.held ≡ true }
        requires some { 1 ≤ room.held }
        requires few { room.held ≤ 65536 }
        ensures ok { IfOk result (λ unit. AddsUnit self.old device beside room.in_flight room.held unit self.new) }
        ensures used { OnOk result (IsEmpty self.new.medium) }
        ensures refused { IfErr result (λ e. e ≡ Refusal.NoMemory) }
        ensures err { OnErr result (self.new ≡ self.old) }
    {
        let Ok(book) = UnitBook::new(self.alloc, device, 0, room.held as usize) else {
            return Err(Refusal::NoMemory);
        };
        let tasks = self.plain.tasks();
        let none = vec![in self.alloc; 0; tasks]?;
        self.earlier.reserve(1)?;
        self.beside.reserve(1)?;
        match self.plain.add_unit(book, room.in_flight as usize) {
            Ok(unit) => {
                self.earlier.push_reserved(none);
                self.beside.push_reserved(beside);
                self.medium = Medium::new(self.alloc);
                Ok(unit)
            }
            Err(_) => Err(Refusal::NoMemory),
        }
    }
}
