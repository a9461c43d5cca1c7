//! Texts, records, items of tapes and printed lines.

ghost use Rattle.std.specs.Prelude.{◌≡◌, ◌<◌, ◌≤◌, ◌+◌, [], Some, drop, length, slice_get, take, IfErr, IfOk, OnErr, OnOk};
ghost use Rattle.unit_world.specs.Sites.{OnPart};
ghost use Rattle.excp_site.specs.Looks.{ItemAt, ItemRefused, LineAt, LineRefused, RecordAt, RecordRefused, device_now};
ghost use Rattle.excp_site.specs.Refusals.{MakeRefused, NoRoomFor};

use crate::refusal::Refusal;
use crate::site::Site;
use any_device::AnyDevice;
use ckd_disk::{Records, StoredRecord};
use device_port::Fault;
use line_printer::PrintedLine;
use record_lines::{RecordDetail, write_unit};
use run_record::UnitRecord;
use tape_unit::{Items, Stored as StoredItem};
use unit_book::UnitBook;

impl Site {
    /// Makes the record of a unit, as lines of JSON (docs/REPORT.md), with at most this many of its commands, and keeps it in place
    /// of what was made before. Returns how many bytes it has.
    ///
    /// Errors: `NoUnit`, `NoMemory`. What was made before stays then.
    pub fn make_record(&mut self, unit: u16, most_steps: u64) -> Result<usize, Refusal>
        ensures len { IfOk result (λ len. len ≡ length self.new.made) }
        ensures unit { OnOk result (unit < length self.old.plain.units) }
        ensures refused { IfErr result (MakeRefused self.old.plain unit) }
        ensures rest { self.new ≡ record self.old { made = self.new.made } }
        ensures err { OnErr result (self.new ≡ self.old) }
    {
        self.has_unit(unit)?;
        let record = record_of(self.plain.book(unit));
        let part = if most_steps > 0 {
            RecordDetail::Steps(most_steps)
        } else {
            RecordDetail::Events
        };
        let mut text = Vec::new(self.alloc);
        if write_unit(&mut text, self.alloc, usize::from(unit), &record, part).is_err() {
            return Err(Refusal::NoMemory);
        }
        let len = text.len();
        self.made = text;
        Ok(len)
    }

    /// Copies from the bytes that were made, from the place `from` on.
    ///
    /// Error: `NoRoom` if fewer are there.
    pub fn copy_out(&self, from: usize, bytes: &mut [u8]) -> Result<(), Refusal>
        ensures ok { OnOk result (bytes.new ≡ take (length bytes.old) (drop from self.now.made)) }
        ensures room { OnOk result (from + length bytes.old ≤ length self.now.made) }
        ensures refused { IfErr result (NoRoomFor (from + length bytes.old) (length self.now.made)) }
        ensures err { OnErr result (bytes.new ≡ bytes.old) }
    {
        let made = self.made.as_slice();
        let Some(rest) = made.get(from..) else {
            return Err(Refusal::NoRoom);
        };
        if rest.len() < bytes.len() {
            return Err(Refusal::NoRoom);
        }
        bytes.copy_from_slice(&rest[..bytes.len()]);
        Ok(())
    }

    /// Gives back the memory of the bytes that were made last. None are made then.
    pub fn drop_made(&mut self)
        ensures { self.new ≡ record self.old { made = [] } }
    {
        self.made = Vec::new(self.alloc);
    }

    /// The record at a place of a track of a disk, counted from 0.
    ///
    /// Errors: `NoUnit`; `BadMedium` if the unit is no disk; `NothingThere` if the track has no such place.
    pub fn read_record(
        &self,
        unit: u16,
        cylinder: u16,
        head: u16,
        place: usize,
    ) -> Result<StoredRecord<'_>, Refusal>
        ensures unit { OnOk result (unit < length self.now.plain.units) }
        ensures ok { IfOk result (λ r. OnPart self.now.plain unit (λ p. RecordAt (device_now p.book) cylinder head place (Some r))) }
        ensures refused { IfErr result (RecordRefused self.now.plain unit cylinder head place) }
    {
        self.has_unit(unit)?;
        let AnyDevice::Disk(disk) = self.plain.book(unit).device() else {
            return Err(Refusal::BadMedium);
        };
        match at(disk.records(cylinder, head), place) {
            Some(record) => Ok(record),
            None => Err(Refusal::NothingThere),
        }
    }

    /// The item at a place of a tape, counted from 0. Takes time in the items before it.
    ///
    /// Errors: `NoUnit`; `BadMedium` if the unit is no tape; `NothingThere` if there is no such item.
    pub fn read_item(&self, unit: u16, place: usize) -> Result<StoredItem<'_>, Refusal>
        ensures unit { OnOk result (unit < length self.now.plain.units) }
        ensures ok { IfOk result (λ i. OnPart self.now.plain unit (λ p. ItemAt (device_now p.book) place (Some i))) }
        ensures refused { IfErr result (ItemRefused self.now.plain unit place) }
    {
        self.has_unit(unit)?;
        let AnyDevice::Tape(tape) = self.plain.book(unit).device() else {
            return Err(Refusal::BadMedium);
        };
        match item_at(tape.items(), place) {
            Some(item) => Ok(item),
            None => Err(Refusal::NothingThere),
        }
    }

    /// The line of a printer at a place, counted from 0, the oldest first.
    ///
    /// Errors: `NoUnit`; `BadMedium` if the unit is no printer; `NothingThere` if there is no such line.
    pub fn printed_line(&self, unit: u16, place: usize) -> Result<&PrintedLine, Refusal>
        ensures unit { OnOk result (unit < length self.now.plain.units) }
        ensures ok { IfOk result (λ line. OnPart self.now.plain unit (λ p. LineAt (device_now p.book) place (Some line.now))) }
        ensures refused { IfErr result (LineRefused self.now.plain unit place) }
    {
        self.has_unit(unit)?;
        let AnyDevice::Printer(printer) = self.plain.book(unit).device() else {
            return Err(Refusal::BadMedium);
        };
        match printer.printed().as_slice().get(place) {
            Some(line) => Ok(line),
            None => Err(Refusal::NothingThere),
        }
    }
}

/// The record at a place of a track, if it has one.
fn at(records: Records<'_>, place: usize) -> Option<StoredRecord<'_>>
    ensures { result ≡ slice_get records.entry place }
{
    let mut rest = records;
    rest.nth(place)
}

/// The item at a place of a tape, if it has one.
fn item_at(items: Items<'_>, place: usize) -> Option<StoredItem<'_>>
    ensures { result ≡ slice_get items.entry place }
{
    let mut rest = items;
    rest.nth(place)
}

/// The record of a unit of which the book alone is known.
fn record_of<'a>(book: &'a UnitBook<AnyDevice>) -> UnitRecord<'a> {
    let faults: &'a [Fault] = &[];
    let places: Option<&'a [usize]> = None;
    UnitRecord {
        book,
        faults,
        room: None,
        places,
    }
}
