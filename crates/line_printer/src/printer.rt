//! The printer as a device: its mounting, its commands, and its readers.

mod refusal;

ghost use Rattle.std.specs.Prelude.{◌≡◌, ◌-◌, ◌^◌, IfNone, IfSome};
ghost use Rattle.device_port.specs.Faults.{IsClear};
ghost use Rattle.line_printer.specs.Mount.{is_paper};
ghost use Rattle.line_printer.specs.Printer.{printer};
ghost use Rattle.line_printer.specs.PrinterLaws.{printer_lawful};
ghost use Rattle.line_printer.specs.PrinterSize.{printer_keeps_size, printer_size};

use crate::command::Command;
use crate::listing::Printout;
use crate::paper::{Motion, PaperPosition};
use crate::printed_line::PrintedLine;
use device_port::{
    Acted, Chain, Device, Fault, FaultScript, FixedSize, Flow, Given, INTERVENTION_REQUIRED, Kind,
    MountError, SENSE_BYTES, is_script,
};
use io_area::Area;
use io_images::Seek;
pub use refusal::{PaperRefusal, paper_refusal};
use std::alloc::{AllocError, Global};
use std::marker::Model;
use std::slice::Iter;

/// A line printer (profile). Contracts see the lines that it has printed, where the next one goes, how many lines and
/// pages it prints at most, and the fault script.
#[derive(Drop)]
pub struct Printer {
    listing: Printout,
    pages: u16,
    position: PaperPosition,
    faults: FaultScript,
}

impl Model for Printer {
    ghost use Rattle.std.specs.Prelude.{◌≤◌};
    ghost use Rattle.line_printer.specs.Paper.{IsOnPage};
    ghost use Rattle.line_printer.specs.Printer.{PrinterState};

    ghost Value = { PrinterState };

    ghost view = { λ p. record { most = p.listing.room; pages = p.pages; printed = p.listing.lines; at = p.position; ordinals = p.faults } };

    ghost invariant = { λ p. IsOnPage p.position × (p.position.page ≤ p.pages) × (p.pages ≤ 10_000) };
}

impl Printer {
    ghost use Rattle.std.specs.Prelude.{◌≡◌};
    ghost use Rattle.std.specs.Slice.Iter.{iter_rest};
    ghost use Rattle.device_port.specs.Moves.{AllLie, gathered};
    ghost use Rattle.line_printer.specs.Printer.{print, move};
    ghost use Rattle.line_printer.specs.Mount.{Mounts};

    /// A printer with room for `lines` lines and paper of `pages` pages, at line 1 of page 1, that meets these faults
    /// (profile).
    ///
    /// Errors, in this order:
    ///
    /// - `BadGeometry`: `lines` is not 1 to 100,000, or `pages` not 1 to 10,000.
    /// - `BadMedium`: the faults are no fault script.
    /// - `NoMemory`.
    pub fn mount(
        alloc: Global,
        lines: u64,
        pages: u64,
        faults: &[Fault],
    ) -> Result<Self, MountError>
        ensures { Mounts lines pages faults.now result }
    {
        if !is_paper(lines, pages) {
            return Err(MountError::BadGeometry);
        }
        if !is_script(faults) {
            return Err(MountError::BadMedium);
        }
        let Ok(listing) = Printout::new(alloc, lines as usize) else {
            return Err(MountError::NoMemory);
        };
        let Ok(faults) = FaultScript::new(alloc, faults) else {
            return Err(MountError::NoMemory);
        };
        Ok(Printer {
            listing,
            pages: pages as u16,
            position: PaperPosition { page: 1, line: 1 },
            faults,
        })
    }

    /// The printed lines, the oldest first.
    pub fn printed(&self) -> Iter<'_, PrintedLine>
        ensures { iter_rest result ≡ self.now.printed }
    {
        self.listing.lines().iter()
    }

    /// How many commands were done, if a fault may still come. Otherwise no later command meets one.
    pub fn to_come(&self) -> Option<u64>
        ensures done { IfSome result (λ done. done ≡ self.now.ordinals.done) }
        ensures none { IfNone result (IsClear self.now.ordinals.script self.now.ordinals.done (2 ^ 64 - 1)) }
    {
        self.faults.to_come()
    }

    /// How many lines it prints at most.
    pub fn room(&self) -> usize
        ensures { result ≡ self.now.most }
    {
        self.listing.room()
    }

    /// Where the next line goes.
    pub fn position(&self) -> PaperPosition
        ensures { result ≡ self.now.at }
    {
        self.position
    }

    /// Prints what a chain gives and moves the paper.
    fn print_from(&mut self, motion: Motion, chain: &Chain<'_>, area: &Area) -> Acted
        requires { AllLie Flow.Out area.now chain.now }
        ensures acted { result ≡ (print self.old motion (gathered area.now chain.now)).acted }
        ensures device { self.new ≡ (print self.old motion (gathered area.now chain.now)).device }
    {
        self.print(motion, &Given::new(chain, area))
    }

    /// Prints a line and moves the paper.
    fn print(&mut self, motion: Motion, given: &Given<'_>) -> Acted
        ensures acted { result ≡ (print self.old motion given.now).acted }
        ensures device { self.new ≡ (print self.old motion given.now).device }
    {
        let next = self.position.moved(motion);
        if self.listing.is_full() || next.page > self.pages {
            return Acted::unit_check(INTERVENTION_REQUIRED);
        }
        let line = PrintedLine::new(self.position, given);
        let want = line.bytes().len() as u32;
        self.listing.push(line);
        self.position = next;
        Acted::normal_end(want)
    }

    /// Moves the paper at once.
    fn move_paper(&mut self, motion: Motion) -> Acted
        ensures acted { result ≡ (move self.old motion).acted }
        ensures device { self.new ≡ (move self.old motion).device }
    {
        let next = self.position.moved(motion);
        if next.page > self.pages {
            return Acted::unit_check(INTERVENTION_REQUIRED);
        }
        self.position = next;
        Acted::normal_end(0)
    }
}

/// Whether a printer may have these numbers of lines and pages.
fn is_paper(lines: u64, pages: u64) -> bool
    ensures { result ≡ is_paper lines pages }
{
    lines >= 1 && lines <= 100_000 && pages >= 1 && pages <= 10_000
}

impl Device for Printer {
    ghost meaning = { printer };

    fn kind(&self) -> Kind {
        Kind::Printer
    }

    fn cylinders(&self) -> u16 {
        0
    }

    fn heads(&self) -> u16 {
        0
    }

    fn fits(&self, _seek: &Seek) -> bool {
        true
    }

    fn flow(&self, command: u8) -> Flow {
        Command::flow(Command::decode(command))
    }

    fn prefix(&mut self, _seek: &Seek, _mask: u8) {}

    fn act(&mut self, command: u8, chain: &Chain<'_>, area: &mut Area) -> Acted {
        if let Some(fault) = self.faults.count() {
            return fault.acted();
        }
        match Command::decode(command) {
            None => Acted::rejected(),
            Some(Command::NoOperation) => Acted::no_operation(),
            Some(Command::Sense) => {
                chain.store(area, &SENSE_BYTES);
                Acted::sense()
            }
            Some(Command::Print(motion)) => self.print_from(motion, chain, area),
            Some(Command::Move(motion)) => self.move_paper(motion),
        }
    }

    fn copy(&self) -> Result<Self, AllocError> {
        Ok(Printer {
            listing: self.listing.copy()?,
            pages: self.pages,
            position: self.position,
            faults: self.faults.copy()?,
        })
    }

    ghost lawful = { printer_lawful };
}

impl FixedSize for Printer {
    ghost size = { printer_size };

    fn copy_from(&mut self, from: &Self) {
        self.listing.copy_from(&from.listing);
        self.faults.copy_from(&from.faults);
        self.pages = from.pages;
        self.position = from.position;
    }

    ghost keeps_size = { printer_keeps_size };
}
