//! Whole cycles of a book: a request arrives, is started, run and interrupted, and is taken out.

ghost use Rattle.std.specs.Prelude.{◌≡◌, ◌+◌, ◌∷◌, IfOk, OnOk, OnErr};
ghost use Rattle.unit_book.specs.Trace.{arrivals, arrived_of};

use crate::channel::disk;
use ckd_disk::Disk;
use io_area::Area;
use io_images::Extent;
use request_piece::{Name, Request};
use std::alloc::{AllocError, Global};
use std::marker::Model;
use unit_book::{Entry, ProcessingMethod, UnitBook};

/// An unrelated IOB, its ECB, and search, transfer back and read data, from X'1000' on.
pub const IMAGE: [u8; 104] = [
    0x42, 0, 0, 0, 0, 0, 0x10, 0x28, 0, 0, 0, 0, 0, 0, 0, 0, 0, 0, 0x10, 0x30, 0, 0, 0, 1, 0, 0, 0,
    0, 0, 0, 0, 1, 0, 0, 0, 0, 0, 0, 0, 0, 0, 0, 0, 0, 0, 0, 0, 0, 0x31, 0, 0x10, 0x50, 0x40, 0, 0,
    5, 0x08, 0, 0x10, 0x30, 0, 0, 0, 0, 0x06, 0, 0x10, 0x60, 0, 0, 0, 4, 0, 0, 0, 0, 0, 0, 0, 0, 0,
    0, 0, 0, 1, 0, 0, 0, 0, 0, 0, 0, 0, 0, 0, 0, 0, 0, 0, 0, 0, 0, 0, 0,
];

/// An extent of the one track of the disk.
pub const EXTENT: [u8; 16] = [0x18, 0, 0, 0, 0, 0, 0, 0, 0, 0, 0, 0, 0, 0, 0, 1];

/// A book with an open DCB, and the storage that each request is a copy of.
#[derive(Drop)]
pub struct Cycles {
    book: UnitBook<Disk>,
    area: Area,
}

impl Model for Cycles {
    ghost use Rattle.unit_book.specs.Book.{Book};
    ghost use Rattle.ckd_disk.specs.Disk.{DiskState};

    ghost Value = { Book DiskState };

    ghost view = { λ c. c.book };
}

impl Cycles {
    /// A book for one request at a time, with DCB 1 open, at which nothing arrived.
    pub fn new(alloc: Global) -> Result<Self, AllocError>
        ensures { IfOk result (λ c. arrived_of 0 c.trace ≡ 0) }
    {
        let Ok(area) = Area::new(alloc, 0x1000, &IMAGE) else {
            return Err(AllocError);
        };
        let mut book = UnitBook::new(alloc, disk(alloc, 1, 4)?, 0, 1)?;
        open(&mut book)?;
        Ok(Cycles { book, area })
    }

    /// Does `count` cycles, the first ones of the book, and counts those that were posted.
    pub fn run(&mut self, alloc: Global, count: u32) -> Result<u64, AllocError>
        requires { arrived_of 0 self.old.trace ≡ 0 }
    {
        let mut done: u64 = 0;
        for before in 0..count {
            done = done.saturating_add(self.cycle(alloc, before + 1)?);
        }
        Ok(done)
    }

    /// The cycle of the next request.
    fn cycle(&mut self, alloc: Global, seq: u32) -> Result<u64, AllocError>
        requires { seq ≡ arrived_of 0 self.old.trace + 1 }
        ensures { OnOk result (arrived_of 0 self.new.trace ≡ seq) }
    {
        let name = Name { task: 0, seq };
        let Ok(request) = Request::new(alloc, name, 0, 1, 0x1000, self.area.copy()?) else {
            return Err(AllocError);
        };
        admit(&mut self.book, request)?;
        let posted = serve(&mut self.book)?;
        Ok(posted)
    }
}

/// The next request of its task arrives.
fn admit(book: &mut UnitBook<Disk>, request: Request) -> Result<(), AllocError>
    requires { request.name.seq ≡ arrived_of request.name.task book.old.trace + 1 }
    ensures ok { OnOk result (arrivals book.new.trace ≡ arrivals (Entry.Arrive request ∷ book.old.trace)) }
    ensures err { OnErr result (book.new ≡ book.old) }
{
    match book.arrive(request) {
        Ok(_) => Ok(()),
        Err(_) => Err(AllocError),
    }
}

/// Opens DCB 1 for output on the one track of the disk.
fn open(book: &mut UnitBook<Disk>) -> Result<(), AllocError>
    ensures { arrivals book.new.trace ≡ arrivals book.old.trace }
{
    match book.open(ProcessingMethod::Output, &[Extent::read(&EXTENT)]) {
        Ok(_) => Ok(()),
        Err(_) => Err(AllocError),
    }
}

/// Starts, runs and interrupts the request that waits, and counts it if it was posted.
fn serve(book: &mut UnitBook<Disk>) -> Result<u64, AllocError>
    ensures { arrivals book.new.trace ≡ arrivals book.old.trace }
{
    start(book)?;
    run(book)?;
    interrupt(book)?;
    Ok(u64::from(book.take_out().is_some()))
}

fn start(book: &mut UnitBook<Disk>) -> Result<(), AllocError>
    ensures { arrivals book.new.trace ≡ arrivals book.old.trace }
{
    match book.start() {
        Ok(_) => Ok(()),
        Err(error) => Err(error),
    }
}

fn run(book: &mut UnitBook<Disk>) -> Result<(), AllocError>
    ensures { arrivals book.new.trace ≡ arrivals book.old.trace }
{
    match book.run(u32::MAX) {
        Ok(_) => Ok(()),
        Err(error) => Err(error),
    }
}

fn interrupt(book: &mut UnitBook<Disk>) -> Result<(), AllocError>
    ensures { arrivals book.new.trace ≡ arrivals book.old.trace }
{
    match book.interrupt() {
        Ok(_) => Ok(()),
        Err(error) => Err(error),
    }
}
