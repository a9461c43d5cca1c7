//! A book whose calls add one entry each.

mod checks;
mod controls;
mod copies;
mod posts;
mod programs;
mod renewal;

ghost use Rattle.std.specs.Prelude.{◌≡◌, ◌≤◌, ◌<◌, ◌+◌, ◌-◌, true, false, None, ◌∷◌, ◌++◌, [], reverse, length, vec_len, vec_capacity, IfOk, IfErr, OnOk, OnErr};
ghost use Rattle.circular_buffer.specs.Buffer.{buffer};
ghost use Rattle.request_piece.specs.Places.{Placed};
ghost use Rattle.unit_book.specs.Book.{Book, running_name, occupancy, given, opening};
ghost use Rattle.unit_book.specs.Legal.{Fits, Legal, Settled, OpenFits};
ghost use Rattle.unit_book.specs.Answers.{Adds, Extends};
ghost use Rattle.unit_book.specs.Dcbs.{is_refused, opened_count};
ghost use Rattle.unit_book.specs.Dooms.{after_dooms};
ghost use Rattle.unit_book.specs.Posts.{posted};
ghost use Rattle.unit_book.specs.Room.{KeepsRoom};
ghost use Rattle.unit_book.specs.Trace.{waiting};
ghost use Rattle.unit_queue.specs.Queue.{queue};

use crate::active::Active;
use crate::dcb::{Dcb, DcbTable, ProcessingMethod};
use crate::entry::Entry;
use crate::extents::Extents;
use circular_buffer::HeapCircularBuffer;
use device_port::Device;
use io_images::Extent;
use request_piece::{Issued, Piece, Posted};
use std::alloc::{AllocError, AllocFailed, Global};
use std::marker::Model;
use subchannel::Subchannel;
use unit_queue::WaitQueue;

/// The fields of a book. Every one is that of the trace.
#[derive(Drop)]
pub(crate) struct Entries<D: Device> {
    pub mounted: D,
    pub channel: Subchannel<D>,
    pub active: Option<Active>,
    pub waiting: WaitQueue,
    /// Room for the requests that a call purges; empty between calls.
    swept: WaitQueue,
    pub dcbs: DcbTable,
    pub trace: Vec<Entry>,
    pub out: HeapCircularBuffer<Posted>,
}

impl<D: Device> Model for Entries<D> {
    ghost use Rattle.std.specs.Prelude.{reverse, ◌-◌, vec_capacity, vec_len};
    ghost use Rattle.unit_book.specs.Book.{Book};

    ghost Value = { Book D };

    ghost use Rattle.unit_book.specs.Fields.{awaits_of, fields_of, Ties, Rooms};

    ghost view = { λ a. record { mounted = a.mounted; isc = a.channel.isc; capacity = a.out.capacity; trace = reverse a.trace.items; awaits = awaits_of a.active; out = a.out.items; spare = vec_capacity a.trace - vec_len a.trace } };

    ghost invariant = { λ a. Ties D.meaning a.mounted (fields_of (reverse a.trace.items) a.channel a.waiting.pieces a.dcbs a.out.items) a.active × Rooms a.active a.waiting a.swept a.out };
}

/// Adds an entry. There is room.
fn write(trace: &mut Vec<Entry>, entry: Entry)
    requires { vec_len trace.old < vec_capacity trace.old }
    ensures items { reverse trace.new.items ≡ entry ∷ reverse trace.old.items }
    ensures spare { vec_capacity trace.old - vec_len trace.old ≤ vec_capacity trace.new - vec_len trace.new + 1 }
{
    trace.push_reserved(entry);
}

/// Adds a posted value. There is room.
fn hand_out(out: &mut HeapCircularBuffer<Posted>, posted: Posted)
    requires { length out.old.items < out.old.capacity }
    ensures { out.new ≡ buffer (out.old.items ++ posted ∷ []) out.old.capacity }
{
    out.push_back(posted);
}

/// Puts a posted value back before all others. There is room.
fn hand_back(out: &mut HeapCircularBuffer<Posted>, posted: Posted)
    requires { length out.old.items < out.old.capacity }
    ensures { out.new ≡ buffer (posted ∷ out.old.items) out.old.capacity }
{
    out.push_front(posted);
}

impl<D: Device> Entries<D> {
    /// The book of a device that was just mounted.
    pub fn new(alloc: Global, device: D, isc: u8, capacity: usize) -> Result<Self, AllocFailed<D>>
        requires { isc ≤ 7 }
        ensures ok { IfOk result (λ b. b ≡ record (opening device isc capacity) { spare = b.spare }) }
        ensures err { IfErr result (λ e. e.value ≡ device) }
    {
        match Parts::new(alloc, &device, capacity) {
            Ok(parts) => {
                let channel = Subchannel::new(device, isc);
                let dcbs = DcbTable::new(alloc);
                let trace = Vec::new(alloc);
                Ok(Entries {
                    mounted: parts.mounted,
                    channel,
                    active: None,
                    waiting: parts.waiting,
                    swept: parts.swept,
                    dcbs,
                    trace,
                    out: parts.out,
                })
            }
            Err(_) => Err(AllocFailed { value: device }),
        }
    }

    /// What the fields say of the trace.
    pub fn holds(&self)
        ensures legal { Legal D.meaning self.now.mounted self.now.trace }
        ensures given { given D.meaning self.now ++ self.now.out ≡ posted D.meaning self.now.mounted self.now.trace }
        ensures occupancy { occupancy self.now ≤ self.now.capacity }
        ensures isc { self.now.isc ≤ 7 }
        ensures awaits { self.now.awaits ≡ true → running_name D.meaning self.now ≡ None }
    {
        let _isc = self.channel.isc();
    }

    /// Makes room for this many entries.
    pub fn reserve(&mut self, entries: usize) -> Result<(), AllocError>
        ensures room { OnOk result (entries ≤ self.new.spare) }
        ensures book { self.new ≡ record self.old { spare = self.new.spare } }
        ensures spare { self.old.spare ≤ self.new.spare }
        ensures err { OnErr result (self.new ≡ self.old) }
        ensures full { OnErr result (self.old.spare < entries) }
    {
        self.trace.reserve(entries)
    }

    /// Makes room for this many entries and for the posts of all that they may doom.
    pub fn reserve_posts(&mut self, entries: usize) -> Result<(), AllocError>
        requires { entries ≤ 2 }
        ensures room { OnOk result (length (waiting self.old.trace) + entries ≤ self.new.spare) }
        ensures book { self.new ≡ record self.old { spare = self.new.spare } }
        ensures spare { self.old.spare ≤ self.new.spare }
        ensures err { OnErr result (self.new ≡ self.old) }
        ensures full { OnErr result (self.old.spare < length (waiting self.old.trace) + entries) }
    {
        let _capacity = self.out.capacity();
        let entries = self.waiting.len() + entries;
        self.trace.reserve(entries)
    }

    /// A request arrives that is not doomed.
    pub fn arrive(&mut self, issued: Issued, piece: Box<Piece>)
        requires spare { 1 ≤ self.old.spare }
        requires room { occupancy self.old < self.old.capacity }
        requires settled { Settled D.meaning self.old.mounted self.old.trace }
        requires same { piece.value ≡ issued }
        requires placed { Placed issued }
        requires fits { Fits D.meaning self.old.mounted (Entry.Arrive issued) self.old.trace }
        requires accepted { is_refused issued self.old.trace ≡ false }
        ensures book { Extends D.meaning self.old (after_dooms (Entry.Arrive issued ∷ self.old.trace)) self.old.awaits self.new }
        ensures settled { Settled D.meaning self.new.mounted self.new.trace }
        ensures spare { KeepsRoom self.old self.new }
    {
        write(&mut self.trace, Entry::Arrive(issued));
        self.waiting.push(piece);
    }

    /// Opens the next DCB.
    pub fn open(&mut self, method: ProcessingMethod, extents: &[Extent]) -> Result<u16, AllocError>
        requires spare { 1 ≤ self.old.spare }
        requires settled { Settled D.meaning self.old.mounted self.old.trace }
        requires fits { OpenFits D.meaning self.old.mounted (opened_count self.old.trace + 1) extents.now self.old.trace }
        ensures number { IfOk result (λ dcb. dcb ≡ opened_count self.old.trace + 1) }
        ensures book { OnOk result (Adds self.old (Entry.Opened (opened_count self.old.trace + 1) method extents.now) self.new) }
        ensures spare { OnOk result (KeepsRoom self.old self.new) }
        ensures err { OnErr result (self.new ≡ self.old) }
    {
        let alloc = *self.trace.allocator();
        let kept = Extents::new(alloc, extents)?;
        let shown = Extents::new(alloc, extents)?;
        self.dcbs.push(Dcb {
            method,
            extents: kept,
            closed: false,
            in_error: false,
        })?;
        let dcb = self.dcbs.len() as u16;
        write(&mut self.trace, Entry::Opened(dcb, method, shown));
        Ok(dcb)
    }
}

/// The parts of a book that take memory.
#[derive(Drop)]
struct Parts<D: Device> {
    mounted: D,
    waiting: WaitQueue,
    swept: WaitQueue,
    out: HeapCircularBuffer<Posted>,
}

impl<D: Device> Parts<D> {
    fn new(alloc: Global, device: &D, capacity: usize) -> Result<Self, AllocError>
        ensures mounted { IfOk result (λ p. p.mounted ≡ device.now) }
        ensures waiting { IfOk result (λ p. p.waiting ≡ queue [] capacity) }
        ensures swept { IfOk result (λ p. p.swept ≡ queue [] capacity) }
        ensures out { IfOk result (λ p. p.out ≡ buffer [] capacity) }
    {
        Ok(Parts {
            mounted: device.copy()?,
            waiting: WaitQueue::new(alloc, capacity)?,
            swept: WaitQueue::new(alloc, capacity)?,
            out: HeapCircularBuffer::with_capacity(alloc, capacity)?,
        })
    }
}
