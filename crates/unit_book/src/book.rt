//! The book of a unit: between two calls nothing is due.

mod controls;
mod readers;
mod renewal;
mod settle;
mod steps;

ghost use Rattle.std.specs.Prelude.{◌≡◌, ◌≢◌, ◌≤◌, ◌<◌, ◌+◌, ◌∷◌, ◌++◌, [], IfOk, IfErr, OnOk, OnErr, IfSome, IsSome, length, slice_get, drop, true, false, None};
ghost use Rattle.unit_book.specs.Answers.{ArriveRefused, InterruptsBook, OpenRefused, OpensBook, Extends, RunsBook, StartsBook, pending_after};
ghost use Rattle.unit_book.specs.Book.{IsLastGiven, given, running_name, occupancy, is_pending, opening};
ghost use Rattle.unit_book.specs.Dooms.{after_dooms};
ghost use Rattle.unit_book.specs.Legal.{Legal, Settled};
ghost use Rattle.unit_book.specs.Posts.{posted};
ghost use Rattle.unit_book.specs.Refusals.{InterruptLacks, RunLacks, StartLacks};
ghost use Rattle.unit_book.specs.Room.{KeepsRoom};
ghost use Rattle.unit_book.specs.Trace.{active, arrived_of, waiting};

use crate::answer::{ArriveError, Interruption, OpenError, Running, Starting};
use crate::dcb::ProcessingMethod;
use crate::decision::{Begun, Taken};
use crate::entries::Entries;
use crate::entry::Entry;
use device_port::Device;
use io_images::Extent;
use request_piece::{Posted, Request};
use std::alloc::{AllocError, AllocFailed, Global};
use std::marker::Model;

/// The most DCBs that a unit has (profile).
const MOST_DCBS: usize = 65_535;

/// The book of one unit: what arrived, waits, is active and was posted, with the subchannel that runs it.
#[derive(Drop)]
pub struct UnitBook<D: Device> {
    entries: Entries<D>,
}

impl<D: Device> Model for UnitBook<D> {
    ghost use Rattle.unit_book.specs.Book.{Book};

    ghost Value = { Book D };

    ghost use Rattle.unit_book.specs.Legal.{Settled};

    ghost view = { λ b. b.entries };

    ghost invariant = { λ b. Settled D.meaning b.entries.mounted b.entries.trace };
}

impl<D: Device> UnitBook<D> {
    /// The book of a device that was just mounted, on a subchannel with this interruption subclass (0 to 7), for
    /// `capacity` requests at a time (1 to 65,536). It copies the device. If memory runs out, it returns the device.
    pub fn new(alloc: Global, device: D, isc: u8, capacity: usize) -> Result<Self, AllocFailed<D>>
        requires isc { isc ≤ 7 }
        requires some { 1 ≤ capacity }
        requires few { capacity ≤ 65536 }
        ensures ok { IfOk result (λ b. b ≡ record (opening device isc capacity) { spare = b.spare }) }
        ensures err { IfErr result (λ e. e.value ≡ device) }
    {
        Ok(UnitBook {
            entries: Entries::new(alloc, device, isc, capacity)?,
        })
    }

    /// Copies the book, with a device, a trace and storage of its own. The storage of requests as issued is shared with
    /// this book. Fails only if memory runs out.
    pub fn copy(&self) -> Result<Self, AllocError>
        ensures { IfOk result (λ b. b ≡ record self.now { spare = b.spare }) }
    {
        Ok(UnitBook {
            entries: self.entries.copy()?,
        })
    }

    /// What holds of every book. Its trace is legal, and nothing is due. The posted values are those that were taken
    /// and those that are out. It holds no more requests than it may. Its interruption subclass is 0 to 7. No program
    /// runs if the active request awaits its restart.
    pub fn holds(&self)
        ensures legal { Legal D.meaning self.now.mounted self.now.trace }
        ensures settled { Settled D.meaning self.now.mounted self.now.trace }
        ensures given { given D.meaning self.now ++ self.now.out ≡ posted D.meaning self.now.mounted self.now.trace }
        ensures occupancy { occupancy self.now ≤ self.now.capacity }
        ensures isc { self.now.isc ≤ 7 }
        ensures awaits { self.now.awaits ≡ true → running_name D.meaning self.now ≡ None }
    {
        self.entries.holds();
    }

    /// Makes room for the entries of one arrival.
    ///
    /// Error: out of memory, only if the trace has no such room. Nothing changes then.
    pub fn reserve(&mut self) -> Result<(), AllocError>
        ensures room { OnOk result (2 ≤ self.new.spare) }
        ensures book { self.new ≡ record self.old { spare = self.new.spare } }
        ensures spare { self.old.spare ≤ self.new.spare }
        ensures err { OnErr result (self.new ≡ self.old) }
        ensures full { OnErr result (self.old.spare < 2) }
    {
        self.entries.reserve(2)
    }

    /// A request arrives: it waits. It is posted at once if it is doomed, because its DCB is not open, or
    /// because it is related and its DCB has the error flag (profile).
    ///
    /// Errors, in this order, which hand the request back and change nothing: the book is full; out of memory, but not
    /// if `reserve` has made room.
    pub fn arrive(&mut self, request: Request) -> Result<(), (ArriveError, Request)>
        requires { request.name.seq ≡ arrived_of request.name.task self.old.trace + 1 }
        ensures ok { OnOk result (Extends D.meaning self.old (after_dooms (Entry.Arrive request ∷ self.old.trace)) self.old.awaits self.new) }
        ensures room { OnOk result (occupancy self.old < self.old.capacity) }
        ensures spare { OnOk result (KeepsRoom self.old self.new) }
        ensures refused { IfErr result (λ e. ArriveRefused self.old e.0) }
        ensures given_back { IfErr result (λ e. e.1 ≡ request) }
        ensures err { OnErr result (self.new ≡ self.old) }
        ensures pending { is_pending D.meaning self.new ≡ is_pending D.meaning self.old }
    {
        if !self.has_room() {
            return Err((ArriveError::Held, request));
        }
        if self.reserve().is_err() {
            return Err((ArriveError::NoMemory, request));
        }
        self.arrive_reserved(request);
        Ok(())
    }

    /// A request arrives, as [`UnitBook::arrive`], for which the book has room and `reserve` has made room. It takes no
    /// memory.
    pub fn arrive_reserved(&mut self, request: Request)
        requires number { request.name.seq ≡ arrived_of request.name.task self.old.trace + 1 }
        requires room { occupancy self.old < self.old.capacity }
        requires spare { 2 ≤ self.old.spare }
        ensures book { Extends D.meaning self.old (after_dooms (Entry.Arrive request ∷ self.old.trace)) self.old.awaits self.new }
        ensures spare { KeepsRoom self.old self.new }
        ensures pending { is_pending D.meaning self.new ≡ is_pending D.meaning self.old }
    {
        self.entries.holds();
        let refused = self.entries.is_refused(&request);
        let (issued, work) = request.into_parts();
        if refused {
            self.entries.refuse(issued, work);
        } else {
            self.entries.arrive(issued, work);
        }
    }

    /// Opens a DCB for input or for output, with its extents, and returns its number. An error leaves the trace as it
    /// was.
    ///
    /// Errors, in this order:
    ///
    /// - The unit has 65,535 DCBs.
    /// - The device does not take the extents (DFSMSdfp Advanced Services, "Data Extent Block Fields").
    /// - Memory runs out for the entry, the row of the DCB, or copies of its extents.
    pub fn open(&mut self, method: ProcessingMethod, extents: &[Extent]) -> Result<u16, OpenError>
        ensures ok { IfOk result (λ dcb. OpensBook D.meaning self.old dcb method extents.now self.new) }
        ensures spare { OnOk result (KeepsRoom self.old self.new) }
        ensures refused { IfErr result (OpenRefused D.meaning self.old extents.now) }
        ensures err { OnErr result (self.new ≡ record self.old { spare = self.new.spare }) }
        ensures kept { OnErr result (self.old.spare ≤ self.new.spare) }
        ensures pending { is_pending D.meaning self.new ≡ is_pending D.meaning self.old }
    {
        if self.entries.dcb_count() >= MOST_DCBS {
            return Err(OpenError::TooManyDcbs);
        }
        if !self.entries.takes_extents(extents) {
            return Err(OpenError::BadExtent);
        }
        if self.entries.reserve(1).is_err() {
            return Err(OpenError::NoMemory);
        }
        self.entries
            .open(method, extents)
            .map_err(|_| OpenError::NoMemory)
    }

    /// Starts the program of the active request once more if it awaits its restart, or that of the first
    /// request that waits if nothing is active. A first request whose seek address fails the extent check is
    /// posted 42 instead, with what that dooms (profile).
    ///
    /// Error: out of memory, only if an entry is added. Nothing changes then.
    pub fn start(&mut self) -> Result<Starting, AllocError>
        ensures ok { IfOk result (λ answer. StartsBook D.meaning self.old answer self.new) }
        ensures spare { OnOk result (KeepsRoom self.old self.new) }
        ensures err { OnErr result (self.new ≡ self.old) }
        ensures full { OnErr result (StartLacks D.meaning self.old) }
        ensures pending { is_pending D.meaning self.new ≡ is_pending D.meaning self.old }
    {
        match self.entries.start()? {
            Begun::Busy => Ok(Starting::Busy),
            Begun::Idle => Ok(Starting::Idle),
            Begun::Started(name) => Ok(Starting::Started(name)),
            Begun::Violated { name, doom } => {
                self.entries.sweep(doom);
                Ok(Starting::Violated(name))
            }
        }
    }

    /// Does up to `max` commands of the program that runs.
    ///
    /// Error: out of memory, only if an entry is added. Nothing changes then.
    pub fn run(&mut self, max: u32) -> Result<Running, AllocError>
        requires { 1 ≤ max }
        ensures ok { IfOk result (λ answer. RunsBook D.meaning self.old max answer self.new) }
        ensures spare { OnOk result (KeepsRoom self.old self.new) }
        ensures err { OnErr result (self.new ≡ self.old) }
        ensures full { OnErr result (RunLacks D.meaning self.old) }
        ensures pending { IfOk result (λ answer. is_pending D.meaning self.new ≡ pending_after (is_pending D.meaning self.old) answer) }
    {
        self.entries.holds();
        if !self.entries.is_running() {
            return Ok(Running::Quiet);
        }
        self.entries.reserve(1)?;
        Ok(self.entries.run(max))
    }

    /// Takes the status that is pending: the active request is posted, with what that dooms, or awaits its
    /// restart.
    ///
    /// Error: out of memory, only if an entry is added. Nothing changes then.
    pub fn interrupt(&mut self) -> Result<Interruption, AllocError>
        ensures ok { IfOk result (λ answer. InterruptsBook D.meaning self.old answer self.new) }
        ensures spare { OnOk result (KeepsRoom self.old self.new) }
        ensures err { OnErr result (self.new ≡ self.old) }
        ensures full { OnErr result (InterruptLacks D.meaning self.old) }
        ensures pending { OnErr result (is_pending D.meaning self.old ≡ true) }
        ensures taken { OnOk result (is_pending D.meaning self.new ≡ false) }
    {
        self.entries.holds();
        match self.entries.take_status()? {
            Taken::Quiet => Ok(Interruption::Quiet),
            Taken::Again(name) => Ok(Interruption::Again(name)),
            Taken::Posted { name, code, doom } => {
                self.entries.sweep(doom);
                Ok(Interruption::Ended(name, code))
            }
        }
    }

    /// Takes the first posted value out. Takes no memory.
    pub fn take_out(&mut self) -> Option<Posted>
        ensures first { result ≡ slice_get self.old.out 0 }
        ensures book { self.new ≡ record self.old { out = drop 1 self.old.out } }
        ensures given { IfSome result (λ value. given D.meaning self.new ≡ given D.meaning self.old ++ value ∷ []) }
        ensures room { IfSome result (λ value. occupancy self.new < self.new.capacity) }
    {
        self.entries.holds();
        self.entries.take_out()
    }

    /// Puts the value that was taken out last back in front. Takes no memory.
    pub fn return_out(&mut self, value: Posted)
        requires last { IsLastGiven D.meaning self.old value }
        requires room { occupancy self.old < self.old.capacity }
        ensures { self.new ≡ record self.old { out = value ∷ self.old.out } }
    {
        self.entries.return_out(value);
    }
}
