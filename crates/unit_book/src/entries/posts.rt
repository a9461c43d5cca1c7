//! Posts of requests.

ghost use Rattle.std.specs.Prelude.{◌≡◌, ◌≤◌, ◌<◌, ◌+◌, ◌-◌, ◌∷◌, ◌++◌, [], true, length, map, reverse, vec_len, vec_capacity, slice_get, drop, IfSome, IfOk, OnOk, OnErr};
ghost use Rattle.circular_buffer.specs.Buffer.{buffer};
ghost use Rattle.request_piece.specs.Places.{Placed};
ghost use Rattle.unit_book.specs.Lists.{Each};
ghost use Rattle.io_images.specs.Images.{no_status};
ghost use Rattle.unit_book.specs.Book.{occupancy, given, is_pending, IsLastGiven};
ghost use Rattle.unit_book.specs.Legal.{Fits, Settled, due, doomed_first, FailsCheck};
ghost use Rattle.unit_book.specs.Refusals.{InterruptLacks, StartLacks};
ghost use Rattle.unit_book.specs.Room.{KeepsRoom};
ghost use Rattle.unit_book.specs.Selected.{DoomedBy};
ghost use Rattle.unit_book.specs.Dcbs.{doomed, is_refused};
ghost use Rattle.unit_book.specs.Dooms.{all_posted, after_dooms, purged};
ghost use Rattle.unit_book.specs.Posts.{posted_value};
ghost use Rattle.unit_queue.specs.Queue.{queue};
ghost use Rattle.unit_book.specs.Answers.{IsBegun, Extends, TakesStatus};

use crate::decision::{Begun, Taken};
use crate::doom::doomed_by_post;
use crate::entries::{Entries, hand_back, hand_out, write};
use crate::entry::Entry;
use circular_buffer::HeapCircularBuffer;
use device_port::Device;
use io_images::Code;
use request_piece::{Issued, Name, Piece, Posted};
use std::alloc::AllocError;
use subchannel::Status;
use unit_queue::{Selection, WaitQueue};

/// The value that a post hands out.
pub(super) fn posted_from(piece: Box<Piece>, status: &Status, code: Code) -> Posted
    requires { Placed piece.value }
    ensures { result ≡ posted_value piece.value status.now.csw status.now.sense code piece.value.area }
{
    Posted::new(piece, code, status.csw, status.sense)
}

/// Adds the entry of a post. There is room.
pub(super) fn write_post(trace: &mut Vec<Entry>, name: Name, status: &Status, code: Code)
    requires { vec_len trace.old < vec_capacity trace.old }
    ensures items { reverse trace.new.items ≡ Entry.Post name status.now.csw status.now.sense code ∷ reverse trace.old.items }
    ensures spare { vec_capacity trace.old - vec_len trace.old ≤ vec_capacity trace.new - vec_len trace.new + 1 }
{
    write(trace, Entry::Post(name, status.csw, status.sense, code));
}

/// Posts a request as purged that was never started.
fn post_purged(piece: Box<Piece>, trace: &mut Vec<Entry>, out: &mut HeapCircularBuffer<Posted>)
    requires spare { vec_len trace.old < vec_capacity trace.old }
    requires room { length out.old.items < out.old.capacity }
    requires placed { Placed piece.value }
    ensures trace { reverse trace.new.items ≡ Entry.Post piece.value.name no_status 0 Code.Purged ∷ reverse trace.old.items }
    ensures spare { vec_capacity trace.old - vec_len trace.old ≤ vec_capacity trace.new - vec_len trace.new + 1 }
    ensures out { out.new ≡ buffer (out.old.items ++ purged piece.value ∷ []) out.old.capacity }
{
    let status = Status::empty();
    write_post(trace, piece.name, &status, Code::Purged);
    hand_out(out, posted_from(piece, &status, Code::Purged));
}

/// Posts all requests of a queue as purged, in order.
pub(super) fn post_all(
    swept: &mut WaitQueue,
    trace: &mut Vec<Entry>,
    out: &mut HeapCircularBuffer<Posted>,
)
    requires spare { length swept.old.pieces + vec_len trace.old ≤ vec_capacity trace.old }
    requires room { length swept.old.pieces + length out.old.items ≤ out.old.capacity }
    requires placed { Each Placed swept.old.pieces }
    ensures swept { swept.new ≡ queue [] swept.old.capacity }
    ensures trace { reverse trace.new.items ≡ all_posted swept.old.pieces (reverse trace.old.items) }
    ensures spare { vec_capacity trace.old - vec_len trace.old ≤ vec_capacity trace.new - vec_len trace.new + length swept.old.pieces }
    ensures out { out.new ≡ buffer (out.old.items ++ map purged swept.old.pieces) out.old.capacity }
{
    while let Some(piece) = swept.pop() {
        post_purged(piece, trace, out);
    }
}

impl<D: Device> Entries<D> {
    /// Posts as purged what is doomed of the requests that wait, and these are the ones that are picked.
    pub fn sweep(&mut self, doom: Option<Selection>)
        requires spare { length (doomed self.old.trace) ≤ self.old.spare }
        requires doomed { DoomedBy doom self.old.trace }
        requires due { due D.meaning self.old.mounted self.old.trace ≡ doomed_first (doomed self.old.trace) }
        ensures book { Extends D.meaning self.old (after_dooms self.old.trace) self.old.awaits self.new }
        ensures settled { Settled D.meaning self.new.mounted self.new.trace }
        ensures spare { KeepsRoom self.old self.new }
    {
        let Some(selection) = doom else {
            return;
        };
        self.waiting.sweep(&selection, &mut self.swept);
        post_all(&mut self.swept, &mut self.trace, &mut self.out);
    }

    /// Takes the status that is pending: the active request is posted, or awaits its restart. Makes room for the
    /// post and for the posts of all that it may doom.
    pub fn take_status(&mut self) -> Result<Taken, AllocError>
        requires { Settled D.meaning self.old.mounted self.old.trace }
        ensures ok { IfOk result (λ taken. TakesStatus D.meaning self.old taken self.new) }
        ensures spare { OnOk result (KeepsRoom self.old self.new) }
        ensures err { OnErr result (self.new ≡ self.old) }
        ensures full { OnErr result (InterruptLacks D.meaning self.old) }
        ensures pending { OnErr result (is_pending D.meaning self.old ≡ true) }
    {
        let Some(status) = self.channel.status() else {
            return Ok(Taken::Quiet);
        };
        let Some(active) = self.active.take() else {
            return Ok(Taken::Quiet);
        };
        let name = active.name();
        let Some(code) = active.code(self.mounted.kind(), &status) else {
            self.channel.tsch();
            self.active = Some(active.awaiting(status));
            return Ok(Taken::Again(name));
        };
        let _capacity = self.out.capacity();
        match self.trace.reserve(self.waiting.len() + 1) {
            Ok(()) => {}
            Err(error) => {
                self.active = Some(active);
                return Err(error);
            }
        }
        let _stored = self.channel.tsch();
        write_post(&mut self.trace, name, &status, code);
        let piece = active.piece;
        let request: &Piece = &piece;
        let doom = doomed_by_post(request, code);
        self.dcbs.note_post(request, code);
        hand_out(&mut self.out, posted_from(piece, &status, code));
        Ok(Taken::Posted { name, code, doom })
    }

    /// Posts the request that waits first, which fails the extent check.
    pub(super) fn post_violated(&mut self) -> Result<Begun, AllocError>
        requires first { (name : Name) × FailsCheck D.meaning self.old.mounted name self.old.trace }
        requires settled { Settled D.meaning self.old.mounted self.old.trace }
        ensures ok { IfOk result (λ begun. IsBegun D.meaning self.old begun self.new) }
        ensures spare { OnOk result (KeepsRoom self.old self.new) }
        ensures err { OnErr result (self.new ≡ self.old) }
        ensures full { OnErr result (StartLacks D.meaning self.old) }
    {
        let _capacity = self.out.capacity();
        self.trace.reserve(self.waiting.len() + 1)?;
        let Some(piece) = self.waiting.pop() else {
            unreachable!();
        };
        let code = Code::ExtentViolated;
        let status = Status::empty();
        let request: &Piece = &piece;
        let name = request.name;
        write_post(&mut self.trace, name, &status, code);
        let doom = doomed_by_post(request, code);
        self.dcbs.note_post(request, code);
        hand_out(&mut self.out, posted_from(piece, &status, code));
        Ok(Begun::Violated { name, doom })
    }

    /// A request arrives that is doomed: it is posted as purged at once.
    pub fn refuse(&mut self, issued: Issued, piece: Box<Piece>)
        requires spare { 2 ≤ self.old.spare }
        requires room { occupancy self.old < self.old.capacity }
        requires settled { Settled D.meaning self.old.mounted self.old.trace }
        requires same { piece.value ≡ issued }
        requires placed { Placed issued }
        requires fits { Fits D.meaning self.old.mounted (Entry.Arrive issued) self.old.trace }
        requires refused { is_refused issued self.old.trace ≡ true }
        ensures book { Extends D.meaning self.old (after_dooms (Entry.Arrive issued ∷ self.old.trace)) self.old.awaits self.new }
        ensures settled { Settled D.meaning self.new.mounted self.new.trace }
        ensures spare { KeepsRoom self.old self.new }
    {
        write(&mut self.trace, Entry::Arrive(issued));
        post_purged(piece, &mut self.trace, &mut self.out);
    }

    /// Takes the first posted value.
    pub fn take_out(&mut self) -> Option<Posted>
        ensures first { result ≡ slice_get self.old.out 0 }
        ensures book { self.new ≡ record self.old { out = drop 1 self.old.out } }
        ensures given { IfSome result (λ value. given D.meaning self.new ≡ given D.meaning self.old ++ value ∷ []) }
    {
        self.out.pop_front()
    }

    /// Puts the value that was taken last back in front.
    pub fn return_out(&mut self, value: Posted)
        requires last { IsLastGiven D.meaning self.old value }
        requires room { occupancy self.old < self.old.capacity }
        ensures { self.new ≡ record self.old { out = value ∷ self.old.out } }
    {
        hand_back(&mut self.out, value);
    }
}
