//! A unit of a site: its book, and what is in flight to it.

ghost use Rattle.std.specs.Prelude.{◌≡◌, ◌<◌, ◌≤◌, ◌↔◌, [], length, replicate, Some, IfErr, IfOk, IsTrue, OnErr, OnOk};
ghost use Rattle.circular_buffer.specs.Buffer.{buffer};
ghost use Rattle.unit_book.specs.Book.{occupancy};
ghost use Rattle.unit_book.specs.Legal.{Legal};
ghost use Rattle.unit_world.specs.Parts.{HasNextNumber, IsFinishedPart, PartAccepts, PartTakes, RenewsPart, issued_by, next_name_of, opening_part, unit_part};
ghost use Rattle.unit_world.specs.Sending.{IsForRows, SendsBack};

use crate::post_lists::PostLists;
use circular_buffer::HeapCircularBuffer;
use device_port::{Device, FixedSize};
use request_piece::{Name, Request};
use std::alloc::{AllocError, AllocFailed, Global};
use unit_book::{Delivery, Intake, UnitBook};

/// The book of a unit, the requests in flight to it, and how many requests each task sent to it.
#[derive(Drop)]
pub(crate) struct UnitSide<D: Device> {
    pub book: UnitBook<D>,
    pub flight: HeapCircularBuffer<Request>,
    pub issued: Vec<u32>,
}

/// The lists of a unit to which nothing was sent.
#[derive(Drop)]
struct Lists {
    flight: HeapCircularBuffer<Request>,
    issued: Vec<u32>,
}

impl Lists {
    /// Empty lists for `tasks` tasks, with room for `intake` requests in flight.
    fn new(alloc: Global, tasks: usize, intake: usize) -> Result<Lists, AllocError>
        ensures flight { IfOk result (λ l. l.flight ≡ buffer [] intake) }
        ensures issued { IfOk result (λ l. l.issued.items ≡ replicate tasks 0) }
    {
        Ok(Lists {
            flight: HeapCircularBuffer::with_capacity(alloc, intake)?,
            issued: vec![in alloc; 0; tasks]?,
        })
    }
}

impl<D: Device> UnitSide<D> {
    /// The unit with this book, to which nothing was sent, for `tasks` tasks, with room for `intake` requests in flight. If
    /// memory runs out, the book is handed back.
    pub fn new(
        alloc: Global,
        book: UnitBook<D>,
        tasks: usize,
        intake: usize,
    ) -> Result<Self, AllocFailed<UnitBook<D>>>
        ensures ok { IfOk result (λ side. unit_part side ≡ opening_part book tasks intake) }
        ensures err { IfErr result (λ e. e.value ≡ book) }
    {
        match Lists::new(alloc, tasks, intake) {
            Ok(lists) => Ok(UnitSide {
                book,
                flight: lists.flight,
                issued: lists.issued,
            }),
            Err(_) => Err(AllocFailed { value: book }),
        }
    }

    /// Accepts the next request of a task for this unit. Never allocates.
    ///
    /// Error: the unit has no room for another request in flight. The request is handed back.
    pub fn accept(&mut self, request: Request) -> Result<(), Request>
        requires { next_name_of (unit_part self.old).issued request.name.task ≡ Some request.name }
        ensures ok { OnOk result (PartAccepts (unit_part self.old) request (unit_part self.new)) }
        ensures handed_back { IfErr result (λ back. back ≡ request) }
        ensures full { OnErr result ((unit_part self.old).intake_room ≤ length (unit_part self.old).flight) }
        ensures err { OnErr result (self.new ≡ self.old) }
    {
        let name = request.name();
        self.flight.try_push_back(request)?;
        self.issued[usize::from(name.task)] = name.seq;
        Ok(())
    }

    /// Lets the first request in flight arrive at the book, if the book has room.
    pub fn take(&mut self) -> Result<Intake, AllocError>
        requires { HasNextNumber (unit_part self.old) }
        ensures ok { IfOk result (λ answer. PartTakes D.meaning (unit_part self.old) answer (unit_part self.new)) }
        ensures room { OnErr result (occupancy self.old.book < self.old.book.capacity) }
        ensures full { OnErr result (self.old.book.spare < 2) }
        ensures err { OnErr result (self.new ≡ self.old) }
    {
        if !self.book.has_room() {
            return Ok(Intake::Held);
        }
        self.book.reserve()?;
        match self.flight.pop_front() {
            None => Ok(Intake::Quiet),
            Some(request) => {
                let name = request.name();
                self.book.arrive_reserved(request);
                Ok(Intake::Took(name))
            }
        }
    }

    /// The name of the next request of a task.
    pub fn next_name(&self, task: u16) -> Option<Name>
        ensures { result ≡ next_name_of (unit_part self.now).issued task }
    {
        let issued = *self.issued.get(usize::from(task))?;
        if issued == u32::MAX {
            return None;
        }
        Some(Name {
            task,
            seq: issued + 1,
        })
    }

    /// How many requests a task sent; 0 if there is no such task.
    pub fn issued_by(&self, task: u16) -> u32
        ensures { result ≡ issued_by (unit_part self.now).issued task }
    {
        *self.issued.get(usize::from(task)).unwrap_or(&0)
    }

    /// Whether nothing is in flight or waits, and nothing is active.
    pub fn is_finished(&self) -> bool
        ensures { IsTrue result ↔ IsFinishedPart (unit_part self.now) }
    {
        self.flight.is_empty() && self.book.waiting_len() == 0 && self.book.active_name().is_none()
    }
}

impl<D: FixedSize> UnitSide<D> {
    /// Begins again with its book ([`UnitBook::renew`]). Nothing is in flight, and then nothing was sent.
    pub fn renew(&mut self)
        requires finished { IsFinishedPart (unit_part self.old) }
        requires out { self.old.book.out ≡ [] }
        ensures part { RenewsPart D.meaning (length (unit_part self.old).issued) (unit_part self.old) (unit_part self.new) }
        ensures legal { Legal D.meaning self.new.book.mounted self.new.book.trace }
    {
        self.book.renew();
        self.book.holds();
        self.issued.fill(0);
    }
}

/// Puts the first posted value that is out at a book into the row of its task.
pub(crate) fn send_back<D: Device>(book: &mut UnitBook<D>, rows: &mut PostLists) -> Delivery
    requires { IsForRows book.old.out rows.old }
    ensures { SendsBack book.old rows.old result book.new rows.new }
{
    match book.take_out() {
        None => Delivery::Quiet,
        Some(value) => {
            let name = value.name();
            match rows.push(value) {
                Ok(()) => Delivery::Delivered(name),
                Err(value) => {
                    book.return_out(value);
                    Delivery::Full(name)
                }
            }
        }
    }
}
