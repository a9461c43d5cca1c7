//! The DCBs of a unit, at each index of its trace: which entry closed one, and which set its error flag.

ghost use Rattle.std.specs.Prelude.{◌≡◌, ◌≤◌, All, IfOk, length, vec_len};
ghost use Rattle.std.specs.List.{filter};
ghost use Rattle.unit_book.specs.Dcbs.{opened_count};
ghost use Rattle.unit_book.specs.Trace.{is_opening};
ghost use Rattle.unit_history.specs.Dcbs.{ChangesDcb, OpensDcb, closed_at, closed_of, flagged_at, flagged_of, is_open_dcb, known_at, dcb_place, room_of};

use device_port::Device;
use std::alloc::{AllocError, Global};
use unit_book::{Entry, UnitBook};

/// What is known of a DCB that was opened: the numbers of the entry that closed it, and of the post that last set its error
/// flag.
#[derive(Clone, Copy)]
struct DcbEntries {
    closed: Option<usize>,
    flagged: Option<usize>,
}

/// A DCB that is open, and without error.
const OPENED: DcbEntries = DcbEntries {
    closed: None,
    flagged: None,
};

/// The DCBs of a unit. The first that is opened has the number 1, and each other the number after that of the DCB that was
/// opened before it.
#[derive(Drop)]
pub struct Dcbs {
    rows: Vec<DcbEntries>,
    opened: usize,
}

impl Dcbs {
    /// Room for the DCBs of each of these units, so that their histories take no memory.
    pub fn of_units<D: Device>(alloc: Global, books: &[UnitBook<D>]) -> Result<Dcbs, AllocError>
        ensures { IfOk result (λ dcbs. All (λ book. opened_count book.trace ≤ room_of dcbs) books.now) }
    {
        let mut most: usize = 0;
        for book in books {
            most = most.max(openings(book.trace()));
        }
        Dcbs::new(alloc, most)
    }

    /// Room for `room` DCBs of a unit.
    pub fn new(alloc: Global, room: usize) -> Result<Dcbs, AllocError>
        ensures { IfOk result (λ dcbs. room_of dcbs ≡ room) }
    {
        let mut rows = Vec::new(alloc);
        rows.resize(room, OPENED)?;
        Ok(Dcbs { rows, opened: 0 })
    }

    /// No DCB was opened yet.
    pub(crate) fn clear(&mut self)
        ensures room { room_of self.new ≡ room_of self.old }
        ensures opened { self.new.opened ≡ 0 }
    {
        self.opened = 0;
    }

    /// The DCB with the next number is opened.
    pub(crate) fn open_next(&mut self)
        ensures { OpensDcb self.old self.new }
    {
        if self.opened < self.rows.len() {
            self.rows[self.opened] = OPENED;
            self.opened += 1;
        }
    }

    /// An entry closes a DCB.
    pub(crate) fn close(&mut self, dcb: u16, entry: usize)
        ensures { ChangesDcb self.old self.new dcb (closed_at entry) }
    {
        if let Some(place) = self.place(dcb) {
            self.rows[place].closed = Some(entry);
        }
    }

    /// A post sets the error flag of a DCB.
    pub(crate) fn flag(&mut self, dcb: u16, entry: usize)
        ensures { ChangesDcb self.old self.new dcb (flagged_at entry) }
    {
        if let Some(place) = self.place(dcb) {
            self.rows[place].flagged = Some(entry);
        }
    }

    /// Whether a DCB was opened and not closed since.
    pub(crate) fn is_open(&self, dcb: u16) -> bool
        ensures { result ≡ is_open_dcb (known_at dcb self.now) }
    {
        match self.get(dcb) {
            Some(row) => row.closed.is_none(),
            None => false,
        }
    }

    /// The number of the entry that closed a DCB.
    pub(crate) fn closed_by(&self, dcb: u16) -> Option<usize>
        ensures { result ≡ closed_of (known_at dcb self.now) }
    {
        self.get(dcb)?.closed
    }

    /// The number of the post that last set the error flag of a DCB.
    pub(crate) fn flagged_by(&self, dcb: u16) -> Option<usize>
        ensures { result ≡ flagged_of (known_at dcb self.now) }
    {
        self.get(dcb)?.flagged
    }

    /// A DCB that was opened.
    fn get(&self, dcb: u16) -> Option<DcbEntries>
        ensures { result ≡ known_at dcb self.now }
    {
        let place = self.place(dcb)?;
        Some(self.rows[place])
    }

    /// The index of a DCB, if it was opened.
    fn place(&self, dcb: u16) -> Option<usize>
        ensures { result ≡ dcb_place dcb (vec_len self.now.rows) self.now.opened }
    {
        let place = usize::from(dcb).checked_sub(1)?;
        (place < self.opened && place < self.rows.len()).then_some(place)
    }
}

/// How many DCBs these entries open.
fn openings(trace: &[Entry]) -> usize
    ensures { result ≡ length (filter is_opening trace.now) }
{
    let mut count: usize = 0;
    for entry in trace {
        if is_opening(entry) {
            count += 1;
        }
    }
    count
}

/// Whether an entry opens a DCB.
fn is_opening(entry: &Entry) -> bool
    ensures { result ≡ is_opening entry.now }
{
    matches!(entry, Entry::Opened(_, _, _))
}
