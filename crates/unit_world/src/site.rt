//! A site without locks and threads.

mod book_calls;
mod readers;

ghost use Rattle.std.specs.Prelude.{◌≡◌, ◌<◌, ◌≤◌, ◌∷◌, ◌++◌, [], length, replicate, slice_get, true, Some, IfErr, IfOk, IfSome, IfNone, OnErr, OnOk};
ghost use Rattle.std.specs.List.{list_all};
ghost use Rattle.unit_book.specs.Book.{occupancy};
ghost use Rattle.unit_book.specs.Trace.{is_opening};
ghost use Rattle.unit_world.specs.Parts.{PartAccepts, PartTakes, RenewsPart, next_name_of, opening_part};
ghost use Rattle.unit_world.specs.PostLists.{list_of};
ghost use Rattle.unit_world.specs.Sites.{CollectsPost, DeliversAs, IsAtRest, IsSite, KeepsSiteLaws, OnPart, OnUnit};

use crate::post_lists::PostLists;
use crate::unit_side::{UnitSide, send_back};
use device_port::{Device, FixedSize};
use request_piece::{Posted, Request};
use std::alloc::{AllocError, AllocFailed, Global};
use std::marker::Model;
use unit_book::{Delivery, Intake, UnitBook};

/// Units, and a post row for each task, which has the posts of all units in the order of their delivery.
#[derive(Drop)]
pub struct PlainSite<D: Device> {
    units: Vec<UnitSide<D>>,
    rows: PostLists,
}

impl<D: Device> Model for PlainSite<D> {
    ghost use Rattle.std.specs.Prelude.{map};
    ghost use Rattle.unit_world.specs.Parts.{unit_part};
    ghost use Rattle.unit_world.specs.Sites.{SiteState, IsSite};

    ghost Value = { SiteState D };

    ghost view = { λ s. record { units = map unit_part s.units.items; post_room = s.rows.room; rows = s.rows.lists } };

    ghost invariant = { λ s. IsSite D.meaning (record { units = map unit_part s.units.items; post_room = s.rows.room; rows = s.rows.lists }) };
}

impl<D: Device> PlainSite<D> {
    /// A site with no units yet, and with `tasks` tasks, numbered from 0. The row of each has room for `post` posts.
    pub fn new(alloc: Global, tasks: u16, post: usize) -> Result<Self, AllocError>
        ensures { IfOk result (λ s. s ≡ record { units = []; post_room = post; rows = replicate tasks [] }) }
    {
        let rows = PostLists::new(alloc, tasks, post)?;
        Ok(PlainSite {
            units: Vec::new(alloc),
            rows,
        })
    }

    /// Adds a unit with this book, whose trace has only openings of DCBs, and with room for `intake` requests in flight.
    /// Returns the number of the unit, counted from 0. If memory runs out, the book is handed back.
    pub fn add_unit(
        &mut self,
        book: UnitBook<D>,
        intake: usize,
    ) -> Result<u16, AllocFailed<UnitBook<D>>>
        requires opening { list_all is_opening book.trace ≡ true }
        requires few { length self.old.units < 65536 }
        ensures number { IfOk result (λ unit. unit ≡ length self.old.units) }
        ensures ok { OnOk result (self.new ≡ record self.old { units = self.old.units ++ opening_part book (length self.old.rows) intake ∷ [] }) }
        ensures handed_back { IfErr result (λ e. e.value ≡ book) }
        ensures err { OnErr result (self.new ≡ self.old) }
    {
        book.holds();
        let alloc = *self.units.allocator();
        if self.units.reserve(1).is_err() {
            return Err(AllocFailed { value: book });
        }
        let side = UnitSide::new(alloc, book, self.rows.tasks(), intake)?;
        let unit = self.units.len() as u16;
        self.units.push_reserved(side);
        Ok(unit)
    }

    /// What holds of every site: a list of steps led to the world of each unit, so that unit keeps its requests.
    pub fn holds(&self)
        ensures site { IsSite D.meaning self.now }
        ensures laws { KeepsSiteLaws D.meaning self.now }
    {
        let _rows = &self.rows;
    }

    /// Accepts the next request of a task to a unit ([`PlainSite::next_name`]), which is then in flight to the unit
    /// (DFSMSdfp Advanced Services, EXCP). Never allocates.
    ///
    /// Error: the unit has no room for another request in flight. The request is handed back, and uses no number.
    pub fn accept(&mut self, request: Request) -> Result<(), Request>
        requires unit { request.unit < length self.old.units }
        requires next { OnPart self.old request.unit (λ p. next_name_of p.issued request.name.task ≡ Some request.name) }
        ensures ok { OnOk result (OnUnit self.old request.unit (λ p q. PartAccepts p request q) self.new) }
        ensures handed_back { IfErr result (λ back. back ≡ request) }
        ensures full { OnErr result (OnPart self.old request.unit (λ p. p.intake_room ≤ length p.flight)) }
        ensures err { OnErr result (self.new ≡ self.old) }
    {
        let side = &mut self.units[usize::from(request.unit())];
        side.accept(request)
    }

    /// Lets the first request in flight to a unit arrive at its book. Returns the first answer that applies: the book has
    /// no room; memory runs out; nothing is in flight; the request arrived. If nothing is in flight, only the room for
    /// entries may grow.
    pub fn take(&mut self, unit: u16) -> Result<Intake, AllocError>
        requires unit { unit < length self.old.units }
        ensures ok { IfOk result (λ answer. OnUnit self.old unit (λ p q. PartTakes D.meaning p answer q) self.new) }
        ensures room { OnErr result (OnPart self.old unit (λ p. occupancy p.book < p.book.capacity)) }
        ensures full { OnErr result (OnPart self.old unit (λ p. p.book.spare < 2)) }
        ensures err { OnErr result (self.new ≡ self.old) }
    {
        let side = &mut self.units[usize::from(unit)];
        side.take()
    }

    /// Puts the first posted value that is out at a unit into the row of its task, after all posts there. If the row is
    /// full, nothing changes. Never allocates.
    pub fn deliver(&mut self, unit: u16) -> Delivery
        requires unit { unit < length self.old.units }
        ensures answer { DeliversAs self.old unit result self.new }
    {
        let side = &mut self.units[usize::from(unit)];
        side.book.holds();
        send_back(&mut side.book, &mut self.rows)
    }

    /// Collects the first post of the row of a task, of whatever unit. Never allocates.
    pub fn collect(&mut self, task: u16) -> Option<Posted>
        ensures first { result ≡ slice_get (list_of self.old.rows task) 0 }
        ensures rest { CollectsPost self.old task self.new }
        ensures of_unit { IfSome result (λ value. value.unit < length self.old.units) }
        ensures none { IfNone result (self.new ≡ self.old) }
    {
        self.rows.pop(task)
    }
}

impl<D: FixedSize> PlainSite<D> {
    /// Begins a unit at rest again ([`UnitBook::renew`]), in a new world. Its requests get the numbers from 1 on (profile).
    pub fn renew(&mut self, unit: u16)
        requires unit { unit < length self.old.units }
        requires rest { IsAtRest self.old unit }
        ensures { OnUnit self.old unit (λ p q. RenewsPart D.meaning (length self.old.rows) p q) self.new }
    {
        let side = &mut self.units[usize::from(unit)];
        side.renew();
    }
}
