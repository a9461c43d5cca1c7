//! What a site tells. No reader allocates.

ghost use Rattle.std.specs.Prelude.{◌≡◌, ◌<◌, ◌↔◌, length, option_map, slice_get, IsTrue};
ghost use Rattle.std.specs.Option.{option_copied};
ghost use Rattle.unit_book.specs.Trace.{active};
ghost use Rattle.unit_world.specs.Parts.{IsFinishedPart, active_state, issued_by, next_name_of};
ghost use Rattle.unit_world.specs.PostLists.{list_of};
ghost use Rattle.unit_world.specs.Sites.{OnPart, is_collected};

use crate::active::{ActiveState, active_request};
use crate::site::PlainSite;
use device_port::Device;
use request_piece::{Name, Posted};
use unit_book::UnitBook;

impl<D: Device> PlainSite<D> {
    /// How many units there are.
    pub fn units(&self) -> usize
        ensures { result ≡ length self.now.units }
    {
        self.units.len()
    }

    /// How many tasks there are.
    pub fn tasks(&self) -> usize
        ensures { result ≡ length self.now.rows }
    {
        self.rows.tasks()
    }

    /// The book of a unit: what waits, what is active, the DCBs and the device.
    pub fn book(&self, unit: u16) -> &UnitBook<D>
        requires unit { unit < length self.now.units }
        ensures { OnPart self.now unit (λ p. result.now ≡ p.book) }
    {
        let side = &self.units[usize::from(unit)];
        &side.book
    }

    /// The name of the next request of a task to a unit. It is none if there is no such task, and after the last number,
    /// 4,294,967,295 (profile).
    pub fn next_name(&self, task: u16, unit: u16) -> Option<Name>
        requires unit { unit < length self.now.units }
        ensures { OnPart self.now unit (λ p. result ≡ next_name_of p.issued task) }
    {
        let side = &self.units[usize::from(unit)];
        side.next_name(task)
    }

    /// How many requests a task sent to a unit; 0 if there is no such task.
    pub fn issued_by(&self, task: u16, unit: u16) -> u32
        requires unit { unit < length self.now.units }
        ensures { OnPart self.now unit (λ p. result ≡ issued_by p.issued task) }
    {
        let side = &self.units[usize::from(unit)];
        side.issued_by(task)
    }

    /// How many requests are in flight to a unit.
    pub fn flight_len(&self, unit: u16) -> usize
        requires unit { unit < length self.now.units }
        ensures { OnPart self.now unit (λ p. result ≡ length p.flight) }
    {
        let side = &self.units[usize::from(unit)];
        side.flight.len()
    }

    /// How many requests may be in flight to a unit.
    pub fn intake_room(&self, unit: u16) -> usize
        requires unit { unit < length self.now.units }
        ensures { OnPart self.now unit (λ p. result ≡ p.intake_room) }
    {
        let side = &self.units[usize::from(unit)];
        side.flight.capacity()
    }

    /// The post in the row of a task at a place, counted from 0 in the order of delivery.
    pub fn post(&self, task: u16, at: usize) -> Option<&Posted>
        ensures { option_copied result ≡ slice_get (list_of self.now.rows task) at }
    {
        self.rows.get(task, at)
    }

    /// Whether no post of a unit waits for its task to collect it. Takes time in the number of posts that wait.
    pub fn is_collected(&self, unit: u16) -> bool
        ensures { result ≡ is_collected self.now unit }
    {
        self.rows.has_none_of(unit)
    }

    /// The active request of a unit, and what it waits for, as [`active_request`] of its book.
    pub fn active(&self, unit: u16) -> Option<(Name, ActiveState)>
        requires unit { unit < length self.now.units }
        ensures { OnPart self.now unit (λ p. result ≡ option_map (λ name. (name, active_state D.meaning p.book)) (active p.book.trace)) }
    {
        let side = &self.units[usize::from(unit)];
        active_request(&side.book)
    }

    /// Whether nothing is left to do at a unit: nothing is in flight to it or waits, and nothing is active.
    pub fn is_finished(&self, unit: u16) -> bool
        requires unit { unit < length self.now.units }
        ensures { OnPart self.now unit (λ p. IsTrue result ↔ IsFinishedPart p) }
    {
        let side = &self.units[usize::from(unit)];
        side.is_finished()
    }
}
