//! The slots of a task.

ghost use Rattle.std.specs.Prelude.{◌≡◌, [], IfOk, OnErr, OnOk, map, replicate};
ghost use Rattle.std.specs.List.{list_all};
ghost use Rattle.std.specs.Option.{option_copied};
ghost use Rattle.post_lines.specs.Slots.{expected, filled, filled_unit, is_filled, slot_at, slot_of, slots_of};

use crate::slot::PostSlot;
use request_piece::Posted;
use std::alloc::{AllocError, Global};

/// The slots of the requests of a task, by units and numbers.
#[derive(Drop)]
pub struct Slots {
    pub units: Vec<Vec<PostSlot>>,
}

impl Slots {
    /// No slot, at `units` units.
    pub fn new(alloc: Global, units: usize) -> Result<Slots, AllocError>
        ensures { IfOk result (λ slots. slots_of slots ≡ replicate units []) }
    {
        let mut slots = Slots {
            units: Vec::with_capacity(alloc, units)?,
        };
        for _ in 0..units {
            slots.units.push(Vec::new(alloc))?;
        }
        Ok(slots)
    }

    /// Adds the slot of the next request to a unit, which is to show `len` bytes at the address `show`.
    pub fn expect(
        &mut self,
        alloc: Global,
        unit: u16,
        show: u32,
        len: usize,
    ) -> Result<(), AllocError>
        ensures ok { OnOk result (slots_of self.new ≡ expected unit show len (slots_of self.old)) }
        ensures err { OnErr result (slots_of self.new ≡ slots_of self.old) }
    {
        let unit = usize::from(unit);
        if unit < self.units.len() {
            self.units[unit].push(PostSlot::new(alloc, show, len)?)?;
        }
        Ok(())
    }

    /// Fills the slot of a request to a unit, by the number of its post.
    pub fn fill(&mut self, unit: u16, posted: &Posted)
        ensures { slots_of self.new ≡ filled unit posted.now (slots_of self.old) }
    {
        let unit = usize::from(unit);
        if unit < self.units.len() {
            fill_unit(self.units[unit].as_mut_slice(), posted);
        }
    }

    /// Whether each request was posted.
    pub fn are_filled(&self) -> bool
        ensures { result ≡ list_all (λ slots. list_all is_filled slots.items) self.now.units.items }
    {
        self.units.iter().all(|slots| are_filled(slots))
    }

    /// The slot of a request to a unit, by its number.
    pub fn get(&self, unit: usize, number: usize) -> Option<&PostSlot>
        ensures { option_copied result ≡ slot_at self.now.units unit number }
    {
        self.units.get(unit)?.get(number.checked_sub(1)?)
    }
}

/// Fills the slot of the number of a post.
fn fill_unit(slots: &mut [PostSlot], posted: &Posted)
    ensures { map slot_of slots.new ≡ filled_unit posted.now (map slot_of slots.old) }
{
    let number = posted.name().seq as usize;
    if 0 < number && number <= slots.len() {
        slots[number - 1].fill(posted);
    }
}

/// Whether each of these requests was posted.
fn are_filled(slots: &[PostSlot]) -> bool
    ensures { result ≡ list_all is_filled slots.now }
{
    slots.iter().all(|slot| slot.is_filled())
}
