//! What is wrong with the items of a tape that is not mounted.

ghost use Rattle.std.specs.Prelude.{◌≡◌, IfSome, false, nat_le};
ghost use Rattle.tape_unit.specs.Mount.{is_initial, opening_items};
ghost use Rattle.tape_unit.specs.Reel.{bytes_of};

use super::{InitialItem, are_items, fit, is_size};
use crate::reel::LENGTHS;

impl InitialItem {
    /// How many bytes of data a block has that is empty or too long for a tape.
    pub fn refused_len(&self) -> Option<usize>
        ensures { IfSome result (λ len. is_initial self.now ≡ false) }
    {
        if self.is_item() {
            None
        } else {
            Some(self.content().len())
        }
    }
}

/// A tape that is too short for its items.
#[derive(Clone, Copy)]
pub struct Overrun {
    /// The index, among the items, of the first one that does not fit after those before it.
    pub item: usize,
    /// How many bytes all items take.
    pub needed: u64,
}

/// How a tape of `bytes` bytes is too short, if size and items are not rejected for something else.
pub fn overrun_of(items: &[InitialItem], bytes: u64) -> Option<Overrun>
    ensures { IfSome result (λ o. nat_le (bytes_of (opening_items items.now)) bytes ≡ false) }
{
    if !is_size(bytes) || !are_items(items) || fit(items, bytes) {
        return None;
    }
    let mut item: usize = 0;
    let mut needed: u64 = 0;
    for other in items {
        needed = needed
            .saturating_add(LENGTHS as u64)
            .saturating_add(other.content().len() as u64);
        if needed <= bytes {
            item = item.saturating_add(1);
        }
    }
    Some(Overrun { item, needed })
}
