//! What is checked and made when a tape is mounted.

mod refusal;

ghost use Rattle.std.specs.Prelude.{◌≡◌, IfOk, true, nat_le};
ghost use Rattle.std.specs.List.{list_all};
ghost use Rattle.tape_unit.specs.Item.{content_of};
ghost use Rattle.tape_unit.specs.Reel.{bytes_of};
ghost use Rattle.tape_unit.specs.Mount.{is_size, initial, is_initial, opening_items};

use crate::position::Position;
use crate::reel::{LENGTHS, LONGEST_BLOCK, Reel};
pub use refusal::{Overrun, overrun_of};
use std::alloc::{AllocError, Global};

/// An item that a tape has when it is mounted (profile).
#[derive(Debug, Drop)]
pub enum InitialItem {
    /// A tape mark.
    Mark,
    /// A block, of 1 to 65,535 bytes.
    Block(Vec<u8>),
}

impl InitialItem {
    /// The data of the item; a tape mark has none.
    fn content(&self) -> &[u8]
        ensures { result.now ≡ content_of (initial self.now) }
    {
        match self {
            InitialItem::Mark => &[],
            InitialItem::Block(bytes) => bytes.as_slice(),
        }
    }

    /// Whether it is a tape mark or a block of 1 to 65,535 bytes.
    fn is_item(&self) -> bool
        ensures { result ≡ is_initial self.now }
    {
        match self {
            InitialItem::Mark => true,
            InitialItem::Block(bytes) => bytes.len() >= 1 && bytes.len() <= LONGEST_BLOCK,
        }
    }
}

/// Whether a tape may have this many bytes.
pub fn is_size(bytes: u64) -> bool
    ensures { result ≡ is_size bytes }
{
    bytes >= 4 && bytes <= 16_777_216
}

/// Whether all items may lie on a tape.
pub fn are_items(items: &[InitialItem]) -> bool
    ensures { result ≡ list_all is_initial items.now }
{
    items.iter().all(|item| item.is_item())
}

/// Whether the items take at most `bytes` bytes.
pub fn fit(items: &[InitialItem], bytes: u64) -> bool
    requires size { is_size bytes ≡ true }
    requires items { list_all is_initial items.now ≡ true }
    ensures { result ≡ nat_le (bytes_of (opening_items items.now)) bytes }
{
    let mut total = 0;
    for item in items {
        total += LENGTHS as u64 + item.content().len() as u64;
        if total > bytes {
            return false;
        }
    }
    true
}

/// A reel of `bytes` bytes with these items.
pub fn loaded(alloc: Global, items: &[InitialItem], bytes: u64) -> Result<Reel, AllocError>
    requires size { is_size bytes ≡ true }
    requires items { list_all is_initial items.now ≡ true }
    requires fit { nat_le (bytes_of (opening_items items.now)) bytes ≡ true }
    ensures { IfOk result (λ r. r ≡ record { size = bytes; items = opening_items items.now }) }
{
    let mut reel = Reel::blank(alloc, bytes as usize)?;
    let mut end = Position::load_point();
    for item in items {
        end = reel.put(end, item.content());
    }
    Ok(reel)
}
