//! The slot of a request.

ghost use Rattle.std.specs.Prelude.{◌≡◌, IfOk, replicate};
ghost use Rattle.post_lines.specs.Slots.{waiting_slot, filled_slot, is_filled, slot_of};

use crate::end::End;
use request_piece::Posted;
use smallvec::SmallVec;
use std::alloc::{AllocError, Global};

/// How many bytes that are shown a slot holds without memory of their own.
const FEW: usize = 16;

/// What is kept of a request: the bytes of its area that are shown, and how it ended, once it was posted.
#[derive(Drop)]
pub struct PostSlot {
    /// The address of the bytes that are shown.
    show: u32,
    /// Room for them, and then the bytes.
    shown: SmallVec<u8, FEW>,
    end: Option<End>,
}

/// Room for this many bytes.
fn room_for(alloc: Global, len: usize) -> Result<SmallVec<u8, FEW>, AllocError>
    ensures { IfOk result (λ room. room.items ≡ replicate len 0) }
{
    if len <= FEW {
        return Ok(SmallVec::from_buf_and_len(alloc, [0; FEW], len));
    }
    let mut bytes = Vec::new(alloc);
    bytes.resize(len, 0)?;
    Ok(SmallVec::from_vec(bytes))
}

impl PostSlot {
    /// The slot of a request that is to show `len` bytes at the address `show`.
    pub fn new(alloc: Global, show: u32, len: usize) -> Result<PostSlot, AllocError>
        ensures { IfOk result (λ slot. slot_of slot ≡ waiting_slot show len) }
    {
        Ok(PostSlot {
            show,
            shown: room_for(alloc, len)?,
            end: None,
        })
    }

    /// Fills the slot, unless it is filled. If the bytes that are shown do not lie in the area, none are. Takes no memory.
    pub fn fill(&mut self, posted: &Posted)
        ensures { slot_of self.new ≡ filled_slot posted.now (slot_of self.old) }
    {
        if self.end.is_some() {
            return;
        }
        match posted.area().get(self.show, self.shown.len()) {
            Some(bytes) => self.shown.as_mut_slice().copy_from_slice(bytes),
            None => self.shown.clear(),
        }
        self.end = Some(End::of(posted));
    }

    /// Whether the request was posted.
    pub(crate) fn is_filled(&self) -> bool
        ensures { result ≡ is_filled self.now }
    {
        self.end.is_some()
    }

    /// The address of the bytes that are shown.
    pub fn show(&self) -> u32
        ensures { result ≡ (slot_of self.now).show }
    {
        self.show
    }

    /// How the request ended, once it was posted.
    pub fn end(&self) -> Option<End>
        ensures { result ≡ (slot_of self.now).end }
    {
        self.end
    }

    /// The bytes that are shown, once the request was posted.
    pub fn shown(&self) -> &[u8]
        ensures { result.now ≡ (slot_of self.now).shown }
    {
        self.shown.as_slice()
    }
}
