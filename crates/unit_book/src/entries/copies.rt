//! Copies of a book.

ghost use Rattle.std.specs.Prelude.{◌≡◌, ◌<◌, length, slice_get, IfOk, Some};
ghost use Rattle.unit_book.specs.Fields.{IsSameActivity};

use crate::active::Active;
use crate::entries::{Entries, hand_out};
use crate::entry::Entry;
use circular_buffer::HeapCircularBuffer;
use device_port::Device;
use request_piece::Posted;
use std::alloc::{AllocError, Global};

impl<D: Device> Entries<D> {
    /// Copies the entries of a book, with a device, a trace and storage of its own. Fails only if memory runs out.
    pub fn copy(&self) -> Result<Self, AllocError>
        ensures { IfOk result (λ b. b ≡ record self.now { spare = b.spare }) }
    {
        let alloc = *self.trace.allocator();
        let mounted = self.mounted.copy()?;
        let channel = self.channel.copy()?;
        let active = copy_active(alloc, &self.active)?;
        let waiting = self.waiting.copy(alloc)?;
        let swept = self.swept.copy(alloc)?;
        let dcbs = self.dcbs.copy()?;
        let trace = copy_trace(&self.trace)?;
        let out = copy_posts(alloc, &self.out)?;
        Ok(Entries {
            mounted,
            channel,
            active,
            waiting,
            swept,
            dcbs,
            trace,
            out,
        })
    }
}

/// Copies the active request, if there is one. Fails only if memory runs out.
fn copy_active(alloc: Global, active: &Option<Active>) -> Result<Option<Active>, AllocError>
    ensures { IfOk result (IsSameActivity active.now) }
{
    match active {
        Some(active) => Ok(Some(active.copy(alloc)?)),
        None => Ok(None),
    }
}

/// Copies the entries of a trace, in their order. Fails only if memory runs out.
fn copy_trace(trace: &Vec<Entry>) -> Result<Vec<Entry>, AllocError>
    ensures { IfOk result (λ copies. copies.items ≡ trace.now.items) }
{
    let alloc = *trace.allocator();
    let mut copies = Vec::with_capacity(alloc, trace.len())?;
    for entry in trace {
        copies.push(entry.copy()?)?;
    }
    Ok(copies)
}

/// Copies the posted values that await delivery, and keeps their room. Fails only if memory runs out.
fn copy_posts(
    alloc: Global,
    posts: &HeapCircularBuffer<Posted>,
) -> Result<HeapCircularBuffer<Posted>, AllocError>
    ensures { IfOk result (λ copies. copies ≡ posts.now) }
{
    let mut copies = HeapCircularBuffer::with_capacity(alloc, posts.capacity())?;
    for at in 0..posts.len() {
        hand_out(&mut copies, copy_post(alloc, posts, at)?);
    }
    Ok(copies)
}

/// A copy of the posted value at a place.
fn copy_post(
    alloc: Global,
    posts: &HeapCircularBuffer<Posted>,
    at: usize,
) -> Result<Posted, AllocError>
    requires { at < length posts.now.items }
    ensures { IfOk result (λ posted. Some posted ≡ slice_get posts.now.items at) }
{
    let posted = posts.get(at).unwrap();
    posted.copy(alloc)
}
