//! The queue of the requests that wait.

ghost use Rattle.std.specs.Prelude.{◌≡◌, ◌==◌, ◌+◌, ◌<◌, ◌≤◌, ◌↔◌, [], ◌∷◌, ◌++◌, drop, false, filter, length, not, option_map, slice_get, Some, IfOk, IsSome, box_value};
ghost use Rattle.std.specs.Option.{option_copied};
ghost use Rattle.unit_queue.specs.Selection.{selects};
ghost use Rattle.unit_queue.specs.Queue.{queue};

use crate::selection::Selection;
use circular_buffer::HeapCircularBuffer;
use request_piece::Piece;
use std::alloc::{AllocError, Global};
use std::marker::Model;

/// Requests that wait, the first to arrive in front.
#[derive(Drop)]
pub struct WaitQueue {
    ring: HeapCircularBuffer<Box<Piece>>,
}

impl Model for WaitQueue {
    ghost use Rattle.unit_queue.specs.Queue.{Queue, pieces_of, queue};

    ghost Value = { Queue };

    ghost view = { λ q. queue (pieces_of q.ring.items) q.ring.capacity };

    ghost use Rattle.std.specs.Prelude.{length, ◌≤◌};

    ghost invariant = { λ q. length q.ring.items ≤ q.ring.capacity };
}

impl WaitQueue {
    /// An empty queue with room for `capacity` requests. Its later calls take no memory.
    pub fn new(alloc: Global, capacity: usize) -> Result<WaitQueue, AllocError>
        ensures { IfOk result (λ q. q ≡ queue [] capacity) }
    {
        Ok(WaitQueue {
            ring: HeapCircularBuffer::with_capacity(alloc, capacity)?,
        })
    }

    /// Copies the queue and its capacity, with requests of its own. Fails only if memory runs out.
    pub fn copy(&self, alloc: Global) -> Result<WaitQueue, AllocError>
        ensures { IfOk result (λ q. q ≡ self.now) }
    {
        let mut copy = WaitQueue::new(alloc, self.capacity())?;
        for at in 0..self.len() {
            copy.push(self.copy_at(alloc, at)?);
        }
        Ok(copy)
    }

    /// A copy of the request at an index.
    fn copy_at(&self, alloc: Global, at: usize) -> Result<Box<Piece>, AllocError>
        requires { at < length self.now.pieces }
        ensures { IfOk result (λ piece. Some piece.value ≡ slice_get self.now.pieces at) }
    {
        let piece = self.get(at).unwrap();
        Ok(Box::new(alloc, piece.copy()?)?)
    }

    /// How many requests wait.
    pub fn len(&self) -> usize
        ensures len { result ≡ length self.now.pieces }
        ensures within { result ≤ self.now.capacity }
    {
        self.ring.len()
    }

    /// Whether none waits.
    pub fn is_empty(&self) -> bool
        ensures { result ≡ (length self.now.pieces == 0) }
    {
        self.ring.is_empty()
    }

    /// How many requests there is room for.
    pub fn capacity(&self) -> usize
        ensures { result ≡ self.now.capacity }
    {
        self.ring.capacity()
    }

    /// Whether there is no room for another.
    pub fn is_full(&self) -> bool
        ensures full { result ≡ (length self.now.pieces == self.now.capacity) }
        ensures room { result ≡ false → length self.now.pieces < self.now.capacity }
    {
        self.ring.is_full()
    }

    /// Puts a request after the others.
    pub fn push(&mut self, piece: Box<Piece>)
        requires { length self.old.pieces < self.old.capacity }
        ensures { self.new ≡ queue (self.old.pieces ++ piece.value ∷ []) self.old.capacity }
    {
        self.ring.push_back(piece);
    }

    /// The first request.
    pub fn front(&self) -> Option<&Piece>
        ensures { option_copied result ≡ slice_get self.now.pieces 0 }
    {
        self.ring.front().map(|piece| &**piece)
    }

    /// The request at an index, counted from 0 at the front.
    pub fn get(&self, at: usize) -> Option<&Piece>
        ensures { option_copied result ≡ slice_get self.now.pieces at }
    {
        self.ring.get(at).map(|piece| &**piece)
    }

    /// Takes the first request out.
    pub fn pop(&mut self) -> Option<Box<Piece>>
        ensures first { option_map box_value result ≡ slice_get self.old.pieces 0 }
        ensures some { IsSome result ↔ (0 < length self.old.pieces) }
        ensures rest { self.new ≡ queue (drop 1 self.old.pieces) self.old.capacity }
    {
        self.ring.pop_front()
    }

    /// Moves the requests of a selection after those of `into`. Both orders are kept.
    pub fn sweep(&mut self, selection: &Selection, into: &mut WaitQueue)
        requires { length into.old.pieces + length self.old.pieces ≤ into.old.capacity }
        ensures kept { self.new ≡ queue (filter (λ r. not (selects selection.now r)) self.old.pieces) self.old.capacity }
        ensures swept { into.new ≡ queue (into.old.pieces ++ filter (selects selection.now) self.old.pieces) into.old.capacity }
    {
        for _ in 0..self.len() {
            let piece = self.pop().unwrap();
            if selection.selects(&piece) {
                into.push(piece);
            } else {
                self.push(piece);
            }
        }
    }
}
