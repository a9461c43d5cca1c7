//! The post rows of a site.

ghost use Rattle.std.specs.Prelude.{◌≡◌, ◌==◌, ◌<◌, ◌≤◌, [], length, not, replicate, slice_get, IfErr, IfOk, OnErr, OnOk};
ghost use Rattle.std.specs.List.{list_all};
ghost use Rattle.std.specs.Option.{option_copied};
ghost use Rattle.unit_world.specs.PostLists.{list_of, with_value, without_value};

use circular_buffer::HeapCircularBuffer;
use request_piece::Posted;
use std::alloc::{AllocError, Global};
use std::marker::Model;

/// A row of posts for each task, as a ring whose room is made once.
#[derive(Drop)]
pub(crate) struct PostLists {
    rings: Vec<HeapCircularBuffer<Posted>>,
    room: usize,
}

impl Model for PostLists {
    ghost use Rattle.std.specs.Prelude.{◌≡◌, map};
    ghost use Rattle.unit_book.specs.Lists.{Each};
    ghost use Rattle.unit_world.specs.PostLists.{PostLists};

    ghost Value = { PostLists };

    ghost view = { λ p. record { lists = map (λ r. r.items) p.rings.items; room = p.room } };

    ghost invariant = { λ p. Each (λ r. r.capacity ≡ p.room) p.rings.items };
}

impl PostLists {
    /// Empty rows for `tasks` tasks, with room for `room` posts each.
    pub fn new(alloc: Global, tasks: u16, room: usize) -> Result<PostLists, AllocError>
        ensures { IfOk result (λ p. p ≡ record { lists = replicate tasks []; room = room }) }
    {
        let mut rings = Vec::new(alloc);
        for _ in 0..tasks {
            rings.push(HeapCircularBuffer::with_capacity(alloc, room)?)?;
        }
        Ok(PostLists { rings, room })
    }

    /// How many tasks have a row.
    pub fn tasks(&self) -> usize
        ensures { result ≡ length self.now.lists }
    {
        self.rings.len()
    }

    /// The post in the row of a task at a place.
    pub fn get(&self, task: u16, at: usize) -> Option<&Posted>
        ensures { option_copied result ≡ slice_get (list_of self.now.lists task) at }
    {
        let ring = self.rings.get(usize::from(task))?;
        ring.get(at)
    }

    /// Whether no post in any row is of this unit.
    pub fn has_none_of(&self, unit: u16) -> bool
        ensures { result ≡ list_all (list_all (λ v. not (v.unit == unit))) self.now.lists }
    {
        rings_have_none_of(&self.rings, unit)
    }

    /// Puts a post into the row of its task, after all others.
    ///
    /// Error: the row is full. The post is handed back, and nothing changes.
    pub fn push(&mut self, value: Posted) -> Result<(), Posted>
        requires { value.name.task < length self.old.lists }
        ensures ok { OnOk result (self.new ≡ record self.old { lists = with_value self.old.lists value.name.task value }) }
        ensures room { OnOk result (length (list_of self.old.lists value.name.task) < self.old.room) }
        ensures handed_back { IfErr result (λ v. v ≡ value) }
        ensures err { OnErr result (self.new ≡ self.old) }
        ensures full { OnErr result (self.old.room ≤ length (list_of self.old.lists value.name.task)) }
    {
        let task = usize::from(value.name().task);
        let ring = &mut self.rings[task];
        ring.try_push_back(value)
    }

    /// Takes the first post out of the row of a task.
    pub fn pop(&mut self, task: u16) -> Option<Posted>
        ensures first { result ≡ slice_get (list_of self.old.lists task) 0 }
        ensures rest { self.new ≡ record self.old { lists = without_value self.old.lists task } }
    {
        let task = usize::from(task);
        if task >= self.rings.len() {
            return None;
        }
        let ring = &mut self.rings[task];
        ring.pop_front()
    }
}

/// Whether no post in any of these rows is of this unit.
fn rings_have_none_of(rings: &[HeapCircularBuffer<Posted>], unit: u16) -> bool
    ensures { result ≡ list_all (λ r. list_all (λ v. not (v.unit == unit)) r.items) rings.now }
{
    rings.iter().all(|ring| ring_has_none_of(ring, unit))
}

/// Whether no post in a row is of this unit.
fn ring_has_none_of(ring: &HeapCircularBuffer<Posted>, unit: u16) -> bool
    ensures { result ≡ list_all (λ v. not (v.unit == unit)) ring.now.items }
{
    ring.iter().all(|posted| posted.unit() != unit)
}
