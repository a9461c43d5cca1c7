//! The end of a row that takes.
ghost use Rattle.std.specs.Prelude.{◌≡◌, ◌<◌, ◌∷◌, ◌++◌, [], length, replicate, IfNone, IfSome};
ghost use Rattle.crossbeam_queue.specs.Passes.{IsPassOf, ruled_capacity};
ghost use Rattle.fifo_row.specs.Lists.{BeginsWith, of_sender};
ghost use Rattle.fifo_row.specs.Ends.{AllEnded, IsNextItem, first_taking};
ghost use Rattle.fifo_row.specs.Steps.{WasEmpty};
ghost use Rattle.fifo_row.specs.Views.{known, taker_view};

use crate::item::RowItem;
use crate::rule::{Meet, Pop, Queue};
use crate::sender::Sender;
use crate::view::RowView;
use crossbeam_queue::Pass;
use std::marker::Model;
use std::sync::Wait;

/// The taker's end of a row. Contracts see which row it is of, all that was taken, and the senders that were met.
#[derive(Drop)]
pub struct Taker<'r, I: RowItem> {
    queue: &'r Queue<I>,
    pass: Pass<I, RowView<I>>,
    tag: u16,
    counts: Vec<u64>,
}

impl<'r, I: RowItem> Model for Taker<'r, I> {
    ghost use Rattle.std.specs.Prelude.{◌≡◌, ◌<◌, ℕ, length, slice_index};
    ghost use Rattle.crossbeam_queue.specs.Passes.{IsPassOf, ruled_capacity};
    ghost use Rattle.fifo_row.specs.Ends.{Taking};
    ghost use Rattle.fifo_row.specs.Lists.{of_sender};
    ghost use Rattle.fifo_row.specs.Views.{known, taker_view};

    ghost Value = { Taking I };

    ghost view = { λ t. record {
      row = t.pass.table_id;
      capacity = ruled_capacity t.queue.now;
      tag = t.tag;
      senders = length t.counts.items;
      taken = (known t.pass).taken;
      met = (known t.pass).met;
    } };

    ghost invariant = { λ t. IsPassOf t.queue.now t.pass
        × (known t.pass ≡ taker_view t.tag (length t.counts.items) (known t.pass).taken (known t.pass).met)
        × ((k : ℕ) → k < length t.counts.items → slice_index t.counts.items k ≡ length (of_sender I.from k (known t.pass).taken)) };
}

impl<'r, I: RowItem> Taker<'r, I> {
    /// The end whose pass this is, with a count of 0 for each sender.
    pub(crate) fn new(
        queue: &'r Queue<I>,
        pass: Pass<I, RowView<I>>,
        tag: u16,
        counts: Vec<u64>,
    ) -> Taker<'r, I>
        requires pass { IsPassOf queue.now pass × (known pass ≡ taker_view tag (length counts.items) [] []) }
        requires counts { counts.items ≡ replicate (length counts.items) 0 }
        ensures { result ≡ first_taking queue.now.table.shared.table_id (ruled_capacity queue.now) tag (length counts.items) }
    {
        Taker {
            queue,
            pass,
            tag,
            counts,
        }
    }

    /// How many items of sender `k` were taken. It takes no memory.
    pub fn taken_len(&self, k: u16) -> u64
        requires { k < self.now.senders }
        ensures { result ≡ length (of_sender I.from k self.now.taken) }
    {
        self.counts[usize::from(k)]
    }

    /// Takes the oldest item of the row. It takes no memory, and may wait.
    ///
    /// Returns none only if the row was empty at one moment of the call. Of each sender that was met, all was then
    /// taken.
    pub fn take<R: Wait>(&mut self, rt: &R) -> Option<I>
        ensures taken { IfSome result (λ item. self.new ≡ record self.old { taken = self.old.taken ++ item ∷ [] }) }
        ensures next { IfSome result (IsNextItem I.from I.fact self.old) }
        ensures unchanged { IfNone result (self.new ≡ self.old) }
        ensures was_empty { IfNone result (WasEmpty I.from I.fact self.old) }
        ensures all_ended { IfNone result (AllEnded I.from self.old) }
    {
        let queue = self.queue;
        match queue.pop_as::<Pop, R>(rt, &mut self.pass) {
            Some(item) => {
                let k = usize::from(item.sender());
                let count = self.counts[k];
                self.counts[k] = count + 1;
                Some(item)
            }
            None => None,
        }
    }

    /// Takes in a sender of this row that has ended, with all that it sent. What was taken of it so far begins that. It
    /// takes no memory.
    pub fn meet(&mut self, sender: Sender<'r, I>)
        requires { sender.row ≡ self.old.row }
        ensures met { self.new ≡ record self.old { met = (sender.entry.number, sender.entry.sent) ∷ self.old.met } }
        ensures begins { BeginsWith (of_sender I.from sender.entry.number self.old.taken) sender.entry.sent }
    {
        let queue = self.queue;
        queue.absorb::<Meet>(&mut self.pass, sender.into_pass());
        queue.learn_as::<Pop>(&mut self.pass);
    }
}
