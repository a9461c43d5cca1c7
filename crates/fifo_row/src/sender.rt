//! The end of a row that sends.
ghost use Rattle.std.specs.Prelude.{◌≡◌, ◌≤◌, ◌^◌, ◌∷◌, ◌++◌, [], length, suc, IfErr, OnErr, OnOk};
ghost use Rattle.crossbeam_queue.specs.Passes.{IsPassOf, ruled_capacity};
ghost use Rattle.fifo_row.specs.Ends.{first_sending};
ghost use Rattle.fifo_row.specs.Steps.{WasFull};
ghost use Rattle.fifo_row.specs.Views.{known, sender_view};

use crate::item::RowItem;
use crate::rule::{Push, Queue};
use crate::view::RowView;
use crossbeam_queue::Pass;
use std::marker::Model;
use std::sync::Wait;

/// What a sender sends at most, so that the ends can count it.
const MOST: u64 = 1 << 62;

/// An item that was not sent, because the row was full.
#[derive(Drop)]
pub struct Full<I>(pub I);

/// One sender's end of a row. Contracts see which row it is of, and all that it sent.
#[derive(Drop)]
pub struct Sender<'r, I: RowItem> {
    queue: &'r Queue<I>,
    pass: Pass<I, RowView<I>>,
    tag: u16,
    number: u16,
    count: u64,
}

impl<'r, I: RowItem> Model for Sender<'r, I> {
    ghost use Rattle.std.specs.Prelude.{◌≡◌, ◌≤◌, ◌^◌, length};
    ghost use Rattle.crossbeam_queue.specs.Passes.{IsPassOf, ruled_capacity};
    ghost use Rattle.fifo_row.specs.Ends.{Sending};
    ghost use Rattle.fifo_row.specs.Views.{known, sender_view};

    ghost Value = { Sending I };

    ghost view = { λ s. record {
      row = s.pass.table_id;
      capacity = ruled_capacity s.queue.now;
      tag = s.tag;
      number = s.number;
      sent = (known s.pass).sent;
    } };

    ghost invariant = { λ s. IsPassOf s.queue.now s.pass
        × (known s.pass ≡ sender_view s.tag s.number (known s.pass).sent)
        × (s.count ≡ length (known s.pass).sent)
        × (s.count ≤ 2 ^ 62) };
}

impl<'r, I: RowItem> Sender<'r, I> {
    /// The end whose pass this is, which has sent nothing.
    pub(crate) fn new(
        queue: &'r Queue<I>,
        pass: Pass<I, RowView<I>>,
        tag: u16,
        number: u16,
    ) -> Sender<'r, I>
        requires { IsPassOf queue.now pass × (known pass ≡ sender_view tag number []) }
        ensures { result ≡ first_sending queue.now.table.shared.table_id (ruled_capacity queue.now) tag number }
    {
        Sender {
            queue,
            pass,
            tag,
            number,
            count: 0,
        }
    }

    /// Ends the sender, and gives its pass.
    pub(crate) fn into_pass(self) -> Pass<I, RowView<I>>
        ensures row { (result.table_id ≡ self.entry.row) × (result.me.1 ≡ []) }
        ensures known { known result ≡ sender_view self.entry.tag self.entry.number self.entry.sent }
    {
        self.pass
    }

    /// How many items it has sent. It takes no memory.
    pub fn sent_len(&self) -> u64
        ensures len { result ≡ length self.now.sent }
        ensures few { result ≤ 2 ^ 62 }
    {
        self.count
    }

    /// Sends an item of this sender, which has its fact at the position after all that was sent. It takes no memory, and
    /// may wait; after 2^62 items it waits for ever.
    ///
    /// Error: the row was full at one moment of the call. The item is handed back, and nothing was sent.
    pub fn send<R: Wait>(&mut self, rt: &R, item: I) -> Result<(), Full<I>>
        requires number { I.from item ≡ self.old.number }
        requires fact { I.fact item self.old.number (suc (length self.old.sent)) self.old.tag }
        ensures sent { OnOk result (self.new ≡ record self.old { sent = self.old.sent ++ item ∷ [] }) }
        ensures handed_back { IfErr result (λ full. full.0 ≡ item) }
        ensures unchanged { OnErr result (self.new ≡ self.old) }
        ensures was_full { OnErr result (WasFull I.from I.fact self.old) }
    {
        if self.count >= MOST {
            for _ in rt.forever() {}
            unreachable!()
        }
        let queue = self.queue;
        match queue.push_as::<Push, R>(rt, &mut self.pass, item) {
            Ok(()) => {
                self.count += 1;
                Ok(())
            }
            Err(item) => Err(Full(item)),
        }
    }
}
