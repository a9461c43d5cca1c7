//! A row before its ends are given out.
ghost use Rattle.std.specs.Prelude.{◌≡◌, ◌<◌, ◌+◌, [], false, IfOk};
ghost use Rattle.crossbeam_queue.specs.Passes.{IsPassOf, ruled_capacity};
ghost use Rattle.fifo_row.specs.Ends.{Seats, unseated};
ghost use Rattle.fifo_row.specs.Views.{known, opening_view, sender_view, taker_view};

use crate::item::RowItem;
use crate::rule::{Label, Queue, SeatSender};
use crate::sender::Sender;
use crate::taker::Taker;
use crate::view::RowView;
use crossbeam_queue::Pass;
use std::alloc::{AllocError, Global};
use std::marker::{Brand, Model};

/// A row that holds at most `capacity` items of a number of senders. Its tag says whose row it is.
#[derive(Drop)]
pub struct Row<I: RowItem> {
    queue: Queue<I>,
    first: Option<Pass<I, RowView<I>>>,
    alloc: Global,
    senders: u16,
    tag: u16,
}

impl<I: RowItem> Model for Row<I> {
    ghost use Rattle.std.specs.Prelude.{◌≡◌, ◌<◌, is_none, IfSome};
    ghost use Rattle.crossbeam_queue.specs.Passes.{IsPassOf, ruled_capacity};
    ghost use Rattle.fifo_row.specs.Ends.{Fresh};
    ghost use Rattle.fifo_row.specs.Views.{known, opening_view};

    ghost Value = { Fresh };

    ghost view = { λ r. record {
      row = r.queue.table.shared.table_id;
      capacity = ruled_capacity r.queue;
      tag = r.tag;
      senders = r.senders;
      seated = is_none r.first;
    } };

    ghost invariant = { λ r. (0 < r.senders) × IfSome r.first (λ p. IsPassOf r.queue p × (known p ≡ opening_view)) };
}

impl<I: RowItem> Row<I> {
    /// A row that holds nothing, of at least one sender and with room for at least one item. It takes memory for its
    /// capacity, and its ends take some once more, at [`Row::seats`].
    pub fn new(alloc: Global, senders: u16, capacity: usize, tag: u16) -> Result<Row<I>, AllocError>
        requires senders { 0 < senders }
        requires capacity { 0 < capacity }
        ensures { IfOk result (λ row. row ≡ unseated row.row capacity tag senders) }
    {
        let (queue, first) = Queue::ruled(alloc, capacity)?;
        Ok(Row {
            queue,
            first: Some(first),
            alloc,
            senders,
            tag,
        })
    }

    /// The ends of the row: its senders, in order of number, and its one taker. They can be made once. If memory runs
    /// out, the row can only be dropped.
    pub fn seats(&mut self) -> Result<(Vec<Sender<'_, I>>, Taker<'_, I>), AllocError>
        requires { self.old.seated ≡ false }
        ensures { IfOk result (λ ends. Seats ends.0.items ends.1 self.old) }
    {
        let Some(first) = self.first.take() else {
            unreachable!()
        };
        seat_all(self.alloc, &self.queue, first, self.senders, self.tag)
    }
}

/// Seats the senders of a row, whose first pass becomes the taker's.
fn seat_all<'r, I: RowItem>(
    alloc: Global,
    queue: &'r Queue<I>,
    mut pass: Pass<I, RowView<I>>,
    senders: u16,
    tag: u16,
) -> Result<(Vec<Sender<'r, I>>, Taker<'r, I>), AllocError>
    requires senders { 0 < senders }
    requires pass { IsPassOf queue.now pass × (known pass ≡ opening_view) }
    ensures { IfOk result (λ ends. Seats ends.0.items ends.1
        (unseated queue.now.table.shared.table_id (ruled_capacity queue.now) tag senders)) }
{
    let counts = Vec::from_elem(alloc, 0u64, usize::from(senders))?;
    let mut ends = Vec::with_capacity(alloc, usize::from(senders))?;
    for number in 0..senders {
        let seat = seat_next::<I, Brand>(queue, &mut pass, tag);
        ends.push_reserved(Sender::new(queue, seat, tag, number));
    }
    Ok((ends, Taker::new(queue, pass, tag, counts)))
}

/// Seats the next sender of a row with this tag, in which nothing was taken and nobody met.
fn seat_next<I: RowItem, L: Label>(
    queue: &Queue<I>,
    pass: &mut Pass<I, RowView<I>>,
    tag: u16,
) -> Pass<I, RowView<I>>
    requires label { tag ≡ L.tag }
    requires pass { IsPassOf queue.now pass.old × (known pass.old ≡ taker_view (known pass.old).tag (known pass.old).made [] []) }
    requires tagged { 0 < (known pass.old).made → (known pass.old).tag ≡ tag }
    ensures taker { IsPassOf queue.now pass.new × (known pass.new ≡ taker_view tag ((known pass.old).made + 1) [] []) }
    ensures sender { IsPassOf queue.now result × (known result ≡ sender_view tag (known pass.old).made []) }
{
    queue.another::<SeatSender<L>>(pass)
}
