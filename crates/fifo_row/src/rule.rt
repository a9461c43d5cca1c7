//! The rule of a row, and the six kinds of step that keep it. A push enters, or finds the row full. A pop takes, or
//! finds it empty. The split seats a sender, and the join meets one that has ended.
use crate::item::RowItem;
use crate::view::RowView;
use crossbeam_queue::RuledArrayQueue;
use crossbeam_queue::protocol::{Join, Lesson, Outcome, Protocol, Split};
use std::marker::{Brand, PhantomData};

/// A queue under the rule of a row.
pub type Queue<I> = RuledArrayQueue<I, RowView<I>, InOrder>;

/// The rule: of each sender, what was taken and then what is held is what it sent.
pub struct InOrder;

impl<I: RowItem> Protocol<I, RowView<I>> for InOrder {
    ghost use Rattle.fifo_row.specs.Rule.{Kept};
    ghost use Rattle.fifo_row.specs.Views.{opening_view};

    ghost holds = { Kept I.from I.fact };

    ghost first = { opening_view };
}

/// A push by a sender.
pub struct Push;

impl<I: RowItem> Outcome<I, RowView<I>> for Push {
    ghost use Rattle.fifo_row.specs.Steps.{Sends};

    ghost then = { Sends };
}

impl<I: RowItem> Lesson<I, RowView<I>> for Push {
    ghost use Rattle.fifo_row.specs.Steps.{IsState};

    ghost fact = { IsState I.from I.fact };
}

/// A pop by the taker.
pub struct Pop;

impl<I: RowItem> Outcome<I, RowView<I>> for Pop {
    ghost use Rattle.fifo_row.specs.Steps.{TakesItem};

    ghost then = { TakesItem I.from I.fact };
}

impl<I: RowItem> Lesson<I, RowView<I>> for Pop {
    ghost use Rattle.fifo_row.specs.Steps.{IsState};

    ghost fact = { IsState I.from I.fact };
}

/// The tag of a row, which the call that seats its senders picks.
pub trait Label {
    ghost use Rattle.std.specs.Prelude.{ℕ};

    ghost tag: { ℕ };
}

impl Label for Brand {
    ghost tag = { 0 };
}

/// The taker of a row with this tag seats the next sender.
pub struct SeatSender<L>(PhantomData<L>);

impl<I, L: Label> Split<RowView<I>> for SeatSender<L> {
    ghost use Rattle.std.specs.Prelude.{[], ◌+◌};
    ghost use Rattle.fifo_row.specs.Views.{sender_view, taker_view};

    ghost left = { λ v. taker_view L.tag (v.made + 1) v.taken v.met };

    ghost right = { λ v. sender_view L.tag v.made [] };
}

/// The taker meets a sender that has ended.
pub struct Meet;

impl<I> Join<RowView<I>> for Meet {
    ghost use Rattle.std.specs.Prelude.{◌∷◌};
    ghost use Rattle.fifo_row.specs.Views.{spent_view, taker_view};

    ghost both = { λ v w. taker_view v.tag v.made v.taken ((w.number, w.sent) ∷ v.met) };

    ghost spent = { spent_view };
}
