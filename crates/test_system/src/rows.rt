//! A row by hand: full and empty.

ghost use Rattle.std.specs.Prelude.{◌≡◌, ◌+◌, length};

use fifo_row::{Full, Row, RowItem, Sender, Taker};
use std::process::Abort;
use std::sync::Wait;
use std::test::Fail;

/// Whose row it is.
const TAG: u16 = 7;

/// An item that names its sender, its place among that sender's items, and its row.
#[derive(Drop)]
struct Parcel {
    sender: u16,
    place: u64,
    row: u16,
}

impl RowItem for Parcel {
    ghost use Rattle.std.specs.Prelude.{◌≡◌};

    ghost from = { λ parcel. parcel.sender };

    ghost fact = { λ parcel k place tag. (parcel.place ≡ place) × (parcel.row ≡ tag) };

    fn sender(&self) -> u16 {
        self.sender
    }
}

/// The next parcel of this sender, which has this number.
fn next_of(sender: &Sender<'_, Parcel>, number: u16) -> Parcel
    requires { sender.now.tag ≡ TAG }
    ensures { result ≡ record { sender = number; place = length sender.now.sent + 1; row = sender.now.tag } }
{
    Parcel {
        sender: number,
        place: sender.sent_len() + 1,
        row: TAG,
    }
}

/// Sends the next parcel, and answers the place of the one that came back.
fn offer<R: Wait>(rt: &R, sender: &mut Sender<'_, Parcel>, number: u16) -> Option<u64>
    requires { (sender.old.number ≡ number) × (sender.old.tag ≡ TAG) }
    ensures { (sender.new.row ≡ sender.old.row) × (sender.new.number ≡ number) × (sender.new.tag ≡ TAG) }
{
    let parcel = next_of(sender, number);
    match sender.send(rt, parcel) {
        Ok(()) => None,
        Err(Full(parcel)) => Some(parcel.place),
    }
}

/// The place of the next parcel, if there is one.
fn taken_place<R: Wait>(rt: &R, taker: &mut Taker<'_, Parcel>) -> Option<u64>
    ensures { taker.new.senders ≡ taker.old.senders }
{
    taker.take(rt).map(|parcel| parcel.place)
}

/// Asserts that a row of one place takes a parcel once the one before was taken.
fn expect_room_for_one<R: Wait + Abort>(
    rt: &R,
    sender: &mut Sender<'_, Parcel>,
    taker: &mut Taker<'_, Parcel>,
)
    requires sender { (sender.old.number ≡ 0) × (sender.old.tag ≡ TAG) }
    requires taker { taker.old.senders ≡ 1 }
{
    let offered = [offer(rt, sender, 0), offer(rt, sender, 0)];
    let taken = [taken_place(rt, taker), taken_place(rt, taker)];
    let last = offer(rt, sender, 0);
    assert!(rt; offered == [None, Some(2)] && taken == [Some(1), None] && last.is_none());
    assert!(rt; sender.sent_len() == 2 && taker.taken_len(0) == 1);
}

/// It rejects a row that is always full, or always empty: the mutants of rows_accept_and_give.
#[test]
fn row_of_one(rt: HostRuntime) -> Result<(), Fail> {
    let mut row = Row::<Parcel>::new(rt.alloc(), 1, 1, TAG)?;
    let (mut senders, mut taker) = row.seats()?;
    assert_eq!(rt; senders.len(), 1);
    let mut sender = senders.pop().ok_or("a sender")?;
    expect_room_for_one(&rt, &mut sender, &mut taker);
    Ok(())
}
