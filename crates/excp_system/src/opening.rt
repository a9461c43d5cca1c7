//! Rows get their ends, and registers their pens.

ghost use Rattle.std.specs.Prelude.{◌≡◌, ◌+◌, ℕ, [], Some, length, slice_get, IfOk, OnOk};
ghost use Rattle.fifo_row.specs.Ends.{Sending};
ghost use Rattle.signed_list.specs.Signed.{Signing};
ghost use Rattle.excp_system.specs.Controls.{pen_of};
ghost use Rattle.excp_system.specs.Opening.{AreFans, AreHands, AreLogs, AreRegisters, AreRows, AreTakers};
ghost use Rattle.excp_system.specs.Sites.{end_of};

use crate::fan::Fan;
use crate::log::Log;
use crate::pens::Pens;
use crate::site::{Reach, Site};
use fifo_row::{Row, RowItem, Sender, Taker};
use signed_list::{Pen, Register};
use std::alloc::{AllocError, Global};
use unit_book::Control;

/// This many fans of senders, which reach no row yet.
pub(crate) fn new_fans<'r, I: RowItem, F: Reach>(
    alloc: Global,
    count: u16,
) -> Result<Vec<Fan<'r, I, F>>, AllocError>
    ensures { IfOk result (λ fans. AreFans count 0 fans.items) }
{
    let mut fans = Vec::with_capacity(alloc, usize::from(count))?;
    for number in 0..count {
        fans.push_reserved(Fan::new(number, Vec::new(alloc)));
    }
    Ok(fans)
}

/// Gives the fans the ends of all rows, and answers the rows' takers in order. If memory runs out, some fans have their
/// ends and some do not.
pub(crate) fn seat_rows<'r, I: RowItem, F: Reach>(
    alloc: Global,
    rows: &'r mut Vec<Row<I>>,
    senders: u16,
    fans: &mut Vec<Fan<'r, I, F>>,
) -> Result<Vec<Taker<'r, I>>, AllocError>
    requires rows { AreRows F.reached senders rows.old.items }
    requires fans { AreFans senders 0 fans.old.items }
    ensures fans { OnOk result (AreFans senders (length rows.old.items) fans.new.items) }
    ensures takers { IfOk result (λ takers. AreTakers F.reached senders (length rows.old.items) takers.items) }
{
    let mut takers = Vec::with_capacity(alloc, rows.len())?;
    let rows = rows.as_mut_slice().iter_mut();
    for row in rows {
        let place = takers.len();
        let (ends, taker) = row.seats()?;
        deal(ends, place, fans)?;
        takers.push(taker)?;
    }
    Ok(takers)
}

/// Gives each fan its end of the row at this index.
fn deal<'r, I: RowItem, F: Reach>(
    ends: Vec<Sender<'r, I>>,
    place: usize,
    fans: &mut Vec<Fan<'r, I, F>>,
) -> Result<(), AllocError>
    requires fans { AreFans (length ends.items) place fans.old.items }
    requires ends { (t : ℕ) (s : Sending I) → slice_get ends.items t ≡ Some s → s ≡ end_of F.reached t place [] }
    ensures { OnOk result (AreFans (length ends.entry.items) (place + 1) fans.new.items) }
{
    let _ = place;
    let mut number = 0;
    for end in ends {
        fans[number].push(end)?;
        number += 1;
    }
    Ok(())
}

/// The pens of this many tasks, which have none yet.
pub(crate) fn new_hands<'r, S: Site>(
    alloc: Global,
    count: u16,
) -> Result<Vec<Pens<'r, S>>, AllocError>
    ensures { IfOk result (λ hands. AreHands count 0 hands.items) }
{
    let mut hands = Vec::with_capacity(alloc, usize::from(count))?;
    for number in 0..count {
        hands.push_reserved(Pens::new(number, Vec::new(alloc)));
    }
    Ok(hands)
}

/// Gives the tasks their pens of all registers, and answers the logs of the units in order. If memory runs out, some tasks
/// have their pens and some do not.
pub(crate) fn seat_registers<'r, S: Site>(
    alloc: Global,
    registers: &'r mut Vec<Register<Control>>,
    tasks: u16,
    hands: &mut Vec<Pens<'r, S>>,
) -> Result<Vec<Log<'r, S>>, AllocError>
    requires tasks { tasks ≡ S.rows.tasks }
    requires registers { AreRegisters S.rows tasks registers.old.items }
    requires hands { AreHands tasks 0 hands.old.items }
    ensures hands { OnOk result (AreHands tasks (length registers.old.items) hands.new.items) }
    ensures logs { IfOk result (λ logs. AreLogs S.rows (length registers.old.items) logs.items) }
{
    let mut logs = Vec::with_capacity(alloc, registers.len())?;
    let registers = registers.as_mut_slice().iter_mut();
    for register in registers {
        let place = logs.len();
        let (mut pens, list) = register.ends()?;
        let Some(own) = pens.pop() else {
            unreachable!()
        };
        hand_out(pens, place, hands)?;
        logs.push(Log::new(list, own))?;
    }
    Ok(logs)
}

/// Gives each task its pen of the register at this index.
fn hand_out<'r, S: Site>(
    pens: Vec<Pen<'r, Control>>,
    place: usize,
    hands: &mut Vec<Pens<'r, S>>,
) -> Result<(), AllocError>
    requires hands { AreHands (length pens.items) place hands.old.items }
    requires pens { (t : ℕ) (p : Signing Control) → slice_get pens.items t ≡ Some p → p ≡ pen_of S.rows t place [] }
    ensures { OnOk result (AreHands (length pens.entry.items) (place + 1) hands.new.items) }
{
    let _ = place;
    let mut number = 0;
    for pen in pens {
        hands[number].push(pen)?;
        number += 1;
    }
    Ok(())
}
