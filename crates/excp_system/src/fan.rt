//! The ends of several rows that one sender holds: a task's of all intake rows, and a unit's of all post rows.

ghost use Rattle.std.specs.Prelude.{◌≡◌, ◌<◌, ◌++◌, ◌∷◌, [], length, map, suc, IfErr, IfNone, IfSome, OnErr, OnOk, slice_set};
ghost use Rattle.fifo_row.specs.Steps.{WasFull};
ghost use Rattle.excp_system.specs.Fans.{IsFan, sent_to};
ghost use Rattle.excp_system.specs.Sites.{end_of};

use crate::site::Reach;
use fifo_row::{Full, RowItem, Sender};
use std::alloc::AllocError;
use std::marker::{Model, PhantomData};
use std::sync::Wait;

/// One sender's ends of several rows, each at the index of its row's tag. Contracts see the sender's number and what
/// it sent into each.
#[derive(Drop)]
pub struct Fan<'r, I: RowItem, F: Reach> {
    number: u16,
    ends: Vec<Sender<'r, I>>,
    of: PhantomData<F>,
}

impl<'r, I: RowItem, F: Reach> Model for Fan<'r, I, F> {
    ghost use Rattle.std.specs.Prelude.{map};
    ghost use Rattle.excp_system.specs.Fans.{FanState, IsFan};

    ghost Value = { FanState I };

    ghost view = { λ f. record { number = f.number; sent = map (λ s. s.sent) f.ends.items } };

    ghost invariant = { λ f. IsFan F.reached f.number f.ends.items };
}

impl<'r, I: RowItem, F: Reach> Fan<'r, I, F> {
    /// The sender with this number, with these ends.
    pub(crate) fn new(number: u16, ends: Vec<Sender<'r, I>>) -> Fan<'r, I, F>
        requires { IsFan F.reached number ends.items }
        ensures { result ≡ record { number = number; sent = map (λ s. s.sent) ends.entry.items } }
    {
        Fan {
            number,
            ends,
            of: PhantomData,
        }
    }

    /// The number of the sender.
    pub(crate) fn number(&self) -> u16
        ensures { result ≡ self.now.number }
    {
        self.number
    }

    /// How many items it sent into a row.
    pub(crate) fn sent_len(&self, k: u16) -> u64
        requires { k < length self.now.sent }
        ensures { result ≡ length (sent_to self.now k) }
    {
        let end = &self.ends[usize::from(k)];
        end.sent_len()
    }

    /// Sends an item into a row. It comes back only if the row was full at one moment of the call.
    pub(crate) fn send<R: Wait>(&mut self, rt: &R, k: u16, item: I) -> Result<(), Full<I>>
        requires row { k < length self.old.sent }
        requires number { I.from item ≡ self.old.number }
        requires fact { I.fact item self.old.number (suc (length (sent_to self.old k))) k }
        ensures sent { OnOk result (self.new ≡ record { number = self.old.number; sent = slice_set self.old.sent k (sent_to self.old k ++ item ∷ []) }) }
        ensures handed_back { IfErr result (λ full. full.0 ≡ item) }
        ensures unchanged { OnErr result (self.new ≡ self.old) }
        ensures was_full { OnErr result (WasFull I.from I.fact (end_of F.reached self.old.number k (sent_to self.old k))) }
    {
        let end = &mut self.ends[usize::from(k)];
        end.send(rt, item)
    }

    /// Puts the end of the next row after the others.
    pub(crate) fn push(&mut self, end: Sender<'r, I>) -> Result<(), AllocError>
        requires { end ≡ end_of F.reached self.old.number (length self.old.sent) end.sent }
        ensures pushed { OnOk result (self.new ≡ record { number = self.old.number; sent = self.old.sent ++ end.entry.sent ∷ [] }) }
    {
        self.ends.push(end)?;
        Ok(())
    }

    /// Takes the end of the last row off.
    pub fn pop(&mut self) -> Option<Sender<'r, I>>
        ensures none { IfNone result (self.old.sent ≡ []) }
        ensures unchanged { IfNone result (self.new ≡ self.old) }
        ensures end { IfSome result (λ s. s ≡ end_of F.reached self.old.number (length self.new.sent) s.sent) }
        ensures last { IfSome result (λ s. self.old ≡ record { number = self.new.number; sent = self.new.sent ++ s.sent ∷ [] }) }
    {
        let end = self.ends.pop()?;
        Some(end)
    }

    /// Its end of a row. The others are dropped.
    pub(crate) fn into_end(self, k: u16) -> Sender<'r, I>
        requires { k < length self.sent }
        ensures { result ≡ end_of F.reached self.entry.number k (sent_to self.entry k) }
    {
        let mut ends = self.ends;
        ends.swap_remove(usize::from(k))
    }
}
