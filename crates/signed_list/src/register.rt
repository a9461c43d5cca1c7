//! A register, its pens and its list.
ghost use Rattle.std.specs.Prelude.{◌≡◌, ◌≤◌, ◌+◌, ◌++◌, ◌∷◌, ℕ, [], false, IfOk};
ghost use Rattle.crossbeam_queue.specs.Passes.{IsPassOf};
ghost use Rattle.signed_list.specs.Signed.{RegisterEnds, signed_by};
ghost use Rattle.signed_list.specs.Views.{known, opening_view, list_view, pen_view};

use crate::rule::{Naming, PutDown, Queue, Seat, Sign, TakeUp};
use crate::view::ListView;
use crossbeam_queue::Pass;
use std::alloc::{AllocError, Global};
use std::marker::{Brand, Model};

/// A register before its pens and its list are given out.
#[derive(Drop)]
pub struct Register<I> {
    queue: Queue<I>,
    first: Option<Pass<u8, ListView<I>>>,
    alloc: Global,
    pens: u16,
}

impl<I> Model for Register<I> {
    ghost use Rattle.std.specs.Prelude.{◌≡◌, is_none, IfSome};
    ghost use Rattle.crossbeam_queue.specs.Passes.{IsPassOf};
    ghost use Rattle.signed_list.specs.Signed.{Blank};
    ghost use Rattle.signed_list.specs.Views.{known, opening_view};

    ghost Value = { Blank };

    ghost view = { λ r. record { register = r.queue.table.shared.table_id; pens = r.pens; seated = is_none r.first } };

    ghost invariant = { λ r. IfSome r.first (λ p. IsPassOf r.queue p × (known p ≡ opening_view)) };
}

/// A pen of a register. Contracts see which register it is of, its number, and what it signed.
#[derive(Drop)]
pub struct Pen<'r, I> {
    queue: &'r Queue<I>,
    pass: Option<Pass<u8, ListView<I>>>,
    number: u16,
}

impl<'r, I> Model for Pen<'r, I> {
    ghost use Rattle.crossbeam_queue.specs.Passes.{IsPassOf};
    ghost use Rattle.signed_list.specs.Signed.{Signing};
    ghost use Rattle.signed_list.specs.Views.{known, pen_view, signed_in, IsPenPass};

    ghost Value = { Signing I };

    ghost view = { λ p. record { register = p.queue.now.table.shared.table_id; number = p.number; signed = signed_in p.pass } };

    ghost invariant = { λ p. IsPenPass p.queue.now.table.shared.table_id p.number p.pass };
}

/// The list of a register. Contracts see which register it is of, how many pens that has, and all that was signed.
#[derive(Drop)]
pub struct SignedList<'r, I> {
    queue: &'r Queue<I>,
    pass: Pass<u8, ListView<I>>,
}

impl<'r, I> Model for SignedList<'r, I> {
    ghost use Rattle.std.specs.Prelude.{◌≡◌};
    ghost use Rattle.crossbeam_queue.specs.Passes.{IsPassOf};
    ghost use Rattle.signed_list.specs.Signed.{ListState};
    ghost use Rattle.signed_list.specs.Views.{known, list_view};

    ghost Value = { ListState I };

    ghost view = { λ l. record { register = l.queue.now.table.shared.table_id; pens = (known l.pass).made; all = (known l.pass).all } };

    ghost invariant = { λ l. IsPassOf l.queue.now l.pass × (known l.pass ≡ list_view (known l.pass).made (known l.pass).all) };
}

impl<I> Register<I> {
    /// A register for this many pens.
    ///
    /// Error: out of memory.
    pub fn new(alloc: Global, pens: u16) -> Result<Register<I>, AllocError>
        ensures { IfOk result (λ r. (r.pens ≡ pens) × (r.seated ≡ false)) }
    {
        let (queue, first) = Queue::ruled(alloc, 1)?;
        Ok(Register {
            queue,
            first: Some(first),
            alloc,
            pens,
        })
    }

    /// Its pens, in order of number, and its list. They can be made once.
    ///
    /// Error: out of memory. The register then makes none any more.
    pub fn ends(&mut self) -> Result<(Vec<Pen<'_, I>>, SignedList<'_, I>), AllocError>
        requires { self.old.seated ≡ false }
        ensures { IfOk result (λ ends. RegisterEnds ends.0.items ends.1 self.old) }
    {
        let Some(first) = self.first.take() else {
            unreachable!()
        };
        seat_all(self.alloc, &self.queue, first, self.pens)
    }
}

/// Makes the pens of a register, whose first pass becomes the list's.
fn seat_all<'r, I>(
    alloc: Global,
    queue: &'r Queue<I>,
    mut pass: Pass<u8, ListView<I>>,
    pens: u16,
) -> Result<(Vec<Pen<'r, I>>, SignedList<'r, I>), AllocError>
    requires { IsPassOf queue.now pass × (known pass ≡ opening_view) }
    ensures { IfOk result (λ ends. RegisterEnds ends.0.items ends.1
        (record { register = queue.now.table.shared.table_id; pens = pens; seated = false })) }
{
    let mut ends = Vec::with_capacity(alloc, usize::from(pens))?;
    for number in 0..pens {
        let seat = seat_next(queue, &mut pass);
        ends.push_reserved(Pen {
            queue,
            pass: Some(seat),
            number,
        });
    }
    Ok((ends, SignedList { queue, pass }))
}

/// Makes the next pen of a register, in which nothing was signed.
fn seat_next<I>(queue: &Queue<I>, pass: &mut Pass<u8, ListView<I>>) -> Pass<u8, ListView<I>>
    requires { IsPassOf queue.now pass.old × (known pass.old ≡ list_view (known pass.old).made []) }
    ensures list { IsPassOf queue.now pass.new × (known pass.new ≡ list_view ((known pass.old).made + 1) []) }
    ensures pen { IsPassOf queue.now result × (known result ≡ pen_view (known pass.old).made []) }
{
    queue.another::<Seat>(pass)
}

impl<'r, I> SignedList<'r, I> {
    /// Signs an item with a pen. It takes no memory, and waits for nobody.
    pub fn sign(&mut self, pen: &mut Pen<'_, I>, item: &I)
        requires { pen.old.register ≡ self.old.register }
        ensures list { self.new ≡ record self.old { all = self.old.all ++ (pen.old.number, item.now) ∷ [] } }
        ensures pen { pen.new ≡ record pen.old { signed = pen.old.signed ++ item.now ∷ [] } }
        ensures agrees { signed_by pen.old.number self.old.all ≡ pen.old.signed }
    {
        let Some(theirs) = pen.pass.take() else {
            unreachable!()
        };
        pen.pass = Some(sign_as::<I, Brand>(self.queue, &mut self.pass, theirs, item));
    }

    /// Shows that nobody signed but the pens of the register.
    pub fn holds(&mut self)
        ensures list { self.new ≡ self.old }
        ensures of_pens { (k : ℕ) → self.old.pens ≤ k → signed_by k self.old.all ≡ [] }
    {
        let queue = self.queue;
        queue.learn_as::<Seat>(&mut self.pass);
    }

    /// Shows that a pen signed just what the list has of it.
    pub fn audit(&mut self, pen: &mut Pen<'_, I>)
        requires { pen.old.register ≡ self.old.register }
        ensures list { self.new ≡ self.old }
        ensures pen { pen.new ≡ pen.old }
        ensures agrees { signed_by pen.old.number self.old.all ≡ pen.old.signed }
    {
        let Some(theirs) = pen.pass.take() else {
            unreachable!()
        };
        pen.pass = Some(audit_as(self.queue, &mut self.pass, theirs));
    }
}

/// Takes up a pen, signs an item with it, and puts it down.
fn sign_as<I, L: Naming<I>>(
    queue: &Queue<I>,
    pass: &mut Pass<u8, ListView<I>>,
    theirs: Pass<u8, ListView<I>>,
    item: &I,
) -> Pass<u8, ListView<I>>
    requires item { L.item ≡ item.now ∷ [] }
    requires list { IsPassOf queue.now pass.old × (known pass.old ≡ list_view (known pass.old).made (known pass.old).all) }
    requires pen { IsPassOf queue.now theirs × (known theirs ≡ pen_view (known theirs).number (known theirs).mine) }
    ensures list { IsPassOf queue.now pass.new × (known pass.new ≡ list_view (known pass.old).made ((known pass.old).all ++ ((known theirs).number, item.now) ∷ [])) }
    ensures pen { IsPassOf queue.now result × (known result ≡ pen_view (known theirs).number ((known theirs).mine ++ item.now ∷ [])) }
    ensures agrees { signed_by (known theirs).number (known pass.old).all ≡ (known theirs).mine }
{
    let _ = item;
    queue.absorb::<TakeUp>(pass, theirs);
    queue.learn_as::<TakeUp>(pass);
    queue.another::<Sign<L>>(pass)
}

/// Takes up a pen, and puts it down.
fn audit_as<I>(
    queue: &Queue<I>,
    pass: &mut Pass<u8, ListView<I>>,
    theirs: Pass<u8, ListView<I>>,
) -> Pass<u8, ListView<I>>
    requires list { IsPassOf queue.now pass.old × (known pass.old ≡ list_view (known pass.old).made (known pass.old).all) }
    requires pen { IsPassOf queue.now theirs × (known theirs ≡ pen_view (known theirs).number (known theirs).mine) }
    ensures list { IsPassOf queue.now pass.new × (known pass.new ≡ known pass.old) }
    ensures pen { IsPassOf queue.now result × (known result ≡ known theirs) }
    ensures agrees { signed_by (known theirs).number (known pass.old).all ≡ (known theirs).mine }
{
    queue.absorb::<TakeUp>(pass, theirs);
    queue.learn_as::<TakeUp>(pass);
    queue.another::<PutDown>(pass)
}
