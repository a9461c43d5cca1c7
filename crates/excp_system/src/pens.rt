//! A task's pens: one for the log of each unit.

ghost use Rattle.std.specs.Prelude.{◌≡◌, ◌<◌, ◌++◌, ◌∷◌, [], length, map, OnOk};
ghost use Rattle.signed_list.specs.Signed.{signed_by};
ghost use Rattle.excp_system.specs.Controls.{ArePens, asked_of, asks, logged, pen_of};

use crate::log::Log;
use crate::site::Site;
use signed_list::Pen;
use std::alloc::AllocError;
use std::marker::{Model, PhantomData};
use unit_book::Control;

/// A task's pens, each at the index of its unit. Contracts see the task's number, and what it asked of each unit.
#[derive(Drop)]
pub struct Pens<'r, S: Site> {
    number: u16,
    pens: Vec<Pen<'r, Control>>,
    of: PhantomData<S>,
}

impl<'r, S: Site> Model for Pens<'r, S> {
    ghost use Rattle.std.specs.Prelude.{map};
    ghost use Rattle.excp_system.specs.Controls.{ArePens, PensState};

    ghost Value = { PensState };

    ghost view = { λ p. record { number = p.number; asked = map (λ q. q.signed) p.pens.items } };

    ghost invariant = { λ p. ArePens S.rows p.number p.pens.items };
}

impl<'r, S: Site> Pens<'r, S> {
    /// The pens of the task with this number.
    pub(crate) fn new(number: u16, pens: Vec<Pen<'r, Control>>) -> Pens<'r, S>
        requires { ArePens S.rows number pens.items }
        ensures { result ≡ record { number = number; asked = map (λ q. q.signed) pens.entry.items } }
    {
        Pens {
            number,
            pens,
            of: PhantomData,
        }
    }

    /// Puts the pen of the next unit after the others.
    pub(crate) fn push(&mut self, pen: Pen<'r, Control>) -> Result<(), AllocError>
        requires { pen ≡ pen_of S.rows self.old.number (length self.old.asked) pen.signed }
        ensures pushed { OnOk result (self.new ≡ record { number = self.old.number; asked = self.old.asked ++ pen.entry.signed ∷ [] }) }
    {
        self.pens.push(pen)?;
        Ok(())
    }

    /// Notes in the log of a unit a control that the task asked, if `is_asked`. It takes no memory.
    pub(crate) fn note(&mut self, unit: u16, log: &mut Log<'_, S>, is_asked: bool, control: Control)
        requires unit { unit < length self.old.asked }
        requires log { log.old.register ≡ S.rows.register unit }
        ensures log { log.new ≡ logged is_asked self.old.number control log.old }
        ensures pens { self.new ≡ record { number = self.old.number; asked = asks is_asked unit control self.old.asked } }
    {
        if is_asked {
            let pen = &mut self.pens[usize::from(unit)];
            log.sign(pen, control);
        }
    }

    /// Shows that the log of a unit has just what the task asked of the unit. It takes no memory.
    pub fn audit(&mut self, unit: usize, log: &mut Log<'_, S>)
        requires unit { unit < length self.old.asked }
        requires log { log.old.register ≡ S.rows.register unit }
        ensures pens { self.new ≡ self.old }
        ensures log { log.new ≡ log.old }
        ensures agrees { signed_by self.old.number log.old.asked ≡ asked_of self.old.asked unit }
    {
        let pen = &mut self.pens[unit];
        log.audit(pen);
    }
}
