//! The log of a unit: which controls were asked of it, in order, and by whom.

ghost use Rattle.std.specs.Prelude.{◌≡◌, ◌<◌, ◌++◌, ◌∷◌, ℕ, [], false, true};
ghost use Rattle.signed_list.specs.Signed.{signed_by};
ghost use Rattle.excp_system.specs.Controls.{IsLog, logged};

use crate::site::Site;
use signed_list::{Pen, SignedList};
use std::marker::{Model, PhantomData};
use unit_book::Control;

/// The log of a unit, with the unit's own pen. Contracts see its register, and what was asked.
#[derive(Drop)]
pub struct Log<'r, S: Site> {
    list: SignedList<'r, Control>,
    own: Pen<'r, Control>,
    of: PhantomData<S>,
}

impl<'r, S: Site> Model for Log<'r, S> {
    ghost use Rattle.excp_system.specs.Controls.{IsLog, LogState};

    ghost Value = { LogState };

    ghost view = { λ l. record { register = l.list.register; asked = l.list.all } };

    ghost invariant = { λ l. IsLog S.own_calls S.rows.tasks l.list l.own };
}

impl<'r, S: Site> Log<'r, S> {
    /// The log with this list and this pen of the unit's own.
    pub(crate) fn new(list: SignedList<'r, Control>, own: Pen<'r, Control>) -> Log<'r, S>
        requires { IsLog S.own_calls S.rows.tasks list own }
        ensures { result ≡ record { register = list.entry.register; asked = list.entry.all } }
    {
        Log {
            list,
            own,
            of: PhantomData,
        }
    }

    /// Notes a control that one of the unit's own calls asked, if `is_asked`. It takes no memory.
    pub(crate) fn note(&mut self, is_asked: bool, control: Control)
        requires { S.own_calls ≡ true }
        ensures { self.new ≡ logged is_asked S.rows.tasks control self.old }
    {
        if is_asked {
            self.list.sign(&mut self.own, &control);
        }
    }

    /// Notes a control that a task asked, which the task signs with its pen. It takes no memory.
    pub(crate) fn sign(&mut self, pen: &mut Pen<'_, Control>, control: Control)
        requires { pen.old.register ≡ self.old.register }
        ensures log { self.new ≡ logged true pen.old.number control self.old }
        ensures pen { pen.new ≡ record pen.old { signed = pen.old.signed ++ control ∷ [] } }
    {
        self.list.sign(pen, &control);
    }

    /// Shows that the log has just what a task signed with its pen. It takes no memory.
    pub(crate) fn audit(&mut self, pen: &mut Pen<'_, Control>)
        requires { pen.old.register ≡ self.old.register }
        ensures log { self.new ≡ self.old }
        ensures pen { pen.new ≡ pen.old }
        ensures agrees { signed_by pen.old.number self.old.asked ≡ pen.old.signed }
    {
        self.list.audit(pen);
    }

    /// Shows that only the tasks and the unit's own calls asked anything, the latter under the number after those of the
    /// tasks. If a unit's own calls may not be used, they asked nothing. It takes no memory.
    pub fn holds(&mut self)
        ensures log { self.new ≡ self.old }
        ensures no_other { (k : ℕ) → S.rows.tasks < k → signed_by k self.old.asked ≡ [] }
        ensures no_own { S.own_calls ≡ false → signed_by S.rows.tasks self.old.asked ≡ [] }
    {
        self.list.audit(&mut self.own);
        self.list.holds();
    }
}
