//! The notices of one interruption subclass.

ghost use Rattle.std.specs.Prelude.{◌≡◌, ◌<◌, ◌≤◌, IfNone, IfSome};
ghost use Rattle.excp_system.specs.Calls.{NoticeRowWasEmpty, TakesNotice};
ghost use Rattle.excp_system.specs.States.{IsHandler};

use crate::item::Notice;
use crate::site::Site;
use fifo_row::Taker;
use std::marker::{Model, PhantomData};
use std::sync::Wait;

/// The end of the notice row of one interruption subclass, which has notices of the units' pending status. Contracts
/// see the subclass, and the notices that were taken.
#[derive(Drop)]
pub struct IscTaker<'r, S: Site> {
    isc: u8,
    notices: Taker<'r, Notice>,
    of: PhantomData<S>,
}

impl<'r, S: Site> Model for IscTaker<'r, S> {
    ghost use Rattle.excp_system.specs.States.{HandlerState, IsHandler};

    ghost Value = { HandlerState };

    ghost view = { λ t. record { isc = t.isc; taken = t.notices.taken } };

    ghost invariant = { λ t. IsHandler S.rows (record { isc = t.isc; taken = t.notices.taken }) t.notices };
}

impl<'r, S: Site> IscTaker<'r, S> {
    /// The taker of the notice row of this subclass.
    pub(crate) fn new(isc: u8, notices: Taker<'r, Notice>) -> IscTaker<'r, S>
        requires { IsHandler S.rows (record { isc = isc; taken = notices.taken }) notices }
        ensures { result ≡ record { isc = isc; taken = notices.entry.taken } }
    {
        IscTaker {
            isc,
            notices,
            of: PhantomData,
        }
    }

    /// The interruption subclass, 0 to 7. It takes no memory.
    pub fn isc(&self) -> u8
        ensures is { result ≡ self.now.isc }
        ensures few { result ≤ 7 }
    {
        self.isc
    }

    /// Returns the unit of the next notice. Returns none only if the row was empty at one moment of the call. It takes
    /// no memory and no unit's lock.
    pub(crate) fn next<R: Wait>(&mut self, rt: &R) -> Option<u16>
        ensures taken { IfSome result (λ unit. TakesNotice self.old unit self.new) }
        ensures of_unit { IfSome result (λ unit. unit < S.rows.units) }
        ensures unchanged { IfNone result (self.new ≡ self.old) }
        ensures was_empty { IfNone result (NoticeRowWasEmpty S.rows self.old) }
    {
        let notice = self.notices.take(rt)?;
        Some(notice.unit)
    }
}
