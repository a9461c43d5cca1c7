//! How a command ended, as far as its position on the medium depends on that.

use crate::before::{CommandEnd, Done};
use ccw_programs::{Context, Listing, State};

/// Unit check, a bit of unit status (Principles of Operation, chapter 16, "Device-Status Field").
const UNIT_CHECK: u8 = 0x02;

/// The command of this listing, if the device did it: its CCWs break no rule. The program is after it.
pub(crate) fn done(listing: &Listing<'_>, context: &Context, fault: Option<usize>) -> Option<Done> {
    if listing.refusal.is_some() {
        return None;
    }
    let link = listing.links.first()?;
    Some(Done {
        code: link.ccw.command,
        ended: ended(context.state(), fault),
    })
}

fn ended(state: State, fault: Option<usize>) -> CommandEnd {
    match state {
        _ if fault.is_some() => CommandEnd::Fault,
        State::Ended(csw, sense) if csw.unit.0 & UNIT_CHECK != 0 => CommandEnd::Check(sense),
        State::Running | State::Ended(_, _) => CommandEnd::Normal,
    }
}
