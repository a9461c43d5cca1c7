//! What a book reports. No reader takes memory.

ghost use Rattle.std.specs.Prelude.{◌≡◌, ◌≤◌, ◌<◌, IsTrue, ◌↔◌, false, reverse, length, MatchOption, None, option_map, slice_get};
ghost use Rattle.unit_book.specs.Activity.{IsActivity};
ghost use Rattle.unit_book.specs.Book.{occupancy, is_pending};
ghost use Rattle.unit_book.specs.Dcbs.{dcb_state, flag, mask_of};
ghost use Rattle.unit_book.specs.Fields.{ArePhases, activity_phase};
ghost use Rattle.unit_book.specs.Media.{device};
ghost use Rattle.unit_book.specs.Trace.{active, waiting};

use crate::active::Standing;
use crate::activity::{Activity, ActivityPhase};
use crate::book::UnitBook;
use crate::dcb::DcbState;
use crate::entry::Entry;
use device_port::Device;
use request_piece::Name;
use subchannel::Subchannel;

impl<D: Device> UnitBook<D> {
    /// The entries of the trace, oldest first.
    pub fn trace(&self) -> &[Entry]
        ensures { reverse result.now ≡ self.now.trace }
    {
        self.entries.trace.as_slice()
    }

    /// The device with its medium as it is now.
    pub fn device(&self) -> &D
        ensures { result.now ≡ device D.meaning self.now.mounted self.now.trace }
    {
        self.entries.channel.device().unwrap()
    }

    /// The device as it was mounted.
    pub fn mounted(&self) -> &D
        ensures { result.now ≡ self.now.mounted }
    {
        &self.entries.mounted
    }

    /// The interruption subclass of the subchannel (0 to 7).
    pub fn isc(&self) -> u8
        ensures is { result ≡ self.now.isc }
        ensures few { result ≤ 7 }
    {
        self.entries.channel.isc()
    }

    /// Whether a status is pending that no `interrupt` has taken.
    pub fn pending(&self) -> bool
        ensures { result ≡ is_pending D.meaning self.now }
    {
        self.entries.channel.pending()
    }

    /// The name of the active request.
    pub fn active_name(&self) -> Option<Name>
        ensures { result ≡ active self.now.trace }
    {
        match &self.entries.active {
            Some(active) => Some(active.name()),
            None => None,
        }
    }

    /// The active request, with all that is kept of it.
    pub fn activity(&self) -> Option<Activity<'_>>
        ensures { MatchOption result (active self.now.trace ≡ None) (λ a. IsActivity D.meaning self.now a.piece.now a.starts a.halted a.covered a.phase) }
    {
        match &self.entries.active {
            Some(active) => Some(Activity {
                piece: &active.piece,
                starts: active.starts,
                halted: active.halted,
                covered: active.covered,
                phase: phase_of(active.standing, &self.entries.channel),
            }),
            None => None,
        }
    }

    /// Whether the active request awaits its restart.
    pub fn awaits(&self) -> bool
        ensures { result ≡ self.now.awaits }
    {
        match &self.entries.active {
            Some(active) => active.awaits(),
            None => false,
        }
    }

    /// The name of the request that waits at a place, counted from 0 in order of arrival.
    pub fn waiting_name(&self, at: usize) -> Option<Name>
        ensures { result ≡ option_map (λ r. r.name) (slice_get (waiting self.now.trace) at) }
    {
        match self.entries.waiting.get(at) {
            Some(piece) => Some(piece.name),
            None => None,
        }
    }

    /// How many requests wait.
    pub fn waiting_len(&self) -> usize
        ensures { result ≡ length (waiting self.now.trace) }
    {
        self.entries.waiting.len()
    }

    /// How many posted values were not yet taken.
    pub fn out_len(&self) -> usize
        ensures { result ≡ length self.now.out }
    {
        self.entries.out.len()
    }

    /// Whether the book may hold another request.
    pub fn has_room(&self) -> bool
        ensures room { IsTrue result ↔ (occupancy self.now < self.now.capacity) }
        ensures full { result ≡ false → occupancy self.now ≡ self.now.capacity }
    {
        let capacity = self.entries.out.capacity();
        let occupied = self.entries.waiting.len() + self.entries.out.len();
        match &self.entries.active {
            Some(_) => occupied + 1 < capacity,
            None => occupied < capacity,
        }
    }

    /// The state of the DCB with a number.
    pub fn dcb_state(&self, dcb: u16) -> DcbState
        ensures { result ≡ dcb_state dcb self.now.trace }
    {
        let Some(row) = self.entries.dcbs.get(dcb) else {
            return DcbState::Unknown;
        };
        if !row.closed {
            return DcbState::Open;
        }
        match &self.entries.active {
            Some(active) if active.piece.dcb == dcb => DcbState::Closing,
            Some(_) | None => DcbState::Closed,
        }
    }

    /// Whether the first two bits of DCBIFLGS are 11, permanent error, in place of 00 (DFSMSdfp Advanced
    /// Services, "Data Control Block Fields"; 01 never comes).
    pub fn dcb_flag(&self, dcb: u16) -> bool
        ensures { result ≡ flag dcb self.now.trace }
    {
        match self.entries.dcbs.get(dcb) {
            Some(row) => row.in_error,
            None => false,
        }
    }

    /// The file mask under which the programs of the DCB with a number run (profile).
    pub fn mask(&self, dcb: u16) -> u8
        ensures { result ≡ mask_of dcb self.now.trace }
    {
        self.entries.dcbs.mask(dcb)
    }

    /// How many entries the trace has room for.
    pub fn spare(&self) -> usize
        ensures { result ≡ self.now.spare }
    {
        self.entries.trace.capacity() - self.entries.trace.len()
    }
}

/// What the request with this standing waits for, whose program or status a subchannel has.
fn phase_of<D: Device>(standing: Standing, channel: &Subchannel<D>) -> ActivityPhase
    requires { ArePhases standing channel.now.phase }
    ensures { result ≡ activity_phase standing channel.now.phase }
{
    match standing {
        Standing::AwaitsRestart(status) => ActivityPhase::AwaitsRestart(status),
        Standing::OnChannel => match channel.status() {
            Some(status) => ActivityPhase::Pending(status),
            None => ActivityPhase::Running(channel.place().unwrap()),
        },
    }
}
