//! What a site tells of a unit, of its active request, of its medium and of a DCB, in the numbers of c/excp.h.

ghost use Rattle.std.specs.Prelude.{◌≡◌};
ghost use Rattle.excp_site.specs.Numbers.{active_number, as_bit, count_of, dcb_number, kind_number};

use device_port::Kind;
use unit_book::DcbState as OfDcb;
use unit_world::ActiveState;

/// A unit as it is (`excp_unit_state`). Without an active request, what tells of it is 0.
#[repr(C)]
#[derive(Clone, Copy)]
pub struct UnitState {
    pub active_number: u64,
    /// How many requests are in flight to the unit, and how many more may be.
    pub in_flight: u32,
    pub in_flight_room: u32,
    /// How many requests wait.
    pub waiting: u32,
    /// How many posted requests were not delivered.
    pub out: u32,
    /// How many lines a printer printed; 0 for other devices.
    pub printed: u32,
    pub active_task: u16,
    /// What the active request waits for.
    pub active: u8,
    pub kind: u8,
    /// Whether the unit can take another request.
    pub has_room: u8,
}

/// The active request of a unit (`excp_active_request`).
#[repr(C)]
#[derive(Clone, Copy)]
pub struct ActiveRequest {
    pub number: u64,
    /// The address of its next CCW if its channel program runs, or 0.
    pub next: u32,
    /// How often its channel program was started (1 to 11).
    pub attempt: u32,
    pub task: u16,
    pub dcb: u16,
}

/// Where the device of a unit is on its medium (`excp_place`). What it does not have is 0.
#[repr(C)]
#[derive(Clone, Copy)]
pub struct Place {
    /// How many items a tape has, and how many of them are before its head.
    pub items: u32,
    pub passed: u32,
    /// The track under the heads of a disk.
    pub cylinder: u16,
    pub head: u16,
    /// Where the next line of a printer goes, both counted from 1.
    pub page: u16,
    pub line: u16,
}

/// A DCB that was opened, as it is (`excp_dcb_state`).
#[repr(C)]
#[derive(Clone, Copy)]
pub struct DcbState {
    pub state: u8,
    /// Whether related requests of it are doomed.
    pub in_error: u8,
    /// The file mask that the supervisor set.
    pub file_mask: u8,
}

/// The number of a kind of device.
pub(crate) fn kind_number(kind: Kind) -> u8
    ensures { result ≡ kind_number kind }
{
    match kind {
        Kind::Disk => 0,
        Kind::Tape => 1,
        Kind::Printer => 2,
    }
}

/// The number of what an active request waits for.
pub(crate) fn active_number(state: ActiveState) -> u8
    ensures { result ≡ active_number state }
{
    match state {
        ActiveState::Running => 1,
        ActiveState::Pending => 2,
        ActiveState::AwaitsRestart => 3,
    }
}

/// The number of a DCB's state.
pub(crate) fn dcb_number(state: OfDcb) -> u8
    ensures { result ≡ dcb_number state }
{
    match state {
        OfDcb::Unknown => 0,
        OfDcb::Open => 1,
        OfDcb::Closing => 2,
        OfDcb::Closed => 3,
    }
}

/// A truth as a number.
pub(crate) fn as_bit(is: bool) -> u8
    ensures { result ≡ as_bit is }
{
    u8::from(is)
}

/// A count of 32 bits.
pub(crate) fn count_of(count: usize) -> u32
    ensures { result ≡ count_of count }
{
    u32::try_from(count).unwrap_or(u32::MAX)
}
