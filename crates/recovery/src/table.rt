//! The table of verdicts.

ghost use Rattle.std.specs.Prelude.{◌≡◌};
ghost use Rattle.recovery.specs.Verdict.{is_channel_error, is_disk, is_passing_error, is_success, verdict};

use crate::answer::Verdict;
use bitflags::Flags;
use device_port::Kind;
use io_images::{Code, Csw, SubStatus, UnitStatus};

/// How often a request may be started again (profile).
pub const MAX_RETRIES: u32 = 10;

/// Bus-out check, equipment check, data check and overrun, in sense byte 0.
const PASSING_SENSE: u16 = 0x3C00;

/// Command reject and intervention required in sense byte 0, and all of sense byte 1.
const LASTING_SENSE: u16 = 0xC0FF;

/// Channel-data check and interface-control check at once.
const BOTH_CHECKS: SubStatus = SubStatus(
    SubStatus::CHANNEL_DATA_CHECK.0 | SubStatus::INTERFACE_CONTROL_CHECK.0,
);

/// Channel-data check, interface-control check, and both.
const PASSING_CHECKS: [SubStatus; 3] = [
    SubStatus::CHANNEL_DATA_CHECK,
    SubStatus::INTERFACE_CONTROL_CHECK,
    BOTH_CHECKS,
];

/// What becomes of a request whose channel program has ended with this status and sense; `attempt` is
/// the number of its starts so far (profile).
pub fn verdict(kind: Kind, csw: &Csw, sense: u16, attempt: u32) -> Verdict
    ensures { result ≡ verdict kind csw.now sense attempt }
{
    if is_success(csw) {
        return Verdict::Final(Code::Ended);
    }
    let may_pass = is_passing_error(csw, sense) || is_channel_error(csw);
    if is_disk(kind) && attempt <= MAX_RETRIES && may_pass {
        Verdict::Retry
    } else {
        Verdict::Final(Code::PermanentError)
    }
}

fn is_disk(kind: Kind) -> bool
    ensures { result ≡ is_disk kind }
{
    match kind {
        Kind::Disk => true,
        Kind::Tape | Kind::Printer => false,
    }
}

/// Whether the program has ended without error.
fn is_success(csw: &Csw) -> bool
    ensures { result ≡ is_success csw.now }
{
    (csw.unit == UnitStatus::NORMAL_END || csw.unit == UnitStatus::MODIFIER_END)
        && csw.sub.is_clear()
}

/// Whether the device shows an error that another try may get over.
fn is_passing_error(csw: &Csw, sense: u16) -> bool
    ensures { result ≡ is_passing_error csw.now sense }
{
    csw.unit.contains(UnitStatus::UNIT_CHECK)
        && !csw.unit.contains(UnitStatus::UNIT_EXCEPTION)
        && csw.sub.is_clear()
        && sense & PASSING_SENSE != 0
        && sense & LASTING_SENSE == 0
}

/// Whether the channel shows an error that another try may get over.
fn is_channel_error(csw: &Csw) -> bool
    ensures { result ≡ is_channel_error csw.now }
{
    csw.unit.is_normal() && PASSING_CHECKS.contains(&csw.sub)
}
