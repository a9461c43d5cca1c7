//! The length of a command, whether it is shown as incorrect, and the next command (Principles of Operation, chapter
//! 15, "Command Chaining", and chapter 16, "Incorrect Length").

ghost use Rattle.std.specs.Prelude.{◌≡◌, ◌≤◌, ◌<◌, ◌+◌, ◌%◌, ◌^◌};
ghost use Rattle.ccw_programs.specs.Links.{Sound};
ghost use Rattle.ccw_programs.specs.Step.{shows_length, sub_status, goes_on, next_address};

use crate::fetch::Link;
use device_port::{Acted, Flow};
use io_images::{SubStatus, UnitStatus};

/// Whether incorrect length is shown. The program counts `counted` bytes from the first CCW of the command on, and the
/// device wants `want`. The command ended at the CCW `ended`.
#[inline(always)]
fn shows_length(flow: Flow, first: &Link, counted: u32, want: u32, ended: &Link) -> bool
    ensures { result ≡ shows_length flow first.now counted want ended.now }
{
    match flow {
        Flow::None => first.ccw.flags.chains_data(),
        Flow::Out | Flow::Input | Flow::Back => {
            want != counted
                && (ended.ccw.flags.chains_data() || !ended.ccw.flags.suppresses_length())
        }
    }
}

/// The subchannel status of such a command, by the CCW where it ended: an incorrect length is shown beside no other
/// error.
#[inline(always)]
pub(crate) fn sub_status(
    flow: Flow,
    first: &Link,
    counted: u32,
    acted: Acted,
    ended: &Link,
) -> SubStatus
    ensures { result.0 ≡ sub_status flow first.now counted acted ended.now }
{
    if acted.unit.is_normal()
        && acted.sub.is_clear()
        && shows_length(flow, first, counted, acted.want, ended)
    {
        SubStatus::INCORRECT_LENGTH
    } else {
        acted.sub
    }
}

/// Whether the program goes on to another command after its last CCW.
#[inline(always)]
pub(crate) fn goes_on(last: &Link, unit: UnitStatus, sub: SubStatus) -> bool
    ensures { result ≡ goes_on last.now unit.0 sub.0 }
{
    last.ccw.flags.chains_command()
        && (unit == UnitStatus::NORMAL_END || unit == UnitStatus::MODIFIER_END)
        && sub.is_clear()
}

/// The address of the next command: after the last CCW, or after one more with status modifier.
#[inline(always)]
pub(crate) fn next_address(last: &Link, unit: UnitStatus) -> u32
    requires { Sound last.now }
    ensures { result ≡ next_address last.now unit.0 }
{
    if unit == UnitStatus::MODIFIER_END {
        last.at + 16
    } else {
        last.at + 8
    }
}
