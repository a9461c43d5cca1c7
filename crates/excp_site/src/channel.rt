//! A channel alone, and what its calls did.

ghost use Rattle.std.specs.Prelude.{◌≡◌};
ghost use Rattle.excp_site.specs.Channels.{seek_to, stored_in_c};

use any_device::AnyDevice;
use io_images::{Csw, Seek};
use subchannel::Subchannel;

/// A subchannel with a device of its own.
#[derive(Drop)]
pub struct OwnChannel {
    /// The unit whose device it copied, and whose image has the rest of its own.
    pub unit: u16,
    pub subchannel: Subchannel<AnyDevice>,
}

/// What a run of a channel did (`excp_channel_ran`): how many commands, and whether a status is pending.
#[repr(C)]
#[derive(Clone, Copy)]
pub struct ChannelRan {
    pub commands: u32,
    pub pending: u32,
}

/// What TEST SUBCHANNEL stored, with its condition code (`excp_channel_status`). If it stored nothing, the rest is 0.
#[repr(C)]
#[derive(Clone, Copy)]
pub struct ChannelStatus {
    pub address: u32,
    pub residual: u16,
    pub sense: u16,
    pub code: u8,
    pub unit_status: u8,
    pub channel_status: u8,
}

/// What TEST SUBCHANNEL stored, as C sees it.
pub(crate) fn status_stored(code: u8, stored: Option<(Csw, u16)>) -> ChannelStatus
    ensures { result ≡ stored_in_c code stored }
{
    match stored {
        Some((csw, sense)) => ChannelStatus {
            address: csw.address.get(),
            residual: csw.residual,
            sense,
            code,
            unit_status: csw.unit.0,
            channel_status: csw.sub.0,
        },
        None => ChannelStatus {
            address: 0,
            residual: 0,
            sense: 0,
            code,
            unit_status: 0,
            channel_status: 0,
        },
    }
}

/// The seek to a track.
pub(crate) fn seek_to(cylinder: u16, head: u16) -> Seek
    ensures { result ≡ seek_to cylinder head }
{
    Seek {
        extent: 0,
        bin: 0,
        cylinder,
        head,
        record: 0,
    }
}
