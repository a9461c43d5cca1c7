//! Channels alone (c/excp.h, "The channel alone").

ghost use Rattle.std.specs.Prelude.{◌≡◌, ◌≢◌, None, length, slice_set};
ghost use Rattle.excp_site.specs.Channels.{AddChannelRefused, AddsChannel, ChannelImageRefused, ChannelRefused, ChannelRunRefused, ChannelStartRefused, HaltsChannel, MakesChannelImage, OnChannel, RunsChannel, StartsChannel, TestsChannel, seek_to, storage_at};
ghost use Rattle.excp_c.specs.Done.{Did, Refused};
ghost use Rattle.excp_c.specs.Calls.{KeepsSite, SameSite, TestsSite};

use crate::handle::Handle;
use crate::status::{NO_SITE, done, give};
use excp_site::{ChannelRan, ChannelStatus};

/// `excp_channel_new`.
#[unsafe(no_mangle)]
pub extern "C" fn excp_call_channel_new(handle: &mut Handle, unit: u16, channel: &mut u32) -> u32
    ensures site { TestsSite handle.old result }
    ensures keeps { KeepsSite handle.old handle.new }
    ensures done { result ≡ 0 → Did handle.old handle.new (λ s t. AddsChannel s unit channel.new t) }
    ensures why { result ≢ 0 → result ≢ 3 → Refused handle.old handle.new result (λ s _. AddChannelRefused s.plain unit) }
    ensures refused { result ≢ 0 → SameSite handle.old handle.new × (channel.new ≡ channel.old) }
{
    let Some(site) = handle.site() else {
        return NO_SITE;
    };
    give(site.add_channel(unit), channel)
}

/// `excp_channel_free`.
#[unsafe(no_mangle)]
pub extern "C" fn excp_call_channel_free(handle: &mut Handle, channel: u32) -> u32
    ensures site { TestsSite handle.old result }
    ensures keeps { KeepsSite handle.old handle.new }
    ensures done { result ≡ 0 → Did handle.old handle.new (λ s t. t ≡ record s { channels = slice_set s.channels channel None }) }
    ensures why { result ≢ 0 → result ≢ 3 → Refused handle.old handle.new result (λ s _. ChannelRefused s channel) }
    ensures refused { result ≢ 0 → SameSite handle.old handle.new }
{
    let Some(site) = handle.site() else {
        return NO_SITE;
    };
    done(site.free_channel(channel))
}

/// `excp_channel_start`.
#[unsafe(no_mangle)]
pub extern "C" fn excp_call_channel_start(
    handle: &mut Handle,
    channel: u32,
    start: u32,
    cylinder: u16,
    head: u16,
    file_mask: u8,
    code: &mut u32,
) -> u32
    ensures site { TestsSite handle.old result }
    ensures keeps { KeepsSite handle.old handle.new }
    ensures done { result ≡ 0 → Did handle.old handle.new (λ s t. OnChannel s channel (StartsChannel start (seek_to cylinder head) file_mask code.new) t) }
    ensures why { result ≢ 0 → result ≢ 3 → Refused handle.old handle.new result (λ s _. ChannelStartRefused s channel start cylinder head) }
    ensures refused { result ≢ 0 → SameSite handle.old handle.new × (code.new ≡ code.old) }
{
    let Some(site) = handle.site() else {
        return NO_SITE;
    };
    give(
        site.start_channel(channel, start, cylinder, head, file_mask),
        code,
    )
}

/// `excp_channel_run`.
#[unsafe(no_mangle)]
pub extern "C" fn excp_call_channel_run(
    handle: &mut Handle,
    channel: u32,
    max_commands: u32,
    base: u32,
    storage: &mut [u8],
    ran: &mut ChannelRan,
) -> u32
    ensures site { TestsSite handle.old result }
    ensures keeps { KeepsSite handle.old handle.new }
    ensures done { result ≡ 0 → Did handle.old handle.new (λ s t. OnChannel s channel (RunsChannel max_commands ran.new (storage_at base storage.old) (storage_at base storage.new)) t) }
    ensures why { result ≢ 0 → result ≢ 3 → Refused handle.old handle.new result (λ s _. ChannelRunRefused s channel max_commands base (length storage.old)) }
    ensures refused { result ≢ 0 → SameSite handle.old handle.new × (ran.new ≡ ran.old) × (storage.new ≡ storage.old) }
{
    let Some(site) = handle.site() else {
        return NO_SITE;
    };
    give(site.run_channel(channel, max_commands, base, storage), ran)
}

/// `excp_channel_test`.
#[unsafe(no_mangle)]
pub extern "C" fn excp_call_channel_test(
    handle: &mut Handle,
    channel: u32,
    status: &mut ChannelStatus,
) -> u32
    ensures site { TestsSite handle.old result }
    ensures keeps { KeepsSite handle.old handle.new }
    ensures done { result ≡ 0 → Did handle.old handle.new (λ s t. OnChannel s channel (TestsChannel status.new) t) }
    ensures why { result ≢ 0 → result ≢ 3 → Refused handle.old handle.new result (λ s _. ChannelRefused s channel) }
    ensures refused { result ≢ 0 → SameSite handle.old handle.new × (status.new ≡ status.old) }
{
    let Some(site) = handle.site() else {
        return NO_SITE;
    };
    give(site.test_channel(channel), status)
}

/// `excp_channel_halt`.
#[unsafe(no_mangle)]
pub extern "C" fn excp_call_channel_halt(handle: &mut Handle, channel: u32, code: &mut u32) -> u32
    ensures site { TestsSite handle.old result }
    ensures keeps { KeepsSite handle.old handle.new }
    ensures done { result ≡ 0 → Did handle.old handle.new (λ s t. OnChannel s channel (HaltsChannel code.new) t) }
    ensures why { result ≢ 0 → result ≢ 3 → Refused handle.old handle.new result (λ s _. ChannelRefused s channel) }
    ensures refused { result ≢ 0 → SameSite handle.old handle.new × (code.new ≡ code.old) }
{
    let Some(site) = handle.site() else {
        return NO_SITE;
    };
    give(site.halt_channel(channel), code)
}

/// `excp_channel_make_image`.
#[unsafe(no_mangle)]
pub extern "C" fn excp_call_channel_make_image(
    handle: &mut Handle,
    channel: u32,
    count: &mut usize,
) -> u32
    ensures site { TestsSite handle.old result }
    ensures keeps { KeepsSite handle.old handle.new }
    ensures done { result ≡ 0 → Did handle.old handle.new (λ s t. (count.new ≡ length t.made) × MakesChannelImage s channel t) }
    ensures why { result ≢ 0 → result ≢ 3 → Refused handle.old handle.new result (λ s _. ChannelImageRefused s channel) }
    ensures refused { result ≢ 0 → SameSite handle.old handle.new × (count.new ≡ count.old) }
{
    let Some(site) = handle.site() else {
        return NO_SITE;
    };
    give(site.make_channel_image(channel), count)
}
