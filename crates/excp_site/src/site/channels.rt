//! Channels alone: a subchannel with a device, and storage of the caller.

ghost use Rattle.std.specs.Prelude.{◌≡◌, ◌≤◌, ◌<◌, IfErr, IfOk, OnErr, OnOk, None, Some, length, slice_set};
ghost use Rattle.std.specs.Bool.{OnFalse, OnTrue};
ghost use Rattle.any_device.specs.Devices.{any_device};
ghost use Rattle.excp_site.specs.Channels.{AddChannelRefused, AddsChannel, ChannelImageRefused, ChannelRefused, ChannelRunRefused, ChannelStartRefused, HaltsChannel, MakesChannelImage, OnChannel, RunsChannel, StartsChannel, TestsChannel, channel_at, seek_to, storage_at};
ghost use Rattle.io_area.specs.Storage.{SamePlace};
ghost use Rattle.subchannel.specs.Subchannel.{TakesSeek};

use crate::channel::{ChannelRan, ChannelStatus, OwnChannel, seek_to, status_stored};
use crate::refusal::Refusal;
use crate::site::Site;
use any_device::AnyDevice;
use device_port::Device;
use io_area::Area;
use io_images::{Address, Seek};
use subchannel::Subchannel;

/// Addresses have 24 bits.
const END_OF_ADDRESSES: u32 = 0x0100_0000;

impl Site {
    /// Adds a channel with a copy of the device of a unit as it is. Returns its number, counted from 0. No later channel has it.
    ///
    /// Errors: `NoUnit`, `NoMemory`.
    pub fn add_channel(&mut self, unit: u16) -> Result<u32, Refusal>
        ensures ok { IfOk result (λ number. AddsChannel self.old unit number self.new) }
        ensures refused { IfErr result (AddChannelRefused self.old.plain unit) }
        ensures err { OnErr result (self.new ≡ self.old) }
    {
        self.has_unit(unit)?;
        let device = self.plain.book(unit).device().copy()?;
        let Ok(number) = u32::try_from(self.channels.len()) else {
            return Err(Refusal::NoMemory);
        };
        let subchannel = Subchannel::new(device, 0);
        let channel = Box::new(self.alloc, OwnChannel { unit, subchannel })?;
        self.channels.push(Some(channel))?;
        Ok(number)
    }

    /// Frees a channel and its device.
    ///
    /// Error: `NothingThere` if there is no such channel.
    pub fn free_channel(&mut self, channel: u32) -> Result<(), Refusal>
        ensures ok { OnOk result (self.new ≡ record self.old { channels = slice_set self.old.channels channel None }) }
        ensures refused { IfErr result (ChannelRefused self.old channel) }
        ensures err { OnErr result (self.new ≡ self.old) }
    {
        self.channel(channel)?;
        self.channels[channel as usize] = None;
        Ok(())
    }

    /// START SUBCHANNEL: seeks, sets the file mask, and starts the program at an address. Returns the condition code.
    ///
    /// Errors: `NothingThere` if there is no such channel; `BadNumber` if its disk has no such track, or the address more than 24 bits.
    pub fn start_channel(
        &mut self,
        channel: u32,
        start: u32,
        cylinder: u16,
        head: u16,
        mask: u8,
    ) -> Result<u32, Refusal>
        ensures ok { IfOk result (λ code. OnChannel self.old channel (StartsChannel start (seek_to cylinder head) mask code) self.new) }
        ensures refused { IfErr result (ChannelStartRefused self.old channel start cylinder head) }
        ensures err { OnErr result (self.new ≡ self.old) }
    {
        let own = self.channel(channel)?;
        let seek = seek_to(cylinder, head);
        if start >= END_OF_ADDRESSES || !takes(&own.subchannel, &seek) {
            return Err(Refusal::BadNumber);
        }
        match &mut self.channels[channel as usize] {
            Some(own) => Ok(u32::from(own.subchannel.ssch(Address::new(start), &seek, mask))),
            None => Err(Refusal::NothingThere),
        }
    }

    /// Runs the program of a channel for at most `max` commands, on storage that lies at `base`.
    ///
    /// Errors: `NothingThere` if there is no such channel; `BadNumber` if `max` is 0; those of the storage, `AreaMisaligned`,
    /// `AreaTooLong`, `AreaPastTop`; `NoMemory`. The storage stays as it is then.
    pub fn run_channel(
        &mut self,
        channel: u32,
        max: u32,
        base: u32,
        storage: &mut [u8],
    ) -> Result<ChannelRan, Refusal>
        ensures ok { IfOk result (λ run. OnChannel self.old channel
            (RunsChannel max run (storage_at base storage.old) (storage_at base storage.new)) self.new) }
        ensures some { OnOk result (1 ≤ max) }
        ensures refused { IfErr result (ChannelRunRefused self.old channel max base (length storage.old)) }
        ensures err { OnErr result (self.new ≡ self.old) }
        ensures kept { OnErr result (storage.new ≡ storage.old) }
        ensures len { length storage.new ≡ length storage.old }
    {
        self.channel(channel)?;
        if max == 0 {
            return Err(Refusal::BadNumber);
        }
        let mut area = Area::new(self.alloc, base, storage)?;
        let run = self.run_on(channel, &mut area, max)?;
        if let Some(bytes) = area.get(base, storage.len()) {
            storage.copy_from_slice(bytes);
        }
        Ok(run)
    }

    /// Runs the program of a channel on an area.
    ///
    /// Error: `NothingThere` if there is no such channel.
    fn run_on(&mut self, channel: u32, area: &mut Area, max: u32) -> Result<ChannelRan, Refusal>
        requires some { 1 ≤ max }
        requires there { channel < length self.old.channels }
        ensures ok { IfOk result (λ run. OnChannel self.old channel (RunsChannel max run area.old area.new) self.new) }
        ensures place { SamePlace area.old area.new }
        ensures refused { IfErr result (ChannelRefused self.old channel) }
        ensures err { OnErr result (self.new ≡ self.old) }
    {
        match &mut self.channels[channel as usize] {
            Some(own) => Ok(run_of(&mut own.subchannel, area, max)),
            None => Err(Refusal::NothingThere),
        }
    }

    /// TEST SUBCHANNEL: the condition code, and the status with two sense bytes, which is then cleared.
    ///
    /// Error: `NothingThere` if there is no such channel.
    pub fn test_channel(&mut self, channel: u32) -> Result<ChannelStatus, Refusal>
        ensures ok { IfOk result (λ status. OnChannel self.old channel (TestsChannel status) self.new) }
        ensures refused { IfErr result (ChannelRefused self.old channel) }
        ensures err { OnErr result (self.new ≡ self.old) }
    {
        self.channel(channel)?;
        match &mut self.channels[channel as usize] {
            Some(own) => Ok(tested(&mut own.subchannel)),
            None => Err(Refusal::NothingThere),
        }
    }

    /// HALT SUBCHANNEL: the condition code.
    ///
    /// Error: `NothingThere` if there is no such channel.
    pub fn halt_channel(&mut self, channel: u32) -> Result<u32, Refusal>
        ensures ok { IfOk result (λ code. OnChannel self.old channel (HaltsChannel code) self.new) }
        ensures refused { IfErr result (ChannelRefused self.old channel) }
        ensures err { OnErr result (self.new ≡ self.old) }
    {
        self.channel(channel)?;
        match &mut self.channels[channel as usize] {
            Some(own) => Ok(u32::from(own.subchannel.hsch())),
            None => Err(Refusal::NothingThere),
        }
    }

    /// Makes an image of the medium of a channel, as `make_image` of a unit. It has what the image of its unit has beside its medium.
    ///
    /// Errors: `NothingThere` if there is no such channel; `NoImage`, `NoMemory`. What was made before stays then.
    pub fn make_channel_image(&mut self, channel: u32) -> Result<usize, Refusal>
        ensures len { IfOk result (λ len. len ≡ length self.new.made) }
        ensures ok { OnOk result (MakesChannelImage self.old channel self.new) }
        ensures refused { IfErr result (ChannelImageRefused self.old channel) }
        ensures err { OnErr result (self.new ≡ self.old) }
    {
        let own = self.channel(channel)?;
        // a unit stays, and so does the device of a channel
        self.has_unit(own.unit)?;
        let Some(device) = own.subchannel.device() else {
            return Err(Refusal::NothingThere);
        };
        let made = self.image_of(own.unit, device)?;
        let len = made.len();
        self.made = made;
        Ok(len)
    }

    /// A channel.
    ///
    /// Error: `NothingThere` if there is no such channel.
    fn channel(&self, number: u32) -> Result<&OwnChannel, Refusal>
        ensures ok { IfOk result (λ own. channel_at self.now number ≡ Some own.now) }
        ensures there { OnOk result (number < length self.now.channels) }
        ensures refused { IfErr result (ChannelRefused self.now number) }
    {
        match self.channels.get(number as usize) {
            Some(Some(own)) => Ok(own),
            _ => Err(Refusal::NothingThere),
        }
    }
}

/// Whether the device of a channel takes a seek.
fn takes(channel: &Subchannel<AnyDevice>, seek: &Seek) -> bool
    ensures yes { OnTrue result (TakesSeek any_device channel.now.device seek.now) }
    ensures no { OnFalse result (TakesSeek any_device channel.now.device seek.now → ⊥) }
{
    match channel.device() {
        Some(device) => device.fits(seek),
        None => true,
    }
}

/// Runs the program of a channel, if one runs.
fn run_of(channel: &mut Subchannel<AnyDevice>, area: &mut Area, max: u32) -> ChannelRan
    requires { 1 ≤ max }
    ensures runs { RunsChannel max result area.old area.new channel.old channel.new }
    ensures place { SamePlace area.old area.new }
{
    let commands = match channel.run(area, max) {
        Some(burst) => burst.commands,
        None => 0,
    };
    ChannelRan {
        commands,
        pending: u32::from(channel.pending()),
    }
}

/// The condition code of a TEST SUBCHANNEL, and the status that it stores, which is then cleared.
fn tested(channel: &mut Subchannel<AnyDevice>) -> ChannelStatus
    ensures { TestsChannel result channel.old channel.new }
{
    let (code, stored) = channel.tsch();
    status_stored(code, stored)
}
