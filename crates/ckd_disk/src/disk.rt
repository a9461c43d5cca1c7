//! The disk as a device: its mounting, its commands, and its reader.

ghost use Rattle.std.specs.Prelude.{◌≡◌, ◌+◌, ◌-◌, ◌*◌, ◌^◌, ◌<◌, ◌≤◌, ℕ, length, map, IfNone, IfOk, IfSome, [], true};
ghost use Rattle.std.specs.List.{AllByRecursion};
ghost use Rattle.device_port.specs.Faults.{IsClear};
ghost use Rattle.device_port.specs.Packed.{image_of};
ghost use Rattle.ckd_disk.specs.Access.{access_of};
ghost use Rattle.ckd_disk.specs.Record.{FitsCountArea, ckd};
ghost use Rattle.ckd_disk.specs.Disk.{disk, seek_given, track_of, at_start};
ghost use Rattle.ckd_disk.specs.DiskLaws.{disk_lawful};
ghost use Rattle.ckd_disk.specs.DiskSize.{disk_keeps_size, disk_size};

use crate::access::{Access, Armed};
use crate::command::{Command, ControlCommand, Read, Write};
use crate::commands::{
    check, no_operation, read_count, read_count_key_and_data, read_data, read_key_and_data,
    search_id, search_key, sense, write_count_key_and_data, write_data, write_key_and_data,
};
use crate::mount::{
    Geometry, InitialRecord, are_initial, described_tracks, have_room, is_geometry, place,
};
use crate::track::{Records, Track};
use device_port::{
    Acted, COMMAND_REJECT, Chain, Device, FILE_PROTECTED, Fault, FaultScript, FixedSize, Flow,
    Given, Kind, MountError, is_script,
};
use io_area::Area;
use io_images::{FileMask, Seek};
use std::alloc::{AllocError, Global};
use std::marker::Model;

/// A disk of count-key-data records (profile). Contracts see the tracks in the order of their numbers, the track under
/// the heads, what the last command left for the next one, and the fault script.
#[derive(Drop)]
pub struct Disk {
    cylinders: u16,
    heads: u16,
    tracks: Vec<Track>,
    track: usize,
    access: Access,
    faults: FaultScript,
}

impl Model for Disk {
    ghost use Rattle.ckd_disk.specs.Disk.{DiskState, disk_state, IsDisk};

    ghost Value = { DiskState };

    ghost view = { λ d. disk_state d.cylinders d.heads d.tracks.items d.track d.access d.faults };

    ghost invariant = { λ d. IsDisk (disk_state d.cylinders d.heads d.tracks.items d.track d.access d.faults) d.access };
}

impl Disk {
    ghost use Rattle.std.specs.Prelude.{◌≡◌, ◌<◌, [], length};
    ghost use Rattle.device_port.specs.Moves.{AllLie, CanAct, gathered, offered, received, stored};
    ghost use Rattle.device_port.specs.Meaning.{effect};
    ghost use Rattle.ckd_disk.specs.Command.{command_of, flow_of};
    ghost use Rattle.io_area.specs.Storage.{SamePlace};
    ghost use Rattle.ckd_disk.specs.Disk.{records_of, command_on, control_on, read_on, write_on, seek, is_seek, prefix};
    ghost use Rattle.ckd_disk.specs.Mount.{Mounts};

    /// A disk that holds R0 and then these records on each track, and meets these faults (profile). Its heads are at
    /// the index point of track 0.
    ///
    /// Errors, in this order:
    ///
    /// - `BadGeometry`: a number of the geometry is outside its range.
    /// - `BadMedium`: a record is outside the geometry, is R0, has a key over 255 bytes or a data area over 65,535, or
    ///   does not fit its track. Or the faults are no fault script.
    /// - `NoMemory`.
    pub fn mount(
        alloc: Global,
        geometry: Geometry,
        records: &[InitialRecord],
        faults: &[Fault],
    ) -> Result<Self, MountError>
        ensures { Mounts geometry records.now faults.now result }
    {
        if !is_geometry(geometry) {
            return Err(MountError::BadGeometry);
        }
        if !is_script(faults) || !are_initial(geometry, records) {
            return Err(MountError::BadMedium);
        }
        let Ok(mut tracks) = described_tracks(alloc, geometry) else {
            return Err(if have_room(geometry, records) {
                MountError::NoMemory
            } else {
                MountError::BadMedium
            });
        };
        if !place(&mut tracks, geometry, records) {
            return Err(MountError::BadMedium);
        }
        let Ok(faults) = FaultScript::new(alloc, faults) else {
            return Err(MountError::NoMemory);
        };
        Ok(Disk {
            cylinders: geometry.cylinders as u16,
            heads: geometry.heads as u16,
            tracks,
            track: 0,
            access: Access::start(FileMask(0)),
            faults,
        })
    }

    /// The records of a track, from the index point on; none of a track that the disk does not have.
    pub fn records(&self, cylinder: u16, head: u16) -> Records<'_>
        ensures { result ≡ records_of self.now cylinder head }
    {
        if cylinder >= self.cylinders || head >= self.heads {
            return Records::none();
        }
        let number = usize::from(cylinder) * usize::from(self.heads) + usize::from(head);
        self.tracks[number].records()
    }

    /// A disk with these tracks, its heads at the index point of track 0.
    pub(crate) fn of(cylinders: u16, heads: u16, tracks: Vec<Track>, faults: FaultScript) -> Self
        requires all { length tracks.items ≡ cylinders * heads }
        requires some { 0 < length tracks.items }
        requires filled { AllByRecursion (λ t. 0 < length t.records) tracks.items }
        ensures { result ≡ record { cylinders = cylinders; heads = heads; tracks = tracks.items; track = 0; access = at_start 0; ordinals = faults } }
    {
        Disk {
            cylinders,
            heads,
            tracks,
            track: 0,
            access: Access::start(FileMask(0)),
            faults,
        }
    }

    /// The number of the track under the heads.
    pub fn track(&self) -> usize
        ensures { result ≡ self.now.track }
    {
        self.track
    }

    /// What the last command left for the next one, beside the medium.
    pub fn access(&self) -> Access
        ensures { access_of result ≡ self.now.access }
    {
        self.access
    }

    /// How many commands were done, if a fault may still come. Otherwise no later command meets one.
    pub fn to_come(&self) -> Option<u64>
        ensures done { IfSome result (λ done. done ≡ self.now.ordinals.done) }
        ensures none { IfNone result (IsClear self.now.ordinals.script self.now.ordinals.done (2 ^ 64 - 1)) }
    {
        self.faults.to_come()
    }

    /// How many tracks the disk has.
    pub fn tracks(&self) -> usize
        ensures tracks { result ≡ length self.now.tracks }
        ensures some { 1 ≤ result }
    {
        self.tracks.len()
    }

    /// How many bytes a track has, by its number.
    pub fn track_bytes(&self, number: usize) -> usize
        requires { number < length self.now.tracks }
        ensures { result ≡ (track_of self.now.tracks number).size }
    {
        self.tracks[number].size()
    }

    /// The bytes of the records of a track, packed one after the other from the index point on, by the track's number.
    pub fn track_image(&self, number: usize) -> &[u8]
        requires { number < length self.now.tracks }
        ensures image { result.now ≡ image_of ckd (track_of self.now.tracks number).records }
        ensures within { length result.now ≤ (track_of self.now.tracks number).size }
        ensures fits { AllByRecursion FitsCountArea (track_of self.now.tracks number).records }
        ensures some { 0 < length (track_of self.now.tracks number).records }
    {
        self.tracks[number].image()
    }

    /// Counts a command against the fault script: ends it with its fault if it has one, and executes it otherwise.
    #[inline(never)]
    fn act_or_fault(&mut self, command: u8, chain: &Chain<'_>, area: &mut Area) -> Acted
        requires { CanAct (flow_of (command_of command)) area.old chain.now }
        ensures acted { result ≡ (effect disk self.old command chain.now area.old).acted }
        ensures device { self.new ≡ (effect disk self.old command chain.now area.old).device }
        ensures area { area.new ≡ (effect disk self.old command chain.now area.old).area }
        ensures place { SamePlace area.old area.new }
    {
        if let Some(fault) = self.faults.count() {
            let orientation = self.access.orientation;
            self.access.leave(orientation, Armed::No);
            return fault.acted();
        }
        self.execute(command, chain, area)
    }

    /// Executes a command that meets no fault.
    #[inline(always)]
    fn execute(&mut self, command: u8, chain: &Chain<'_>, area: &mut Area) -> Acted
        requires { CanAct (flow_of (command_of command)) area.old chain.now }
        ensures acted { result ≡ (command_on self.old (command_of command) (offered (flow_of (command_of command)) area.old chain.now)).acted }
        ensures device { self.new ≡ (command_on self.old (command_of command) (offered (flow_of (command_of command)) area.old chain.now)).device }
        ensures area { area.new ≡ received (flow_of (command_of command)) chain.now (command_on self.old (command_of command) (offered (flow_of (command_of command)) area.old chain.now)).bytes area.old }
        ensures place { SamePlace area.old area.new }
    {
        match Command::decode(command) {
            None => check(&mut self.access, COMMAND_REJECT),
            Some(Command::Control(control)) => self.control(control),
            Some(Command::Read(read)) => self.read(read, chain, area),
            Some(Command::Write(write)) => self.write(write, chain, area),
        }
    }

    /// Executes a command that moves no data.
    fn control(&mut self, command: ControlCommand) -> Acted
        ensures acted { result ≡ (control_on self.old command).acted }
        ensures device { self.new ≡ (control_on self.old command).device }
    {
        match command {
            ControlCommand::NoOperation => no_operation(&mut self.access),
            ControlCommand::SetFileMask => check(&mut self.access, COMMAND_REJECT),
        }
    }

    /// Executes a command that gives data to the program.
    #[inline(always)]
    fn read(&mut self, command: Read, chain: &Chain<'_>, area: &mut Area) -> Acted
        requires { AllLie Flow.Input area.old chain.now }
        ensures acted { result ≡ (read_on self.old command).acted }
        ensures device { self.new ≡ (read_on self.old command).device }
        ensures area { area.new ≡ stored chain.now (read_on self.old command).bytes area.old }
        ensures place { SamePlace area.old area.new }
    {
        let track = &self.tracks[self.track];
        let access = &mut self.access;
        let answer = match command {
            Read::Sense => sense(access),
            Read::Count => read_count(track, access),
            Read::Data => read_data(track, access),
            Read::KeyAndData => read_key_and_data(track, access),
            Read::CountKeyAndData => read_count_key_and_data(track, access),
        };
        chain.store(area, answer.bytes);
        answer.acted
    }

    /// Executes a command that takes data from the program.
    #[inline(always)]
    fn write(&mut self, command: Write, chain: &Chain<'_>, area: &Area) -> Acted
        requires { AllLie Flow.Out area.now chain.now }
        ensures acted { result ≡ (write_on self.old command (gathered area.now chain.now)).acted }
        ensures device { self.new ≡ (write_on self.old command (gathered area.now chain.now)).device }
    {
        let given = &Given::new(chain, area);
        let track = &mut self.tracks[self.track];
        let access = &mut self.access;
        match command {
            Write::Seek => self.seek(given),
            Write::SearchId => search_id(track, access, given),
            Write::SearchKey => search_key(track, access, given),
            Write::Data => write_data(track, access, given),
            Write::KeyAndData => write_key_and_data(track, access, given),
            Write::CountKeyAndData => write_count_key_and_data(track, access, given),
        }
    }

    /// SEEK.
    #[inline(never)]
    fn seek(&mut self, given: &Given<'_>) -> Acted
        ensures acted { result ≡ (seek self.old given.now).acted }
        ensures device { self.new ≡ (seek self.old given.now).device }
    {
        if self.access.mask.inhibits_seeks() {
            return check(&mut self.access, FILE_PROTECTED);
        }
        if given.len() < 6 {
            return check(&mut self.access, COMMAND_REJECT);
        }
        let seek = seek_given(given);
        if !self.has_track(&seek) {
            return check(&mut self.access, COMMAND_REJECT);
        }
        self.move_to(&seek, self.access.mask);
        Acted::normal_end(6)
    }

    /// Whether a seek address names a track of the disk.
    fn has_track(&self, seek: &Seek) -> bool
        ensures { result ≡ is_seek self.now seek.now }
    {
        seek.bin == 0 && seek.cylinder < self.cylinders && seek.head < self.heads
    }

    /// Puts the heads on a track, at its index point.
    fn move_to(&mut self, seek: &Seek, mask: FileMask)
        requires { is_seek self.old seek.now ≡ true }
        ensures { self.new ≡ prefix self.old seek.now mask.0 }
    {
        self.track = usize::from(seek.cylinder) * usize::from(self.heads) + usize::from(seek.head);
        self.access = Access::start(mask);
    }
}

impl Device for Disk {
    ghost meaning = { disk };

    fn kind(&self) -> Kind {
        Kind::Disk
    }

    fn cylinders(&self) -> u16 {
        self.cylinders
    }

    fn heads(&self) -> u16 {
        self.heads
    }

    fn fits(&self, seek: &Seek) -> bool {
        self.has_track(seek)
    }

    fn flow(&self, command: u8) -> Flow {
        Command::flow(Command::decode(command))
    }

    fn prefix(&mut self, seek: &Seek, mask: u8) {
        self.move_to(seek, FileMask(mask));
    }

    fn act(&mut self, command: u8, chain: &Chain<'_>, area: &mut Area) -> Acted {
        if self.faults.pass() {
            self.execute(command, chain, area)
        } else {
            self.act_or_fault(command, chain, area)
        }
    }

    fn copy(&self) -> Result<Self, AllocError> {
        Ok(Disk {
            cylinders: self.cylinders,
            heads: self.heads,
            tracks: copy_tracks(&self.tracks)?,
            track: self.track,
            access: self.access,
            faults: self.faults.copy()?,
        })
    }

    ghost lawful = { disk_lawful };
}

impl FixedSize for Disk {
    ghost size = { disk_size };

    fn copy_from(&mut self, from: &Self) {
        copy_onto(&mut self.tracks, &from.tracks);
        self.faults.copy_from(&from.faults);
        self.cylinders = from.cylinders;
        self.heads = from.heads;
        self.track = from.track;
        self.access = from.access;
    }

    ghost keeps_size = { disk_keeps_size };
}

/// Makes tracks the same as others of the same sizes, one by one.
fn copy_onto(tracks: &mut Vec<Track>, from: &Vec<Track>)
    requires { map (λ t. t.size) tracks.old.items ≡ map (λ t. t.size) from.now.items }
    ensures { tracks.new.items ≡ from.now.items }
{
    for number in 0..from.len() {
        tracks[number].copy_from(&from[number]);
    }
}

/// Copies the tracks of a disk, in their order. Fails only if memory runs out.
fn copy_tracks(tracks: &Vec<Track>) -> Result<Vec<Track>, AllocError>
    ensures { IfOk result (λ copies. copies.items ≡ tracks.now.items) }
{
    let alloc = *tracks.allocator();
    let mut copies = Vec::with_capacity(alloc, tracks.len())?;
    for track in tracks {
        copies.push(track.copy()?)?;
    }
    Ok(copies)
}

/// The seek address whose BBCCHH a program gives.
fn seek_given(given: &Given<'_>) -> Seek
    requires { 6 ≤ length given.now }
    ensures { result ≡ seek_given given.now }
{
    let mut address = [0; 8];
    given.fill(&mut address[1..7]);
    Seek::read(&address)
}
