//! The records of a disk at which commands were.

ghost use Rattle.std.specs.Prelude.{◌≡◌, IfSome, IsTrue, option_map};
ghost use Rattle.ckd_disk.specs.Access.{orientation_of};
ghost use Rattle.ckd_disk.specs.Disk.{track_number};
ghost use Rattle.any_device.specs.declared.device.AnyDevice.TheVariants.{Disk as AsDisk};
ghost use Rattle.unit_history.specs.declared.before.CommandEnd.TheVariants.{Normal};
ghost use Rattle.unit_history.specs.Places.{IsCheck, IsWhere, record_after};

use crate::before::{CommandEnd, Done};
use crate::place::{MediumPosition, Passed, RecordPlace};
use ckd_disk::command::{Command, Read, Write};
use ckd_disk::{Armed, Disk, Orientation, Spot};
use device_port::{Device, NO_RECORD_FOUND};

/// Where a count area has its key length, and how long it is.
const KEY_LENGTH: usize = 5;

const COUNT_AREA: usize = 8;

/// What a command does with a record.
#[derive(Clone, Copy)]
enum Use {
    SearchesId,
    SearchesKey,
    /// It reads or writes the record.
    Moves,
    Nothing,
}

/// Whether the searches of a disk begin to count index points: its heads were put on a track, and nothing was done since.
pub(crate) fn begins(disk: &Disk) -> bool {
    matches!(disk.access().orientation, Orientation::Index)
}

/// The record of a command that was done, by the disk after it. `passed` counts the records that searches compared.
pub(crate) fn place_on_disk<'m>(
    disk: &'m Disk,
    done: &Done,
    passed: &mut u64,
) -> Option<MediumPosition<'m>>
    ensures { IfSome result (IsWhere (AsDisk disk.now) done.now.ended) }
{
    let compared = *passed;
    *passed = 0;
    let by_key = match use_of(done.code) {
        Use::SearchesId => false,
        Use::SearchesKey => true,
        Use::Moves if done.is_normal() => return record(disk, None),
        Use::Moves | Use::Nothing => return None,
    };
    if done.is_normal() {
        *passed = compared.saturating_add(1);
        return record(disk, Some(is_equal(disk)));
    }
    if !is_not_found(done.ended) {
        return None;
    }
    let (cylinder, head) = track(disk)?;
    Some(MediumPosition::NoRecord(Passed {
        cylinder,
        head,
        passed: compared,
        by_key,
        disk,
    }))
}

/// Whether a search ended because it found no record.
fn is_not_found(ended: CommandEnd) -> bool
    ensures { IsTrue result → IsCheck ended }
{
    match ended {
        CommandEnd::Check(sense) => sense & NO_RECORD_FOUND != 0,
        CommandEnd::Normal | CommandEnd::Fault => false,
    }
}

fn use_of(code: u8) -> Use {
    match Command::decode(code) {
        Some(Command::Write(Write::SearchId)) => Use::SearchesId,
        Some(Command::Write(Write::SearchKey)) => Use::SearchesKey,
        Some(Command::Read(Read::Sense)) | Some(Command::Write(Write::Seek)) => Use::Nothing,
        Some(Command::Read(_)) | Some(Command::Write(_)) => Use::Moves,
        Some(Command::Control(_)) | None => Use::Nothing,
    }
}

/// Whether the last command was a search that matched.
fn is_equal(disk: &Disk) -> bool {
    matches!(disk.access().armed, Armed::Id(_) | Armed::Key(_))
}

/// The cylinder and head of the track under the heads.
fn track(disk: &Disk) -> Option<(u16, u16)>
    ensures { IfSome result (λ t. track_number disk.now.heads t.0 t.1 ≡ disk.now.track) }
{
    let track = disk.track();
    let heads = usize::from(disk.heads());
    if heads == 0 {
        return None;
    }
    let cylinder = u16::try_from(track / heads).ok()?;
    let head = u16::try_from(track % heads).ok()?;
    Some((cylinder, head))
}

/// The record after which the heads are.
fn record(disk: &Disk, is_equal: Option<bool>) -> Option<MediumPosition<'_>>
    ensures { IfSome result (IsWhere (AsDisk disk.now) Normal) }
{
    let (cylinder, head) = track(disk)?;
    let spot = spot(disk.access().orientation)?;
    let bytes = image(disk)?.get(spot.offset..)?;
    let key_length = usize::from(*bytes.get(KEY_LENGTH)?);
    Some(MediumPosition::Record(RecordPlace {
        cylinder,
        head,
        nth: spot.place,
        id: bytes.get(..KEY_LENGTH)?,
        key: bytes.get(COUNT_AREA..COUNT_AREA + key_length)?,
        is_equal,
    }))
}

/// The record of an orientation.
fn spot(orientation: Orientation) -> Option<Spot>
    ensures { option_map (λ s. s.place) result ≡ record_after (orientation_of orientation) }
{
    match orientation {
        Orientation::Index => None,
        Orientation::Count(spot) | Orientation::Key(spot) | Orientation::End(spot) => Some(spot),
    }
}

/// The packed records of the track under the heads.
fn image(disk: &Disk) -> Option<&[u8]> {
    let number = disk.track();
    if number >= disk.tracks() {
        return None;
    }
    Some(disk.track_image(number))
}
