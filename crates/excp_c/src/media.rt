//! Media and units (c/excp.h, "Media and units").

ghost use Rattle.std.specs.Prelude.{◌≡◌, ◌≢◌, ◌∷◌, ◌++◌, []};
ghost use Rattle.any_device.specs.declared.device.AnyDevice.TheVariants as AnyDevice;
ghost use Rattle.ckd_disk.specs.Mount.{opening as opening_disk};
ghost use Rattle.tape_unit.specs.Mount.{opening as opening_tape};
ghost use Rattle.tape_unit.specs.Item.{block, tape_mark};
ghost use Rattle.line_printer.specs.Mount.{opening as opening_printer};
ghost use Rattle.excp_site.specs.Imaging.{AwsRefused, CkdRefused, MountsAws, MountsCkd};
ghost use Rattle.excp_site.specs.Media.{IsEmpty, PutsItem, PutsRecord};
ghost use Rattle.excp_site.specs.Mounting.{DiskRefused, DiskTaken, PrinterRefused, PrinterTaken, TapeRefused, TapeTaken};
ghost use Rattle.excp_c.specs.Done.{Did, PutsNoFault, PutsNoItem, PutsNoRecord, Mounts, OnlyFaults, OnlyItems, OnlyMedium, OnlyRecords, Refused, RefusedAs};
ghost use Rattle.excp_c.specs.Numbers.{fault_from_c};
ghost use Rattle.excp_c.specs.Calls.{KeepsSite, SameSite, TestsSite};

use crate::handle::Handle;
use crate::status::{NO_SITE, OK, done, give_or_explain};
use ckd_disk::Geometry;
use device_port::Fault;
use excp_site::{RefusedCall, Room};
use io_images::{SubStatus, UnitStatus};

/// `excp_put_record`.
#[unsafe(no_mangle)]
pub extern "C" fn excp_call_put_record(
    handle: &mut Handle,
    cylinder: u16,
    head: u16,
    number: u8,
    key: &[u8],
    content: &[u8],
) -> u32
    ensures site { TestsSite handle.old result }
    ensures keeps { KeepsSite handle.old handle.new }
    ensures done { result ≡ 0 → Did handle.old handle.new (λ s t. PutsRecord s.medium.records.items cylinder head number key.now content.now t.medium.records.items × OnlyRecords s t) }
    ensures why { result ≢ 0 → result ≢ 3 → Refused handle.old handle.new result PutsNoRecord }
    ensures none { result ≡ 3 → SameSite handle.old handle.new }
{
    let Some(site) = handle.site() else {
        return NO_SITE;
    };
    done(site.put_record(cylinder, head, number, key, content))
}

/// `excp_put_block`.
#[unsafe(no_mangle)]
pub extern "C" fn excp_call_put_block(handle: &mut Handle, content: &[u8]) -> u32
    ensures site { TestsSite handle.old result }
    ensures keeps { KeepsSite handle.old handle.new }
    ensures done { result ≡ 0 → Did handle.old handle.new (λ s t. PutsItem s.medium.items.items (block content.now) t.medium.items.items × OnlyItems s t) }
    ensures why { result ≢ 0 → result ≢ 3 → Refused handle.old handle.new result PutsNoItem }
    ensures none { result ≡ 3 → SameSite handle.old handle.new }
{
    let Some(site) = handle.site() else {
        return NO_SITE;
    };
    done(site.put_block(content))
}

/// `excp_put_tape_mark`.
#[unsafe(no_mangle)]
pub extern "C" fn excp_call_put_tape_mark(handle: &mut Handle) -> u32
    ensures site { TestsSite handle.old result }
    ensures keeps { KeepsSite handle.old handle.new }
    ensures done { result ≡ 0 → Did handle.old handle.new (λ s t. PutsItem s.medium.items.items tape_mark t.medium.items.items × OnlyItems s t) }
    ensures why { result ≢ 0 → result ≢ 3 → Refused handle.old handle.new result PutsNoItem }
    ensures none { result ≡ 3 → SameSite handle.old handle.new }
{
    let Some(site) = handle.site() else {
        return NO_SITE;
    };
    done(site.put_tape_mark())
}

/// `excp_put_fault`.
#[unsafe(no_mangle)]
pub extern "C" fn excp_call_put_fault(
    handle: &mut Handle,
    command: u64,
    unit_status: u8,
    channel_status: u8,
    sense: u16,
) -> u32
    ensures site { TestsSite handle.old result }
    ensures keeps { KeepsSite handle.old handle.new }
    ensures done { result ≡ 0 → Did handle.old handle.new (λ s t. (t.medium.faults.items ≡ s.medium.faults.items ++ fault_from_c command unit_status channel_status sense ∷ []) × OnlyFaults s t) }
    ensures why { result ≢ 0 → result ≢ 3 → Refused handle.old handle.new result PutsNoFault }
    ensures none { result ≡ 3 → SameSite handle.old handle.new }
{
    let Some(site) = handle.site() else {
        return NO_SITE;
    };
    done(site.put_fault(Fault {
        ordinal: command,
        unit: UnitStatus(unit_status),
        sub: SubStatus(channel_status),
        sense,
    }))
}

/// `excp_clear_medium`.
#[unsafe(no_mangle)]
pub extern "C" fn excp_call_clear_medium(handle: &mut Handle) -> u32
    ensures site { TestsSite handle.old result }
    ensures keeps { KeepsSite handle.old handle.new }
    ensures done { result ≡ 0 → Did handle.old handle.new (λ s t. IsEmpty t.medium × OnlyMedium s t) }
    ensures why { result ≢ 0 → result ≡ 3 }
    ensures none { result ≡ 3 → SameSite handle.old handle.new }
{
    let Some(site) = handle.site() else {
        return NO_SITE;
    };
    site.clear_medium();
    OK
}

/// `excp_mount_disk`.
#[unsafe(no_mangle)]
pub extern "C" fn excp_call_mount_disk(
    handle: &mut Handle,
    cylinders: u64,
    heads: u64,
    track_bytes: u64,
    room: &Room,
    unit: &mut u16,
) -> u32
    ensures site { TestsSite handle.old result }
    ensures keeps { KeepsSite handle.old handle.new }
    ensures done { result ≡ 0 → Did handle.old handle.new (λ s t. Mounts (AnyDevice.Disk (opening_disk (record { cylinders = cylinders; heads = heads; track_bytes = track_bytes }) s.medium.records.items s.medium.faults.items)) room.now.in_flight room.now.held unit.new s t × DiskTaken s (record { cylinders = cylinders; heads = heads; track_bytes = track_bytes })) }
    ensures why { result ≢ 0 → result ≢ 3 → RefusedAs handle.old handle.new result (λ s. DiskRefused s (record { cylinders = cylinders; heads = heads; track_bytes = track_bytes }) room.now.in_flight room.now.held) }
    ensures refused { result ≢ 0 → unit.new ≡ unit.old }
    ensures none { result ≡ 3 → SameSite handle.old handle.new }
{
    let Some(site) = handle.site() else {
        return NO_SITE;
    };
    let geometry = Geometry {
        cylinders,
        heads,
        track_bytes,
    };
    let answered = site.mount_disk(geometry, *room);
    give_or_explain(site, answered, RefusedCall::Disk(geometry), unit)
}

/// `excp_mount_tape`.
#[unsafe(no_mangle)]
pub extern "C" fn excp_call_mount_tape(
    handle: &mut Handle,
    bytes: u64,
    room: &Room,
    unit: &mut u16,
) -> u32
    ensures site { TestsSite handle.old result }
    ensures keeps { KeepsSite handle.old handle.new }
    ensures done { result ≡ 0 → Did handle.old handle.new (λ s t. Mounts (AnyDevice.Tape (opening_tape bytes s.medium.items.items s.medium.faults.items)) room.now.in_flight room.now.held unit.new s t × TapeTaken s bytes) }
    ensures why { result ≢ 0 → result ≢ 3 → RefusedAs handle.old handle.new result (λ s. TapeRefused s bytes room.now.in_flight room.now.held) }
    ensures refused { result ≢ 0 → unit.new ≡ unit.old }
    ensures none { result ≡ 3 → SameSite handle.old handle.new }
{
    let Some(site) = handle.site() else {
        return NO_SITE;
    };
    let answered = site.mount_tape(bytes, *room);
    give_or_explain(site, answered, RefusedCall::Tape(bytes), unit)
}

/// `excp_mount_printer`.
#[unsafe(no_mangle)]
pub extern "C" fn excp_call_mount_printer(
    handle: &mut Handle,
    lines: u64,
    pages: u64,
    room: &Room,
    unit: &mut u16,
) -> u32
    ensures site { TestsSite handle.old result }
    ensures keeps { KeepsSite handle.old handle.new }
    ensures done { result ≡ 0 → Did handle.old handle.new (λ s t. Mounts (AnyDevice.Printer (opening_printer lines pages s.medium.faults.items)) room.now.in_flight room.now.held unit.new s t × PrinterTaken s lines pages) }
    ensures why { result ≢ 0 → result ≢ 3 → RefusedAs handle.old handle.new result (λ s. PrinterRefused s lines pages room.now.in_flight room.now.held) }
    ensures refused { result ≢ 0 → unit.new ≡ unit.old }
    ensures none { result ≡ 3 → SameSite handle.old handle.new }
{
    let Some(site) = handle.site() else {
        return NO_SITE;
    };
    let answered = site.mount_printer(lines, pages, *room);
    give_or_explain(site, answered, RefusedCall::Printer(lines, pages), unit)
}

/// `excp_mount_ckd`.
#[tactic(auto, using(crate::proofs::Reasons::image_refused))]
#[unsafe(no_mangle)]
pub extern "C" fn excp_call_mount_ckd(
    handle: &mut Handle,
    image: &[u8],
    room: &Room,
    unit: &mut u16,
) -> u32
    ensures site { TestsSite handle.old result }
    ensures keeps { KeepsSite handle.old handle.new }
    ensures done { result ≡ 0 → Did handle.old handle.new (λ s t. MountsCkd s image.now room.now.in_flight room.now.held unit.new t × IsEmpty t.medium) }
    ensures why { result ≢ 0 → result ≢ 3 → RefusedAs handle.old handle.new result (λ s. CkdRefused s image.now room.now.in_flight room.now.held) }
    ensures refused { result ≢ 0 → unit.new ≡ unit.old }
    ensures none { result ≡ 3 → SameSite handle.old handle.new }
{
    let Some(site) = handle.site() else {
        return NO_SITE;
    };
    let answered = site.mount_ckd(image, *room);
    give_or_explain(site, answered, RefusedCall::Image(0), unit)
}

/// `excp_mount_aws`.
#[tactic(auto, using(crate::proofs::Reasons::image_refused))]
#[unsafe(no_mangle)]
pub extern "C" fn excp_call_mount_aws(
    handle: &mut Handle,
    image: &[u8],
    bytes: u64,
    room: &Room,
    unit: &mut u16,
) -> u32
    ensures site { TestsSite handle.old result }
    ensures keeps { KeepsSite handle.old handle.new }
    ensures done { result ≡ 0 → Did handle.old handle.new (λ s t. MountsAws s image.now bytes room.now.in_flight room.now.held unit.new t × IsEmpty t.medium) }
    ensures why { result ≢ 0 → result ≢ 3 → RefusedAs handle.old handle.new result (λ s. AwsRefused s image.now bytes room.now.in_flight room.now.held) }
    ensures refused { result ≢ 0 → unit.new ≡ unit.old }
    ensures none { result ≡ 3 → SameSite handle.old handle.new }
{
    let Some(site) = handle.site() else {
        return NO_SITE;
    };
    let answered = site.mount_aws(image, bytes, *room);
    give_or_explain(site, answered, RefusedCall::Image(bytes), unit)
}
