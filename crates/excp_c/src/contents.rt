//! Records of a disk, items of a tape, and lines of a printer (c/excp.h, "What there is").

ghost use Rattle.std.specs.Prelude.{◌≡◌, ◌≢◌, length};
ghost use Rattle.excp_c.specs.Calls.{KeepsSite, SameSite, TestsSite};
ghost use Rattle.excp_site.specs.Looks.{ItemRefused, LineRefused, RecordRefused};
ghost use Rattle.excp_c.specs.Done.{Did, Refused};
ghost use Rattle.excp_c.specs.Readers.{ItemIsLonger, LineIsLonger, Prints, ReadsItem, ReadsSite, RecordIsLonger};
ghost use Rattle.excp_c.specs.Contents.{byte_at, halfword_at, item_in_c, line_in_c, record_in_c};

use crate::buffer::{copy_both, copy_to, has_room};
use crate::handle::Handle;
use crate::status::{NO_SITE, OK, status_in_c};
use ckd_disk::StoredRecord;
use excp_site::Refusal;
use line_printer::PrintedLine;
use tape_unit::Stored as StoredItem;

/// `excp_record`.
#[repr(C)]
#[derive(Clone, Copy)]
pub struct Record {
    pub cylinder: u16,
    pub head: u16,
    pub number: u8,
    pub key_length: u8,
    pub data_length: u16,
}

/// `excp_item`.
#[repr(C)]
#[derive(Clone, Copy)]
pub struct Item {
    pub length: u16,
    pub is_mark: u8,
}

/// `excp_line`.
#[repr(C)]
#[derive(Clone, Copy)]
pub struct Line {
    pub page: u16,
    pub line: u16,
    pub length: u16,
}

/// The byte at a place, or 0 past the end.
fn byte_at(bytes: &[u8], place: usize) -> u8
    ensures { result ≡ byte_at bytes.now place }
{
    *bytes.get(place).unwrap_or(&0)
}

/// The halfword at a place.
fn halfword_at(bytes: &[u8], place: u8) -> u16
    ensures { result ≡ halfword_at bytes.now place }
{
    let place = usize::from(place);
    u16::from(byte_at(bytes, place)) * 256 + u16::from(byte_at(bytes, place + 1))
}

/// A record as C sees it.
fn record_in_c(stored: &StoredRecord<'_>) -> Record
    ensures { result ≡ record_in_c stored.now }
{
    let id = stored.id();
    Record {
        cylinder: halfword_at(id, 0),
        head: halfword_at(id, 2),
        number: byte_at(id, 4),
        key_length: u8::try_from(stored.key().len()).unwrap_or(u8::MAX),
        data_length: u16::try_from(stored.content().len()).unwrap_or(u16::MAX),
    }
}

/// An item as C sees it.
fn item_in_c(stored: &StoredItem<'_>) -> Item
    ensures { result ≡ item_in_c stored.now }
{
    Item {
        length: stored.len(),
        is_mark: u8::from(stored.is_mark()),
    }
}

/// A line as C sees it.
fn line_in_c(line: &PrintedLine) -> Line
    ensures { result ≡ line_in_c line.now }
{
    let position = line.position();
    Line {
        page: position.page,
        line: u16::from(position.line),
        length: line.bytes().len() as u16,
    }
}

/// `excp_read_record`.
#[unsafe(no_mangle)]
pub extern "C" fn excp_call_read_record(
    handle: &mut Handle,
    unit: u16,
    cylinder: u16,
    head: u16,
    place: u32,
    shown: &mut Record,
    bytes: &mut [u8],
) -> u32
    ensures site { TestsSite handle.old result }
    ensures keeps { KeepsSite handle.old handle.new }
    ensures same { SameSite handle.old handle.new }
    ensures done { result ≡ 0 → Did handle.old handle.new (λ s _. ReadsSite s unit cylinder head place shown.new bytes.old bytes.new) }
    ensures why { result ≢ 0 → result ≢ 3 → result ≢ 26 → Refused handle.old handle.new result (λ s _. RecordRefused s.plain unit cylinder head place) }
    ensures room { result ≡ 26 → Did handle.old handle.new (λ s _. RecordIsLonger s unit cylinder head place (length bytes.old)) }
    ensures refused { result ≢ 0 → (shown.new ≡ shown.old) × (bytes.new ≡ bytes.old) }
{
    let Some(site) = handle.site() else {
        return NO_SITE;
    };
    match site.read_record(unit, cylinder, head, place as usize) {
        Ok(stored) => {
            if !has_room(bytes.len(), stored.key(), stored.content()) {
                return status_in_c(Refusal::NoRoom);
            }
            copy_both(bytes, stored.key(), stored.content());
            *shown = record_in_c(&stored);
            OK
        }
        Err(refusal) => status_in_c(refusal),
    }
}

/// `excp_read_item`.
#[unsafe(no_mangle)]
pub extern "C" fn excp_call_read_item(
    handle: &mut Handle,
    unit: u16,
    place: u32,
    item: &mut Item,
    bytes: &mut [u8],
) -> u32
    ensures site { TestsSite handle.old result }
    ensures keeps { KeepsSite handle.old handle.new }
    ensures same { SameSite handle.old handle.new }
    ensures done { result ≡ 0 → Did handle.old handle.new (λ s _. ReadsItem s unit place item.new bytes.old bytes.new) }
    ensures why { result ≢ 0 → result ≢ 3 → result ≢ 26 → Refused handle.old handle.new result (λ s _. ItemRefused s.plain unit place) }
    ensures room { result ≡ 26 → Did handle.old handle.new (λ s _. ItemIsLonger s unit place (length bytes.old)) }
    ensures refused { result ≢ 0 → (item.new ≡ item.old) × (bytes.new ≡ bytes.old) }
{
    let Some(site) = handle.site() else {
        return NO_SITE;
    };
    match site.read_item(unit, place as usize) {
        Ok(stored) => {
            if stored.content().len() > bytes.len() {
                return status_in_c(Refusal::NoRoom);
            }
            copy_to(bytes, stored.content());
            *item = item_in_c(&stored);
            OK
        }
        Err(refusal) => status_in_c(refusal),
    }
}

/// `excp_printed_line`.
#[unsafe(no_mangle)]
pub extern "C" fn excp_call_printed_line(
    handle: &mut Handle,
    unit: u16,
    place: u32,
    line: &mut Line,
    bytes: &mut [u8],
) -> u32
    ensures site { TestsSite handle.old result }
    ensures keeps { KeepsSite handle.old handle.new }
    ensures same { SameSite handle.old handle.new }
    ensures done { result ≡ 0 → Did handle.old handle.new (λ s _. Prints s unit place line.new bytes.old bytes.new) }
    ensures why { result ≢ 0 → result ≢ 3 → result ≢ 26 → Refused handle.old handle.new result (λ s _. LineRefused s.plain unit place) }
    ensures room { result ≡ 26 → Did handle.old handle.new (λ s _. LineIsLonger s unit place (length bytes.old)) }
    ensures refused { result ≢ 0 → (line.new ≡ line.old) × (bytes.new ≡ bytes.old) }
{
    let Some(site) = handle.site() else {
        return NO_SITE;
    };
    match site.printed_line(unit, place as usize) {
        Ok(printed) => {
            if printed.bytes().len() > bytes.len() {
                return status_in_c(Refusal::NoRoom);
            }
            copy_to(bytes, printed.bytes());
            *line = line_in_c(printed);
            OK
        }
        Err(refusal) => status_in_c(refusal),
    }
}
