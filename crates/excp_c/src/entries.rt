//! Entries of a trace (c/excp.h, "What there is").

ghost use Rattle.std.specs.Prelude.{◌≡◌, ◌≢◌};
ghost use Rattle.excp_c.specs.Calls.{KeepsSite, SameSite, TestsSite};
ghost use Rattle.excp_site.specs.Looks.{EntryRefused};
ghost use Rattle.excp_c.specs.Done.{Did, Refused};
ghost use Rattle.excp_c.specs.Entries.{ShowsEntry, entry_in_c, entry_of_dcb, entry_of_request, method_number, mode_number};

use crate::handle::Handle;
use crate::status::{NO_SITE, OK, status_in_c};
use excp_site::Site;
use request_piece::{Name, Scope};
use unit_book::{Entry as Made, Mode, ProcessingMethod};

/// `excp_trace_entry`.
#[repr(C)]
#[derive(Clone, Copy)]
pub struct TraceEntry {
    pub number: u64,
    pub commands: u32,
    pub address: u32,
    pub task: u16,
    pub dcb: u16,
    pub residual: u16,
    pub sense: u16,
    pub kind: u8,
    pub way: u8,
    pub code: u8,
    pub unit_status: u8,
    pub channel_status: u8,
}

/// The number of what a DCB is for.
fn method_number(method: ProcessingMethod) -> u8
    ensures { result ≡ method_number method }
{
    match method {
        ProcessingMethod::Input => 0,
        ProcessingMethod::Output => 1,
    }
}

/// The number of the mode of a purge.
fn mode_number(mode: Mode) -> u8
    ensures { result ≡ mode_number mode }
{
    match mode {
        Mode::Quiesce => 0,
        Mode::Halt => 1,
    }
}

/// An entry of a DCB.
fn entry_of_dcb(kind: u8, dcb: u16, way: u8) -> TraceEntry
    ensures { result ≡ entry_of_dcb kind dcb way }
{
    TraceEntry {
        number: 0,
        commands: 0,
        address: 0,
        task: 0,
        dcb,
        residual: 0,
        sense: 0,
        kind,
        way,
        code: 0,
        unit_status: 0,
        channel_status: 0,
    }
}

/// An entry of a request, which has this name.
fn entry_of_request(site: &Site, unit: u16, kind: u8, name: Name) -> TraceEntry
    ensures { result ≡ entry_of_request site.now unit kind name }
{
    TraceEntry {
        number: site.number(unit, name),
        task: name.task,
        ..entry_of_dcb(kind, 0, 0)
    }
}

/// An entry of a unit as C sees it.
fn entry_in_c(site: &Site, unit: u16, entry: &Made) -> TraceEntry
    ensures { result ≡ entry_in_c site.now unit entry.now }
{
    match entry {
        Made::Opened(dcb, method, _) => entry_of_dcb(0, *dcb, method_number(*method)),
        Made::Arrive(issued) => entry_of_request(site, unit, 1, issued.name()),
        Made::Start(name) => entry_of_request(site, unit, 2, *name),
        Made::Ran(name, commands) => TraceEntry {
            commands: *commands,
            ..entry_of_request(site, unit, 3, *name)
        },
        Made::Halted(name) => entry_of_request(site, unit, 4, *name),
        Made::Purge(Scope::Dcb(dcb), mode) => entry_of_dcb(5, *dcb, mode_number(*mode)),
        Made::Purge(Scope::Task(task), mode) => TraceEntry {
            task: *task,
            ..entry_of_dcb(6, 0, mode_number(*mode))
        },
        Made::Close(dcb) => entry_of_dcb(7, *dcb, 0),
        Made::Reset(dcb) => entry_of_dcb(8, *dcb, 0),
        Made::Post(name, csw, sense, code) => TraceEntry {
            address: csw.address.get(),
            residual: csw.residual,
            sense: *sense,
            code: code.byte(),
            unit_status: csw.unit.0,
            channel_status: csw.sub.0,
            ..entry_of_request(site, unit, 9, *name)
        },
    }
}

/// `excp_look_entry`.
#[unsafe(no_mangle)]
pub extern "C" fn excp_call_look_entry(
    handle: &mut Handle,
    unit: u16,
    place: u32,
    entry: &mut TraceEntry,
) -> u32
    ensures site { TestsSite handle.old result }
    ensures keeps { KeepsSite handle.old handle.new }
    ensures same { SameSite handle.old handle.new }
    ensures done { result ≡ 0 → Did handle.old handle.new (λ s _. ShowsEntry s unit place entry.new) }
    ensures why { result ≢ 0 → result ≢ 3 → Refused handle.old handle.new result (λ s _. EntryRefused s.plain unit place) }
    ensures refused { result ≢ 0 → entry.new ≡ entry.old }
{
    let Some(site) = handle.site() else {
        return NO_SITE;
    };
    match site.entry(unit, place) {
        Ok(made) => {
            *entry = entry_in_c(site, unit, made);
            OK
        }
        Err(refusal) => status_in_c(refusal),
    }
}
