//! Units, their active requests and media, DCBs, and what waits (c/excp.h, "What there is").

ghost use Rattle.std.specs.Prelude.{◌≡◌, ◌≢◌};
ghost use Rattle.excp_c.specs.Calls.{KeepsSite, SameSite, TestsSite};
ghost use Rattle.excp_site.specs.Looks.{ActiveRefused, DcbLookRefused, IsPlace, LookRefused, ShowsActive, ShowsDcb, ShowsUnit, WaitingRefused, device_now};
ghost use Rattle.excp_site.specs.Sites.{HasPart};
ghost use Rattle.excp_c.specs.Done.{Did, Refused};
ghost use Rattle.excp_c.specs.Readers.{Waits};

use crate::handle::Handle;
use crate::status::{NO_SITE, OK, give, status_in_c};
use excp_site::{ActiveRequest, DcbState, Place, UnitState};

/// `excp_look`.
#[unsafe(no_mangle)]
pub extern "C" fn excp_call_look(handle: &mut Handle, unit: u16, state: &mut UnitState) -> u32
    ensures site { TestsSite handle.old result }
    ensures keeps { KeepsSite handle.old handle.new }
    ensures same { SameSite handle.old handle.new }
    ensures done { result ≡ 0 → Did handle.old handle.new (λ s _. HasPart s.plain unit (λ p. ShowsUnit s unit p state.new)) }
    ensures why { result ≢ 0 → result ≢ 3 → Refused handle.old handle.new result (λ s _. LookRefused s.plain unit) }
    ensures refused { result ≢ 0 → state.new ≡ state.old }
{
    let Some(site) = handle.site() else {
        return NO_SITE;
    };
    match site.look(unit) {
        Ok(now) => {
            *state = now;
            OK
        }
        Err(refusal) => status_in_c(refusal),
    }
}

/// `excp_look_active`.
#[unsafe(no_mangle)]
pub extern "C" fn excp_call_look_active(
    handle: &mut Handle,
    unit: u16,
    active: &mut ActiveRequest,
) -> u32
    ensures site { TestsSite handle.old result }
    ensures keeps { KeepsSite handle.old handle.new }
    ensures same { SameSite handle.old handle.new }
    ensures done { result ≡ 0 → Did handle.old handle.new (λ s _. HasPart s.plain unit (λ p. ShowsActive s unit p active.new)) }
    ensures why { result ≢ 0 → result ≢ 3 → Refused handle.old handle.new result (λ s _. ActiveRefused s.plain unit) }
    ensures refused { result ≢ 0 → active.new ≡ active.old }
{
    let Some(site) = handle.site() else {
        return NO_SITE;
    };
    give(site.active(unit), active)
}

/// `excp_look_place`.
#[unsafe(no_mangle)]
pub extern "C" fn excp_call_look_place(handle: &mut Handle, unit: u16, place: &mut Place) -> u32
    ensures site { TestsSite handle.old result }
    ensures keeps { KeepsSite handle.old handle.new }
    ensures same { SameSite handle.old handle.new }
    ensures done { result ≡ 0 → Did handle.old handle.new (λ s _. HasPart s.plain unit (λ p. IsPlace (device_now p.book) place.new)) }
    ensures why { result ≢ 0 → result ≢ 3 → Refused handle.old handle.new result (λ s _. LookRefused s.plain unit) }
    ensures refused { result ≢ 0 → place.new ≡ place.old }
{
    let Some(site) = handle.site() else {
        return NO_SITE;
    };
    give(site.place(unit), place)
}

/// `excp_look_dcb`.
#[unsafe(no_mangle)]
pub extern "C" fn excp_call_look_dcb(
    handle: &mut Handle,
    unit: u16,
    dcb: u16,
    state: &mut DcbState,
) -> u32
    ensures site { TestsSite handle.old result }
    ensures keeps { KeepsSite handle.old handle.new }
    ensures same { SameSite handle.old handle.new }
    ensures done { result ≡ 0 → Did handle.old handle.new (λ s _. HasPart s.plain unit (λ p. ShowsDcb p dcb state.new)) }
    ensures why { result ≢ 0 → result ≢ 3 → Refused handle.old handle.new result (λ s _. DcbLookRefused s.plain unit dcb) }
    ensures refused { result ≢ 0 → state.new ≡ state.old }
{
    let Some(site) = handle.site() else {
        return NO_SITE;
    };
    match site.look_dcb(unit, dcb) {
        Ok(now) => {
            *state = now;
            OK
        }
        Err(refusal) => status_in_c(refusal),
    }
}

/// `excp_waiting`.
#[unsafe(no_mangle)]
pub extern "C" fn excp_call_waiting(
    handle: &mut Handle,
    unit: u16,
    place: u32,
    task: &mut u16,
    number: &mut u64,
) -> u32
    ensures site { TestsSite handle.old result }
    ensures keeps { KeepsSite handle.old handle.new }
    ensures same { SameSite handle.old handle.new }
    ensures done { result ≡ 0 → Did handle.old handle.new (λ s _. Waits s unit place task.new number.new) }
    ensures why { result ≢ 0 → result ≢ 3 → Refused handle.old handle.new result (λ s _. WaitingRefused s.plain unit place) }
    ensures refused { result ≢ 0 → (task.new ≡ task.old) × (number.new ≡ number.old) }
{
    let Some(site) = handle.site() else {
        return NO_SITE;
    };
    match site.waiting(unit, place) {
        Ok(name) => {
            *task = name.task;
            *number = site.number(unit, name);
            OK
        }
        Err(refusal) => status_in_c(refusal),
    }
}
