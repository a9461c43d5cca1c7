//! Sites (c/excp.h, "Sites").

ghost use Rattle.std.specs.Prelude.{◌≡◌, ◌≢◌, ◌↔◌, IsNone};
ghost use Rattle.excp_c.specs.Calls.{SameSite, TestsSite};
ghost use Rattle.excp_c.specs.Done.{MadeSite, NotMade};
ghost use Rattle.excp_c.specs.declared.handle.TheConstants.{MARK};

use crate::handle::{Handle, MARK, put, take};
use crate::status::{NO_SITE, OK, SITE_IN_USE, status_in_c};
use excp_site::{Refusal, Site};
use std::alloc::Global;

/// `excp_site_new`.
#[unsafe(no_mangle)]
pub extern "C" fn excp_call_site_new(
    alloc: Global,
    handle: &mut Handle,
    tasks: u16,
    post_room: u32,
) -> u32
    ensures in_use { (result ≡ 4) ↔ (handle.old.mark ≡ MARK) }
    ensures made { result ≡ 0 → MadeSite handle.new tasks post_room }
    ensures why { result ≢ 0 → result ≢ 4 → NotMade result tasks post_room }
    ensures refused { result ≢ 0 → (handle.new.mark ≡ handle.old.mark) × SameSite handle.old handle.new }
{
    if handle.mark == MARK {
        return SITE_IN_USE;
    }
    let site = match Site::new(alloc, tasks, post_room as usize) {
        Ok(site) => site,
        Err(refusal) => return status_in_c(refusal),
    };
    match Box::new(alloc, site) {
        Ok(site) => {
            put(handle, site);
            OK
        }
        Err(_) => status_in_c(Refusal::NoMemory),
    }
}

/// `excp_site_free`.
#[unsafe(no_mangle)]
pub extern "C" fn excp_call_site_free(alloc: Global, handle: &mut Handle) -> u32
    ensures site { TestsSite handle.old result }
    ensures freed { result ≡ 0 → (handle.new.mark ≡ 0) × IsNone handle.new.slot.value }
    ensures why { result ≢ 0 → result ≡ 3 }
    ensures none { result ≡ 3 → (handle.new.mark ≡ handle.old.mark) × SameSite handle.old handle.new }
{
    match take(alloc, handle) {
        Some(site) => {
            drop(site);
            OK
        }
        None => NO_SITE,
    }
}
