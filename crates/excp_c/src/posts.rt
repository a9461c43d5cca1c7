//! Posts (c/excp.h, "Posts").

ghost use Rattle.std.specs.Prelude.{◌≡◌, ◌≢◌, ◌≤◌, length};
ghost use Rattle.request_piece.specs.PostedState.{PostedState};
ghost use Rattle.excp_site.specs.Refusals.{PostRefused};
ghost use Rattle.excp_c.specs.Buffers.{copied};
ghost use Rattle.excp_c.specs.Done.{SiteCollects, Did, IsFirstPost, Refused, StorageIsLonger};
ghost use Rattle.excp_c.specs.Calls.{KeepsSite, SameSite, TestsSite};
ghost use Rattle.excp_c.specs.Posts.{post_of};

use crate::buffer::copy_to;
use crate::handle::Handle;
use crate::status::{NO_SITE, OK, status_in_c};
use excp_site::{Refusal, Site};
use io_area::Area;
use request_piece::Posted;

/// `excp_post`.
#[repr(C)]
#[derive(Clone, Copy)]
pub struct Post {
    pub number: u64,
    pub address: u32,
    pub base: u32,
    pub length: u32,
    pub residual: u16,
    pub sense: u16,
    pub unit: u16,
    pub task: u16,
    pub dcb: u16,
    pub code: u8,
    pub unit_status: u8,
    pub channel_status: u8,
}

/// A post as C sees it.
fn post_of(site: &Site, posted: &Posted) -> Post
    ensures { result ≡ post_of site.now posted.now }
{
    let csw = posted.csw();
    Post {
        number: site.number(posted.unit(), posted.name()),
        address: csw.address.get(),
        base: posted.area().base(),
        length: u32::try_from(posted.area().len()).unwrap_or(u32::MAX),
        residual: csw.residual,
        sense: posted.sense(),
        unit: posted.unit(),
        task: posted.name().task,
        dcb: posted.dcb(),
        code: posted.code().byte(),
        unit_status: csw.unit.0,
        channel_status: csw.sub.0,
    }
}

/// The bytes of storage.
fn bytes_of(area: &Area) -> &[u8]
    ensures { result.now ≡ area.now.bytes }
{
    match area.get(area.base(), area.len()) {
        Some(bytes) => bytes,
        None => &[],
    }
}

/// `excp_peek_post`.
#[unsafe(no_mangle)]
pub extern "C" fn excp_call_peek_post(handle: &mut Handle, task: u16, post: &mut Post) -> u32
    ensures site { TestsSite handle.old result }
    ensures keeps { KeepsSite handle.old handle.new }
    ensures done { result ≡ 0 → Did handle.old handle.new (λ s _. (posted : PostedState) × IsFirstPost s task posted × (post.new ≡ post_of s posted)) }
    ensures why { result ≢ 0 → result ≢ 3 → Refused handle.old handle.new result (λ s _. PostRefused s.plain task) }
    ensures same { SameSite handle.old handle.new }
    ensures refused { result ≢ 0 → post.new ≡ post.old }
{
    let Some(site) = handle.site() else {
        return NO_SITE;
    };
    match site.post(task) {
        Ok(posted) => {
            *post = post_of(site, posted);
            OK
        }
        Err(refusal) => status_in_c(refusal),
    }
}

/// `excp_next_post`.
#[unsafe(no_mangle)]
pub extern "C" fn excp_call_next_post(
    handle: &mut Handle,
    task: u16,
    post: &mut Post,
    storage: &mut [u8],
) -> u32
    ensures site { TestsSite handle.old result }
    ensures keeps { KeepsSite handle.old handle.new }
    ensures done { result ≡ 0 → Did handle.old handle.new (λ s t. (posted : PostedState) × IsFirstPost s task posted × SiteCollects task s t × (post.new ≡ post_of t posted) × (storage.new ≡ copied posted.area.bytes storage.old)) }
    ensures why { result ≢ 0 → result ≢ 3 → result ≢ 26 → Refused handle.old handle.new result (λ s _. PostRefused s.plain task) }
    ensures room { result ≡ 26 → Did handle.old handle.new (λ s _. StorageIsLonger s task (length storage.old)) }
    ensures refused { result ≢ 0 → SameSite handle.old handle.new × (post.new ≡ post.old) × (storage.new ≡ storage.old) }
{
    let Some(site) = handle.site() else {
        return NO_SITE;
    };
    match site.post(task) {
        Ok(posted) if posted.area().len() > storage.len() => return status_in_c(Refusal::NoRoom),
        Ok(_) => {}
        Err(refusal) => return status_in_c(refusal),
    }
    match site.next_post(task) {
        Ok(posted) => {
            copy_to(storage, bytes_of(posted.area()));
            *post = post_of(site, &posted);
            OK
        }
        Err(refusal) => status_in_c(refusal),
    }
}
