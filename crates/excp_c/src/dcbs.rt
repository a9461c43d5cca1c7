//! DCBs (c/excp.h, "DCBs").

ghost use Rattle.std.specs.Prelude.{◌≡◌, ◌≢◌, ◌⊎◌, ◌↔◌, ◌%◌, None, length};
ghost use Rattle.excp_site.specs.Extents.{extents_in};
ghost use Rattle.excp_c.specs.declared.handle.TheConstants.{MARK};
ghost use Rattle.excp_c.specs.Done.{Did, NotOpened, SiteOpens, Refused};
ghost use Rattle.excp_c.specs.Calls.{KeepsSite, SameSite, TestsSite};
ghost use Rattle.excp_c.specs.Numbers.{method_from_c};

use crate::handle::Handle;
use crate::status::{NO_SITE, give_or_explain, status_in_c};
use excp_site::{Refusal, RefusedCall, extents};
use std::alloc::Global;
use unit_book::ProcessingMethod;

/// The method with this number, `EXCP_INPUT` or `EXCP_OUTPUT`.
fn method_from_c(number: u8) -> Option<ProcessingMethod>
    ensures { result ≡ method_from_c number }
{
    match number {
        0 => Some(ProcessingMethod::Input),
        1 => Some(ProcessingMethod::Output),
        _ => None,
    }
}

/// `excp_open`.
#[tactic(auto, using(crate::proofs::Reasons::not_opened))]
#[unsafe(no_mangle)]
pub extern "C" fn excp_call_open(
    alloc: Global,
    handle: &mut Handle,
    unit: u16,
    method: u8,
    extent_bytes: &[u8],
    dcb: &mut u16,
) -> u32
    ensures site { TestsSite handle.old result }
    ensures keeps { KeepsSite handle.old handle.new }
    ensures done { result ≡ 0 → Did handle.old handle.new (λ s t. SiteOpens unit (method_from_c method) (extents_in extent_bytes.now) dcb.new s t × (length extent_bytes.now % 16 ≡ 0)) }
    ensures number { (result ≡ 5) ↔ ((handle.old.mark ≡ MARK) × (method_from_c method ≡ None)) }
    ensures why { result ≢ 0 → result ≢ 3 → result ≢ 5 → Refused handle.old handle.new result (λ s t. NotOpened s t unit extent_bytes.now) }
    ensures same { (result ≡ 3) ⊎ (result ≡ 5) → SameSite handle.old handle.new }
    ensures refused { result ≢ 0 → dcb.new ≡ dcb.old }
{
    let Some(site) = handle.site() else {
        return NO_SITE;
    };
    let Some(method) = method_from_c(method) else {
        return status_in_c(Refusal::BadNumber);
    };
    let extents = match extents(alloc, extent_bytes) {
        Ok(extents) => extents,
        Err(refusal) => {
            site.explain(refusal, RefusedCall::ExtentBytes(extent_bytes.len()));
            return status_in_c(refusal);
        }
    };
    let answered = site.open(unit, method, &extents);
    give_or_explain(site, answered, RefusedCall::Open(unit, &extents), dcb)
}
