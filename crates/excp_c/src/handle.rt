//! The handle of a site, as C holds it.

ghost use Rattle.std.specs.Prelude.{◌≡◌, ◌≢◌, ◌↔◌, IsSome, IsNone, Some, IfSome, MatchOption};
ghost use Rattle.std.specs.Borrow.{sem};
ghost use Rattle.excp_c.specs.declared.handle.TheConstants.{MARK};

use crate::loose::Loose;
use crate::slot::Slot;
use excp_site::Site;
use std::alloc::Global;
use std::mem::replace;
use std::ptr::null_mut;

/// The mark of a handle that has a site: `EXCPSITE` in ASCII.
pub const MARK: u64 = 0x4558_4350_5349_5445;

/// `excp_site` of c/excp.h. Any other mark than `MARK` says that it has no site.
#[repr(C)]
#[derive(Drop)]
pub struct Handle {
    pub mark: u64,
    pub slot: Slot,
    ghost live: { mark ≡ MARK → IsSome slot.value },
}

/// Takes the site out, if the handle has one. It has none then.
pub(crate) fn take(alloc: Global, handle: &mut Handle) -> Option<Box<Site>>
    ensures none { IsNone result ↔ (handle.old.mark ≢ MARK) }
    ensures site { MatchOption result (handle.new ≡ handle.old) (λ site. (handle.old.slot.value ≡ Some site.value) × (handle.new.mark ≡ 0) × IsNone handle.new.slot.value) }
{
    if handle.mark != MARK {
        return None;
    }
    let at: *mut u8 = null_mut();
    let Handle { mark: _, slot } = replace(
        handle,
        Handle {
            mark: 0,
            slot: Slot::empty(at, alloc),
        },
    );
    Some(slot.into_loose().into_box())
}

/// Gives the handle a site, in place of what it had.
pub(crate) fn put(handle: &mut Handle, site: Box<Site>)
    ensures { (handle.new.mark ≡ MARK) × (handle.new.slot.value ≡ Some site.value) }
{
    *handle = crossing(Handle {
        mark: MARK,
        slot: Slot::of(Loose::of(site)),
    });
}

/// What C may hand to another thread.
fn crossing<T: Send>(value: T) -> T
    ensures { result ≡ value }
{
    value
}

impl Handle {
    ghost use Rattle.excp_c.specs.Lending.{LendsSiteIf};

    /// Lends the site, if the handle has one.
    pub(crate) fn site(&mut self) -> Option<&mut Site>
        ensures* writes_back { sem 𝓛 (LendsSiteIf self.entry result) }
        ensures none { IsNone result ↔ (self.old.mark ≢ MARK) }
        ensures value { IfSome result (λ site. self.old.slot.value ≡ Some site.now) }
    {
        if self.mark == MARK {
            Some(self.slot.site())
        } else {
            None
        }
    }
}
