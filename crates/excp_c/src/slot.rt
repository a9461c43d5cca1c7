//! The pointer to a site, as C holds it.

ghost use Rattle.std.specs.Prelude.{◌≡◌, Option, Some, None, IsSome};
ghost use Rattle.std.specs.Borrow.{sem};
ghost use Rattle.excp_c.specs.Owned.{slot_owns};
ghost use Rattle.std.specs.contracts.impls.GlobalAllocator.TheImpl.{ghosts};
ghost use Rattle.std.specs.Coded.{coded_option};
ghost use Rattle.excp_site.specs.contracts.site.Site.{the_row};
ghost use Rattle.excp_site.specs.Sites.{SiteView};

use crate::loose::Loose;
use excp_site::Site;
use std::alloc::Global;
use std::marker::Model;

/// Owns a site in a block of its own, or nothing. In C it is the pointer alone: a `Global` takes no bytes.
#[repr(C)]
#[derive(Drop)]
pub struct Slot {
    at: *mut u8,
    alloc: Global,
    pub ghost value: { Option SiteView } by { coded_option the_row.coded },
}

impl Model for Slot {
    ghost also_owns = { λ slot. slot_owns (ghosts.dealloc_token slot.alloc) the_row slot.at slot.value };
}

impl Slot {
    ghost use Rattle.excp_c.specs.Lending.{LendsSite};

    /// A slot that owns nothing, whatever its pointer is.
    pub(crate) fn empty(at: *mut u8, alloc: Global) -> Slot
        ensures { result.value ≡ None }
    {
        Slot { at, alloc }
    }

    /// Takes over what a box had.
    pub(crate) fn of(loose: Loose<Site, Global>) -> Slot
        ensures { result.value ≡ Some loose.value }
    {
        let Loose { at, alloc } = loose;
        Slot {
            at: at as *mut u8,
            alloc,
        }
    }

    /// Gives it back.
    pub(crate) fn into_loose(self) -> Loose<Site, Global>
        requires { IsSome self.value }
        ensures { self.value ≡ Some result.value }
    {
        let Slot { at, alloc } = self;
        Loose {
            at: at as *mut Site,
            alloc,
        }
    }

    /// Lends the site.
    pub(crate) fn site(&mut self) -> &mut Site
        requires live { IsSome self.old.value }
        ensures* writes_back { sem 𝓛 (LendsSite self.entry result) }
        ensures value { self.old.value ≡ Some result.now }
    {
        unsafe { &mut *(self.at as *mut Site) }
    }
}

unsafe impl Send for Slot {}
