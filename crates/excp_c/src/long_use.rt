//! Long use (c/excp.h, "Long use").

ghost use Rattle.std.specs.Prelude.{◌≡◌, ◌≢◌};
ghost use Rattle.excp_site.specs.Checkpoints.{CheckpointRefused, Checkpoints};
ghost use Rattle.excp_c.specs.Done.{Did, Refused};
ghost use Rattle.excp_c.specs.Calls.{KeepsSite, SameSite, TestsSite};

use crate::handle::Handle;
use crate::status::{NO_SITE, done};

/// `excp_checkpoint`.
#[unsafe(no_mangle)]
pub extern "C" fn excp_call_checkpoint(handle: &mut Handle, unit: u16) -> u32
    ensures site { TestsSite handle.old result }
    ensures keeps { KeepsSite handle.old handle.new }
    ensures done { result ≡ 0 → Did handle.old handle.new (λ s t. Checkpoints s unit t) }
    ensures why { result ≢ 0 → result ≢ 3 → Refused handle.old handle.new result (λ s _. CheckpointRefused s unit) }
    ensures refused { result ≢ 0 → SameSite handle.old handle.new }
{
    let Some(site) = handle.site() else {
        return NO_SITE;
    };
    done(site.checkpoint(unit))
}
