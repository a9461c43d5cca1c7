//! Bytes that are made and copied out (c/excp.h, "Records and images").

ghost use Rattle.std.specs.Prelude.{◌≡◌, ◌≢◌, ◌<◌, ◌+◌, [], drop, length, take};
ghost use Rattle.excp_c.specs.Calls.{KeepsSite, SameSite, TestsSite};
ghost use Rattle.excp_site.specs.Imaging.{ImageRefused, MakesImage};
ghost use Rattle.excp_site.specs.Refusals.{MakeRefused, NoRoomFor};
ghost use Rattle.excp_c.specs.Done.{Did, Refused};

use crate::handle::Handle;
use crate::status::{NO_SITE, OK, done, give};

/// `excp_make_record`.
#[unsafe(no_mangle)]
pub extern "C" fn excp_call_make_record(
    handle: &mut Handle,
    unit: u16,
    most_steps: u64,
    count: &mut usize,
) -> u32
    ensures site { TestsSite handle.old result }
    ensures keeps { KeepsSite handle.old handle.new }
    ensures done { result ≡ 0 → Did handle.old handle.new (λ s t. (unit < length s.plain.units) × (count.new ≡ length t.made) × (t ≡ record s { made = t.made })) }
    ensures why { result ≢ 0 → result ≢ 3 → Refused handle.old handle.new result (λ s _. MakeRefused s.plain unit) }
    ensures refused { result ≢ 0 → SameSite handle.old handle.new × (count.new ≡ count.old) }
{
    let Some(site) = handle.site() else {
        return NO_SITE;
    };
    give(site.make_record(unit, most_steps), count)
}

/// `excp_make_image`.
#[unsafe(no_mangle)]
pub extern "C" fn excp_call_make_image(handle: &mut Handle, unit: u16, count: &mut usize) -> u32
    ensures site { TestsSite handle.old result }
    ensures keeps { KeepsSite handle.old handle.new }
    ensures done { result ≡ 0 → Did handle.old handle.new (λ s t. (count.new ≡ length t.made) × MakesImage s unit t) }
    ensures why { result ≢ 0 → result ≢ 3 → Refused handle.old handle.new result (λ s _. ImageRefused s unit) }
    ensures refused { result ≢ 0 → SameSite handle.old handle.new × (count.new ≡ count.old) }
{
    let Some(site) = handle.site() else {
        return NO_SITE;
    };
    give(site.make_image(unit), count)
}

/// `excp_made_length`.
#[unsafe(no_mangle)]
pub extern "C" fn excp_call_made_length(handle: &mut Handle, count: &mut usize) -> u32
    ensures site { TestsSite handle.old result }
    ensures keeps { KeepsSite handle.old handle.new }
    ensures done { result ≡ 0 → Did handle.old handle.new (λ s _. count.new ≡ length s.made) }
    ensures why { result ≢ 0 → result ≡ 3 }
    ensures refused { result ≢ 0 → count.new ≡ count.old }
    ensures same { SameSite handle.old handle.new }
{
    let Some(site) = handle.site() else {
        return NO_SITE;
    };
    *count = site.made_len();
    OK
}

/// `excp_drop_made`.
#[unsafe(no_mangle)]
pub extern "C" fn excp_call_drop_made(handle: &mut Handle) -> u32
    ensures site { TestsSite handle.old result }
    ensures keeps { KeepsSite handle.old handle.new }
    ensures done { result ≡ 0 → Did handle.old handle.new (λ s t. t ≡ record s { made = [] }) }
    ensures why { result ≢ 0 → result ≡ 3 }
    ensures none { result ≡ 3 → SameSite handle.old handle.new }
{
    let Some(site) = handle.site() else {
        return NO_SITE;
    };
    site.drop_made();
    OK
}

/// `excp_copy_out`.
#[unsafe(no_mangle)]
pub extern "C" fn excp_call_copy_out(handle: &mut Handle, from: usize, bytes: &mut [u8]) -> u32
    ensures site { TestsSite handle.old result }
    ensures keeps { KeepsSite handle.old handle.new }
    ensures done { result ≡ 0 → Did handle.old handle.new (λ s _. bytes.new ≡ take (length bytes.old) (drop from s.made)) }
    ensures why { result ≢ 0 → result ≢ 3 → Refused handle.old handle.new result (λ s _. NoRoomFor (from + length bytes.old) (length s.made)) }
    ensures refused { result ≢ 0 → bytes.new ≡ bytes.old }
    ensures same { SameSite handle.old handle.new }
{
    let Some(site) = handle.site() else {
        return NO_SITE;
    };
    done(site.copy_out(from, bytes))
}
