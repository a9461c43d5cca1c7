//! Writes into the image of a medium.

ghost use Rattle.std.specs.Prelude.{◌≡◌, ◌+◌, ℕ, ◌≤◌, ◌<◌, length, slice_index};
ghost use Rattle.device_port.specs.Moves.{padded, written};

use crate::given::Given;

/// Writes bytes into an image from `at` on.
pub fn put_at(image: &mut [u8], at: usize, bytes: &[u8])
    requires { at + length bytes.now ≤ length image.old }
    ensures { image.new ≡ written image.old at bytes.now }
{
    image[at..at + bytes.len()].copy_from_slice(bytes);
}

/// Writes the first `len` bytes that a program gives into an image from `at` on, and zeros for those that are
/// missing.
pub fn fill_at(image: &mut [u8], at: usize, len: usize, given: &Given<'_>)
    requires { at + len ≤ length image.old }
    ensures image { image.new ≡ written image.old at (padded len given.now) }
    ensures bytes { (i : ℕ) → slice_index (padded len given.now) i < 256 }
{
    given.fill(&mut image[at..at + len]);
}
