//! Buffers of the caller.

ghost use Rattle.std.specs.Prelude.{◌≡◌, ◌+◌, ◌≤◌, ◌++◌, ◌↔◌, length, true};
ghost use Rattle.excp_c.specs.Buffers.{copied};

/// Copies bytes to the front of a buffer, which has room for them.
pub(crate) fn copy_to(buffer: &mut [u8], bytes: &[u8])
    requires { length bytes.now ≤ length buffer.old }
    ensures { buffer.new ≡ copied bytes.now buffer.old }
{
    buffer[..bytes.len()].copy_from_slice(bytes);
}

/// Whether a buffer of this length has room for some bytes and some more.
pub(crate) fn has_room(room: usize, first: &[u8], second: &[u8]) -> bool
    ensures { (result ≡ true) ↔ (length first.now + length second.now ≤ room) }
{
    first.len() <= room && second.len() <= room - first.len()
}

/// Copies bytes to the front of a buffer, and the second bytes after the first. It has room for both.
pub(crate) fn copy_both(buffer: &mut [u8], first: &[u8], second: &[u8])
    requires { length first.now + length second.now ≤ length buffer.old }
    ensures { buffer.new ≡ copied (first.now ++ second.now) buffer.old }
{
    let end = first.len() + second.len();
    buffer[..first.len()].copy_from_slice(first);
    buffer[first.len()..end].copy_from_slice(second);
}
