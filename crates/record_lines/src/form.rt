//! Pieces of JSON: bytes in hexadecimal, and null.

use post_lines::write_bytes;
use std::io::Write;
use std::{fmt, io};

/// Writes bytes in hexadecimal as a text, which is empty for none.
pub(crate) fn write_hex<W: Write>(out: &mut W, bytes: &[u8]) -> io::Result<()> {
    out.write_all(b"\"")?;
    if !bytes.is_empty() {
        write_bytes(out, bytes)?;
    }
    out.write_all(b"\"")
}

/// Writes a member with bytes in hexadecimal, or null, after a comma.
pub(crate) fn write_member<W: Write>(
    out: &mut W,
    name: &str,
    bytes: Option<&[u8]>,
) -> io::Result<()> {
    write!(out, ",\"{name}\":")?;
    match bytes {
        Some(bytes) => write_hex(out, bytes),
        None => out.write_all(b"null"),
    }
}

/// A number, or null.
#[derive(Clone, Copy)]
pub(crate) struct OrNull<T>(pub Option<T>);

impl<T: fmt::Display> fmt::Display for OrNull<T> {
    fn fmt<W: fmt::Write>(&self, f: &mut fmt::Formatter<W>) -> fmt::Result {
        match &self.0 {
            Some(value) => write!(f, "{value}"),
            None => f.write_str("null"),
        }
    }
}
