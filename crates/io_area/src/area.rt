//! The bytes that a request brings.

ghost use Rattle.std.specs.Prelude.{◌≡◌, ◌≢◌, ◌==◌, ◌+◌, ◌<◌, ◌≤◌, ◌^◌, length, true, false, IfErr, IfOk, IfSome, IsOk, IsSome, MatchOption, OnErr, OnOk, if◌then◌else◌};
ghost use Rattle.io_area.specs.Storage.{IsOffset, SamePlace, bytes_at, lies_in, with_bytes};
ghost use Rattle.io_area.specs.AreaFault.{AreaFault, NoAreaFault};

use crate::error::AreaError;
use std::alloc::{AllocError, Global};
use std::marker::Model;

/// Storage that a request brings: the address of its first byte, and its bytes.
#[derive(Drop)]
pub struct Area {
    base: u32,
    bytes: Vec<u8>,
}

impl Model for Area {
    ghost use Rattle.std.specs.Prelude.{◌+◌, ◌^◌, ◌≤◌, length};
    ghost use Rattle.io_area.specs.Storage.{Storage};

    ghost Value = { Storage };

    ghost view = { λ a. record { base = a.base; bytes = a.bytes.items } };

    ghost invariant = { (λ a. (a.base + length a.bytes.items ≤ 2 ^ 24) × (length a.bytes.items ≤ 8192)) };
}

impl Area {
    /// The most bytes that an area has (profile).
    pub const MAX_LEN: usize = 8192;

    /// Where addresses end, 2^24.
    pub const TOP: usize = 0x100_0000;

    /// An area of these bytes from `base` on (profile).
    ///
    /// Errors, in this order: `base` is not a multiple of 8; more than 8,192 bytes; the end is past 2^24; out of memory.
    pub fn new(alloc: Global, base: u32, bytes: &[u8]) -> Result<Area, AreaError>
        ensures area { IfOk result (λ a. a ≡ record { base = base; bytes = bytes.now }) }
        ensures ok { IsOk result → NoAreaFault base (length bytes.now) }
        ensures fault { IfErr result (AreaFault base (length bytes.now)) }
    {
        if base % 8 != 0 {
            return Err(AreaError::Misaligned);
        }
        if bytes.len() > Area::MAX_LEN {
            return Err(AreaError::TooLong);
        }
        if base as usize + bytes.len() > Area::TOP {
            return Err(AreaError::PastTop);
        }
        let bytes = bytes.to_vec(alloc).map_err(|_| AreaError::NoMemory)?;
        Ok(Area { base, bytes })
    }

    /// The address of the first byte.
    pub fn base(&self) -> u32
        ensures { result ≡ self.now.base }
    {
        self.base
    }

    /// The number of bytes.
    pub fn len(&self) -> usize
        ensures { result ≡ length self.now.bytes }
    {
        self.bytes.len()
    }

    /// Whether there is no byte.
    pub fn is_empty(&self) -> bool
        ensures { result ≡ (length self.now.bytes == 0) }
    {
        self.bytes.is_empty()
    }

    /// The `count` bytes from `at`, if they are in the area. No byte lies in every area.
    pub fn get(&self, at: u32, count: usize) -> Option<&[u8]>
        ensures answer { MatchOption result (lies_in self.now at count ≡ false) (λ s. (lies_in self.now at count ≡ true) × (s.now ≡ bytes_at self.now at count)) }
        ensures length { IfSome result (λ s. length s.now ≡ count) }
        ensures bound { IsSome result → 0 < count → at + count ≤ 2 ^ 24 }
    {
        if count == 0 {
            return Some(&[]);
        }
        let from = self.offset(at, count)?;
        Some(&self.bytes.as_slice()[from..from + count])
    }

    /// Writes the bytes from `at` on, if they are in the area, and returns whether they are. Else nothing changes.
    pub fn put(&mut self, at: u32, new: &[u8]) -> bool
        ensures lies { result ≡ lies_in self.old at (length new.now) }
        ensures wrote { self.new ≡ (if result then with_bytes self.old at new.now else self.old) }
        ensures place { SamePlace self.old self.new }
    {
        if new.is_empty() {
            return true;
        }
        let Some(from) = self.offset(at, new.len()) else {
            return false;
        };
        self.bytes.as_mut_slice()[from..from + new.len()].copy_from_slice(new);
        true
    }

    /// An area with the same base and bytes.
    pub fn copy(&self) -> Result<Area, AllocError>
        ensures { IfOk result (λ a. a ≡ self.now) }
    {
        Ok(Area {
            base: self.base,
            bytes: self.bytes.clone()?,
        })
    }

    /// Makes the area a copy of another. It takes memory only if that has another number of bytes.
    ///
    /// Error: out of memory. Nothing changes then.
    pub fn copy_from(&mut self, other: &Area) -> Result<(), AllocError>
        ensures ok { OnOk result (self.new ≡ other.now) }
        ensures err { OnErr result (self.new ≡ self.old) }
        ensures resized { OnErr result (length self.old.bytes ≢ length other.now.bytes) }
    {
        if self.bytes.len() != other.bytes.len() {
            *self = other.copy()?;
            return Ok(());
        }
        self.base = other.base;
        self.bytes.as_mut_slice().copy_from_slice(&other.bytes);
        Ok(())
    }

    /// The offset in `bytes` of `count` bytes from `at`, if they are in the area.
    fn offset(&self, at: u32, count: usize) -> Option<usize>
        requires { 0 < count }
        ensures { MatchOption result (lies_in self.now at count ≡ false) (IsOffset self.now at count) }
    {
        let from = at.checked_sub(self.base)? as usize;
        let last = self.bytes.len().checked_sub(count)?;
        (from <= last).then_some(from)
    }
}
