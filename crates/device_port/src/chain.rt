//! The parts of the data of a command.

ghost use Rattle.std.specs.Prelude.{◌≡◌, ◌≤◌, length, reverse};
ghost use Rattle.io_area.specs.Storage.{SamePlace};
ghost use Rattle.device_port.specs.Moves.{AllLie, total, stored, stored_back};

use crate::kind::Flow;
use crate::moves::{store, store_back};
use io_area::Area;
use std::marker::Model;

/// The most parts that the data of a command has: 16 CCWs of 33 parts. A count of 65,535 bytes from within a block of
/// 2,048 takes 33 words of an address list.
pub const MOST_SEGMENTS: usize = 528;

/// A part of the data of a command: the address of its first byte to be moved, the number of bytes, and
/// whether they are to leave storage as it is (SKIP).
#[derive(Clone, Copy, PartialEq, Eq, Debug, Default)]
pub struct Segment {
    /// The address of the first byte that is moved, the highest one where data is read backward.
    pub address: u32,
    /// The number of bytes.
    pub count: u16,
    /// Whether the bytes that a device gives are to leave storage as it is.
    pub skip: bool,
}

/// The parts of the data of a command, in order: at most 528.
#[derive(Drop)]
pub struct Chain<'a> {
    segments: &'a [Segment],
}

impl<'a> Model for Chain<'a> {
    ghost use Rattle.std.specs.Prelude.{List, ◌≤◌, length};
    ghost use Rattle.device_port.specs.declared.chain.Segment.{Segment};

    ghost Value = { List Segment };

    ghost view = { λ c. c.segments.now };

    ghost invariant = { λ c. length c.segments.now ≤ 528 };
}

impl<'a> Chain<'a> {
    /// The chain of these parts.
    pub fn of(segments: &'a [Segment]) -> Self
        requires { length segments.now ≤ MOST_SEGMENTS }
        ensures { result ≡ segments.now }
    {
        Chain { segments }
    }

    /// The number of parts.
    pub fn len(&self) -> usize
        ensures { result ≡ length self.now }
    {
        self.segments.len()
    }

    /// The parts.
    pub fn segments(&self) -> &'a [Segment]
        ensures value { result.now ≡ self.now }
        ensures few { length result.now ≤ MOST_SEGMENTS }
    {
        self.segments
    }

    /// The number of bytes that the parts have room for.
    pub fn total(&self) -> u32
        ensures { result ≡ total self.now }
    {
        self.segments.iter().map(|s| u32::from(s.count)).sum()
    }

    /// Moves bytes into storage at rising addresses, up to the room that there is. A part with SKIP stays as it is.
    pub fn store(&self, area: &mut Area, bytes: &[u8])
        requires { AllLie Flow.Input area.old self.now }
        ensures place { SamePlace area.old area.new }
        ensures stored { area.new ≡ stored self.now bytes.now area.old }
    {
        store(self.segments, area, bytes);
    }

    /// Moves a block into storage backward, its last byte first, at falling addresses.
    pub fn store_back(&self, area: &mut Area, block: &[u8])
        requires { AllLie Flow.Back area.old self.now }
        ensures place { SamePlace area.old area.new }
        ensures stored { area.new ≡ stored_back self.now (reverse block.now) area.old }
    {
        store_back(self.segments, area, block);
    }
}
