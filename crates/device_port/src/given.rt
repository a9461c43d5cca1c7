//! The bytes that a program gives to a command.

ghost use Rattle.std.specs.Prelude.{◌≡◌, ◌<◌, ℕ, length, slice_index, take, IfSome};
ghost use Rattle.device_port.specs.Moves.{AllLie, gathered, padded};

use crate::chain::{Chain, Segment};
use crate::kind::Flow;
use crate::moves::gather;
use io_area::Area;
use std::marker::Model;

/// The bytes that a chain gives to a command, part after part.
#[derive(Drop)]
pub struct Given<'a> {
    segments: &'a [Segment],
    area: &'a Area,
}

impl<'a> Model for Given<'a> {
    ghost use Rattle.std.specs.Prelude.{List, ℕ, ◌≤◌, length};
    ghost use Rattle.device_port.specs.Moves.{AllLie, gathered};
    ghost use Rattle.device_port.specs.declared.kind.Flow.TheVariants.{Out};

    ghost Value = { List ℕ };

    ghost view = { λ g. gathered g.area.now g.segments.now };

    ghost invariant = { (λ g. AllLie Out g.area.now g.segments.now × (length g.segments.now ≤ 528)) };
}

impl<'a> Given<'a> {
    /// The bytes of a chain that lies in the area.
    pub fn new(chain: &Chain<'a>, area: &'a Area) -> Self
        requires { AllLie Flow.Out area.now chain.now }
        ensures { result ≡ gathered area.now chain.now }
    {
        Given {
            segments: chain.segments(),
            area,
        }
    }

    /// How many bytes the chain gives.
    pub fn len(&self) -> usize
        ensures { result ≡ length self.now }
    {
        Chain::of(self.segments).total() as usize
    }

    /// Fills `into` with the first bytes, and with zeros what they leave.
    pub fn fill(&self, into: &mut [u8])
        ensures filled { into.new ≡ padded (length into.old) self.now }
        ensures bytes { (i : ℕ) → slice_index into.new i < 256 }
    {
        gather(self.segments, self.area, into)
    }

    /// The first bytes, at most `most`, if they lie in one part; else none.
    #[inline(always)]
    pub fn first(&self, most: usize) -> Option<&'a [u8]>
        ensures { IfSome result (λ bytes. bytes.now ≡ take most self.now) }
    {
        match self.segments {
            [only] => {
                let len = usize::from(only.count).min(most);
                let bytes = self.area.get(only.address, len)?;
                Some(bytes)
            }
            _ => None,
        }
    }
}
