//! A command of a history: its CCWs, the first of the bytes that it moved, and how it ended.

ghost use Rattle.std.specs.Prelude.{IfSome};
ghost use Rattle.unit_history.specs.MovedData.{ShowsMoved};

use crate::moved::{DataDirection, Moved, Shown};
use crate::place::MediumPosition;
use ccw_programs::{Context, Link, Listing, Rule, State};
use io_area::Area;
use io_images::Csw;

/// A command of a channel program, after it was done.
#[derive(Drop)]
pub struct ExecutedCommand<'c> {
    pub(crate) listing: Listing<'c>,
    pub(crate) context: &'c Context,
    pub(crate) area: &'c Area,
    pub(crate) fault: Option<usize>,
    pub(crate) place: Option<MediumPosition<'c>>,
}

/// A CCW that breaks a rule: its address, its image if it can be fetched, and the rule.
#[derive(Clone, Copy)]
pub struct BrokenCcw<'c> {
    pub at: u32,
    pub image: Option<&'c [u8]>,
    pub rule: Rule,
}

/// How a command ended: unit status (the high byte) and subchannel status, the residual count, and what comes after it.
#[derive(Clone, Copy)]
pub struct EndingStatus {
    pub status: u16,
    pub residual: u16,
    pub after: After,
}

/// What comes after a command.
#[derive(Clone, Copy)]
pub enum After {
    /// The program goes on at this address.
    Next(u32),
    /// The program has ended, with these sense bytes.
    Sense(u16),
}

impl<'c> ExecutedCommand<'c> {
    /// Its CCWs: the command itself, and the CCWs of its data chain.
    pub fn links(&self) -> &'c [Link] {
        self.listing.links
    }

    /// The number of the fault of the unit that it met, from 1.
    pub fn fault(&self) -> Option<usize> {
        self.fault
    }

    /// Where on the medium it was, as the medium is after it. None of a command that was at no position of it, that met a fault of
    /// the unit, or whose CCWs break a rule.
    pub fn place(&self) -> Option<MediumPosition<'c>> {
        self.place
    }

    /// The rule that a CCW of it breaks. The device did nothing then.
    pub fn broken(&self) -> Option<BrokenCcw<'c>> {
        let refusal = self.listing.refusal?;
        Some(BrokenCcw {
            at: refusal.at,
            image: self.area.get(refusal.at, 8),
            rule: refusal.rule,
        })
    }

    /// The bytes that it moved, if it moved any.
    pub fn moved(&self) -> Option<Moved>
        ensures { IfSome result (ShowsMoved self.now.listing.flow self.now.area.now self.now.listing.parts.now) }
    {
        let count = moved_bytes(self.listing.links, &self.context.halted());
        if count == 0 {
            return None;
        }
        let way = DataDirection::of(self.listing.flow);
        let parts = self.listing.parts;
        let [part, ..] = parts else {
            return None;
        };
        let bytes = Shown::of(way, self.area, parts, count);
        let has_more = bytes.count(part) < count as usize;
        Some(Moved {
            count,
            way,
            address: part.address,
            bytes,
            has_more,
        })
    }

    /// How it ended.
    pub fn ending(&self) -> EndingStatus {
        match self.context.state() {
            State::Running => {
                let next = self.context.next();
                let modifier = leaves_out(self.listing.links, next);
                ending_of(&self.context.halted(), modifier, After::Next(next))
            }
            State::Ended(csw, sense) => ending_of(&csw, 0, After::Sense(sense)),
        }
    }
}

/// How a command ended that stored this CSW, with these bits of unit status too.
fn ending_of(csw: &Csw, modifier: u16, after: After) -> EndingStatus {
    let mut image = [0; 8];
    csw.write(&mut image);
    let [_, _, _, _, unit, subchannel, high, low] = image;
    EndingStatus {
        status: u16::from_be_bytes([unit, subchannel]) | modifier,
        residual: u16::from_be_bytes([high, low]),
        after,
    }
}

/// How many bytes a command moved: those that its CCWs count up to the one where it ended, which it stored, but for
/// what was left of that.
fn moved_bytes(links: &[Link], stored: &Csw) -> u32 {
    let mut moved: u32 = 0;
    for link in links {
        if link.at.saturating_add(8) == stored.address.get() {
            let counted = link.ccw.count.saturating_sub(stored.residual);
            return moved.saturating_add(u32::from(counted));
        }
        moved = moved.saturating_add(u32::from(link.ccw.count));
    }
    moved
}

/// The bit of status modifier, if the program goes on at `next` and so has left out the CCW after its last one; else 0.
fn leaves_out(links: &[Link], next: u32) -> u16 {
    match links.last() {
        Some(link) if link.at.saturating_add(16) & 0xFF_FFFF == next => 0x4000,
        _ => 0,
    }
}
