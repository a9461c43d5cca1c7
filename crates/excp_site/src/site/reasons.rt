//! Why a call was refused, kept in words as the bytes that were made last.
//!
//! `explain` is called after the call that it explains, with the same values. If memory runs out, no bytes are kept.

ghost use Rattle.std.specs.Prelude.{◌≡◌};
ghost use Rattle.excp_site.specs.Reasons.{LeavesReason, LeavesText};

use crate::reason::{
    Reason, of_extents, of_faults, of_geometry, of_items, of_paper, of_records, of_request,
};
use crate::refusal::Refusal;
use crate::site::Site;
use ckd_disk::{Geometry, first_overfull};
use device_port::Device;
use io_area::Area;
use io_images::Extent;
use request_piece::Request;
use std::io::Write;
use tape_unit::{LONGEST_REEL, overrun_of};
use unit_book::extents_refusal;

/// A call that was refused, with the values that say why.
#[derive(Clone, Copy)]
pub enum RefusedCall<'a> {
    /// `mount_disk` with this size.
    Disk(Geometry),
    /// `mount_tape` with this number of bytes.
    Tape(u64),
    /// `mount_printer` with these numbers of lines and pages.
    Printer(u64, u64),
    /// `mount_ckd`, or `mount_aws` with this size. The rule that an image breaks was kept by the call.
    Image(u64),
    /// `extents` of this number of bytes.
    ExtentBytes(usize),
    /// `open` of a unit with these extents.
    Open(u16, &'a [Extent]),
    /// `issue` for a DCB, with an IOB at an address of storage at a base.
    Issue {
        dcb: u16,
        iob: u32,
        base: u32,
        storage: &'a [u8],
    },
}

impl Site {
    /// Explains why a call was refused.
    pub fn explain(&mut self, refusal: Refusal, call: RefusedCall<'_>)
        ensures { LeavesReason self.old self.new refusal }
    {
        let reason = match refusal {
            Refusal::BadGeometry => match call {
                RefusedCall::Disk(geometry) => of_geometry(geometry),
                RefusedCall::Tape(bytes) => Some(Reason::TapeBytes(bytes)),
                RefusedCall::Printer(lines, pages) => of_paper(lines, pages),
                RefusedCall::Image(size) if size > LONGEST_REEL => Some(Reason::ReelBytes(size)),
                _ => return,
            },
            Refusal::BadMedium => match call {
                RefusedCall::Disk(geometry) => self.disk_reason(geometry),
                RefusedCall::Tape(bytes) => self.tape_reason(bytes),
                _ => self.pieces_reason(),
            },
            Refusal::BadExtent => match call {
                RefusedCall::ExtentBytes(len) => Some(Reason::ExtentBytes(len)),
                RefusedCall::Open(unit, extents) => self.extents_reason(unit, extents),
                _ => return,
            },
            Refusal::AreaMisaligned
            | Refusal::AreaTooLong
            | Refusal::AreaPastTop
            | Refusal::BadIob
            | Refusal::BadEcb
            | Refusal::BadProgram
            | Refusal::WrongDcb => self.request_reason(refusal, call),
            _ => return,
        };
        self.keep(reason);
    }

    /// Why what was put is no disk of this size.
    fn disk_reason(&self, geometry: Geometry) -> Option<Reason> {
        let medium = &self.medium;
        if !medium.items.is_empty() {
            return Some(Reason::OtherPieces);
        }
        if let Some(reason) = of_faults(&medium.faults) {
            return Some(reason);
        }
        if let Some(reason) = of_records(geometry, &medium.records) {
            return Some(reason);
        }
        match first_overfull(self.alloc, geometry, &medium.records) {
            Ok(Some(full)) => Some(Reason::TrackFull(
                full.record,
                full.needed,
                geometry.track_bytes,
            )),
            Ok(None) | Err(_) => None,
        }
    }

    /// Why what was put is no tape of this size.
    fn tape_reason(&self, bytes: u64) -> Option<Reason> {
        let medium = &self.medium;
        if !medium.records.is_empty() {
            return Some(Reason::OtherPieces);
        }
        if let Some(reason) = of_faults(&medium.faults) {
            return Some(reason);
        }
        if let Some(reason) = of_items(&medium.items) {
            return Some(reason);
        }
        let overrun = overrun_of(&medium.items, bytes)?;
        Some(Reason::TapeFull(overrun.item, overrun.needed, bytes))
    }

    /// Why what was put is no set of faults alone.
    fn pieces_reason(&self) -> Option<Reason> {
        let medium = &self.medium;
        if !medium.records.is_empty() || !medium.items.is_empty() {
            return Some(Reason::OtherPieces);
        }
        of_faults(&medium.faults)
    }

    /// Why a unit does not take extents.
    fn extents_reason(&self, unit: u16, extents: &[Extent]) -> Option<Reason> {
        if self.has_unit(unit).is_err() {
            return None;
        }
        let device = self.plain.book(unit).device();
        let (cylinders, heads) = (device.cylinders(), device.heads());
        let refusal = extents_refusal(device.kind(), cylinders, heads, extents)?;
        Some(of_extents(refusal, extents.len(), cylinders, heads))
    }

    /// Why a request was not issued.
    fn request_reason(&self, refusal: Refusal, call: RefusedCall<'_>) -> Option<Reason> {
        let RefusedCall::Issue {
            dcb,
            iob,
            base,
            storage,
        } = call
        else {
            return None;
        };
        match refusal {
            Refusal::AreaMisaligned => Some(Reason::Base(base)),
            Refusal::AreaTooLong => Some(Reason::StorageBytes(storage.len())),
            Refusal::AreaPastTop => Some(Reason::StorageEnd(base)),
            _ => {
                let Ok(area) = Area::new(self.alloc, base, storage) else {
                    return None;
                };
                let refusal = Request::refusal(dcb, iob, &area)?;
                Some(of_request(refusal, dcb, iob, base))
            }
        }
    }

    /// Keeps a reason, in words, as what was made last. Without one, or without memory, nothing is made.
    fn keep(&mut self, reason: Option<Reason>)
        ensures { LeavesText self.old self.new }
    {
        self.made = Vec::new(self.alloc);
        let Some(reason) = reason else {
            return;
        };
        let mut text = Vec::new(self.alloc);
        if write!(text, "{reason}").is_ok() {
            self.made = text;
        }
    }
}
