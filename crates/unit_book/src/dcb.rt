//! The DCBs of a unit.

ghost use Rattle.std.specs.Prelude.{◌≡◌, ◌+◌, ◌==◌, ◌&&◌, ℕ, [], ◌∷◌, ◌++◌, length, map, IfOk, OnOk, OnErr, true, false};
ghost use Rattle.std.specs.Option.{option_copied};
ghost use Rattle.io_images.specs.Codes.{is_error};
ghost use Rattle.unit_book.specs.Dcbs.{mask_for};
ghost use Rattle.unit_book.specs.Fields.{HasRow, dcb_at, mask_at, extents_at, noted, shut, unflagged, unflagged_row};

use crate::extents::Extents;
use io_images::{Code, Extent, FileMask};
use request_piece::Piece;
use std::alloc::{AllocError, Global};
use std::marker::Model;

/// What a DCB is opened for: the processing method of an OPEN (DFSMS Macro Instructions for Data Sets, OPEN).
#[derive(Clone, Copy, PartialEq, Eq, Debug)]
pub enum ProcessingMethod {
    Input,
    Output,
}

impl ProcessingMethod {
    /// The file mask that the supervisor sets for a DCB that is opened so (profile).
    pub fn file_mask(self) -> FileMask
        ensures { result ≡ record { 0 = mask_for self } }
    {
        match self {
            ProcessingMethod::Input => FileMask::INPUT,
            ProcessingMethod::Output => FileMask::OUTPUT,
        }
    }
}

/// The state of a DCB at a unit: closing while a request of it is active, and closed after.
#[derive(Clone, Copy, PartialEq, Eq, Debug)]
pub enum DcbState {
    Unknown,
    Open,
    Closing,
    Closed,
}

/// What is kept of a DCB.
#[derive(Drop)]
pub(crate) struct Dcb {
    pub method: ProcessingMethod,
    pub extents: Extents,
    pub closed: bool,
    pub in_error: bool,
}

impl Dcb {
    /// Copies a DCB: its extents and its flags. Fails only if memory runs out.
    fn copy(&self) -> Result<Dcb, AllocError>
        ensures { IfOk result (λ dcb. dcb ≡ self.now) }
    {
        Ok(Dcb {
            method: self.method,
            extents: self.extents.copy()?,
            closed: self.closed,
            in_error: self.in_error,
        })
    }
}

/// The DCBs of a unit, by their numbers from 1.
#[derive(Drop)]
pub(crate) struct DcbTable {
    rows: Vec<Dcb>,
}

impl Model for DcbTable {
    ghost use Rattle.std.specs.Prelude.{List};
    ghost use Rattle.unit_book.specs.declared.dcb.Dcb.{Dcb};

    ghost Value = { List Dcb };

    ghost view = { λ t. t.rows.items };
}

impl DcbTable {
    pub fn new(alloc: Global) -> Self
        ensures { result ≡ [] }
    {
        DcbTable {
            rows: Vec::new(alloc),
        }
    }

    /// Copies the table of a unit's DCBs. Fails only if memory runs out.
    pub fn copy(&self) -> Result<Self, AllocError>
        ensures { IfOk result (λ table. table ≡ self.now) }
    {
        Ok(DcbTable {
            rows: copy_rows(&self.rows)?,
        })
    }

    /// How many DCBs were opened.
    pub fn len(&self) -> usize
        ensures { result ≡ length self.now }
    {
        self.rows.len()
    }

    /// Adds a DCB, which gets the next number.
    pub fn push(&mut self, dcb: Dcb) -> Result<(), AllocError>
        ensures ok { OnOk result (self.new ≡ self.old ++ dcb ∷ []) }
        ensures err { OnErr result (self.new ≡ self.old) }
    {
        self.rows.push(dcb)?;
        Ok(())
    }

    /// The DCB with a number.
    pub fn get(&self, dcb: u16) -> Option<&Dcb>
        ensures { option_copied result ≡ dcb_at self.now dcb }
    {
        if dcb == 0 {
            return None;
        }
        self.rows.get(usize::from(dcb) - 1)
    }

    /// The file mask of a DCB (profile).
    pub fn mask(&self, dcb: u16) -> u8
        ensures { result ≡ mask_at (dcb_at self.now dcb) }
    {
        match self.get(dcb) {
            Some(row) => row.method.file_mask().0,
            None => FileMask::OUTPUT.0,
        }
    }

    /// The extents of a DCB.
    pub fn extents(&self, dcb: u16) -> &[Extent]
        ensures { result.now ≡ extents_at (dcb_at self.now dcb) }
    {
        match self.get(dcb) {
            Some(row) => row.extents.as_slice(),
            None => &[],
        }
    }

    /// Notes at the DCB of a request that it was posted.
    pub fn note_post(&mut self, piece: &Piece, code: Code)
        requires { HasRow self.old piece.now.dcb }
        ensures dcbs { (d : ℕ) → dcb_at self.new d ≡ noted (is_error code && piece.now.related && (piece.now.dcb == d)) (dcb_at self.old d) }
        ensures count { length self.new ≡ length self.old }
    {
        if code.is_error() && piece.related {
            flag(&mut self.rows[usize::from(piece.dcb) - 1]);
        }
    }

    /// Closes the DCB with this number.
    pub fn close(&mut self, dcb: u16)
        requires { HasRow self.old dcb }
        ensures dcbs { (d : ℕ) → dcb_at self.new d ≡ shut (dcb == d) (dcb_at self.old d) }
        ensures count { length self.new ≡ length self.old }
    {
        close(&mut self.rows[usize::from(dcb) - 1]);
    }

    /// Clears the error flag of the DCB with this number.
    pub fn reset(&mut self, dcb: u16)
        requires { HasRow self.old dcb }
        ensures dcbs { (d : ℕ) → dcb_at self.new d ≡ unflagged (dcb == d) (dcb_at self.old d) }
        ensures count { length self.new ≡ length self.old }
    {
        unflag(&mut self.rows[usize::from(dcb) - 1]);
    }

    /// Clears the error flag of each DCB.
    pub fn unflag_all(&mut self)
        ensures dcbs { (d : ℕ) → dcb_at self.new d ≡ unflagged true (dcb_at self.old d) }
        ensures count { length self.new ≡ length self.old }
    {
        unflag_all(&mut self.rows);
    }
}

/// Copies the rows of a table of DCBs. Fails only if memory runs out.
fn copy_rows(rows: &Vec<Dcb>) -> Result<Vec<Dcb>, AllocError>
    ensures { IfOk result (λ copies. copies.items ≡ rows.now.items) }
{
    let alloc = *rows.allocator();
    let mut copies = Vec::with_capacity(alloc, rows.len())?;
    for row in rows {
        copies.push(row.copy()?)?;
    }
    Ok(copies)
}

/// Clears the error flag of each of these DCBs.
fn unflag_all(rows: &mut Vec<Dcb>)
    ensures { rows.new.items ≡ map unflagged_row rows.old.items }
{
    for place in 0..rows.len() {
        unflag(&mut rows[place]);
    }
}

/// Notes that the DCB is closed.
fn close(dcb: &mut Dcb)
    ensures { dcb.new ≡ record dcb.old { closed = true } }
{
    dcb.closed = true;
}

/// Clears the error flag.
fn unflag(dcb: &mut Dcb)
    ensures { dcb.new ≡ unflagged_row dcb.old }
{
    dcb.in_error = false;
}

/// Sets the error flag.
fn flag(dcb: &mut Dcb)
    ensures { dcb.new ≡ record dcb.old { in_error = true } }
{
    dcb.in_error = true;
}
