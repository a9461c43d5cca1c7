//! A request that has ended, and how a post writes its control blocks.

ghost use Rattle.std.specs.Prelude.{◌≡◌, true, IfOk, OnErr, OnOk};
ghost use Rattle.io_images.specs.Written.{ecb_image};
ghost use Rattle.io_area.specs.Storage.{SamePlace, bytes_at, lies_in, with_bytes};
ghost use Rattle.io_images.specs.Codes.{posted_ecb};
ghost use Rattle.request_piece.specs.Places.{Placed};
ghost use Rattle.request_piece.specs.Final.{final, posted_iob, posted_of};

use crate::piece::{Name, Piece};
use crate::request::iob_image;
use io_area::Area;
use io_images::{Code, Csw, Ecb, Iob};
use std::alloc::{AllocError, Global};
use std::marker::Model;

/// A request that has ended: its name and storage, how it ended, and what the IOB says of it.
#[derive(Drop)]
pub struct Posted {
    piece: Box<Piece>,
    code: Code,
    csw: Csw,
    sense: u16,
}

impl Model for Posted {
    ghost use Rattle.request_piece.specs.PostedState.{PostedState};

    ghost Value = { PostedState };

    ghost view = { λ p. record { name = p.piece.value.name; unit = p.piece.value.unit; dcb = p.piece.value.dcb; code = p.code; csw = p.csw; sense = p.sense; area = p.piece.value.area } };
}

impl Posted {
    /// Posts a request (DFSMSdfp Advanced Services, "Input/Output Block Fields" and "Event Control Block Fields";
    /// that IOBIOERR is on for every code but 7F is the profile's). Last of all it writes IOBSENS0 and IOBSENS1,
    /// IOBECBCC, the CSW, IOBIOERR and the ECB.
    pub fn new(piece: Box<Piece>, code: Code, csw: Csw, sense: u16) -> Posted
        requires { Placed piece.value }
        ensures { result ≡ posted_of piece.value code csw sense }
    {
        let mut piece = piece;
        write_end(&mut piece, code, &csw, sense);
        Posted {
            piece,
            code,
            csw,
            sense,
        }
    }

    /// Copies the posted value, with storage of its own. Fails only if memory runs out.
    pub fn copy(&self, alloc: Global) -> Result<Posted, AllocError>
        ensures { IfOk result (λ p. p ≡ self.now) }
    {
        Ok(Posted {
            piece: Box::new(alloc, self.piece.copy()?)?,
            code: self.code,
            csw: self.csw,
            sense: self.sense,
        })
    }

    /// The name of the request.
    pub fn name(&self) -> Name
        ensures { result ≡ self.now.name }
    {
        self.piece.name
    }

    /// The unit that it was for.
    pub fn unit(&self) -> u16
        ensures { result ≡ self.now.unit }
    {
        self.piece.unit
    }

    /// The number of its DCB.
    pub fn dcb(&self) -> u16
        ensures { result ≡ self.now.dcb }
    {
        self.piece.dcb
    }

    /// How it ended.
    pub fn code(&self) -> Code
        ensures { result ≡ self.now.code }
    {
        self.code
    }

    /// The status of its last program, zeros where none was started.
    pub fn csw(&self) -> Csw
        ensures { result ≡ self.now.csw }
    {
        self.csw
    }

    /// The first two sense bytes.
    pub fn sense(&self) -> u16
        ensures { result ≡ self.now.sense }
    {
        self.sense
    }

    /// Its storage, as the post left it.
    pub fn area(&self) -> &Area
        ensures { result.now ≡ self.now.area }
    {
        &self.piece.area
    }

    /// Makes its storage a copy of an area, as `Area::copy_from`.
    pub(crate) fn store(&mut self, area: &Area) -> Result<(), AllocError>
        ensures ok { OnOk result (self.new ≡ record self.old { area = area.now }) }
        ensures err { OnErr result (self.new ≡ self.old) }
    {
        self.piece.area.copy_from(area)
    }

    /// The piece that was worked on.
    pub(crate) fn into_piece(self) -> Box<Piece>
        ensures { result.value.area ≡ self.area }
    {
        let Posted { piece, .. } = self;
        piece
    }

    /// Its storage, to be used anew.
    pub fn into_area(self) -> Area
        ensures { result ≡ self.area }
    {
        Box::into_inner(self.into_piece()).area
    }
}

/// Writes the end of a request into its IOB and its ECB.
fn write_end(piece: &mut Piece, code: Code, csw: &Csw, sense: u16)
    requires { Placed piece.old }
    ensures { piece.new ≡ record piece.old { area = final piece.old code csw.now sense } }
{
    write_iob(&mut piece.area, piece.iob, code, csw, sense);
    write_ecb(&mut piece.area, piece.ecb, code);
}

/// Writes sense, completion code, CSW and IOBIOERR into an IOB.
fn write_iob(area: &mut Area, at: u32, code: Code, csw: &Csw, sense: u16)
    requires { lies_in area.old at 40 ≡ true }
    ensures written { area.new ≡ with_bytes area.old at (posted_iob code csw.now sense (bytes_at area.old at 40)) }
    ensures place { SamePlace area.old area.new }
{
    let mut image = iob_image(at, area).unwrap();
    let mut iob = Iob::read(&image);
    iob.io_error = code.sets_io_error();
    iob.sense = sense;
    iob.completion = code.byte();
    iob.csw = *csw;
    iob.write(&mut image);
    area.put(at, &image);
}

/// Writes a completion code into an ECB.
fn write_ecb(area: &mut Area, at: u32, code: Code)
    requires { lies_in area.old at 4 ≡ true }
    ensures { area.new ≡ with_bytes area.old at (ecb_image (posted_ecb code)) }
{
    let mut image = [0; 4];
    Ecb::posted(code).write(&mut image);
    area.put(at, &image);
}
