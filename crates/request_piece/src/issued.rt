//! A request as it was issued.

ghost use Rattle.std.specs.Prelude.{◌≡◌, IfOk};
ghost use Rattle.std.specs.Arc.{arc_value};

use crate::piece::{Name, Piece};
use io_area::Area;
use io_images::{Address, Seek};
use std::alloc::{AllocError, Global};
use std::marker::Model;
use std::sync::Arc;

/// A request as it was issued. Its storage may be shared with other requests that were made from the same.
#[derive(Drop)]
pub struct Issued {
    name: Name,
    unit: u16,
    dcb: u16,
    related: bool,
    start: Address,
    seek: Seek,
    iob: u32,
    ecb: u32,
    area: Arc<Area, Global>,
}

impl Model for Issued {
    ghost use Rattle.std.specs.Arc.{arc_value};
    ghost use Rattle.request_piece.specs.declared.piece.Piece.{Piece};

    ghost Value = { Piece };

    ghost view = { λ i. record { name = i.name; unit = i.unit; dcb = i.dcb; related = i.related; start = i.start; seek = i.seek; iob = i.iob; ecb = i.ecb; area = arc_value i.area } };
}

impl Issued {
    /// The piece over this storage.
    pub(crate) fn of(piece: &Piece, area: Arc<Area, Global>) -> Self
        requires { arc_value area ≡ piece.now.area }
        ensures { result ≡ piece.now }
    {
        Issued {
            name: piece.name,
            unit: piece.unit,
            dcb: piece.dcb,
            related: piece.related,
            start: piece.start,
            seek: piece.seek,
            iob: piece.iob,
            ecb: piece.ecb,
            area,
        }
    }

    /// Copies the request as issued, over the same storage. Never allocates, and fails only if the storage has too many
    /// owners.
    pub fn copy(&self) -> Result<Issued, AllocError>
        ensures { IfOk result (λ i. i ≡ self.now) }
    {
        Ok(Issued {
            name: self.name,
            unit: self.unit,
            dcb: self.dcb,
            related: self.related,
            start: self.start,
            seek: self.seek,
            iob: self.iob,
            ecb: self.ecb,
            area: Arc::try_clone(&self.area)?,
        })
    }

    pub fn name(&self) -> Name
        ensures { result ≡ self.now.name }
    {
        self.name
    }

    /// The unit that it is for.
    pub fn unit(&self) -> u16
        ensures { result ≡ self.now.unit }
    {
        self.unit
    }

    /// The number of its DCB.
    pub fn dcb(&self) -> u16
        ensures { result ≡ self.now.dcb }
    {
        self.dcb
    }

    /// Whether it is related to the other requests of its DCB.
    pub fn is_related(&self) -> bool
        ensures { result ≡ self.now.related }
    {
        self.related
    }

    /// The address of its channel program.
    pub fn start(&self) -> Address
        ensures { result ≡ self.now.start }
    {
        self.start
    }

    /// Its seek address.
    pub fn seek(&self) -> Seek
        ensures { result ≡ self.now.seek }
    {
        self.seek
    }

    /// Its storage as issued.
    pub fn area(&self) -> &Area
        ensures { result.now ≡ self.now.area }
    {
        &self.area
    }
}
