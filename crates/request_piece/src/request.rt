//! A request that is made from its IOB.

mod refusal;

ghost use Rattle.std.specs.Prelude.{◌≡◌, true, false, IfErr, IfOk, IfSome, MatchOption};
ghost use Rattle.std.specs.Arc.{arc_value};
ghost use Rattle.io_area.specs.Storage.{lies_in};
ghost use Rattle.io_images.specs.Images.{iob_of};
ghost use Rattle.request_piece.specs.Places.{Placed, is_ecb_place, is_program_place};
ghost use Rattle.request_piece.specs.Requests.{IsImageAt, NoFault, RequestFault, iob_at, piece_of, request_of};

use crate::error::RequestError;
use crate::issued::Issued;
use crate::piece::{Name, Piece};
use crate::posted::Posted;
use io_area::Area;
use io_images::{Address, Iob, Seek};
pub use refusal::{Misplaced, RequestRefusal};
use std::alloc::Global;
use std::marker::Model;
use std::sync::Arc;

/// A request as issued, beside the copy that is worked on.
#[derive(Drop)]
pub struct Request {
    issued: Issued,
    work: Box<Piece>,
}

impl Model for Request {
    ghost use Rattle.std.specs.Prelude.{◌≡◌};
    ghost use Rattle.request_piece.specs.declared.piece.Piece.{Piece};
    ghost use Rattle.request_piece.specs.Places.{Placed};

    ghost Value = { Piece };

    ghost view = { λ r. r.issued };

    ghost invariant = { (λ r. (r.work.value ≡ r.issued) × Placed r.issued) };
}

impl Request {
    /// The request that the IOB at `iob` of the area describes.
    ///
    /// Errors, which give the area back, in this order (profile):
    ///
    /// - The IOB is not on a fullword boundary, or not in the area.
    /// - The ECB is not on a fullword boundary, or not in the area, or it overlaps the IOB.
    /// - The channel program is not on a doubleword boundary, or not in the area.
    /// - The IOB names another DCB.
    /// - Memory runs out.
    pub fn new(
        alloc: Global,
        name: Name,
        unit: u16,
        dcb: u16,
        iob: u32,
        area: Area,
    ) -> Result<Request, (RequestError, Area)>
        ensures request { IfOk result (λ r. r ≡ request_of name unit dcb iob area) }
        ensures ok { IfOk result (λ r. NoFault dcb iob area) }
        ensures refused { IfErr result (λ e. RequestFault dcb iob area e.0) }
        ensures given_back { IfErr result (λ e. e.1 ≡ area) }
    {
        let image = match read_iob(dcb, iob, &area) {
            Ok(image) => image,
            Err(error) => return Err((error, area)),
        };
        let Ok(kept) = area.copy() else {
            return Err((RequestError::NoMemory, area));
        };
        match Arc::new(alloc, kept) {
            Ok(kept) => {
                let piece = piece_of(name, unit, dcb, iob, &image, area);
                Request::issue(alloc, piece, kept)
            }
            Err(_) => Err((RequestError::NoMemory, area)),
        }
    }

    /// The request that the IOB at `iob` describes, over storage that is shared: its storage as issued takes no
    /// memory of its own.
    ///
    /// Errors: as of `new`. The caller keeps the area.
    pub fn over(
        alloc: Global,
        name: Name,
        unit: u16,
        dcb: u16,
        iob: u32,
        area: &Arc<Area, Global>,
    ) -> Result<Request, RequestError>
        ensures request { IfOk result (λ r. r ≡ request_of name unit dcb iob (arc_value area.now)) }
        ensures ok { IfOk result (λ r. NoFault dcb iob (arc_value area.now)) }
        ensures refused { IfErr result (RequestFault dcb iob (arc_value area.now)) }
    {
        let shared: &Area = area;
        let image = read_iob(dcb, iob, shared)?;
        let Ok(kept) = Arc::try_clone(area) else {
            return Err(RequestError::NoMemory);
        };
        let Ok(work) = shared.copy() else {
            return Err(RequestError::NoMemory);
        };
        let piece = piece_of(name, unit, dcb, iob, &image, work);
        match Request::issue(alloc, piece, kept) {
            Ok(request) => Ok(request),
            Err((error, _)) => Err(error),
        }
    }

    /// The request that the IOB at `iob` describes, over storage that is shared, as of `over`. It works in the storage of
    /// a request that has ended, and takes memory only if its area has another number of bytes.
    ///
    /// Errors, which give back what has ended: as of `over`.
    pub fn over_again(
        ended: Posted,
        name: Name,
        unit: u16,
        dcb: u16,
        iob: u32,
        area: &Arc<Area, Global>,
    ) -> Result<Request, (RequestError, Posted)>
        ensures request { IfOk result (λ r. r ≡ request_of name unit dcb iob (arc_value area.now)) }
        ensures ok { IfOk result (λ r. NoFault dcb iob (arc_value area.now)) }
        ensures refused { IfErr result (λ e. RequestFault dcb iob (arc_value area.now) e.0) }
        ensures given_back { IfErr result (λ e. e.1 ≡ ended) }
    {
        let shared: &Area = area;
        let image = match read_iob(dcb, iob, shared) {
            Ok(image) => image,
            Err(error) => return Err((error, ended)),
        };
        let Ok(kept) = Arc::try_clone(area) else {
            return Err((RequestError::NoMemory, ended));
        };
        let mut ended = ended;
        if ended.store(shared).is_err() {
            return Err((RequestError::NoMemory, ended));
        }
        let mut work = ended.into_piece();
        set_fields(&mut work, name, unit, dcb, iob, &image);
        let issued = Issued::of(&work, kept);
        Ok(Request { issued, work })
    }

    /// The request with this piece to be worked on, over this storage as issued.
    fn issue(
        alloc: Global,
        work: Piece,
        kept: Arc<Area, Global>,
    ) -> Result<Request, (RequestError, Area)>
        requires placed { Placed work }
        requires same { arc_value kept ≡ work.area }
        ensures ok { IfOk result (λ r. r ≡ work) }
        ensures refused { IfErr result (λ e. e ≡ (RequestError.NoMemory, work.area)) }
    {
        let issued = Issued::of(&work, kept);
        match Box::new(alloc, work) {
            Ok(work) => Ok(Request { issued, work }),
            Err(failed) => Err((RequestError::NoMemory, failed.value.area)),
        }
    }

    /// The piece as issued, and the piece to be worked on.
    pub fn into_parts(self) -> (Issued, Box<Piece>)
        ensures issued { result.0 ≡ self }
        ensures work { result.1.value ≡ self }
        ensures placed { Placed self }
    {
        let Request { issued, work } = self;
        (issued, work)
    }

    /// What is worked on.
    pub(crate) fn piece(&self) -> &Piece
        ensures { result.now ≡ self.now }
    {
        &self.work
    }

    pub fn name(&self) -> Name
        ensures { result ≡ self.now.name }
    {
        self.issued.name()
    }

    /// The unit that it is for.
    pub fn unit(&self) -> u16
        ensures { result ≡ self.now.unit }
    {
        self.issued.unit()
    }

    /// The number of its DCB.
    pub fn dcb(&self) -> u16
        ensures { result ≡ self.now.dcb }
    {
        self.issued.dcb()
    }

    /// Whether it is related to the other requests of its DCB.
    pub fn is_related(&self) -> bool
        ensures { result ≡ self.now.related }
    {
        self.issued.is_related()
    }

    /// The address of its channel program.
    pub fn start(&self) -> Address
        ensures { result ≡ self.now.start }
    {
        self.issued.start()
    }

    /// Its seek address.
    pub fn seek(&self) -> Seek
        ensures { result ≡ self.now.seek }
    {
        self.issued.seek()
    }

    /// Its storage as issued.
    pub fn area(&self) -> &Area
        ensures { result.now ≡ self.now.area }
    {
        self.issued.area()
    }
}

/// The piece with these fields of its IOB.
fn piece_of(name: Name, unit: u16, dcb: u16, iob: u32, image: &Iob, area: Area) -> Piece
    ensures { result ≡ piece_of name unit dcb iob area image.now }
{
    Piece {
        name,
        unit,
        dcb,
        related: !image.unrelated,
        start: image.start,
        seek: image.seek,
        iob,
        ecb: image.ecb.get(),
        area,
    }
}

/// Gives a piece these fields of its IOB, and leaves its area.
fn set_fields(piece: &mut Piece, name: Name, unit: u16, dcb: u16, iob: u32, image: &Iob)
    ensures { piece.new ≡ piece_of name unit dcb iob piece.old.area image.now }
{
    piece.name = name;
    piece.unit = unit;
    piece.dcb = dcb;
    piece.related = !image.unrelated;
    piece.start = image.start;
    piece.seek = image.seek;
    piece.iob = iob;
    piece.ecb = image.ecb.get();
}

/// The IOB at an address of the area, if it, its ECB and its channel program are at valid addresses and it names the DCB.
#[inline(always)]
pub(crate) fn read_iob(dcb: u16, iob: u32, area: &Area) -> Result<Iob, RequestError>
    ensures iob { IfOk result (λ i. i ≡ iob_at area.now iob) }
    ensures ok { IfOk result (λ i. NoFault dcb iob area.now) }
    ensures refused { IfErr result (RequestFault dcb iob area.now) }
    ensures memory { ¬ (result ≡ Err RequestError.NoMemory) }
{
    if iob % 4 != 0 {
        return Err(RequestError::IobPlace);
    }
    let image = iob_image(iob, area).ok_or(RequestError::IobPlace)?;
    let image = Iob::read(&image);
    if !has_ecb_place(iob, image.ecb.get(), area) {
        return Err(RequestError::EcbPlace);
    }
    if !has_program_place(image.start.get(), area) {
        return Err(RequestError::ProgramPlace);
    }
    if image.dcb.get() != u32::from(dcb) {
        return Err(RequestError::DcbMismatch);
    }
    Ok(image)
}

/// The 40 bytes of an IOB, if they are in the area.
pub(crate) fn iob_image(iob: u32, area: &Area) -> Option<[u8; 40]>
    ensures { MatchOption result (lies_in area.now iob 40 ≡ false) (IsImageAt area.now iob) }
{
    let mut image = [0; 40];
    image.copy_from_slice(area.get(iob, 40)?);
    Some(image)
}

/// Whether an ECB is on a fullword in the area and outside the IOB.
fn has_ecb_place(iob: u32, ecb: u32, area: &Area) -> bool
    ensures { result ≡ is_ecb_place area.now iob ecb }
{
    let outside = u64::from(ecb) + 4 <= u64::from(iob) || u64::from(iob) + 40 <= u64::from(ecb);
    ecb % 4 == 0 && area.get(ecb, 4).is_some() && outside
}

/// Whether a channel program begins on a doubleword in the area.
fn has_program_place(start: u32, area: &Area) -> bool
    ensures { result ≡ is_program_place area.now start }
{
    start % 8 == 0 && area.get(start, 8).is_some()
}
