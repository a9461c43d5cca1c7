//! What is wrong with a request that is refused.

ghost use Rattle.std.specs.Prelude.{◌<◌, IfNone, IfSome};
ghost use Rattle.request_piece.specs.Refusals.{IsMisplaced, IsSo, reason_of};
ghost use Rattle.request_piece.specs.Requests.{NoFault, RequestFault};

use super::{Request, has_ecb_place, has_program_place, iob_image};
use io_area::Area;
use io_images::Iob;

/// What is wrong with the address of a control block or a channel program.
#[derive(Clone, Copy)]
pub enum Misplaced {
    /// Its address is not a multiple of what it must be.
    Unaligned,
    /// Its bytes do not lie in the area.
    Outside,
    /// It overlaps the IOB.
    OverIob,
}

/// What is wrong with a request that is refused: one condition of those that `RequestError` sums up.
#[derive(Clone, Copy)]
pub enum RequestRefusal {
    Iob(Misplaced),
    /// The ECB, which has this address.
    Ecb(u32, Misplaced),
    /// The channel program, which has this address.
    Program(u32, Misplaced),
    /// The DCB pointer of the IOB is this number.
    OtherDcb(u32),
}

impl Request {
    /// What is wrong with a request that `check` refuses: the first condition that fails.
    pub fn refusal(dcb: u16, iob: u32, area: &Area) -> Option<RequestRefusal>
        ensures none { IfNone result (NoFault dcb iob area.now) }
        ensures reason { IfSome result (λ r. RequestFault dcb iob area.now (reason_of r)) }
        ensures condition { IfSome result (IsSo iob area.now) }
    {
        if iob % 4 != 0 {
            return Some(RequestRefusal::Iob(Misplaced::Unaligned));
        }
        let Some(image) = iob_image(iob, area) else {
            return Some(RequestRefusal::Iob(Misplaced::Outside));
        };
        let image = Iob::read(&image);
        let ecb = image.ecb.get();
        if !has_ecb_place(iob, ecb, area) {
            return Some(RequestRefusal::Ecb(ecb, how_misplaced(ecb, 4, 4, area)));
        }
        let start = image.start.get();
        if !has_program_place(start, area) {
            return Some(RequestRefusal::Program(start, how_misplaced(start, 8, 8, area)));
        }
        if image.dcb.get() != u32::from(dcb) {
            return Some(RequestRefusal::OtherDcb(image.dcb.get()));
        }
        None
    }
}

/// What is wrong with the address of what must lie on a multiple of `alignment`, with `count` bytes in the area, and
/// outside the IOB.
fn how_misplaced(at: u32, alignment: u32, count: usize, area: &Area) -> Misplaced
    requires { 0 < alignment }
    ensures { IsMisplaced area.now at alignment count result }
{
    if at % alignment != 0 {
        Misplaced::Unaligned
    } else if area.get(at, count).is_none() {
        Misplaced::Outside
    } else {
        Misplaced::OverIob
    }
}
