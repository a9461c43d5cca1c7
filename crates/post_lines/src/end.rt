//! How a request ended.

ghost use Rattle.std.specs.Prelude.{◌≡◌};
ghost use Rattle.post_lines.specs.Slots.{posted_end};

use io_images::{Code, Csw};
use request_piece::Posted;

/// How a request ended: its completion code, its CSW and its sense bytes.
#[derive(Clone, Copy)]
pub struct End {
    pub code: Code,
    pub csw: Csw,
    pub sense: u16,
}

impl End {
    /// How a request that was posted ended.
    pub fn of(posted: &Posted) -> End
        ensures { result ≡ posted_end posted.now }
    {
        End {
            code: posted.code(),
            csw: posted.csw(),
            sense: posted.sense(),
        }
    }
}
