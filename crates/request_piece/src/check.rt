//! The test of what a request is made of, without making one.

ghost use Rattle.std.specs.Prelude.{◌≡◌, IfErr, OnOk};
ghost use Rattle.request_piece.specs.Requests.{NoFault, RequestFault};

use crate::error::RequestError;
use crate::request::{Request, read_iob};
use io_area::Area;

impl Request {
    /// Whether the IOB at `iob` of the area describes a request. Never allocates.
    ///
    /// Errors: as of `new`, without out of memory.
    pub fn check(dcb: u16, iob: u32, area: &Area) -> Result<(), RequestError>
        ensures ok { OnOk result (NoFault dcb iob area.now) }
        ensures refused { IfErr result (RequestFault dcb iob area.now) }
        ensures memory { ¬ (result ≡ Err RequestError.NoMemory) }
    {
        match read_iob(dcb, iob, area) {
            Ok(_) => Ok(()),
            Err(error) => Err(error),
        }
    }
}
