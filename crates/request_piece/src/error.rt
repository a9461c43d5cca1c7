//! Why no request is made.

use thiserror::Error;

/// Why no request is made, the first reason in this order (profile).
#[derive(Clone, Copy, PartialEq, Eq, Debug, Error)]
pub enum RequestError {
    /// The address of the IOB is not a multiple of 4, or its 40 bytes do not lie in the area.
    #[error("the IOB is not on a fullword in the area")]
    IobPlace,
    /// The address of the ECB is not a multiple of 4, or its 4 bytes do not lie in the area, or they
    /// overlap the IOB.
    #[error("the ECB is not on a fullword in the area and outside the IOB")]
    EcbPlace,
    /// IOBSTART is not a multiple of 8, or 8 bytes there do not lie in the area.
    #[error("the channel program is not on a doubleword in the area")]
    ProgramPlace,
    /// The DCB pointer of the IOB differs from the DCB of the request.
    #[error("the IOB names another DCB")]
    DcbMismatch,
    /// There is no memory for the request.
    #[error("out of memory")]
    NoMemory,
}
