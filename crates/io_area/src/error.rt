//! Why no area is made.

use thiserror::Error;

/// Why no area is made, the first reason in this order (profile).
#[derive(Clone, Copy, PartialEq, Eq, Debug, Error)]
pub enum AreaError {
    /// The address of the first byte is not a multiple of 8.
    #[error("the base of the area is not a multiple of 8")]
    Misaligned,
    /// There are more than 8,192 bytes.
    #[error("the area has more than 8,192 bytes")]
    TooLong,
    /// The end is past 2^24.
    #[error("the area ends past 2^24")]
    PastTop,
    /// There is no memory to keep the bytes.
    #[error("out of memory")]
    NoMemory,
}
