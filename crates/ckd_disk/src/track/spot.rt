//! Places on a track.

/// Where a record is on its track: its position, 0 for R0, and the offset of its first byte.
#[derive(Clone, Copy, Debug, PartialEq, Eq)]
pub struct Spot {
    pub place: usize,
    pub offset: usize,
}
