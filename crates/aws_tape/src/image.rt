//! An image of a tape that was read.

use crate::layout::Layout;
use tape_unit::Recording;

/// A tape from an image, and what the image has beside it. Both are needed to save the image as it was.
#[derive(Debug, Drop)]
pub struct TapeImage {
    pub tape: Recording,
    pub layout: Layout,
}
