//! The media of a script's units that come from images.
//!
//! A line of a unit may leave its size to the image: [`with_sizes`] puts the numbers there. An image is mounted as the lines
//! of its unit say: [`mount_images`] does so for all units.
//!
//! Tests: the group images of tests/run.
#![tactic(auto)]

mod mounting;
mod sizes;
mod units;

pub use mounting::MediaError;
pub use sizes::with_sizes;
pub use units::{MountedImages, mount_images, sizes_of};
