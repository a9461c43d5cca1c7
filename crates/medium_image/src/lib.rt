//! Images of media. An [`Image`] is loaded from a reader. [`save`] writes the medium of a device: a disk or a tape as
//! an image, what a printer printed as text.
//!
//! Tests: the group images of tests/run.
#![tactic(auto)]

mod characters;
mod image;
mod paper;
mod saving;

pub use image::{Image, ImageError, Kept, Size, geometry};
pub use saving::{SaveError, save};
