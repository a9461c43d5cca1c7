//! Images of disks in the CKD format (`CKD_P370`), read and written.
//!
//! An image is a header of 512 bytes and then the tracks, each with as many bytes: its home address, its records, an end
//! mark, and a rest. `load` reads an image to a volume, or returns the first fault of the image. What an image has
//! beside the records of its tracks is kept, so that `save` writes the same bytes for a disk that was not written on.
//! What `save` writes is an image, and `load` reads it back as the disk that was saved.
//!
//! Tests: the groups images and library_clients of tests/run, tests/library/out_of_memory.c.
#![tactic(auto)]

mod fault;
mod format;
mod kept;
mod loader;
mod models;
mod saver;

pub use fault::{CkdError, CkdFault, DiskSaveError};
pub use format::Format;
pub use kept::{DiskImage, DiskImageDetails, KeptTrack};
pub use loader::load;
pub use models::{DiskModel, MODELS};
pub use saver::save;
