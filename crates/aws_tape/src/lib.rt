//! Images of tapes in the AWSTAPE format, read and written.
//!
//! An image is a list of chunks: a tape mark, or a part of a block. `load` reads an image to a recording of the tape
//! and a layout, or returns the first fault of the image. The layout says in which chunks the blocks are that have
//! several. `save` writes the image of a tape. What was not written since it was mounted has the chunks of its layout.
//! The rest has one chunk for each block. Both go over the image in a stream, and keep one block beside the tape.
//!
//! Tests: the groups images and library_clients of tests/run, tests/library/out_of_memory.c.
#![tactic(auto)]

mod chunk;
mod fault;
mod image;
mod layout;
mod loading;
mod reader;
mod writer;

pub use fault::{AwsError, AwsFault};
pub use image::TapeImage;
pub use layout::{Layout, Part};
pub use loading::load;
pub use writer::save;
