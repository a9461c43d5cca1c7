//! Bytes of images, from any reader.
//!
//! An image is read piece by piece: `fill` reads a piece whole, or as much as the reader has.
//!
//! Tests: the group images of tests/run, and the group refusals, with reads that fail.
#![tactic(auto)]

mod source;

pub use source::fill;
