//! Images of the control blocks, as they lie in storage.
//!
//! Every block has `read`, which gives its named fields. It has `write`, which writes the named fields and keeps all
//! other bits and bytes of the image. `read` after `write` gives the value back. All numbers are big-endian.
//! `specs/Images.antt` says what the bytes mean, `specs/Written.antt` what an image is after `write`, and
//! `specs/Bits.antt` has the named bits. Nothing in this crate takes memory or fails.
//!
//! Tests: python/tests/test_channels.py, tests/cases/scripts/images.posts.
#![tactic(auto)]

mod address;
mod ccw;
mod code;
mod csw;
mod ecb;
mod extent;
mod file_mask;
mod iob;
mod seek;
mod status;
mod word;

pub use address::Address;
pub use ccw::{Ccw, CcwFlags};
pub use code::Code;
pub use csw::Csw;
pub use ecb::Ecb;
pub use extent::Extent;
pub use file_mask::FileMask;
pub use iob::Iob;
pub use seek::Seek;
pub use status::{SubStatus, UnitStatus};
pub use word::AddressWord;
