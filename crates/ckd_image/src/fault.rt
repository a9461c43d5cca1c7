//! What is wrong with an image of a disk.

use std::io::ErrorKind;
use thiserror::Error;

/// The first rule that an image breaks, and where.
#[derive(Clone, Copy, Debug, PartialEq, Eq, Error)]
#[error("byte {offset}: {fault}")]
pub struct CkdError {
    pub fault: CkdFault,
    /// The first byte of what breaks the rule; the size of the image if it is cut short.
    pub offset: usize,
}

/// A rule that an image breaks.
#[derive(Clone, Copy, Debug, PartialEq, Eq, Error)]
pub enum CkdFault {
    #[error("the header of the image is cut short: it has 512 bytes")]
    HeaderCutShort,
    #[error("the image is compressed; make a plain file by `dasdcopy -o ckd IN OUT`")]
    Compressed,
    #[error("the file is no image of a disk: an image begins with `CKD_P370`")]
    BadEyeCatcher,
    #[error("the image is a part of a split volume; copy the whole volume to one file")]
    SplitVolume,
    #[error("a disk has 1 to 65,535 heads")]
    BadHeads,
    #[error("a track has 30 to 65,549 bytes in an image")]
    BadTrackBytes,
    #[error("the image is cut short: whole cylinders follow its header, at least one")]
    CutShort,
    #[error("the image has more than 65,535 tracks")]
    TooManyTracks,
    #[error("the home address names another track")]
    BadHomeAddress,
    #[error("a track has at least one record, R0")]
    NoRecord,
    #[error("the records of a track end in eight bytes FF")]
    NoEndMark,
    #[error("a record goes past the end of its track")]
    PastTrack,
    #[error("the image cannot be read")]
    Unreadable,
    #[error("out of memory")]
    NoMemory,
}

/// Why an image is not written.
#[derive(Clone, Copy, Debug, PartialEq, Eq, Error)]
pub enum DiskSaveError {
    #[error("no model of a disk has {heads} heads and {track_bytes} bytes a track")]
    NoModel { heads: u16, track_bytes: u32 },
    #[error("an image has at most 65,535 tracks, all of the size that its header gives")]
    BadDisk,
    #[error("the image cannot be written")]
    NotWritten(ErrorKind),
    #[error("out of memory")]
    NoMemory,
}
