//! What is wrong with an image of a tape.

use thiserror::Error;

/// The first rule that an image breaks, and where.
#[derive(Clone, Copy, Debug, PartialEq, Eq, Error)]
#[error("byte {offset}: {fault}")]
pub struct AwsError {
    pub fault: AwsFault,
    /// Where the header of the chunk begins that breaks the rule, or could not be read; the size of the image if its last
    /// block has no end.
    pub offset: u64,
}

/// A rule that an image breaks.
#[derive(Clone, Copy, Debug, PartialEq, Eq, Error)]
pub enum AwsFault {
    #[error("the image is a FakeTape file; copy the tape to an AWS file")]
    FakeTape,
    #[error("the header of a chunk is cut short: it has 6 bytes")]
    HeaderCutShort,
    #[error("the data of a chunk is cut short")]
    DataCutShort,
    #[error("the chunk is compressed; make a plain file by `hetupd -d IN OUT`")]
    Compressed,
    #[error("byte 4 of a header is 40, A0, 80, 00 or 20")]
    BadFlags,
    #[error("byte 5 of a header is 00")]
    BadSpare,
    #[error("bytes 2 and 3 of a header are the length of the chunk before it")]
    BadPrevious,
    #[error("a tape mark has no data")]
    MarkWithData,
    #[error("a tape mark is inside a block")]
    MarkInBlock,
    #[error("a block begins inside a block")]
    BlockInBlock,
    #[error("a chunk continues a block, and none is open")]
    NoBlockOpen,
    #[error("a block is empty: it has 1 to 65,535 bytes")]
    EmptyBlock,
    #[error("a block is too long: it has 1 to 65,535 bytes")]
    LongBlock,
    #[error("the tape is too short for its items")]
    TapeFull,
    #[error("the image ends inside a block")]
    BlockWithoutEnd,
    #[error("the image cannot be read")]
    Unreadable,
    #[error("out of memory")]
    NoMemory,
}
