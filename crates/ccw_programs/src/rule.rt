//! The rules that a channel program may break, on its CCWs and on their data areas. They are of Principles of
//! Operation, chapter 15: "Channel-Command Word", "Transfer in Channel", "Data Chaining", "Designation of Storage
//! Area" and "CCW Indirect Data Addressing". The limits are the profile's.

use thiserror::Error;

/// A rule that a CCW breaks (chapter 16, "Program Check"). Those on a word of a list of indirect addresses name the
/// address of the word.
#[derive(Clone, Copy, PartialEq, Eq, Debug, Error)]
pub enum Rule {
    #[error("the CCW does not lie on a doubleword")]
    CcwMisaligned,
    #[error("the CCW does not lie in the area")]
    CcwOutside,
    #[error("the address of a transfer in channel is no multiple of 8")]
    TransferMisaligned,
    #[error("a transfer in channel is the first CCW or follows another one")]
    TransferMisplaced,
    #[error("the low four bits of the command are zero")]
    NoCommand,
    #[error("flag 02 or 01 is on")]
    FlagsReserved,
    #[error("the count is zero")]
    CountZero,
    #[error("the data chain has more than 16 CCWs")]
    ChainTooLong,
    #[error("4096 CCWs were fetched before it")]
    FetchLimit,
    #[error("the data do not lie in the area")]
    DataOutside,
    #[error("a read backward has a list of indirect addresses")]
    ListBackward,
    #[error("the list of indirect addresses does not lie on a fullword")]
    ListMisaligned,
    #[error("the indirect address at {0:06X} does not lie in the area")]
    WordOutside(u32),
    #[error("bit 0 of the indirect address at {0:06X} is on")]
    WordReserved(u32),
    #[error("the indirect address at {0:06X} is not the first and no multiple of 2048")]
    WordMisaligned(u32),
    #[error("the data of the indirect address at {0:06X} do not lie in the area")]
    WordDataOutside(u32),
}

/// A CCW that failed, by its address, and the rule that it breaks.
#[derive(Clone, Copy, PartialEq, Eq, Debug)]
pub struct FailedCcw {
    pub at: u32,
    pub rule: Rule,
}
