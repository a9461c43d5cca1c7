//! Completion codes.

ghost use Rattle.std.specs.Prelude.{◌≡◌};
ghost use Rattle.io_images.specs.Codes.{code_byte, is_error, sets_io_error};

/// How a request ended: its completion code (DFSMSdfp Advanced Services, "Event Control Block
/// Fields").
#[derive(Clone, Copy, PartialEq, Eq, Debug)]
pub enum Code {
    /// X'7F', ended without error.
    Ended,
    /// X'41', ended with a permanent error.
    PermanentError,
    /// X'42', the seek address lies outside the extents; this counts as a permanent error (profile).
    ExtentViolated,
    /// X'48', purged.
    Purged,
}

impl Code {
    /// The byte that IOBECBCC and byte 0 of the ECB hold.
    pub fn byte(self) -> u8
        ensures { result ≡ code_byte self }
    {
        match self {
            Code::Ended => 0x7F,
            Code::PermanentError => 0x41,
            Code::ExtentViolated => 0x42,
            Code::Purged => 0x48,
        }
    }

    /// Whether it is a permanent error, 41 or 42.
    pub fn is_error(self) -> bool
        ensures { result ≡ is_error self }
    {
        match self {
            Code::PermanentError | Code::ExtentViolated => true,
            Code::Ended | Code::Purged => false,
        }
    }

    /// Whether a post with this code turns IOBIOERR on: every code but 7F (profile).
    pub fn sets_io_error(self) -> bool
        ensures { result ≡ sets_io_error self }
    {
        match self {
            Code::Ended => false,
            Code::PermanentError | Code::ExtentViolated | Code::Purged => true,
        }
    }
}
