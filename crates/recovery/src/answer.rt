//! What the table of verdicts answers.

use io_images::Code;

/// What becomes of a request whose channel program has ended.
#[derive(Clone, Copy, PartialEq, Eq, Debug)]
pub enum Verdict {
    /// The program is started once more from its beginning.
    Retry,
    /// The request is posted with this code.
    Final(Code),
}
