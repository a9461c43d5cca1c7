//! Whose requests a purge speaks of.

ghost use Rattle.std.specs.Prelude.{◌≡◌};
ghost use Rattle.request_piece.specs.Scope.{covers};

use crate::piece::Piece;
use crate::request::Request;

/// Whose requests a purge speaks of (DFSMSdfp Advanced Services, "Purging and Restoring I/O
/// Requests (PURGE and RESTORE macros)").
#[derive(Clone, Copy, PartialEq, Eq, Debug)]
pub enum Scope {
    /// The requests of the DCB with this number.
    Dcb(u16),
    /// The requests of the task with this number.
    Task(u16),
}

impl Scope {
    /// Whether a request is of the scope.
    pub fn covers(&self, request: &Request) -> bool
        ensures { result ≡ covers self.now request.now }
    {
        self.covers_piece(request.piece())
    }

    /// Whether a piece is of the scope.
    pub fn covers_piece(&self, piece: &Piece) -> bool
        ensures { result ≡ covers self.now piece.now }
    {
        match self {
            Scope::Dcb(dcb) => *dcb == piece.dcb,
            Scope::Task(task) => *task == piece.name.task,
        }
    }
}
