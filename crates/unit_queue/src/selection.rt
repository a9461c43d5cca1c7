//! Which of them a sweep takes out.

ghost use Rattle.std.specs.Prelude.{◌≡◌};
ghost use Rattle.unit_queue.specs.Selection.{selects};

use request_piece::{Piece, Scope};

/// Which of the waiting requests a sweep takes out.
#[derive(Clone, Copy, PartialEq, Eq, Debug)]
pub enum Selection {
    /// Those that a purge or a close speaks of.
    Scope(Scope),
    /// The related ones of the DCB with this number, after an error.
    Related(u16),
}

impl Selection {
    /// Whether a request is one of them.
    pub fn selects(&self, piece: &Piece) -> bool
        ensures { result ≡ selects self.now piece.now }
    {
        match self {
            Selection::Scope(scope) => scope.covers_piece(piece),
            Selection::Related(dcb) => piece.related && *dcb == piece.dcb,
        }
    }
}
