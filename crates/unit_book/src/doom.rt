//! The requests that a post leaves to be purged.

ghost use Rattle.std.specs.Prelude.{◌≡◌};
ghost use Rattle.unit_book.specs.Selected.{doomed_by_post};

use io_images::Code;
use request_piece::Piece;
use unit_queue::Selection;

/// The waiting requests that are doomed by the post of a request with this code.
pub(crate) fn doomed_by_post(piece: &Piece, code: Code) -> Option<Selection>
    ensures { result ≡ doomed_by_post piece.now code }
{
    if code.is_error() && piece.related {
        Some(Selection::Related(piece.dcb))
    } else {
        None
    }
}
