//! The active request of a book.

ghost use Rattle.std.specs.Prelude.{◌≡◌, option_map};
ghost use Rattle.unit_book.specs.Trace.{active};
ghost use Rattle.unit_world.specs.Parts.{active_state};

use device_port::Device;
use request_piece::Name;
use unit_book::UnitBook;

/// What the active request of a unit waits for.
#[derive(Clone, Copy, PartialEq, Eq, Debug)]
pub enum ActiveState {
    /// Its program runs.
    Running,
    /// Its status is pending.
    Pending,
    /// It awaits its restart.
    AwaitsRestart,
}

/// The active request of a book, and what it waits for. Never allocates.
pub fn active_request<D: Device>(book: &UnitBook<D>) -> Option<(Name, ActiveState)>
    ensures { result ≡ option_map (λ name. (name, active_state D.meaning book.now)) (active book.now.trace) }
{
    let name = book.active_name()?;
    let state = if book.awaits() {
        ActiveState::AwaitsRestart
    } else if book.pending() {
        ActiveState::Pending
    } else {
        ActiveState::Running
    };
    Some((name, state))
}
