//! What a book tells of its active request.

use ccw_programs::Context;
use request_piece::Piece;
use subchannel::Status;

/// The active request of a unit.
#[derive(Drop)]
pub struct Activity<'a> {
    /// The request, with its storage as it is now.
    pub piece: &'a Piece,
    /// How often it was started (1 to 11).
    pub starts: u32,
    /// Whether its program was halted since its last start.
    pub halted: bool,
    /// Whether a purge with Halt covered it since its last start.
    pub covered: bool,
    pub phase: ActivityPhase,
}

/// What the active request of a unit waits for.
#[derive(Drop)]
pub enum ActivityPhase {
    /// Its program runs, and is at this position.
    Running(Context),
    /// This status is pending.
    Pending(Status),
    /// It awaits its restart, and its last attempt had this status.
    AwaitsRestart(Status),
}
