//! Positions on a reel.

ghost use Rattle.std.specs.Prelude.{◌≡◌};

/// A position on a reel: before an item, or after the last one.
#[derive(Clone, Copy, Debug, PartialEq, Eq)]
pub struct Position {
    /// How many items lie between the load point and the position.
    pub place: usize,
    /// How many bytes these items take.
    pub offset: usize,
}

impl Position {
    /// The load point.
    pub fn load_point() -> Self
        ensures { result ≡ record { place = 0; offset = 0 } }
    {
        Position {
            place: 0,
            offset: 0,
        }
    }
}
