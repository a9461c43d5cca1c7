//! The sizes of rows and books.

/// The size of rows or of a book, as a line says it.
#[derive(Clone, Copy, PartialEq, Eq, Debug)]
pub(crate) enum RoomLine {
    /// How many requests each intake row holds.
    Intake(u16),
    /// How many posts each post row holds.
    Post(u16),
    /// The number of a unit, and how many requests its book holds.
    Book(u16, u16),
}
