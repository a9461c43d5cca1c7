//! What a task does at units.

/// An event of a task.
#[derive(Clone, Copy)]
pub enum TaskEvent {
    /// It issued its request with this number to a unit.
    Issued { unit: u16, number: u32 },
    /// It began to wait until all its requests were posted.
    Waited,
    /// It collected the post of its request with this number to a unit.
    Collected { unit: u16, number: u32 },
    /// It purged, closed or reset at a unit: the entry with this number.
    Controlled { unit: u16, entry: usize },
}
