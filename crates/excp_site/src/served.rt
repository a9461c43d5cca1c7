//! What a call of `serve` did.

ghost use Rattle.std.specs.Prelude.{◌≡◌};
ghost use Rattle.excp_site.specs.Numbers.{end_number};

/// What a call of `serve` did at a unit (`excp_served`).
#[repr(C)]
#[derive(Clone, Copy)]
pub struct Served {
    /// How many posts were delivered.
    pub posts: u64,
    /// How many commands were done.
    pub commands: u32,
    /// Why it ended.
    pub ended: u32,
}

/// Why a call of `serve` ended.
#[derive(Clone, Copy)]
pub enum ServedEnd {
    /// Nothing is left to do at the unit.
    All,
    /// The post row of the next post's task is full.
    RowFull,
    /// The number of commands that the caller asked for was done.
    Commands,
}

/// The number of why a call of `serve` ended.
pub(crate) fn end_number(ended: ServedEnd) -> u32
    ensures { result ≡ end_number ended }
{
    match ended {
        ServedEnd::All => 0,
        ServedEnd::RowFull => 1,
        ServedEnd::Commands => 2,
    }
}
