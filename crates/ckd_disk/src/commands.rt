//! The commands of a disk on the track under its heads.

mod reads;
mod searches;
mod writes;

ghost use Rattle.std.specs.Prelude.{◌≡◌, []};
ghost use Rattle.ckd_disk.specs.Access.{access_of};
ghost use Rattle.ckd_disk.specs.Commands.{answer_of, checked, no_operation};

use crate::access::{Access, Armed};
use device_port::Acted;
pub use reads::{
    ReadResult, read_count, read_count_key_and_data, read_data, read_key_and_data, sense,
};
pub use searches::{search_id, search_key};
pub use writes::{write_count_key_and_data, write_data, write_key_and_data};

/// Ends a command with unit check: the heads stay where they are.
pub fn check(access: &mut Access, sense: u16) -> Acted
    ensures answer { answer_of result access.new [] ≡ checked sense (access_of access.old) }
    ensures access { access.new ≡ record access.old { passes = 0; armed = Armed.No } }
{
    let orientation = access.orientation;
    access.leave(orientation, Armed::No);
    Acted::unit_check(sense)
}

/// NO-OPERATION.
pub fn no_operation(access: &mut Access) -> Acted
    ensures answer { answer_of result access.new [] ≡ no_operation (access_of access.old) }
    ensures access { access.new ≡ record access.old { passes = 0; armed = Armed.No } }
{
    let orientation = access.orientation;
    access.leave(orientation, Armed::No);
    Acted::no_operation()
}
