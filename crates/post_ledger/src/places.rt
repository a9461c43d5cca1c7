//! Whether each unit's state is at the index of its lock.

ghost use Rattle.std.specs.Prelude.{◌≡◌, IsFalse, IsTrue, length};
ghost use Rattle.excp_system.specs.Drained.{ArePlaced};
ghost use Rattle.post_ledger.specs.Left.{AreMixed};

use device_port::Device;
use excp_system::{Opened, UnitState};

/// Whether each unit's state is at the index of its number.
pub(crate) fn are_placed<S: Opened<D>, D: Device>(units: &[UnitState<'_, S, D>]) -> bool
    requires { length units.now ≡ S.rows.units }
    ensures placed { IsTrue result → ArePlaced (λ unit. unit.unit) S.rows.units units.now }
    ensures mixed { IsFalse result → AreMixed units.now }
{
    for place in 0..units.len() {
        if usize::from(units[place].unit()) != place {
            return false;
        }
    }
    true
}
