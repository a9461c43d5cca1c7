//! What a unit's rows hold at any moment, beside what its lock keeps, whatever threads do.

ghost use Rattle.excp_system.specs.Flows.{IntakeFlows, MetIntakeFlows, MetPostFlows, PostFlows};

use crate::item::{Returned, Sent};
use device_port::Device;
use fifo_row::laws::flows;

/// The equations of a unit's world (`unit_book::laws::worlds_keep_requests`) in every state of its rows. They hold
/// while the sender has its seat, and after the taker has met it.
///
/// - What a task sent is what arrived of it at the unit's book, and then what the intake row holds of it.
/// - What was posted of a task is what the task collected of the unit, then what its post row holds of it, and then
///   what is out.
pub fn rows_flow<D: Device>()
    ensures intake { IntakeFlows D.meaning }
    ensures met_intake { MetIntakeFlows D.meaning }
    ensures posts { PostFlows D.meaning }
    ensures met_posts { MetPostFlows D.meaning }
{
    flows::<Sent>();
    flows::<Returned>();
}
