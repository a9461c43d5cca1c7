//! Which steps the calls of a site make, and what holds after every list of steps of a unit's world. Each unit of a site
//! has such a world.

ghost use Rattle.unit_world.specs.Calls.{CallsMakeSteps};
ghost use Rattle.unit_world.specs.States.{IsReached, KeepsLaws, WorldState};

use device_port::Device;

/// Every state that a list of steps leads to looks like a world that keeps its requests
/// (`unit_book::laws::worlds_keep_requests`):
///
/// - What arrived of a task, and what is in flight of it, is what the task sent, numbered in the order of sending.
/// - What was posted of it is what it has got, what is on the way back to it and what is out.
/// - Each request has at most one post, and exactly one once nothing is left to do.
pub fn reached_states_keep_requests<D: Device>()
    ensures { (v : WorldState D) → IsReached D.meaning v → KeepsLaws D.meaning v }
{}

/// A call of a site is the step of its name in the world of one unit, with the same arguments and answer. It changes no
/// other unit's world. `settle` is a list of steps of one unit.
pub fn calls_make_steps<D: Device>()
    ensures { CallsMakeSteps D.meaning }
{}
