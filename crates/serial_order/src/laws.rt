//! The law of traces without controls.

ghost use Rattle.serial_order.specs.Laws.{ServesInOrder};

use device_port::Device;

/// In a trace without controls each request has the post that it has if the unit serves one at a time, in order of arrival. Posts
/// may come in another order.
///
/// - Without controls means: no purge, close or reset, and each DCB is opened before its first request arrives.
/// - It holds of each post at any time. If nothing waits or is active, it holds of every arrival, and of the device.
/// - So in idle traces openings and arrivals determine the post of each request and the device.
/// - Only a related request, after one to its DCB that ended in error, has code 48, if its DCB was opened.
pub fn serves_in_order<D: Device>()
    ensures { ServesInOrder D.meaning }
{}
