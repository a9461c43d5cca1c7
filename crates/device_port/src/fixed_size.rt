//! Devices that become the same as another one in place.

ghost use Rattle.std.specs.Prelude.{◌≡◌};

use crate::device::Device;

/// A device whose medium keeps its size, so that it becomes the same as another one of this size in place.
pub trait FixedSize: Device {
    ghost use Rattle.std.specs.Prelude.{List, ℕ};
    ghost use Rattle.device_port.specs.FixedSize.{KeepsSize};

    ghost size: { Self → List ℕ };

    /// Becomes the same as another device of its size: the medium, and the faults still to come. Never allocates.
    fn copy_from(&mut self, from: &Self)
        requires { size self.old ≡ size from.now }
        ensures { self.new ≡ from.now };

    ghost keeps_size: { KeepsSize Self.meaning size };
}
