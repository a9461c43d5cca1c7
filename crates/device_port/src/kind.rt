//! The kinds of devices, and the ways that data flow.

/// The kind of a device.
#[derive(Clone, Copy, PartialEq, Eq, Debug)]
pub enum Kind {
    /// Count-key-data disk.
    Disk,
    /// Magnetic tape.
    Tape,
    /// Line printer.
    Printer,
}

/// The direction of a command's data (Principles of Operation, chapter 15, "Commands").
#[derive(Clone, Copy, PartialEq, Eq, Debug)]
pub enum Flow {
    /// The command moves no data: a control command.
    None,
    /// From storage to the device: write, search and seek.
    Out,
    /// From the device to storage at rising addresses: read and sense.
    Input,
    /// From the device to storage at falling addresses: read backward.
    Back,
}
