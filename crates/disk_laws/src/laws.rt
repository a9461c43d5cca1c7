//! Which tracks of a disk a channel program can reach and change, and which a request can.

ghost use Rattle.any_device.specs.Devices.{any_device};
ghost use Rattle.ckd_disk.specs.Disk.{disk};
ghost use Rattle.disk_laws.specs.Laws.{ConfinesPrograms, ConfinesRequests, DependsOnOneTrack};
ghost use Rattle.disk_laws.specs.Views.{disk_view, unit_view};

/// A channel program leaves the heads on the track of its seek address, and every other track as it was. If its DCB was opened
/// for input, it leaves all tracks. `disk` says it of a disk, `unit` of the device of a unit.
pub fn programs_are_confined()
    ensures disk { ConfinesPrograms disk disk_view }
    ensures unit { ConfinesPrograms any_device unit_view }
{}

/// The position of a channel program, its storage and the track of its seek address depend on no other track of the disk.
pub fn programs_depend_on_one_track()
    ensures { DependsOnOneTrack }
{}

/// In a legal trace, a request starts only if it passes the extent check of its DCB. It changes no track outside the extents of
/// its DCB, and none at all if its DCB was opened for input.
pub fn requests_are_confined()
    ensures disk { ConfinesRequests disk disk_view }
    ensures unit { ConfinesRequests any_device unit_view }
{}
