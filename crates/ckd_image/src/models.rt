//! The models of disks that a new image can be of.

/// A model of a disk: how many heads it has, how many bytes a track has on a volume, and its type in the header.
#[derive(Clone, Copy, Debug, PartialEq, Eq)]
pub struct DiskModel {
    pub name: &'static str,
    pub heads: u16,
    pub track_bytes: u32,
    /// The low byte of the device type.
    pub device_type: u8,
}

/// The models.
pub static MODELS: [DiskModel; 11] = [
    DiskModel {
        name: "2305-1",
        heads: 8,
        track_bytes: 14_322,
        device_type: 0x05,
    },
    DiskModel {
        name: "2305-2",
        heads: 8,
        track_bytes: 14_834,
        device_type: 0x05,
    },
    DiskModel {
        name: "2311",
        heads: 10,
        track_bytes: 4_082,
        device_type: 0x11,
    },
    DiskModel {
        name: "2314",
        heads: 20,
        track_bytes: 7_666,
        device_type: 0x14,
    },
    DiskModel {
        name: "3330",
        heads: 19,
        track_bytes: 13_298,
        device_type: 0x30,
    },
    DiskModel {
        name: "3340",
        heads: 12,
        track_bytes: 8_690,
        device_type: 0x40,
    },
    DiskModel {
        name: "3350",
        heads: 30,
        track_bytes: 19_442,
        device_type: 0x50,
    },
    DiskModel {
        name: "3375",
        heads: 12,
        track_bytes: 35_826,
        device_type: 0x75,
    },
    DiskModel {
        name: "3380",
        heads: 15,
        track_bytes: 47_602,
        device_type: 0x80,
    },
    DiskModel {
        name: "3390",
        heads: 15,
        track_bytes: 56_818,
        device_type: 0x90,
    },
    DiskModel {
        name: "9345",
        heads: 15,
        track_bytes: 46_578,
        device_type: 0x45,
    },
];

/// The type of the disks with these numbers, unless no model has them.
pub fn device_type(heads: u16, track_bytes: u32) -> Option<u8> {
    for model in &MODELS {
        if model.heads == heads && model.track_bytes == track_bytes {
            return Some(model.device_type);
        }
    }
    None
}
